//! Code that reads words where they came from.

ghost use Rattle.std.specs.Prelude.{◌≡◌, ◌≤◌, ◌<◌, ◌↔◌, ℕ, List, false, IfOk, length};
ghost use Rattle.uc_isa.specs.Agrees.{Agrees, SourceMeaning};
ghost use Rattle.uc_isa.specs.Lawful.{IsLawful};
ghost use Rattle.uc_isa.specs.Moves.{moves};
ghost use Rattle.uc_isa.specs.Program.{IsProgram};
ghost use Rattle.uc_isa.specs.Starts.{AreInside, IsLabelStart};
ghost use Rattle.uc_peep.specs.Draft.{AreMarked};
ghost use Rattle.uc_peep.specs.Kept.{is_gone};
ghost use Rattle.uc_peep_facts.specs.Elsewhere.{HasNoIdleTarget, IsSourced};
ghost use Rattle.uc_peep_facts.specs.Facts.{AreKept, known_at};
ghost use Rattle.uc_peep_facts.specs.inner.Operands.{ArePut, IsFound, IsInPlace, IsReread};

use crate::closed::are_kept;
use crate::fact::Facts;
use crate::idle_targets::untargeted_code;
use crate::paid::{hold_back, is_paid};
use crate::reread::reread;
use crate::solve::solve;
use nv_base::NoMemory;
use std::alloc::{AllocError, Global};
use uc_isa::{Code, Instr};
use uc_peep::{LiveSet, live, mark_starts};

/// So many times code that weighs no more is looked for, at most.
const ROUNDS: u32 = 8;

// Puts in the place of each instruction the one that reads elsewhere.
fn reread_all(draft: &mut [Instr], table: &[Facts], heavy: &[bool])
    requires lawful { IsProgram draft.old }
    requires table { length table.now ≡ length draft.old }
    requires heavy { length heavy.now ≡ length draft.old }
    ensures { ArePut (λ x i j. IsReread (known_at table.now x) i j) draft.old draft.new }
{
    for x in 0..draft.len() {
        draft[x] = reread(&draft[x], &table[x], heavy[x]);
    }
}

// The instructions that read elsewhere.
fn reread_code(
    alloc: Global,
    code: &[Instr],
    table: &[Facts],
    heavy: &[bool],
) -> Result<Vec<Instr>, AllocError>
    requires lawful { IsProgram code.now }
    requires table { length table.now ≡ length code.now }
    requires heavy { length heavy.now ≡ length code.now }
    ensures { IfOk result (λ v. ArePut (λ x i j. IsReread (known_at table.now x) i j) code.now v.items) }
{
    let mut draft = code.to_vec(alloc)?;
    reread_all(&mut draft, table, heavy);
    Ok(draft)
}

// The code that reads elsewhere, by facts that each way keeps.
fn read_elsewhere(
    alloc: Global,
    c: &Code,
    table: &[Facts],
    heavy: &[bool],
) -> Result<Code, AllocError>
    requires lawful { IsLawful c.now.list }
    requires kept { AreKept c.now.list table.now }
    requires table { length table.now ≡ length c.now.list }
    requires heavy { length heavy.now ≡ length c.now.list }
    ensures params { IfOk result (λ q. q.params ≡ c.now.params) }
    ensures in_place { IfOk result (λ q. IsInPlace c.now.list q.list) }
{
    let params = c.params();
    let draft = reread_code(alloc, c.list(), table, heavy)?;
    Ok(Code::new(params, draft))
}

// The code without targets that aren't live.
fn without_idle_targets(alloc: Global, c: &Code) -> Result<Code, NoMemory>
    requires lawful { IsLawful c.now.list }
    ensures params { IfOk result (λ q. q.params ≡ c.now.params) }
    ensures in_place { IfOk result (λ q. IsInPlace c.now.list q.list) }
    ensures light { IfOk result (λ q. (starts ws : List ℕ) → moves q.list starts ws ≤ moves c.now.list starts ws) }
    ensures settled { IfOk result (λ q. HasNoIdleTarget q.list) }
{
    let sets = live(alloc, c)?;
    let params = c.params();
    let draft = untargeted_code(alloc, c.list(), &sets)?;
    Ok(Code::new(params, draft))
}

// Both, one after the other.
fn candidate(alloc: Global, c: &Code, table: &[Facts], heavy: &[bool]) -> Result<Code, NoMemory>
    requires lawful { IsLawful c.now.list }
    requires kept { AreKept c.now.list table.now }
    requires table { length table.now ≡ length c.now.list }
    requires heavy { length heavy.now ≡ length c.now.list }
    ensures params { IfOk result (λ q. q.params ≡ c.now.params) }
    ensures in_place { IfOk result (λ q. IsInPlace c.now.list q.list) }
    ensures settled { IfOk result (λ q. HasNoIdleTarget q.list) }
{
    let read = read_elsewhere(alloc, c, table, heavy)?;
    let q = without_idle_targets(alloc, &read)?;
    Ok(q)
}

// Such code in which no label's moves weigh more. What weighs more and isn't paid for is held back the next time.
fn lighter(
    alloc: Global,
    c: &Code,
    table: &[Facts],
    started: &[bool],
    heavy: &mut [bool],
) -> Result<Option<Code>, NoMemory>
    requires lawful { IsLawful c.now.list }
    requires kept { AreKept c.now.list table.now }
    requires table { length table.now ≡ length c.now.list }
    requires started { length started.now ≡ length c.now.list }
    requires heavy { length heavy.old ≡ length c.now.list }
    ensures { IfOk result (λ o. (starts : List ℕ) → AreMarked started.now (IsLabelStart starts) → IsFound c.now starts o) }
{
    for _n in 0..ROUNDS {
        let q = candidate(alloc, c, table, heavy)?;
        if is_paid(c.list(), q.list(), started) {
            return Ok(Some(q));
        }
        hold_back(c.list(), q.list(), started, heavy);
    }
    Ok(None)
}

// The same with facts that are searched for, or None where each way doesn't keep them.
fn found(
    alloc: Global,
    c: &Code,
    starts: &[u32],
    table: &mut [Facts],
    reached: &mut [bool],
    due: &mut [bool],
    started: &mut [bool],
    heavy: &mut [bool],
) -> Result<Option<Code>, NoMemory>
    requires lawful { IsLawful c.now.list }
    requires starts { AreInside c.now.list starts.now }
    requires table { length table.old ≡ length c.now.list }
    requires reached { length reached.old ≡ length c.now.list }
    requires due { length due.old ≡ length c.now.list }
    requires started { length started.old ≡ length c.now.list }
    requires none { (x : ℕ) → is_gone started.old x ≡ false }
    requires heavy { length heavy.old ≡ length c.now.list }
    ensures { IfOk result (λ o. IsFound c.now starts.now o) }
{
    let code = c.list();
    let none: Vec<LiveSet> = Vec::new(alloc);
    mark_starts(starts, started);
    reached[0] = true;
    due[0] = true;
    solve(code, &none, table, reached, due);
    if !are_kept(code, table) {
        return Ok(None);
    }
    let o = lighter(alloc, c, table, started, heavy)?;
    Ok(o)
}

/// The code with its operands and addresses in the registers that they came from, or in others that hold the same literal, and
/// without targets that aren't live. Each instruction stays at its place. A copy may weigh more only where its label has become
/// lighter before.
pub fn with_sources(alloc: Global, c: Code, starts: &[u32]) -> Result<Code, NoMemory>
    requires lawful { IsLawful c.list }
    requires starts { AreInside c.list starts.now }
    ensures lawful { IfOk result (λ q. IsLawful q.list) }
    ensures params { IfOk result (λ q. q.params ≡ c.params) }
    ensures agrees { IfOk result (λ q. (params : ℕ) (source : SourceMeaning) → (Agrees params source c ↔ Agrees params source q)) }
    ensures sourced { IfOk result (λ q. IsSourced c.list starts.now q.list) }
    ensures settled { IfOk result (λ q. HasNoIdleTarget q.list) }
{
    let n = c.list().len();
    let mut table = vec![in alloc; Facts::none(); n]?;
    let mut reached = vec![in alloc; false; n]?;
    let mut due = vec![in alloc; false; n]?;
    let mut started = vec![in alloc; false; n]?;
    let mut heavy = vec![in alloc; true; n]?;
    let o = found(
        alloc,
        &c,
        starts,
        &mut table,
        &mut reached,
        &mut due,
        &mut started,
        &mut heavy,
    )?;
    if let Some(q) = o {
        return Ok(q);
    }
    let plain = without_idle_targets(alloc, &c)?;
    Ok(plain)
}
