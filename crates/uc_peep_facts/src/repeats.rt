//! Code without instructions whose effect stands already.

ghost use Rattle.std.specs.Prelude.{◌≡◌, ◌<◌, ◌^◌, ◌↔◌, ℕ, List, true, false, IfOk, length};
ghost use Rattle.uc_isa.specs.Agrees.{Agrees, SourceMeaning};
ghost use Rattle.uc_isa.specs.Lawful.{IsLawful};
ghost use Rattle.uc_isa.specs.Program.{IsProgram};
ghost use Rattle.uc_isa.specs.Starts.{AreInside, IsLabelStart};
ghost use Rattle.uc_isa.specs.StraightCode.{IsEntered};
ghost use Rattle.uc_peep.specs.Becomes.{IsKept};
ghost use Rattle.uc_peep.specs.Draft.{AreMarked, IsDraft};
ghost use Rattle.uc_peep.specs.Kept.{is_gone};
ghost use Rattle.uc_peep.specs.Liveness.{IsClosed};
ghost use Rattle.uc_peep.specs.Rewrites.{IsWithout};
ghost use Rattle.uc_peep_facts.specs.Facts.{IsFilled, MayGo};
ghost use Rattle.uc_peep_facts.specs.Thinner.{IsThinner};

use crate::closed::are_kept;
use crate::fact::Facts;
use crate::idle::is_idle;
use crate::solve::solve;
use nv_base::NoMemory;
use std::alloc::{AllocError, Global};
use uc_isa::{Code, Cond, Instr};
use uc_peep::{Listing, LiveSet, Peeped, live, mark_entered, mark_starts, without_gone};

// The marks of the places that may go.
fn mark_idle(
    code: &[Instr],
    sets: &[LiveSet],
    table: &[Facts],
    entered: &[bool],
    started: &[bool],
    gone: &mut [bool],
)
    requires lawful { IsProgram code.now }
    requires sets { length sets.now ≡ length code.now }
    requires table { length table.now ≡ length code.now }
    requires size_entered { length entered.now ≡ length code.now }
    requires size_started { length started.now ≡ length code.now }
    requires size_gone { length gone.old ≡ length code.now }
    requires none { (x : ℕ) → is_gone gone.old x ≡ false }
    ensures size { length gone.new ≡ length gone.old }
    ensures may { (starts : List ℕ) → AreMarked entered.now (IsEntered code.now) → AreMarked started.now (IsLabelStart starts) → (x : ℕ) → is_gone gone.new x ≡ true → MayGo code.now starts sets.now table.now x }
{
    for x in 0..code.len() {
        if x + 1 < code.len()
            && !entered[x + 1]
            && !started[x + 1]
            && is_idle(&code[x], &table[x], &sets[x + 1])
        {
            gone[x] = true;
        }
    }
}

// Puts fillers where places are gone.
fn fill(draft: &mut [Instr], gone: &[bool])
    requires size { length gone.now ≡ length draft.old }
    requires few { length draft.old < 2 ^ 31 }
    ensures { IsFilled draft.old draft.new gone.now }
{
    for x in 0..draft.len() {
        if gone[x] {
            draft[x] = Instr::Br {
                cond: Cond::Always,
                target: x as u32 + 1,
            };
        }
    }
}

// The code without places that may go, where each way keeps the facts also without them.
fn thin(
    alloc: Global,
    code: &[Instr],
    starts: &[u32],
    sets: &[LiveSet],
    table: &mut [Facts],
    reached: &mut [bool],
    due: &mut [bool],
    entered: &mut [bool],
    started: &mut [bool],
    draft: &mut [Instr],
    gone: &mut [bool],
) -> Result<Option<Listing>, AllocError>
    requires lawful { IsProgram code.now }
    requires starts { AreInside code.now starts.now }
    requires small { length code.now < 2147483648 }
    requires sets { length sets.now ≡ length code.now }
    requires closed { IsClosed code.now sets.now }
    requires table { length table.old ≡ length code.now }
    requires reached { length reached.old ≡ length code.now }
    requires due { length due.old ≡ length code.now }
    requires size_entered { length entered.old ≡ length code.now }
    requires size_started { length started.old ≡ length code.now }
    requires size_gone { length gone.old ≡ length code.now }
    requires draft { draft.old ≡ code.now }
    requires entered { (x : ℕ) → is_gone entered.old x ≡ false }
    requires started { (x : ℕ) → is_gone started.old x ≡ false }
    requires gone { (x : ℕ) → is_gone gone.old x ≡ false }
    ensures { IfOk result (λ o. IsThinner code.now starts.now o) }
{
    mark_entered(code, entered);
    mark_starts(starts, started);
    reached[0] = true;
    due[0] = true;
    solve(code, sets, table, reached, due);
    mark_idle(code, sets, table, entered, started, gone);
    fill(draft, gone);
    if !are_kept(draft, table) {
        return Ok(None);
    }
    let next = without_gone(alloc, code, starts, draft, gone)?;
    Ok(Some(next))
}

// The code without places that may go, or None where the facts that were found aren't kept.
fn thinner(
    alloc: Global,
    code: &[Instr],
    starts: &[u32],
    sets: &[LiveSet],
) -> Result<Option<Listing>, AllocError>
    requires lawful { IsProgram code.now }
    requires starts { AreInside code.now starts.now }
    requires small { length code.now < 2147483648 }
    requires sets { length sets.now ≡ length code.now }
    requires closed { IsClosed code.now sets.now }
    ensures { IfOk result (λ o. IsThinner code.now starts.now o) }
{
    let n = code.len();
    let mut table = vec![in alloc; Facts::none(); n]?;
    let mut reached = vec![in alloc; false; n]?;
    let mut due = vec![in alloc; false; n]?;
    let mut entered = vec![in alloc; false; n]?;
    let mut started = vec![in alloc; false; n]?;
    let mut gone = vec![in alloc; false; n]?;
    let mut draft = code.to_vec(alloc)?;
    thin(
        alloc,
        code,
        starts,
        sets,
        &mut table,
        &mut reached,
        &mut due,
        &mut entered,
        &mut started,
        &mut draft,
        &mut gone,
    )
}

/// The code without straight instructions that would change nothing that is live: their target holds the result
/// already, on every way to them, and so do the flags. It does what it did, as `peep` says.
pub fn without_repeats(alloc: Global, c: Code, starts: Vec<u32>) -> Result<Peeped, NoMemory>
    requires lawful { IsLawful c.list }
    requires starts { AreInside c.list starts.items }
    ensures lawful { IfOk result (λ q. IsLawful q.code.list) }
    ensures params { IfOk result (λ q. q.code.params ≡ c.params) }
    ensures agrees { IfOk result (λ q. (params : ℕ) (source : SourceMeaning) → (Agrees params source c ↔ Agrees params source q.code)) }
    ensures kept { IfOk result (λ q. IsKept c.list starts.items q.code.list q.starts.items) }
    ensures without { IfOk result (λ q. IsWithout c.list q.code.list) }
{
    let sets = live(alloc, &c)?;
    match thinner(alloc, c.list(), &starts, &sets)? {
        Some(q) => {
            let params = c.params();
            Ok(Peeped {
                code: Code::new(params, q.code),
                starts: q.starts,
            })
        }
        None => Ok(Peeped { code: c, starts }),
    }
}
