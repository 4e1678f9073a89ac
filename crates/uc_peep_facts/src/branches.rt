//! Code without branches over a jump.

ghost use Rattle.std.specs.Prelude.{◌≡◌, ◌<◌, ◌↔◌, ℕ, false, IfOk, length};
ghost use Rattle.uc_isa.specs.Agrees.{Agrees, SourceMeaning};
ghost use Rattle.uc_isa.specs.Lawful.{IsLawful};
ghost use Rattle.uc_isa.specs.Program.{IsProgram};
ghost use Rattle.uc_isa.specs.Starts.{AreInside};
ghost use Rattle.uc_peep.specs.Becomes.{IsKept};
ghost use Rattle.uc_peep.specs.Kept.{is_gone};
ghost use Rattle.uc_peep_facts.specs.Turned.{HasNoTurnable, IsTurned};
ghost use Rattle.uc_peep_facts.specs.inner.Pairs.{IsLevel, IsTurn};

use crate::turned::turn_all;
use nv_base::NoMemory;
use std::alloc::{AllocError, Global};
use uc_isa::{Code, Dst, Instr};
use uc_peep::{Listing, Peeped, mark_entered, mark_starts, without_gone};

// Puts an immediate that goes nowhere where places are gone.
fn put_idle(list: &mut [Instr], gone: &[bool])
    requires size { length gone.now ≡ length list.old }
    ensures { IsLevel list.old list.new gone.now }
{
    for x in 0..list.len() {
        if gone[x] {
            list[x] = Instr::Immed {
                dst: Dst::Nowhere,
                v: 0,
                s: 0,
            };
        }
    }
}

// A draft with straight instructions at the places that are gone: such places may be taken out.
fn level_of(alloc: Global, draft: &[Instr], gone: &[bool]) -> Result<Vec<Instr>, AllocError>
    requires size { length gone.now ≡ length draft.now }
    ensures { IfOk result (λ v. IsLevel draft.now v.items gone.now) }
{
    let mut level = draft.to_vec(alloc)?;
    put_idle(&mut level, gone);
    Ok(level)
}

// The code with its branches over a jump turned, or None where there is none.
fn turn(
    alloc: Global,
    code: &[Instr],
    starts: &[u32],
    entered: &mut [bool],
    started: &mut [bool],
    draft: &mut [Instr],
    gone: &mut [bool],
) -> Result<Option<Listing>, AllocError>
    requires lawful { IsProgram code.now }
    requires starts { AreInside code.now starts.now }
    requires small { length code.now < 2147483648 }
    requires draft { draft.old ≡ code.now }
    requires size_entered { length entered.old ≡ length code.now }
    requires size_started { length started.old ≡ length code.now }
    requires size_gone { length gone.old ≡ length code.now }
    requires entered { (x : ℕ) → is_gone entered.old x ≡ false }
    requires started { (x : ℕ) → is_gone started.old x ≡ false }
    requires gone { (x : ℕ) → is_gone gone.old x ≡ false }
    ensures { IfOk result (λ o. IsTurn code.now starts.now o) }
{
    mark_entered(code, entered);
    mark_starts(starts, started);
    let some = turn_all(code, entered, started, draft, gone);
    if !some {
        return Ok(None);
    }
    let level = level_of(alloc, draft, gone)?;
    let next = without_gone(alloc, &level, starts, draft, gone)?;
    Ok(Some(next))
}

// One round: shorter code, or None where nothing is to be turned.
fn round(alloc: Global, code: &[Instr], starts: &[u32]) -> Result<Option<Listing>, AllocError>
    requires lawful { IsProgram code.now }
    requires starts { AreInside code.now starts.now }
    requires small { length code.now < 2147483648 }
    ensures { IfOk result (λ o. IsTurn code.now starts.now o) }
{
    let n = code.len();
    let mut draft = code.to_vec(alloc)?;
    let mut entered = vec![in alloc; false; n]?;
    let mut started = vec![in alloc; false; n]?;
    let mut gone = vec![in alloc; false; n]?;
    turn(
        alloc,
        code,
        starts,
        &mut entered,
        &mut started,
        &mut draft,
        &mut gone,
    )
}

// Turns branches over a jump until there is none.
fn turned_list(alloc: Global, code: Vec<Instr>, starts: Vec<u32>) -> Result<Listing, AllocError>
    requires lawful { IsProgram code.items }
    requires starts { AreInside code.items starts.items }
    requires small { length code.items < 2147483648 }
    ensures kept { IfOk result (λ q. IsKept code.items starts.items q.code.items q.starts.items) }
    ensures turned { IfOk result (λ q. IsTurned code.items q.code.items) }
    ensures settled { IfOk result (λ q. HasNoTurnable q.code.items q.starts.items) }
{
    let mut now = Listing { code, starts };
    'rounds: loop {
        match round(alloc, &now.code, &now.starts)? {
            Some(next) => now = next,
            None => return Ok(now),
        }
    }
}

/// The code with the one branch on the opposite condition in the place of each branch over the jump behind it, where nothing
/// else leads to that jump and no label starts there or behind it. It does what it did, as `peep` says.
pub fn with_turned_branches(alloc: Global, c: Code, starts: Vec<u32>) -> Result<Peeped, NoMemory>
    requires lawful { IsLawful c.list }
    requires starts { AreInside c.list starts.items }
    ensures lawful { IfOk result (λ q. IsLawful q.code.list) }
    ensures params { IfOk result (λ q. q.code.params ≡ c.params) }
    ensures agrees { IfOk result (λ q. (params : ℕ) (source : SourceMeaning) → (Agrees params source c ↔ Agrees params source q.code)) }
    ensures kept { IfOk result (λ q. IsKept c.list starts.items q.code.list q.starts.items) }
    ensures turned { IfOk result (λ q. IsTurned c.list q.code.list) }
    ensures settled { IfOk result (λ q. HasNoTurnable q.code.list q.starts.items) }
{
    let params = c.params();
    let code = c.list().to_vec(alloc)?;
    let done = turned_list(alloc, code, starts)?;
    Ok(Peeped {
        code: Code::new(params, done.code),
        starts: done.starts,
    })
}
