//! Code without its needless instructions.

ghost use Rattle.std.specs.Prelude.{◌≡◌, ◌+◌, ◌<◌, ◌≤◌, ◌^◌, ◌↔◌, ℕ, List, false, IfOk, length, map, slice_index};
ghost use Rattle.uc_isa.specs.Agrees.{Agrees, SourceMeaning};
ghost use Rattle.uc_isa.specs.Lawful.{IsLawful};
ghost use Rattle.uc_isa.specs.Program.{IsProgram};
ghost use Rattle.uc_isa.specs.Starts.{AreInside};
ghost use Rattle.uc_peep.specs.Draft.{IsDraft};
ghost use Rattle.uc_peep.specs.Kept.{compacted, is_gone, kept_before};
ghost use Rattle.uc_peep.specs.Liveness.{IsClosed, IsLiveAt};
ghost use Rattle.uc_peep.specs.Becomes.{IsKept, IsPeeped, IsRound};

use crate::LiveSet;
use crate::compacting::{compact, counts, mark_entered, mark_starts, move_starts};
use crate::draft::pass;
use crate::liveness::live_sets;
use crate::window::Window;
use nv_base::NoMemory;
use std::alloc::{AllocError, Global};
use uc_isa::{Code, Instr};

/// Code, and where its labels start.
#[derive(Drop)]
pub struct Peeped {
    pub code: Code,
    pub starts: Vec<u32>,
}

/// The instructions of code, and where its labels start.
#[derive(Drop)]
pub struct Listing {
    pub code: Vec<Instr>,
    pub starts: Vec<u32>,
}

/// A draft of code without the places that are gone, and where the starts are then.
pub fn without_gone(
    alloc: Global,
    code: &[Instr],
    starts: &[u32],
    draft: &[Instr],
    gone: &[bool],
) -> Result<Listing, AllocError>
    requires starts { AreInside code.now starts.now }
    requires draft { IsDraft code.now starts.now draft.now gone.now }
    requires small { length code.now < 2147483648 }
    ensures kept { IfOk result (λ q. IsKept code.now starts.now q.code.items q.starts.items) }
    ensures code { IfOk result (λ q. q.code.items ≡ compacted (kept_before gone.now) gone.now draft.now) }
    ensures starts { IfOk result (λ q. q.starts.items ≡ map (kept_before gone.now) starts.now) }
{
    let places = counts(alloc, gone)?;
    let next = compact(alloc, draft, gone, &places)?;
    let moved = move_starts(alloc, starts, &places)?;
    Ok(Listing {
        code: next,
        starts: moved,
    })
}

// One pass over a draft of the code, and the code without what is gone then.
fn work<R: Window>(
    alloc: Global,
    r: &R,
    code: &[Instr],
    starts: &[u32],
    draft: &mut [Instr],
    gone: &mut [bool],
    entered: &mut [bool],
    started: &mut [bool],
    sets: &mut [LiveSet],
) -> Result<Option<Listing>, AllocError>
    requires ready { R.ready r.now }
    requires lawful { IsProgram code.now }
    requires starts { AreInside code.now starts.now }
    requires small { length code.now < 2147483648 }
    requires draft { draft.old ≡ code.now }
    requires gone { (x : ℕ) → is_gone gone.old x ≡ false }
    requires entered { (x : ℕ) → is_gone entered.old x ≡ false }
    requires started { (x : ℕ) → is_gone started.old x ≡ false }
    requires size_gone { length gone.old ≡ length code.now }
    requires size_entered { length entered.old ≡ length code.now }
    requires size_started { length started.old ≡ length code.now }
    requires size_sets { length sets.old ≡ length code.now }
    requires closed { IsClosed code.now sets.old }
    requires live { (x : ℕ) → IsLiveAt code.now x (slice_index sets.old x) }
    ensures { IfOk result (λ o. IsRound (R.answers r.now) code.now starts.now o) }
{
    mark_entered(code, entered);
    mark_starts(starts, started);
    let changed = pass(r, draft, gone, starts, entered, started, sets);
    if !changed {
        return Ok(None);
    }
    let next = without_gone(alloc, code, starts, draft, gone)?;
    Ok(Some(next))
}

// One round: shorter code, or None where the rule has no answer at any window.
fn round<R: Window>(
    alloc: Global,
    r: &R,
    code: &[Instr],
    starts: &[u32],
) -> Result<Option<Listing>, AllocError>
    requires ready { R.ready r.now }
    requires lawful { IsProgram code.now }
    requires starts { AreInside code.now starts.now }
    requires small { length code.now < 2147483648 }
    ensures { IfOk result (λ o. IsRound (R.answers r.now) code.now starts.now o) }
{
    let n = code.len();
    let mut sets = live_sets(alloc, code)?;
    let mut draft = code.to_vec(alloc)?;
    let mut gone = vec![in alloc; false; n]?;
    let mut entered = vec![in alloc; false; n]?;
    let mut started = vec![in alloc; false; n]?;
    work(
        alloc,
        r,
        code,
        starts,
        &mut draft,
        &mut gone,
        &mut entered,
        &mut started,
        &mut sets,
    )
}

// Replaces windows until the rule has no answer at any.
fn optimize_list<R: Window>(
    alloc: Global,
    code: Vec<Instr>,
    starts: Vec<u32>,
    r: &R,
) -> Result<Listing, AllocError>
    requires ready { R.ready r.now }
    requires lawful { IsProgram code.items }
    requires starts { AreInside code.items starts.items }
    requires small { length code.items < 2147483648 }
    ensures { IfOk result (λ q. IsPeeped (R.answers r.now) code.items starts.items q.code.items q.starts.items) }
{
    let mut now = Listing { code, starts };
    'rounds: loop {
        match round(alloc, r, &now.code, &now.starts)? {
            Some(next) => now = next,
            None => return Ok(now),
        }
    }
}

/// Replaces windows by the rule's answers until it has none at any window. The code does what it did, in each direction:
/// outcomes, accesses to memories, and visits of the starts; and its moves cost no more, whatever the labels weigh.
pub fn peep<R: Window>(alloc: Global, c: Code, starts: Vec<u32>, r: &R) -> Result<Peeped, NoMemory>
    requires ready { R.ready r.now }
    requires lawful { IsLawful c.list }
    requires starts { AreInside c.list starts.items }
    ensures lawful { IfOk result (λ q. IsLawful q.code.list) }
    ensures params { IfOk result (λ q. q.code.params ≡ c.params) }
    ensures agrees { IfOk result (λ q. (params : ℕ) (source : SourceMeaning) → (Agrees params source c ↔ Agrees params source q.code)) }
    ensures peeped { IfOk result (λ q. IsPeeped (R.answers r.now) c.list starts.items q.code.list q.starts.items) }
{
    let params = c.params();
    let code = c.list().to_vec(alloc)?;
    let done = optimize_list(alloc, code, starts, r)?;
    Ok(Peeped {
        code: Code::new(params, done.code),
        starts: done.starts,
    })
}
