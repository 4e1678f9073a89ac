//! Results that nothing reads, put nowhere.

ghost use Rattle.std.specs.Prelude.{◌≡◌, ◌+◌, ◌<◌, ◌≤◌, IfOk, length, slice_index};
ghost use Rattle.uc_isa.specs.Lawful.{IsLast};
ghost use Rattle.uc_isa.specs.Program.{IsFormed, IsProgram};
ghost use Rattle.uc_peep_facts.specs.inner.Operands.{ArePut, IsUntargeted};

use crate::flow::{flagged_target, with_target};
use std::alloc::{AllocError, Global};
use uc_isa::{Dst, Instr};
use uc_peep::LiveSet;

// The instruction without a target that isn't live.
fn untargeted(i: &Instr, live: &LiveSet) -> Instr
    requires { IsFormed i.now }
    ensures { IsUntargeted live.now i.now result }
{
    match flagged_target(i) {
        Some(d) => {
            if !live.has_dst(d) {
                return with_target(i, &Dst::Nowhere);
            }
            let same = *i;
            same
        }
        None => {
            let same = *i;
            same
        }
    }
}

// The same at a place: behind the last one nothing is live.
fn untargeted_at(i: &Instr, sets: &[LiveSet], x: usize) -> Instr
    requires formed { IsFormed i.now }
    requires last { length sets.now ≤ x + 1 → IsLast i.now }
    requires inside { x < length sets.now }
    ensures { IsUntargeted (slice_index sets.now (x + 1)) i.now result }
{
    let y = x + 1;
    if y < sets.len() {
        return untargeted(i, &sets[y]);
    }
    let same = *i;
    same
}

// Takes the targets away that aren't live.
fn untarget_all(draft: &mut [Instr], sets: &[LiveSet])
    requires lawful { IsProgram draft.old }
    requires sets { length sets.now ≡ length draft.old }
    ensures { ArePut (λ x i j. IsUntargeted (slice_index sets.now (x + 1)) i j) draft.old draft.new }
{
    for x in 0..draft.len() {
        draft[x] = untargeted_at(&draft[x], sets, x);
    }
}

/// The instructions without targets that aren't live.
pub(crate) fn untargeted_code(
    alloc: Global,
    code: &[Instr],
    sets: &[LiveSet],
) -> Result<Vec<Instr>, AllocError>
    requires lawful { IsProgram code.now }
    requires sets { length sets.now ≡ length code.now }
    ensures { IfOk result (λ v. ArePut (λ x i j. IsUntargeted (slice_index sets.now (x + 1)) i j) code.now v.items) }
{
    let mut draft = code.to_vec(alloc)?;
    untarget_all(&mut draft, sets);
    Ok(draft)
}
