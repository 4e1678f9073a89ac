// One pass over code: windows are replaced from the last place to the first.

ghost use Rattle.std.specs.Prelude.{◌≡◌, suc, ◌+◌, ◌<◌, ◌≤◌, ℕ, List, true, false, None, IfOk, Bool, Some, length, slice_get, slice_index};
ghost use Rattle.uc_isa.specs.declared.instruction.Instr.{Instr};
ghost use Rattle.uc_isa.specs.Program.{IsProgram};
ghost use Rattle.uc_peep.specs.Draft.{AfterTurn, IsDraft, IsMarks, IsPassed, IsPassing, IsRefreshed};
ghost use Rattle.uc_peep.specs.Kept.{is_gone};
ghost use Rattle.uc_peep.specs.Liveness.{IsClosed};
ghost use Rattle.uc_peep.specs.Sets.{IsWithin};
ghost use Rattle.uc_isa.specs.Resources.{IsNext};

use crate::LiveSet;
use crate::liveness::live_before;
use crate::window::Window;
use crate::windows::{put, shorter_at};
use uc_isa::Instr;

// What a turn at a place did.
pub(crate) enum Turn {
    Stays,
    Changed,
    /// Something is replaced, and the sets are those of the code before.
    Stops,
}

// Gives k places from p on the sets of what their instructions need, and says whether all that is in p's set was there
// before.
fn refresh(code: &[Instr], sets: &mut [LiveSet], p: usize, k: usize) -> bool
    requires lawful { IsProgram code.now }
    requires sets { length sets.old ≡ length code.now }
    requires inside { p + k ≤ length code.now }
    requires some { 1 ≤ k }
    requires small { length code.now < 2147483648 }
    requires ahead { (x y : ℕ) (i : Instr) → p ≤ x → x < p + k → slice_get code.now x ≡ Some i → IsNext i x y → y ≡ x + 1 }
    ensures refreshed { IsRefreshed code.now p k sets.old sets.new }
    ensures within { result ≡ true → IsWithin (slice_index sets.new p) (slice_index sets.old p) }
{
    let old = sets[p];
    for x in (p..p + k).rev() {
        sets[x] = live_before(&code[x], x, sets);
    }
    let new = sets[p];
    new.is_within(&old)
}

// Where something was replaced: gives p the set of what its instruction needs, if all that is in it was there before. What
// isn't a branch needs what it did unless the next place's set has moved.
fn renew(code: &[Instr], sets: &mut [LiveSet], p: usize, changed: bool, moved: bool)
    requires lawful { IsProgram code.now }
    requires sets { length sets.old ≡ length code.now }
    requires inside { p < length code.now }
    ensures size { length sets.new ≡ length sets.old }
    ensures closed { IsClosed code.now sets.old → IsClosed code.now sets.new }
    ensures same { changed ≡ false → sets.new ≡ sets.old }
{
    if !changed {
        return;
    }
    if !moved && !matches!(code[p], Instr::Br { .. }) {
        return;
    }
    let old = sets[p];
    let new = live_before(&code[p], p, sets);
    if new.is_within(&old) {
        sets[p] = new;
    }
}

// Replaces a window at p by the rule's answer, where there is one.
fn replace_at<R: Window>(
    r: &R,
    code: &mut [Instr],
    gone: &mut [bool],
    entered: &[bool],
    started: &[bool],
    sets: &mut [LiveSet],
    p: usize,
    changed: bool,
    moved: bool,
) -> Turn
    requires ready { R.ready r.now }
    requires lawful { IsProgram code.old }
    requires size { length gone.old ≡ length code.old }
    requires entered { length entered.now ≡ length code.old }
    requires started { length started.now ≡ length code.old }
    requires sets { length sets.old ≡ length code.old }
    requires inside { p < length code.old }
    requires small { length code.old < 2147483648 }
    ensures { (first : List Instr) (starts : List ℕ) (gone0 : List Bool) (sets0 : List ℕ) → IsPassing (R.answers r.now) first starts entered.now started.now gone0 sets0 code.old gone.old sets.old changed (suc p) → AfterTurn result (R.answers r.now) first starts entered.now started.now gone0 sets0 code.new gone.new sets.new changed p }
{
    match shorter_at(r, code, gone, entered, started, sets, p) {
        Some((n, a)) => {
            put(code, gone, p, n, a.as_slice());
            if refresh(code, sets, p, n) {
                return Turn::Changed;
            }
            Turn::Stops
        }
        None => {
            renew(code, sets, p, changed, moved);
            Turn::Stays
        }
    }
}

/// Replaces windows by the rule's answers, from the last place to the first, and says whether there was one.
pub fn pass<R: Window>(
    r: &R,
    code: &mut [Instr],
    gone: &mut [bool],
    starts: &[u32],
    entered: &[bool],
    started: &[bool],
    sets: &mut [LiveSet],
) -> bool
    requires ready { R.ready r.now }
    requires lawful { IsProgram code.old }
    requires kept { (x : ℕ) → is_gone gone.old x ≡ false }
    requires marks { IsMarks code.old starts.now entered.now started.now }
    requires size { length gone.old ≡ length code.old }
    requires entered { length entered.now ≡ length code.old }
    requires started { length started.now ≡ length code.old }
    requires sets { length sets.old ≡ length code.old }
    requires closed { IsClosed code.old sets.old }
    requires small { length code.old < 2147483648 }
    ensures { IsPassed (R.answers r.now) code.old starts.now entered.now started.now gone.old sets.old code.new gone.new result }
{
    let mut changed = false;
    let mut moved = false;
    for p in (0..code.len()).rev() {
        let old = sets[p];
        match replace_at(r, code, gone, entered, started, sets, p, changed, moved) {
            Turn::Stays => {}
            Turn::Changed => changed = true,
            Turn::Stops => return true,
        }
        moved = !sets[p].same(&old);
    }
    changed
}
