// Windows of a draft: which may be replaced, and the replacement.

ghost use Rattle.std.specs.Prelude.{◌≡◌, ◌+◌, ◌<◌, ◌≤◌, ◌↔◌, ℕ, List, true, false, Some, None, IfSome, IfNone, OnSome, IsTrue, length, take, drop, slice_get, slice_index, slice_index_or};
ghost use Rattle.uc_isa.specs.declared.instruction.Instr.{Instr};
ghost use Rattle.uc_isa.specs.Program.{IsFormed, IsProgram};
ghost use Rattle.uc_peep.specs.Draft.{AreOpen, IsEndClear, IsOpen, IsPut, IsFallThrough, MayReplace};
ghost use Rattle.uc_peep.specs.Kept.{is_gone};
ghost use Rattle.uc_peep.specs.Window.{IsShorter, IsText};
ghost use Rattle.uc_isa.specs.StraightCode.{IsStraight};

use crate::window::Window;
use crate::{LiveSet, Shorter};
use uc_isa::{Cond, Instr};

fn is_straight(i: &Instr) -> bool
    ensures { IsTrue result ↔ IsStraight i.now }
{
    matches!(
        i,
        Instr::Alu { .. } | Instr::Un { .. } | Instr::Immed { .. }
    )
}

// Whether the place is straight code that is still there.
fn is_open(code: &[Instr], gone: &[bool], x: usize) -> bool
    requires size { length gone.now ≡ length code.now }
    requires inside { x < length code.now }
    ensures { IsTrue result ↔ IsOpen code.now gone.now x }
{
    is_straight(&code[x]) && !gone[x]
}

// Whether nothing leads to the place but the one before it.
fn is_fall_through(entered: &[bool], started: &[bool], y: usize) -> bool
    requires inside { y < length entered.now }
    requires inside_too { y < length started.now }
    ensures { IsTrue result ↔ IsFallThrough entered.now started.now y }
{
    !entered[y] && !started[y]
}

// Whether the place after n open ones from p on is open too, and before another one.
fn is_open_after(
    code: &[Instr],
    gone: &[bool],
    entered: &[bool],
    started: &[bool],
    p: usize,
    n: usize,
) -> bool
    requires size { length gone.now ≡ length code.now }
    requires entered { length entered.now ≡ length code.now }
    requires started { length started.now ≡ length code.now }
    requires small { length code.now < 2147483648 }
    requires few { n < 4 }
    requires inside { p < length code.now }
    requires open_ { AreOpen code.now gone.now entered.now started.now p (p + n) }
    ensures yes { result ≡ true → (p + (n + 1) < length code.now) × AreOpen code.now gone.now entered.now started.now p (p + (n + 1)) }
    ensures no { result ≡ false → (k : ℕ) → n < k → ¬ MayReplace code.now gone.now entered.now started.now p k }
{
    let x = p + n;
    if x + 1 >= code.len() {
        return false;
    }
    if !is_open(code, gone, x) {
        return false;
    }
    n == 0 || is_fall_through(entered, started, x)
}

// Whether the place after a window is as it must be where a label starts at the window's first place.
fn is_end_clear(gone: &[bool], entered: &[bool], started: &[bool], p: usize, end: usize) -> bool
    requires entered { length entered.now ≡ length gone.now }
    requires started { length started.now ≡ length gone.now }
    requires first { p < length gone.now }
    requires inside { end < length gone.now }
    ensures { IsTrue result ↔ IsEndClear gone.now entered.now started.now p end }
{
    if p != 0 && !started[p] {
        return true;
    }
    !(started[p] && entered[end]) && !started[end] && !gone[end]
}

// The rule's answer for k open places from p on, where they may be replaced.
fn ask<R: Window>(
    r: &R,
    code: &[Instr],
    gone: &[bool],
    entered: &[bool],
    started: &[bool],
    sets: &[LiveSet],
    p: usize,
    k: usize,
) -> Option<Shorter>
    requires ready { R.ready r.now }
    requires lawful { IsProgram code.now }
    requires size { length gone.now ≡ length code.now }
    requires entered { length entered.now ≡ length code.now }
    requires started { length started.now ≡ length code.now }
    requires sets { length sets.now ≡ length code.now }
    requires inside { p + k < length code.now }
    requires open_ { AreOpen code.now gone.now entered.now started.now p (p + k) }
    requires small { length code.now < 2147483648 }
    requires some { 1 ≤ k }
    requires few { k ≤ 4 }
    ensures some { IfSome result (λ a. MayReplace code.now gone.now entered.now started.now p k × IsShorter (take k (drop p code.now)) (slice_index sets.now (p + k)) a × R.answers r.now (take k (drop p code.now)) (slice_index sets.now (p + k)) (Some a)) }
    ensures none { IfNone result (MayReplace code.now gone.now entered.now started.now p k → R.answers r.now (take k (drop p code.now)) (slice_index sets.now (p + k)) None) }
{
    if !is_end_clear(gone, entered, started, p, p + k) {
        return None;
    }
    let w = &code[p..p + k];
    let live_after = sets[p + k];
    r.shorter(w, &live_after)
}

/// The first window at p for which the rule has an answer, by its length, with this answer.
pub fn shorter_at<R: Window>(
    r: &R,
    code: &[Instr],
    gone: &[bool],
    entered: &[bool],
    started: &[bool],
    sets: &[LiveSet],
    p: usize,
) -> Option<(usize, Shorter)>
    requires ready { R.ready r.now }
    requires lawful { IsProgram code.now }
    requires size { length gone.now ≡ length code.now }
    requires entered { length entered.now ≡ length code.now }
    requires started { length started.now ≡ length code.now }
    requires sets { length sets.now ≡ length code.now }
    requires inside { p < length code.now }
    requires small { length code.now < 2147483648 }
    ensures some { IfSome result (λ t. (1 ≤ t.0) × MayReplace code.now gone.now entered.now started.now p t.0 × IsShorter (take t.0 (drop p code.now)) (slice_index sets.now (p + t.0)) t.1 × R.answers r.now (take t.0 (drop p code.now)) (slice_index sets.now (p + t.0)) (Some t.1)) }
    ensures none { IfNone result ((k : ℕ) → 1 ≤ k → k < 5 → MayReplace code.now gone.now entered.now started.now p k → R.answers r.now (take k (drop p code.now)) (slice_index sets.now (p + k)) None) }
{
    for n in 0..4 {
        if !is_open_after(code, gone, entered, started, p, n) {
            return None;
        }
        if let Some(a) = ask(r, code, gone, entered, started, sets, p, n + 1) {
            return Some((n + 1, a));
        }
    }
    None
}

/// Puts shorter code into the place of k instructions from p on.
pub fn put(code: &mut [Instr], gone: &mut [bool], p: usize, k: usize, shorter: &[Instr])
    requires size { length gone.old ≡ length code.old }
    requires inside { p + k < length code.old }
    requires small { length code.old < 2147483648 }
    requires fewer { length shorter.now ≤ k }
    ensures { IsPut p k shorter.now code.old code.new gone.old gone.new }
{
    for j in 0..k {
        if j < shorter.len() {
            code[p + j] = shorter[j];
        } else {
            code[p + j] = Instr::Br {
                cond: Cond::Always,
                target: (p + j) as u32 + 1,
            };
            gone[p + j] = true;
        }
    }
}
