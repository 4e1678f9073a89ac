//! Whether what weighs more is paid for by what weighs less before it, label by label.

ghost use Rattle.std.specs.Prelude.{◌≡◌, ◌+◌, ◌*◌, ◌^◌, ◌<◌, ◌≤◌, ℕ, List, true, IfSome, length, if◌then◌else◌};
ghost use Rattle.uc_isa.specs.Moves as costs;
ghost use Rattle.uc_isa.specs.Starts.{IsLabelStart};
ghost use Rattle.uc_peep.specs.Draft.{AreMarked};
ghost use Rattle.uc_peep_facts.specs.inner.Operands.{IsPaidAt};

use nv_base::Mem;
use uc_isa::{Dst, Gpr, Instr, Src, UnOp};

// What a copy weighs.
pub(crate) fn copy_weight(d: &Dst, x: &Src) -> u64
    ensures weight { result ≡ costs.copy_weight d.now x.now }
    ensures small { result ≤ 1 }
{
    match (d, x) {
        (Dst::Nowhere, _) => 0,
        (Dst::A(_), Src::A(_)) => 0,
        (Dst::A(r), _) => u64::from(r.number != 15),
        (Dst::B(_), Src::B(_)) => 0,
        (_, Src::A(r)) => u64::from(r.number != 15),
        _ => 1,
    }
}

// What an access weighs.
fn access_weight(m: &Mem, x: &Gpr) -> u64
    ensures weight { result ≡ costs.access_weight m.now x.now }
    ensures small { result ≤ 16 }
{
    match (m, x) {
        (Mem::Scratch, Gpr::B(r)) => { if r.number == 15 { 16 } else { 0 } }
        _ => 0,
    }
}

// What an instruction weighs.
fn weight(i: &Instr) -> u64
    ensures weight { result ≡ costs.weight i.now }
    ensures small { result ≤ 16 }
{
    match i {
        Instr::Un {
            dst,
            op: UnOp::Copy,
            x,
        } => copy_weight(dst, x),
        Instr::Read { mem, x, .. } => access_weight(mem, x),
        Instr::Write { mem, x, .. } => access_weight(mem, x),
        _ => 0,
    }
}

// What was saved before in the same label.
fn in_label(credit: u64, starts: bool) -> u64
    ensures { result ≡ (if starts then 0 else credit) }
{
    if starts { 0 } else { credit }
}

// What is left of it after an instruction.
fn left(saved: u64, old: u64, new: u64) -> Option<u64>
    requires { saved + old < 2 ^ 64 }
    ensures { IfSome result (λ n. n + new ≡ saved + old) }
{
    let all = saved + old;
    if all < new {
        return None;
    }
    Some(all - new)
}

// The same at a place.
fn left_at(code: &[Instr], draft: &[Instr], started: &[bool], x: usize, credit: u64) -> Option<u64>
    requires size { length draft.now ≡ length code.now }
    requires started { length started.now ≡ length code.now }
    requires inside { x < length code.now }
    requires few { credit ≤ 16 * x }
    requires small { length code.now < 2147483648 }
    ensures { IfSome result (λ n. IsPaidAt code.now draft.now started.now x credit n) }
{
    let saved = in_label(credit, started[x]);
    let old = weight(&code[x]);
    let new = weight(&draft[x]);
    left(saved, old, new)
}

/// Whether at each place of a label the draft has come to weigh no more than the code.
pub(crate) fn is_paid(code: &[Instr], draft: &[Instr], started: &[bool]) -> bool
    requires size { length draft.now ≡ length code.now }
    requires started { length started.now ≡ length code.now }
    requires small { length code.now < 2147483648 }
    ensures { result ≡ true → (starts : List ℕ) → AreMarked started.now (IsLabelStart starts) → (ws : List ℕ) → costs.moves draft.now starts ws ≤ costs.moves code.now starts ws }
{
    let mut credit = 0;
    for x in 0..code.len() {
        match left_at(code, draft, started, x, credit) {
            Some(n) => credit = n,
            None => return false,
        }
    }
    true
}

/// Where the draft has come to weigh more, nothing may be heavy the next time.
pub(crate) fn hold_back(code: &[Instr], draft: &[Instr], started: &[bool], heavy: &mut [bool])
    requires size { length draft.now ≡ length code.now }
    requires started { length started.now ≡ length code.now }
    requires heavy { length heavy.old ≡ length code.now }
    requires small { length code.now < 2147483648 }
    ensures { length heavy.new ≡ length heavy.old }
{
    let mut credit = 0;
    for x in 0..code.len() {
        match left_at(code, draft, started, x, credit) {
            Some(n) => credit = n,
            None => {
                credit = in_label(credit, started[x]);
                heavy[x] = false;
            }
        }
    }
}
