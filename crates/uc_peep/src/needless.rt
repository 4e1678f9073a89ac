//! Needless instructions, by six rules.

ghost use Rattle.std.specs.Prelude.{◌≡◌, ◌&&◌, ◌||◌, ◌↔◌, not, ℕ, true, false, List, Option, Some, None, IfOk};
ghost use Rattle.uc_isa.specs.Agrees.{Agrees, SourceMeaning};
ghost use Rattle.uc_isa.specs.Lawful.{IsLawful};
ghost use Rattle.uc_isa.specs.Starts.{AreInside};
ghost use Rattle.uc_peep.specs.Becomes.{IsKept};
ghost use Rattle.uc_peep.specs.Rewrites.{IsWithout};
ghost use Rattle.uc_peep.specs.Needless as spec;
ghost use Rattle.uc_peep.specs.Needless.{HasNoNeedless, back_rule, dead_rule, has_flag, idle_rule, is_same};

use crate::held_literals::held;
use crate::peephole::{Peeped, peep};
use crate::repeated_tests::repeated;
use crate::window::{Pair, WindowRule};
use crate::zero_tests::zero;
use crate::{LiveSet, Shorter};
use nv_base::NoMemory;
use std::alloc::Global;
use uc_isa::{Code, Dst, Instr, Src, UnOp};

fn has_flag(after: &LiveSet) -> bool
    ensures { result ≡ has_flag after.now }
{
    let (zero, carry) = after.flags();
    zero || carry
}

fn is_dead(i: &Instr, after: &LiveSet) -> bool
    ensures { result ≡ spec.is_dead i.now after.now }
{
    match i {
        Instr::Alu { dst, .. } => !after.has_dst(*dst) && !has_flag(after),
        Instr::Un { dst, .. } => !after.has_dst(*dst) && !has_flag(after),
        Instr::Immed { dst, .. } => !after.has_dst(*dst),
        _ => false,
    }
}

pub(crate) fn is_same(d: &Dst, x: &Src) -> bool
    ensures { result ≡ is_same d.now x.now }
{
    match (d, x) {
        (Dst::A(r), Src::A(q)) => r.number == q.number,
        (Dst::B(r), Src::B(q)) => r.number == q.number,
        _ => false,
    }
}

fn is_idle(i: &Instr, after: &LiveSet) -> bool
    ensures { result ≡ spec.is_idle i.now after.now }
{
    match i {
        Instr::Un {
            dst,
            op: UnOp::Copy,
            x,
        } => is_same(dst, x) && !has_flag(after),
        _ => false,
    }
}

fn copies_back(i: &Instr, j: &Instr) -> bool
    ensures { result ≡ spec.copies_back i.now j.now }
{
    match (i, j) {
        (
            Instr::Un {
                dst: d,
                op: UnOp::Copy,
                x,
            },
            Instr::Un {
                dst: e,
                op: UnOp::Copy,
                x: y,
            },
        ) => is_same(d, y) && is_same(e, x),
        _ => false,
    }
}

// An operation whose result isn't live, and that writes no live flag, goes.
fn dead(w: &[Instr], after: &LiveSet) -> Option<Shorter>
    ensures { result ≡ dead_rule w.now after.now }
{
    match w {
        [i] if is_dead(i, after) => Some(Shorter::none()),
        _ => None,
    }
}

// A copy of a register onto itself goes where no flag is live.
fn idle(w: &[Instr], after: &LiveSet) -> Option<Shorter>
    ensures { result ≡ idle_rule w.now after.now }
{
    match w {
        [i] if is_idle(i, after) => Some(Shorter::none()),
        _ => None,
    }
}

// Of a copy and the copy back, the second goes.
fn back(w: &[Instr], after: &LiveSet) -> Option<Shorter>
    ensures { result ≡ back_rule w.now after.now }
{
    match w {
        [i, j] if copies_back(i, j) => Some(Shorter::one(*i)),
        _ => None,
    }
}

/// The code without needless instructions: an operation whose result and flags aren't live, a copy of a register onto
/// itself where no flag is live, a copy back of what was just copied, a zero that is only compared with, a test of what was
/// just tested, and a literal that its register holds already. It does what it did, as `peep` says.
pub fn without_needless(alloc: Global, c: Code, starts: Vec<u32>) -> Result<Peeped, NoMemory>
    requires lawful { IsLawful c.list }
    requires starts { AreInside c.list starts.items }
    ensures lawful { IfOk result (λ q. IsLawful q.code.list) }
    ensures params { IfOk result (λ q. q.code.params ≡ c.params) }
    ensures agrees { IfOk result (λ q. (params : ℕ) (source : SourceMeaning) → (Agrees params source c ↔ Agrees params source q.code)) }
    ensures kept { IfOk result (λ q. IsKept c.list starts.items q.code.list q.starts.items) }
    ensures without { IfOk result (λ q. IsWithout c.list q.code.list) }
    ensures settled { IfOk result (λ q. HasNoNeedless q.code.list q.starts.items) }
{
    let deads = WindowRule::new(|w: &[Instr], after: &LiveSet| dead(w, after));
    let idles = WindowRule::new(|w: &[Instr], after: &LiveSet| idle(w, after));
    let backs = WindowRule::new(|w: &[Instr], after: &LiveSet| back(w, after));
    let zeros = WindowRule::new(|w: &[Instr], after: &LiveSet| zero(w, after));
    let repeats = WindowRule::new(|w: &[Instr], after: &LiveSet| repeated(w, after));
    let literals = WindowRule::new(|w: &[Instr], after: &LiveSet| held(w, after));
    let rules = Pair {
        first: deads,
        second: Pair {
            first: idles,
            second: Pair {
                first: backs,
                second: Pair {
                    first: zeros,
                    second: Pair {
                        first: repeats,
                        second: literals,
                    },
                },
            },
        },
    };
    peep(alloc, c, starts, &rules)
}
