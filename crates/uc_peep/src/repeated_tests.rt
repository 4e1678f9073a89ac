// A test of what the instruction before has tested.

ghost use Rattle.std.specs.Prelude.{◌≡◌};
ghost use Rattle.uc_peep.specs.Needless as spec;
ghost use Rattle.uc_peep.specs.Needless.{is_same_source, repeated_rule};

use crate::needless::is_same;
use crate::{LiveSet, Shorter};
use uc_isa::{Dst, Instr, Src, UnOp};

/// Whether two operands are one register.
pub fn is_same_source(y: &Src, x: &Src) -> bool
    ensures { result ≡ is_same_source y.now x.now }
{
    match (y, x) {
        (Src::A(r), Src::A(q)) => r.number == q.number,
        (Src::B(r), Src::B(q)) => r.number == q.number,
        (Src::L(r), Src::L(q)) => r.number == q.number,
        (Src::LD(r), Src::LD(q)) => r.number == q.number,
        _ => false,
    }
}

fn has_tested(i: &Instr, x: &Src) -> bool
    ensures { result ≡ spec.has_tested i.now x.now }
{
    match i {
        Instr::Alu { dst, .. } => is_same(dst, x),
        Instr::Un {
            dst,
            op: UnOp::Copy,
            x: y,
        } => is_same(dst, x) || is_same_source(y, x),
        Instr::Un { dst, .. } => is_same(dst, x),
        _ => false,
    }
}

fn tests_again(i: &Instr, j: &Instr, after: &LiveSet) -> bool
    ensures { result ≡ spec.tests_again i.now j.now after.now }
{
    match j {
        Instr::Un {
            dst: Dst::Nowhere,
            op: UnOp::Copy,
            x,
        } => has_tested(i, x) && !after.flags().1,
        _ => false,
    }
}

// A test of what the instruction before has tested goes, where the carry isn't live.
pub(crate) fn repeated(w: &[Instr], after: &LiveSet) -> Option<Shorter>
    ensures { result ≡ repeated_rule w.now after.now }
{
    match w {
        [i, j] if tests_again(i, j, after) => Some(Shorter::one(*i)),
        _ => None,
    }
}
