// A zero that is only compared with.

ghost use Rattle.std.specs.Prelude.{◌≡◌};
ghost use Rattle.uc_peep.specs.Needless as spec;
ghost use Rattle.uc_peep.specs.Needless.{zero_rule};

use crate::needless::is_same;
use crate::{LiveSet, Shorter};
use nv_base::Bin;
use uc_isa::{Dst, Instr, UnOp};

fn compares_zero(i: &Instr, j: &Instr, after: &LiveSet) -> bool
    ensures { result ≡ spec.compares_zero i.now j.now after.now }
{
    match (i, j) {
        (
            Instr::Immed { dst, v, .. },
            Instr::Alu {
                dst: Dst::Nowhere,
                op: Bin::Sub,
                y,
                ..
            },
        ) => *v == 0 && is_same(dst, y) && !after.has_dst(*dst) && !after.flags().1,
        _ => false,
    }
}

fn tested(i: &Instr) -> Instr
    ensures { result ≡ spec.tested i.now }
{
    match i {
        Instr::Alu { x, .. } => Instr::Un {
            dst: Dst::Nowhere,
            op: UnOp::Copy,
            x: *x,
        },
        _ => *i,
    }
}

// A comparison with a zero that nothing else needs becomes a copy that tests the other operand, where the carry isn't live.
pub(crate) fn zero(w: &[Instr], after: &LiveSet) -> Option<Shorter>
    ensures { result ≡ zero_rule w.now after.now }
{
    match w {
        [i, j] if compares_zero(i, j, after) => Some(Shorter::one(tested(j))),
        _ => None,
    }
}
