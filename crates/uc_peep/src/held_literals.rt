// A literal that its register holds already.

ghost use Rattle.std.specs.Prelude.{◌≡◌, ◌∷◌, []};
ghost use Rattle.uc_peep.specs.Needless as spec;
ghost use Rattle.uc_peep.specs.Needless.{held_rule, is_same_target};

use crate::{LiveSet, Shorter};
use uc_isa::{Dst, Instr};

fn is_same_target(d: &Dst, e: &Dst) -> bool
    ensures { result ≡ is_same_target d.now e.now }
{
    match (d, e) {
        (Dst::A(r), Dst::A(q)) => r.number == q.number,
        (Dst::B(r), Dst::B(q)) => r.number == q.number,
        (Dst::S(r), Dst::S(q)) => r.number == q.number,
        (Dst::SD(r), Dst::SD(q)) => r.number == q.number,
        _ => false,
    }
}

// Whether the instruction leaves the register of a target as it was.
fn leaves(d: &Dst, m: &Instr) -> bool
    ensures { result ≡ spec.leaves d.now m.now }
{
    match m {
        Instr::Alu { dst, .. } => !is_same_target(d, dst),
        Instr::Un { dst, .. } => !is_same_target(d, dst),
        Instr::Immed { dst, .. } => !is_same_target(d, dst),
        _ => false,
    }
}

// Whether the last puts the literal that the first put there, and the one between leaves it.
fn puts_again(i: &Instr, m: &Instr, l: &Instr) -> bool
    ensures { result ≡ spec.puts_again i.now m.now l.now }
{
    match (i, l) {
        (Instr::Immed { dst: d, v, s }, Instr::Immed { dst: e, v: w, s: n }) => {
            is_same_target(d, e) && *v == *w && *s == *n && leaves(d, m)
        }
        _ => false,
    }
}

fn two(i: Instr, j: Instr) -> Shorter
    ensures { result ≡ i ∷ j ∷ [] }
{
    let mut shorter = Shorter::one(i);
    shorter.push(j);
    shorter
}

fn three(i: Instr, j: Instr, k: Instr) -> Shorter
    ensures { result ≡ i ∷ j ∷ k ∷ [] }
{
    let mut shorter = two(i, j);
    shorter.push(k);
    shorter
}

// A literal goes where its register holds it already, from two or three instructions before.
pub(crate) fn held(w: &[Instr], after: &LiveSet) -> Option<Shorter>
    ensures { result ≡ held_rule w.now after.now }
{
    match w {
        [i, j, l] if puts_again(i, j, l) => Some(two(*i, *j)),
        [i, j, k, l] if puts_again(i, j, l) && puts_again(i, k, l) => Some(three(*i, *j, *k)),
        _ => None,
    }
}
