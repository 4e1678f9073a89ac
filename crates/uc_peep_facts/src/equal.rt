// Whether two facts are one.

ghost use Rattle.std.specs.Prelude.{◌≡◌, true};

use crate::fact::{Fact, Part};
use nv_base::Bin;
use uc_isa::{Dst, Instr, Src, UnOp};
use uc_peep::is_same_source;

pub(crate) fn is_same_operand(x: &Src, y: &Src) -> bool
    ensures { result ≡ true → x.now ≡ y.now }
{
    is_same_source(x, y)
}

fn is_same_dst(d: &Dst, e: &Dst) -> bool
    ensures { result ≡ true → d.now ≡ e.now }
{
    match (d, e) {
        (Dst::A(r), Dst::A(q)) => r.number == q.number,
        (Dst::B(r), Dst::B(q)) => r.number == q.number,
        (Dst::S(r), Dst::S(q)) => r.number == q.number,
        (Dst::SD(r), Dst::SD(q)) => r.number == q.number,
        (Dst::Nowhere, Dst::Nowhere) => true,
        _ => false,
    }
}

fn is_same_bin(o: &Bin, p: &Bin) -> bool
    ensures { result ≡ true → o.now ≡ p.now }
{
    match (o, p) {
        (Bin::Add, Bin::Add) => true,
        (Bin::Sub, Bin::Sub) => true,
        (Bin::And, Bin::And) => true,
        (Bin::Or, Bin::Or) => true,
        (Bin::Xor, Bin::Xor) => true,
        _ => false,
    }
}

fn is_same_un(o: &UnOp, p: &UnOp) -> bool
    ensures { result ≡ true → o.now ≡ p.now }
{
    match (o, p) {
        (UnOp::Copy, UnOp::Copy) => true,
        (UnOp::Not, UnOp::Not) => true,
        (UnOp::Shl(k), UnOp::Shl(j)) => *k == *j,
        (UnOp::Shr(k), UnOp::Shr(j)) => *k == *j,
        (UnOp::Rol(k), UnOp::Rol(j)) => *k == *j,
        _ => false,
    }
}

// Whether two straight instructions are one.
fn is_same_instr(i: &Instr, j: &Instr) -> bool
    ensures { result ≡ true → i.now ≡ j.now }
{
    match (i, j) {
        (
            Instr::Alu { dst, op, x, y },
            Instr::Alu {
                dst: e,
                op: o,
                x: u,
                y: v,
            },
        ) => {
            is_same_dst(dst, e)
                && is_same_bin(op, o)
                && is_same_operand(x, u)
                && is_same_operand(y, v)
        }
        (
            Instr::Un { dst, op, x },
            Instr::Un {
                dst: e,
                op: o,
                x: u,
            },
        ) => { is_same_dst(dst, e) && is_same_un(op, o) && is_same_operand(x, u) }
        (Instr::Immed { dst, v, s }, Instr::Immed { dst: e, v: w, s: n }) => {
            is_same_dst(dst, e) && *v == *w && *s == *n
        }
        _ => false,
    }
}

fn is_same_part(a: &Part, b: &Part) -> bool
    ensures { result ≡ true → a.now ≡ b.now }
{
    match (a, b) {
        (Part::Target, Part::Target) => true,
        (Part::Zero, Part::Zero) => true,
        (Part::Flags, Part::Flags) => true,
        _ => false,
    }
}

pub(crate) fn is_same_fact(f: &Fact, g: &Fact) -> bool
    ensures { result ≡ true → f.now ≡ g.now }
{
    is_same_part(&f.part, &g.part) && is_same_instr(&f.instr, &g.instr)
}
