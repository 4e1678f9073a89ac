// Whether a flow is simplified already.

ghost use Rattle.std.specs.Prelude.{◌≡◌, ◌↔◌, true, All, map};
ghost use Rattle.cps_rules.specs.Simplified as simplified;
ghost use Rattle.cps_rules.specs.Simplified.{EachLet};
ghost use Rattle.flow_ir.specs.View.{tree_view, label_view};
ghost use Rattle.nova_middle.specs.Rules as rules;
ghost use Rattle.nova_middle.specs.inner.Simple.{IsLeft, IsSimple};

use crate::rules::{leaves_first, leaves_nothing, leaves_second};
use flow_ir::uses::mentions;
use flow_ir::{Label, Tree};
use flow_merge::is_literal;
use nv_base::Prim;

// Whether a rule answers a primitive.
fn is_answered(p: Prim) -> bool
    ensures { result ≡ rules.is_answered p }
{
    match p {
        Prim::Same(_) => false,
        Prim::Una(_, a) => is_literal(a),
        Prim::Bin(op, a, b) => {
            let is_known = is_literal(a) && is_literal(b);
            is_known || leaves_first(op, a, b) || leaves_second(op, a) || leaves_nothing(op, a, b)
        }
    }
}

// Whether a primitive is just an operand.
fn is_same(p: Prim) -> bool
    ensures { result ≡ simplified.is_same p }
{
    match p {
        Prim::Same(_) => true,
        Prim::Una(_, _) => false,
        Prim::Bin(_, _, _) => false,
    }
}

// Whether simplification would leave each `Let` of a tree as it is.
fn is_simple(t: &Tree) -> bool
    ensures { result ≡ true ↔ EachLet IsLeft (tree_view t.now) }
{
    let mut cur = t;
    'spine: loop {
        match cur {
            Tree::Let(x, p, rest) => {
                if is_answered(*p) || is_same(*p) || !mentions(*x, rest) {
                    return false;
                }
                cur = rest;
            }
            Tree::Read(_, _, _, rest) => cur = rest,
            Tree::Write(_, _, _, rest) => cur = rest,
            Tree::If(_, _, _, first, second) => {
                if !is_simple(first) {
                    return false;
                }
                cur = second;
            }
            Tree::Jump(_, _) => return true,
            Tree::Halt(_, _) => return true,
        }
    }
}

/// Whether it would leave these labels as they are.
pub fn are_simple(labels: &[Label]) -> bool
    ensures { result ≡ true ↔ All IsSimple (map label_view labels.now) }
{
    for l in labels {
        if !is_simple(&l.body) {
            return false;
        }
    }
    true
}
