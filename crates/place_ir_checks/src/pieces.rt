//! What a node uses, by the number of the operand.

ghost use Rattle.std.specs.Prelude.{◌≡◌, length, slice_index_or};
ghost use Rattle.ssu_ir.specs.Slots.{node_of};
ghost use Rattle.ssu_ir.specs.Tree as tree;
ghost use Rattle.place_ir_checks.specs.inner.NodeLookups.{node_role};
ghost use Rattle.place_plan.specs.inner.UseViews.{role_view};

use place_plan::Role;
use ssu_ir::{SsuNode, uses};

/// How many names a node uses.
pub fn use_count(n: &SsuNode) -> u128
    ensures { result ≡ length (tree.node_uses (node_of n.now)) }
{
    let (front, rest) = uses(n);
    front.len() as u128 + rest.len() as u128
}

/// The element of a number, or 0 past the last.
pub fn item(xs: &[u32], i: usize) -> u32
    ensures { result ≡ slice_index_or xs.now i 0 }
{
    match xs.get(i) {
        Some(x) => *x,
        None => 0,
    }
}

/// The name of an operand, or 0 where there is none.
pub fn use_name(n: &SsuNode, i: usize) -> u32
    ensures { result ≡ slice_index_or (tree.node_uses (node_of n.now)) i 0 }
{
    let (front, rest) = uses(n);
    if i < front.len() {
        item(front, i)
    } else {
        item(rest, i - front.len())
    }
}

/// What the use of an operand is.
pub fn use_role(n: &SsuNode, i: u8) -> Role
    ensures { role_view result ≡ node_role (node_of n.now) i }
{
    match n {
        SsuNode::Lit(_, _, _) => Role::Operand,
        SsuNode::Una(_, _, _, _) => Role::Operand,
        SsuNode::Bin(_, _, _, _, _) => Role::Operand,
        SsuNode::Clone(_, _, _) => Role::Operand,
        SsuNode::Read(_, _, _, _) => Role::Address,
        SsuNode::Write(m, _, _, _) => {
            if i == 0 {
                Role::Address
            } else {
                Role::Written(*m, (i - 1) as u32)
            }
        }
        SsuNode::If(_, _, _, _, _) => Role::Operand,
        SsuNode::Jump(l, _) => Role::Argument(*l, i as u32),
        SsuNode::Halt(_, _) => Role::Ending(i as u32),
    }
}
