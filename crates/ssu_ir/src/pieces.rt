// What a node names, defines and uses, as slices of it.

ghost use Rattle.std.specs.Prelude.{◌≡◌, ◌++◌};
ghost use Rattle.ssu_ir.specs.Slots.{node_of, successors_of};
ghost use Rattle.ssu_ir.specs.Tree.{node_values, node_uses};
ghost use Rattle.ssu_ir.specs.inner.Checks.{node_names, node_clones, node_results, node_clones_from, node_number, node_fresh_after};
ghost use Rattle.ssu_ir.specs.inner.Under.{successor_numbers};

use crate::node::{NodeId, SsuNode};
use std::slice::from_ref;

/// The nodes after a node.
pub enum NextNodes {
    None,
    One(NodeId),
    Two(NodeId, NodeId),
}

/// The nodes that follow.
pub fn successors(n: &SsuNode) -> NextNodes
    ensures { successor_numbers result ≡ successors_of n.now }
{
    match n {
        SsuNode::Lit(_, _, k) => NextNodes::One(*k),
        SsuNode::Una(_, _, _, k) => NextNodes::One(*k),
        SsuNode::Bin(_, _, _, _, k) => NextNodes::One(*k),
        SsuNode::Clone(_, _, k) => NextNodes::One(*k),
        SsuNode::Read(_, _, _, k) => NextNodes::One(*k),
        SsuNode::Write(_, _, _, k) => NextNodes::One(*k),
        SsuNode::If(_, _, _, first, second) => NextNodes::Two(*first, *second),
        SsuNode::Jump(_, _) => NextNodes::None,
        SsuNode::Halt(_, _) => NextNodes::None,
    }
}

/// The operands in two pieces; the source of a `Clone` is one.
pub fn operands(n: &SsuNode) -> (&[u32], &[u32])
    ensures { result.0.now ++ result.1.now ≡ node_names (node_of n.now) }
{
    match n {
        SsuNode::Lit(_, _, _) => (&[], &[]),
        SsuNode::Una(_, _, y, _) => (from_ref(y), &[]),
        SsuNode::Bin(_, _, y, z, _) => (from_ref(y), from_ref(z)),
        SsuNode::Clone(_, y, _) => (from_ref(y), &[]),
        SsuNode::Read(_, _, y, _) => (from_ref(y), &[]),
        SsuNode::Write(_, y, xs, _) => (from_ref(y), xs),
        SsuNode::If(_, x, y, _, _) => (from_ref(x), from_ref(y)),
        SsuNode::Jump(_, xs) => (&[], xs),
        SsuNode::Halt(_, xs) => (&[], xs),
    }
}

/// The uses in two pieces: the operands, but of a `Clone` none.
pub fn uses(n: &SsuNode) -> (&[u32], &[u32])
    ensures { result.0.now ++ result.1.now ≡ node_uses (node_of n.now) }
{
    match n {
        SsuNode::Lit(_, _, _) => (&[], &[]),
        SsuNode::Una(_, _, y, _) => (from_ref(y), &[]),
        SsuNode::Bin(_, _, y, z, _) => (from_ref(y), from_ref(z)),
        SsuNode::Clone(_, _, _) => (&[], &[]),
        SsuNode::Read(_, _, y, _) => (from_ref(y), &[]),
        SsuNode::Write(_, y, xs, _) => (from_ref(y), xs),
        SsuNode::If(_, x, y, _, _) => (from_ref(x), from_ref(y)),
        SsuNode::Jump(_, xs) => (&[], xs),
        SsuNode::Halt(_, xs) => (&[], xs),
    }
}

/// The values that a node defines.
pub fn values(n: &SsuNode) -> &[u32]
    ensures { result.now ≡ node_values (node_of n.now) }
{
    match n {
        SsuNode::Lit(x, _, _) => from_ref(x),
        SsuNode::Una(x, _, _, _) => from_ref(x),
        SsuNode::Bin(x, _, _, _, _) => from_ref(x),
        SsuNode::Clone(_, _, _) => &[],
        SsuNode::Read(_, xs, _, _) => xs,
        SsuNode::Write(_, _, _, _) => &[],
        SsuNode::If(_, _, _, _, _) => &[],
        SsuNode::Jump(_, _) => &[],
        SsuNode::Halt(_, _) => &[],
    }
}

/// The clones that a node defines.
pub fn clones(n: &SsuNode) -> &[u32]
    ensures { result.now ≡ node_clones (node_of n.now) }
{
    match n {
        SsuNode::Lit(_, _, _) => &[],
        SsuNode::Una(_, _, _, _) => &[],
        SsuNode::Bin(_, _, _, _, _) => &[],
        SsuNode::Clone(xs, _, _) => xs,
        SsuNode::Read(_, _, _, _) => &[],
        SsuNode::Write(_, _, _, _) => &[],
        SsuNode::If(_, _, _, _, _) => &[],
        SsuNode::Jump(_, _) => &[],
        SsuNode::Halt(_, _) => &[],
    }
}

/// Those of them that are clones of `z`.
pub fn clones_from(n: &SsuNode, z: u32) -> &[u32]
    ensures { result.now ≡ node_clones_from (node_of n.now) z }
{
    match n {
        SsuNode::Lit(_, _, _) => &[],
        SsuNode::Una(_, _, _, _) => &[],
        SsuNode::Bin(_, _, _, _, _) => &[],
        SsuNode::Clone(xs, y, _) => { if z == *y { xs } else { &[] } }
        SsuNode::Read(_, _, _, _) => &[],
        SsuNode::Write(_, _, _, _) => &[],
        SsuNode::If(_, _, _, _, _) => &[],
        SsuNode::Jump(_, _) => &[],
        SsuNode::Halt(_, _) => &[],
    }
}

/// The values that have to be used.
pub fn results(n: &SsuNode) -> &[u32]
    ensures { result.now ≡ node_results (node_of n.now) }
{
    match n {
        SsuNode::Lit(x, _, _) => from_ref(x),
        SsuNode::Una(x, _, _, _) => from_ref(x),
        SsuNode::Bin(x, _, _, _, _) => from_ref(x),
        SsuNode::Clone(_, _, _) => &[],
        SsuNode::Read(_, _, _, _) => &[],
        SsuNode::Write(_, _, _, _) => &[],
        SsuNode::If(_, _, _, _, _) => &[],
        SsuNode::Jump(_, _) => &[],
        SsuNode::Halt(_, _) => &[],
    }
}

/// The values whose clones may stand after a node, where `fresh` may stand before it.
pub fn fresh_below<'a>(n: &'a SsuNode, fresh: &'a [u32]) -> &'a [u32]
    ensures { result.now ≡ node_fresh_after fresh.now (node_of n.now) }
{
    match n {
        SsuNode::Lit(x, _, _) => from_ref(x),
        SsuNode::Una(x, _, _, _) => from_ref(x),
        SsuNode::Bin(x, _, _, _, _) => from_ref(x),
        SsuNode::Clone(_, _, _) => fresh,
        SsuNode::Read(_, xs, _, _) => xs,
        SsuNode::Write(_, _, _, _) => &[],
        SsuNode::If(_, _, _, _, _) => &[],
        SsuNode::Jump(_, _) => &[],
        SsuNode::Halt(_, _) => &[],
    }
}

/// The number of a literal.
pub fn number(n: &SsuNode) -> Option<u32>
    ensures { result ≡ node_number (node_of n.now) }
{
    match n {
        SsuNode::Lit(_, v, _) => Some(*v),
        SsuNode::Una(_, _, _, _) => None,
        SsuNode::Bin(_, _, _, _, _) => None,
        SsuNode::Clone(_, _, _) => None,
        SsuNode::Read(_, _, _, _) => None,
        SsuNode::Write(_, _, _, _) => None,
        SsuNode::If(_, _, _, _, _) => None,
        SsuNode::Jump(_, _) => None,
        SsuNode::Halt(_, _) => None,
    }
}
