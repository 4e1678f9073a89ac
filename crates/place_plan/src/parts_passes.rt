//! Where accesses begin, and through which registers points read and write slots.

ghost use Rattle.std.specs.Prelude.{◌≡◌, ℕ, ◌++◌, nat_eq, OnOk};
ghost use Rattle.std.specs.HashSet as set;
ghost use Rattle.std.specs.List.{list_any};
ghost use Rattle.ssu_ir.specs.Points.{Entry, At};
ghost use Rattle.ssu_ir.specs.Slots.{node_of};
ghost use Rattle.ssu_ir.specs.Tree.{node_uses, node_values};
ghost use Rattle.place_plan.specs.inner.Parts.{used_of, firsts_at, pass_at};
ghost use Rattle.place_plan.specs.inner.Spilled.{read_pass, write_pass};

use crate::parts::SpillInputs;
use crate::place::{First, Pass};
use crate::used::Used;
use nv_base::NoMemory;
use ssu_ir::SsuNode;

/// The access of a node, if it has one, begins at the first register.
pub fn node_first(firsts: &mut Vec<First>, point: u32, n: &SsuNode) -> Result<(), NoMemory>
    ensures { OnOk result (firsts.new.items ≡ firsts.old.items ++ firsts_at point (At (node_of n.now))) }
{
    match n {
        SsuNode::Lit(_, _, _) => {}
        SsuNode::Una(_, _, _, _) => {}
        SsuNode::Bin(_, _, _, _, _) => {}
        SsuNode::Clone(_, _, _) => {}
        SsuNode::Read(_, _, _, _) => firsts.push(First { point, first: 0 })?,
        SsuNode::Write(_, _, _, _) => firsts.push(First { point, first: 0 })?,
        SsuNode::If(_, _, _, _, _) => {}
        SsuNode::Jump(_, _) => {}
        SsuNode::Halt(_, _) => {}
    }
    Ok(())
}

/// The register through which slots are read where these are used.
fn read_through_for(xs: &[u32]) -> Option<u8>
    ensures { result ≡ read_pass xs.now }
{
    if xs.is_empty() { None } else { Some(0) }
}

/// The register through which a node reads slots.
fn read_through(n: &SsuNode) -> Option<u8>
    ensures { result ≡ read_pass (node_uses (node_of n.now)) }
{
    match n {
        SsuNode::Lit(_, _, _) => None,
        SsuNode::Una(_, _, _, _) => Some(0),
        SsuNode::Bin(_, _, _, _, _) => Some(0),
        SsuNode::Clone(_, _, _) => None,
        SsuNode::Read(_, _, _, _) => Some(0),
        SsuNode::Write(_, _, _, _) => Some(0),
        SsuNode::If(_, _, _, _, _) => Some(0),
        SsuNode::Jump(_, xs) => read_through_for(xs),
        SsuNode::Halt(_, xs) => read_through_for(xs),
    }
}

/// Whether one of these values is used.
fn any_used(used: &Used, xs: &[u32]) -> bool
    ensures { result ≡ list_any (set.contains nat_eq used.now) xs.now }
{
    for x in xs {
        if used.contains(x) {
            return true;
        }
    }
    false
}

/// The register through which slots are written where these are defined.
fn write_through_for(used: &Used, xs: &[u32]) -> Option<u8>
    ensures { result ≡ write_pass (list_any (set.contains nat_eq used.now) xs.now) }
{
    if any_used(used, xs) { Some(0) } else { None }
}

/// The register through which a node writes slots.
fn write_through(used: &Used, n: &SsuNode) -> Option<u8>
    ensures { result ≡ write_pass (list_any (set.contains nat_eq used.now) (node_values (node_of n.now))) }
{
    match n {
        SsuNode::Lit(x, _, _) => write_through_for(used, &[*x]),
        SsuNode::Una(x, _, _, _) => write_through_for(used, &[*x]),
        SsuNode::Bin(x, _, _, _, _) => write_through_for(used, &[*x]),
        SsuNode::Clone(_, _, _) => None,
        SsuNode::Read(_, xs, _, _) => write_through_for(used, xs),
        SsuNode::Write(_, _, _, _) => None,
        SsuNode::If(_, _, _, _, _) => None,
        SsuNode::Jump(_, _) => None,
        SsuNode::Halt(_, _) => None,
    }
}

/// The registers through which slots pass at a node.
pub fn node_pass(given: &SpillInputs, point: u32, n: &SsuNode) -> Pass
    ensures { result ≡ pass_at (used_of given.now) point (At (node_of n.now)) }
{
    Pass {
        point,
        l: read_through(n),
        s: write_through(&given.used, n),
    }
}

/// The registers through which slots pass at an entry.
pub fn entry_pass(given: &SpillInputs, point: u32, params: &[u32]) -> Pass
    ensures { (l : ℕ) → result ≡ pass_at (used_of given.now) point (Entry l params.now) }
{
    Pass {
        point,
        l: None,
        s: write_through_for(&given.used, params),
    }
}
