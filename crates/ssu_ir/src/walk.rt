//! What a walk over the nodes has still to do, as a stack of their numbers, the next one last. So no
//! walk goes down a long tree by recursion.

ghost use Rattle.std.specs.Prelude.{◌≡◌, ◌++◌, map, reverse, IfOk, OnOk};
ghost use Rattle.ssu_ir.specs.Slots.{successors_of, bodies, preorder_all};
ghost use Rattle.ssu_ir.specs.View.{placed_of};
ghost use Rattle.ssu_ir.specs.Work.{tops, nums};

use crate::node::{NodeId, SsuNode};
use crate::ssu::Ssu;
use nv_base::NoMemory;
use std::alloc::{AllocError, Global};

/// The bodies of the labels, that of label 0 next.
pub fn starts(alloc: Global, s: &Ssu) -> Result<Vec<NodeId>, NoMemory>
    ensures { IfOk result (λ v. tops v.items ≡ bodies s.now.labels.items) }
{
    let v = bodies_backwards(alloc, s)?;
    Ok(v)
}

// The bodies of the labels, the last first.
fn bodies_backwards(alloc: Global, s: &Ssu) -> Result<Vec<NodeId>, AllocError>
    ensures { IfOk result (λ v. v.items ≡ map (λ l. l.body) (reverse s.now.labels.items)) }
{
    s.labels.iter().rev().map(|l| l.body).collect(alloc)
}

/// The children of a node come next, the first arm before the second.
pub fn push_successors(work: &mut Vec<NodeId>, n: &SsuNode) -> Result<(), NoMemory>
    ensures { OnOk result (tops work.new.items ≡ successors_of n.now ++ tops work.old.items) }
{
    match n {
        SsuNode::Lit(_, _, k) => work.push(*k)?,
        SsuNode::Una(_, _, _, k) => work.push(*k)?,
        SsuNode::Bin(_, _, _, _, k) => work.push(*k)?,
        SsuNode::Clone(_, _, k) => work.push(*k)?,
        SsuNode::Read(_, _, _, k) => work.push(*k)?,
        SsuNode::Write(_, _, _, k) => work.push(*k)?,
        SsuNode::If(_, _, _, first, second) => {
            work.push(*second)?;
            work.push(*first)?;
        }
        SsuNode::Jump(_, _) => {}
        SsuNode::Halt(_, _) => {}
    }
    Ok(())
}

/// The numbers of all nodes, label by label, each node before those after it and a first arm before
/// the second.
pub fn preorder(alloc: Global, s: &Ssu) -> Result<Vec<NodeId>, NoMemory>
    ensures { IfOk result (λ v. nums v.items ≡ preorder_all (placed_of s.now)) }
{
    let mut order = Vec::new(alloc);
    let mut work = starts(alloc, s)?;
    'walk: while let Some(id) = work.pop() {
        order.push(id)?;
        push_successors(&mut work, s.node(id))?;
    }
    Ok(order)
}
