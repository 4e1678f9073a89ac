// How large a form is.

ghost use Rattle.std.specs.Prelude.{◌≡◌, ◌+◌, IfOk, length};
ghost use Rattle.ssu_ir.specs.Measures as measures;
ghost use Rattle.ssu_ir.specs.Slots.{node_of};
ghost use Rattle.ssu_ir.specs.View.{labels_view};
ghost use Rattle.ssu_ir.specs.inner.Sizes as sizes;

use crate::node::SsuNode;
use crate::ssu::Ssu;
use crate::walk::{push_successors, starts};
use nv_base::NoMemory;
use std::alloc::Global;

/// The number of points, values and uses together.
pub fn size(alloc: Global, s: &Ssu) -> Result<u64, NoMemory>
    ensures { IfOk result (λ n. n ≡ measures.size (labels_view s.now)) }
{
    let mut total = entries_size(s)?;
    let mut work = starts(alloc, s)?;
    'walk: while let Some(id) = work.pop() {
        let n = s.node(id);
        total = sum(total, node_size(n)?)?;
        push_successors(&mut work, n)?;
    }
    Ok(total)
}

// The sum, where it is below 2^64.
fn sum(m: u64, n: u64) -> Result<u64, NoMemory>
    ensures { IfOk result (λ k. k ≡ m + n) }
{
    match m.checked_add(n) {
        Some(k) => Ok(k),
        None => Err(NoMemory),
    }
}

// The entries of the labels, with their parameters.
fn entries_size(s: &Ssu) -> Result<u64, NoMemory>
    ensures { IfOk result (λ n. n ≡ sizes.entries_size s.now.labels.items) }
{
    let mut total: u64 = 0;
    for l in &s.labels {
        total = sum(total, sum(1, l.params.len() as u64)?)?;
    }
    Ok(total)
}

// One node, with the values that it defines and its uses.
fn node_size(n: &SsuNode) -> Result<u64, NoMemory>
    ensures { IfOk result (λ k. k ≡ measures.node_size (node_of n.now)) }
{
    match n {
        SsuNode::Lit(_, _, _) => Ok(2),
        SsuNode::Una(_, _, _, _) => Ok(3),
        SsuNode::Bin(_, _, _, _, _) => Ok(4),
        SsuNode::Clone(_, _, _) => Ok(1),
        SsuNode::Read(_, xs, _, _) => sum(2, xs.len() as u64),
        SsuNode::Write(_, _, xs, _) => sum(2, xs.len() as u64),
        SsuNode::If(_, _, _, _, _) => Ok(3),
        SsuNode::Jump(_, xs) => sum(1, xs.len() as u64),
        SsuNode::Halt(_, xs) => sum(1, xs.len() as u64),
    }
}
