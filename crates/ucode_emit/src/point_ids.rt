//! The points of a form in order.

ghost use Rattle.std.specs.Prelude.{◌≡◌, ℕ, suc, ◌+◌, ◌<◌, ◌∷◌, [], List, ◌++◌, reverse, length, map, All, IfOk, OnOk};
ghost use Rattle.ssu_ir.specs.Slots.{node_of, bare, preorder};
ghost use Rattle.ssu_ir.specs.View.{labels_view};
ghost use Rattle.ssu_ir.specs.Work.{nums};
ghost use Rattle.ssu_liveness.specs.inner.Live.{label_tree};
ghost use Rattle.ucode_emit.specs.inner.Marks.{marks, tree_marks};
ghost use Rattle.ucode_emit.specs.inner.EmittedPoints.{point_mark, IsEmittedPoint, on_stack, Pops, Counts, entries_of_points};

use nv_base::NoMemory;
use place_plan::point_number;
use ssu_ir::{NodeId, Ssu, SsuNode, walk};
use std::alloc::Global;

/// A point: the entry of a label, or a node, and where it forks the number of points of its first arm.
#[derive(Clone, Copy)]
pub enum EmittedPoint {
    Entry(usize),
    Node(NodeId, u32),
}

/// The sum, where it fits.
pub fn plus(m: u32, n: u32) -> Result<u32, NoMemory>
    ensures { IfOk result (λ k. k ≡ m + n) }
{
    match m.checked_add(n) {
        Some(k) => Ok(k),
        None => Err(NoMemory),
    }
}

// The numbers of a label's nodes in preorder.
fn label_order(alloc: Global, s: &Ssu, l: usize) -> Result<Vec<NodeId>, NoMemory>
    requires { l < length s.now.labels.items }
    ensures { IfOk result (λ v. nums v.items ≡ preorder (label_tree s.now l)) }
{
    let mut order = Vec::new(alloc);
    let mut work = Vec::new(alloc);
    work.push(s.labels[l].body)?;
    'walk: while let Some(id) = work.pop() {
        order.push(id)?;
        walk::push_successors(&mut work, s.node(id))?;
    }
    Ok(order)
}

// The top of a stack.
fn take_count(counts: &mut Vec<u32>) -> u32
    ensures { Pops counts.old.items counts.new.items result }
{
    match counts.pop() {
        Some(n) => n,
        None => 0,
    }
}

// Counts the nodes of a fork's tree; those of its first arm.
fn count_fork(counts: &mut Vec<u32>) -> Result<u32, NoMemory>
    ensures { IfOk result (λ n. (a b : ℕ) (cs : List ℕ) → reverse counts.old.items ≡ a ∷ b ∷ cs → (n ≡ a) × (reverse counts.new.items ≡ suc (a + b) ∷ cs)) }
{
    let first = take_count(counts);
    let second = take_count(counts);
    let both = plus(first, second)?;
    counts.push(plus(both, 1)?)?;
    Ok(first)
}

// Counts the nodes of the tree of a node with one tree below it.
fn count_step(counts: &mut Vec<u32>) -> Result<u32, NoMemory>
    ensures { IfOk result (λ n. (n ≡ 0) × ((c : ℕ) (cs : List ℕ) → reverse counts.old.items ≡ c ∷ cs → reverse counts.new.items ≡ suc c ∷ cs)) }
{
    let below = take_count(counts);
    counts.push(plus(below, 1)?)?;
    Ok(0)
}

// Counts the nodes of a node's tree, by those of the trees below it, which are taken from a stack; those of
// its first arm, where it forks, else 0.
fn count_node(counts: &mut Vec<u32>, n: &SsuNode) -> Result<u32, NoMemory>
    ensures { IfOk result (λ k. Counts (node_of n.now) counts.old.items counts.new.items k) }
{
    match n {
        SsuNode::Lit(_, _, _) => count_step(counts),
        SsuNode::Una(_, _, _, _) => count_step(counts),
        SsuNode::Bin(_, _, _, _, _) => count_step(counts),
        SsuNode::Clone(_, _, _) => count_step(counts),
        SsuNode::Read(_, _, _, _) => count_step(counts),
        SsuNode::Write(_, _, _, _) => count_step(counts),
        SsuNode::If(_, _, _, _, _) => count_fork(counts),
        SsuNode::Jump(_, _) => count_end(counts),
        SsuNode::Halt(_, _) => count_end(counts),
    }
}

// Counts the node of a tree that has no more.
fn count_end(counts: &mut Vec<u32>) -> Result<u32, NoMemory>
    ensures { IfOk result (λ n. (n ≡ 0) × (reverse counts.new.items ≡ 1 ∷ reverse counts.old.items)) }
{
    counts.push(1)?;
    Ok(0)
}

// The points of a label's nodes, as a stack whose top is the first.
fn label_point_ids(alloc: Global, s: &Ssu, l: usize) -> Result<Vec<EmittedPoint>, NoMemory>
    requires { l < length s.now.labels.items }
    ensures marks { IfOk result (λ v. on_stack s.now v.items ≡ tree_marks (bare (label_tree s.now l))) }
    ensures there { IfOk result (λ v. All (IsEmittedPoint s.now) v.items) }
{
    let mut order = label_order(alloc, s, l)?;
    let mut counts = Vec::new(alloc);
    let mut point_ids = Vec::new(alloc);
    'walk: while let Some(id) = order.pop() {
        let arm = count_node(&mut counts, s.node(id))?;
        point_ids.push(EmittedPoint::Node(id, arm))?;
    }
    Ok(point_ids)
}

// Puts the points of a stack behind others, its top first.
fn unstack(point_ids: &mut Vec<EmittedPoint>, stack: Vec<EmittedPoint>) -> Result<(), NoMemory>
    ensures { OnOk result (point_ids.new.items ≡ point_ids.old.items ++ reverse stack.items) }
{
    let mut left = stack;
    'walk: while let Some(point_id) = left.pop() {
        point_ids.push(point_id)?;
    }
    Ok(())
}

/// All points in order.
pub fn point_ids_of(alloc: Global, s: &Ssu) -> Result<Vec<EmittedPoint>, NoMemory>
    ensures marks { IfOk result (λ v. map (point_mark s.now) v.items ≡ marks (labels_view s.now)) }
    ensures there { IfOk result (λ v. All (IsEmittedPoint s.now) v.items) }
{
    let mut point_ids = Vec::new(alloc);
    for l in 0..s.labels.len() {
        point_ids.push(EmittedPoint::Entry(l))?;
        unstack(&mut point_ids, label_point_ids(alloc, s, l)?)?;
    }
    Ok(point_ids)
}

/// For each label the point at which it begins.
pub fn entries_of(alloc: Global, point_ids: &[EmittedPoint]) -> Result<Vec<u32>, NoMemory>
    ensures { IfOk result (λ v. v.items ≡ entries_of_points 0 point_ids.now) }
{
    let mut entries = Vec::new(alloc);
    for k in 0..point_ids.len() {
        push_entry(&mut entries, point_ids[k], k)?;
    }
    Ok(entries)
}

// One entry more, where a label begins at the point.
fn push_entry(entries: &mut Vec<u32>, point_id: EmittedPoint, k: usize) -> Result<(), NoMemory>
    ensures { OnOk result (entries.new.items ≡ entries.old.items ++ entries_of_points k (point_id ∷ [])) }
{
    match point_id {
        EmittedPoint::Entry(_) => entries.push(point_number(k)?)?,
        EmittedPoint::Node(_, _) => {}
    }
    Ok(())
}
