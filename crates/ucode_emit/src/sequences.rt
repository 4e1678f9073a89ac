//! The single moves of the parallel move of each point.

ghost use Rattle.std.specs.Prelude.{◌≡◌, ◌+◌, ◌<◌, [], map, All, IfOk, length, slice_get};
ghost use Rattle.ssu_ir.specs.Points.{Entry};
ghost use Rattle.ssu_ir.specs.Slots.{node_of};
ghost use Rattle.ssu_ir.specs.Tree.{node_uses};
ghost use Rattle.ssu_ir.specs.View.{labels_view};
ghost use Rattle.place_plan.specs.Fits.{Rises};
ghost use Rattle.place_plan.specs.Plan.{plan_view};
ghost use Rattle.ssu_liveness.specs.inner.PointIds.{params_of};
ghost use Rattle.ucode_emit.specs.Moves.{HaveOwnTargets, SpareTemporary};
ghost use Rattle.ucode_emit.specs.inner.Cursors.{place_operands};
ghost use Rattle.ucode_emit.specs.inner.Layers.{Placed};
ghost use Rattle.ucode_emit.specs.inner.Marks.{marks};
ghost use Rattle.ucode_emit.specs.Pieces.{parallel_moves};
ghost use Rattle.ucode_emit.specs.Emits.{IsSequence, AreSequences};
ghost use Rattle.ucode_emit.specs.inner.EmittedPoints.{point_mark, IsEmittedPoint};
ghost use Rattle.ucode_emit.specs.inner.Walk.{node_ends, place_ends, HasFew, moves_of};

use crate::cursor::take_serves;
use crate::moves::Move;
use crate::point_ids::EmittedPoint;
use crate::together::{sequence_entry, sequence_served};
use nv_base::NoMemory;
use place_plan::{Placement, Serve};
use ssu_ir::{Ssu, SsuNode};
use std::alloc::Global;

// How many operands a node has.
fn node_operands(n: &SsuNode) -> Result<usize, NoMemory>
    ensures { IfOk result (λ k. k ≡ length (node_uses (node_of n.now))) }
{
    match n {
        SsuNode::Lit(_, _, _) => Ok(0),
        SsuNode::Una(_, _, _, _) => Ok(1),
        SsuNode::Bin(_, _, _, _, _) => Ok(2),
        SsuNode::Clone(_, _, _) => Ok(0),
        SsuNode::Read(_, _, _, _) => Ok(1),
        SsuNode::Write(_, _, xs, _) => one_more(xs.len()),
        SsuNode::If(_, _, _, _, _) => Ok(2),
        SsuNode::Jump(_, xs) => Ok(xs.len()),
        SsuNode::Halt(_, xs) => Ok(xs.len()),
    }
}

fn one_more(n: usize) -> Result<usize, NoMemory>
    ensures { IfOk result (λ k. k ≡ n + 1) }
{
    match n.checked_add(1) {
        Some(k) => Ok(k),
        None => Err(NoMemory),
    }
}

/// How many operands a point has.
pub fn operands(s: &Ssu, point_id: EmittedPoint) -> Result<usize, NoMemory>
    requires { IsEmittedPoint s.now point_id }
    ensures { IfOk result (λ n. n ≡ place_operands (point_mark s.now point_id).place) }
{
    match point_id {
        EmittedPoint::Entry(_) => Ok(0),
        EmittedPoint::Node(id, _) => node_operands(s.node(id)),
    }
}

// Of a node, whose operands are served so.
fn sequence_node(alloc: Global, n: &SsuNode, serves: &[Serve]) -> Result<Vec<Move>, NoMemory>
    requires targets { HaveOwnTargets (node_ends serves.now (node_of n.now)) }
    requires spare { SpareTemporary (node_ends serves.now (node_of n.now)) }
    ensures { IfOk result (λ ms. IsSequence (node_ends serves.now (node_of n.now)) ms.items) }
{
    match n {
        SsuNode::Lit(_, _, _) => nothing(alloc),
        SsuNode::Una(_, _, _, _) => nothing(alloc),
        SsuNode::Bin(_, _, _, _, _) => nothing(alloc),
        SsuNode::Clone(_, _, _) => nothing(alloc),
        SsuNode::Read(_, _, _, _) => nothing(alloc),
        SsuNode::Write(_, _, _, _) => nothing(alloc),
        SsuNode::If(_, _, _, _, _) => nothing(alloc),
        SsuNode::Jump(_, _) => sequence_served(alloc, serves),
        SsuNode::Halt(_, _) => sequence_served(alloc, serves),
    }
}

// No moves.
fn nothing(alloc: Global) -> Result<Vec<Move>, NoMemory>
    ensures { IfOk result (λ ms. IsSequence [] ms.items) }
{
    Ok(Vec::new(alloc))
}

// Of the entry of a label: only those of label 0 come in registers.
fn sequence_front(alloc: Global, s: &Ssu, p: &Placement, l: usize) -> Result<Vec<Move>, NoMemory>
    requires there { l < length s.now.labels.items }
    requires homes { Rises (map (λ h. h.var) (plan_view p.now).homes) }
    requires few { HasFew (Entry l (params_of (slice_get s.now.labels.items l))) }
    requires targets { HaveOwnTargets (place_ends (plan_view p.now) [] (Entry l (params_of (slice_get s.now.labels.items l)))) }
    requires spare { SpareTemporary (place_ends (plan_view p.now) [] (Entry l (params_of (slice_get s.now.labels.items l)))) }
    ensures { IfOk result (λ ms. IsSequence (place_ends (plan_view p.now) [] (Entry l (params_of (slice_get s.now.labels.items l)))) ms.items) }
{
    if l == 0 {
        sequence_entry(alloc, p, &s.labels[l].params)
    } else {
        nothing(alloc)
    }
}

// Of a point, whose operands are served so.
fn sequence_point(
    alloc: Global,
    s: &Ssu,
    p: &Placement,
    point_id: EmittedPoint,
    serves: &[Serve],
) -> Result<Vec<Move>, NoMemory>
    requires there { IsEmittedPoint s.now point_id }
    requires homes { Rises (map (λ h. h.var) (plan_view p.now).homes) }
    requires few { HasFew (point_mark s.now point_id).place }
    requires targets { HaveOwnTargets (place_ends (plan_view p.now) serves.now (point_mark s.now point_id).place) }
    requires spare { SpareTemporary (place_ends (plan_view p.now) serves.now (point_mark s.now point_id).place) }
    ensures { IfOk result (λ ms. IsSequence (place_ends (plan_view p.now) serves.now (point_mark s.now point_id).place) ms.items) }
{
    match point_id {
        EmittedPoint::Entry(l) => sequence_front(alloc, s, p, l),
        EmittedPoint::Node(id, _) => sequence_node(alloc, s.node(id), serves),
    }
}

/// Of each point in order.
pub fn sequences_of(
    alloc: Global,
    s: &Ssu,
    p: &Placement,
    point_ids: &[EmittedPoint],
) -> Result<Vec<Vec<Move>>, NoMemory>
    requires placed { Placed (labels_view s.now) (plan_view p.now) }
    requires point_ids { map (point_mark s.now) point_ids.now ≡ marks (labels_view s.now) }
    requires there { All (IsEmittedPoint s.now) point_ids.now }
    ensures { IfOk result (λ v. AreSequences (parallel_moves (plan_view p.now) (labels_view s.now)) (moves_of v.items)) }
{
    let mut sequences = Vec::new(alloc);
    let mut at = 0;
    for k in 0..point_ids.len() {
        let point_id = point_ids[k];
        let n = operands(s, point_id)?;
        let serves = take_serves(&p.serves, &mut at, n);
        sequences.push(sequence_point(alloc, s, p, point_id, serves)?)?;
    }
    Ok(sequences)
}
