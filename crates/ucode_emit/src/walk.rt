//! The code of all points.

ghost use Rattle.std.specs.Prelude.{◌≡◌, ◌+◌, ◌<◌, [], ◌++◌, map, drop, length, IfOk, OnOk, slice_index_or};
ghost use Rattle.ssu_ir.specs.Slots.{node_of};
ghost use Rattle.ssu_ir.specs.View.{labels_view};
ghost use Rattle.place_plan.specs.Fits.{Rises};
ghost use Rattle.place_plan.specs.Plan.{plan_view};
ghost use Rattle.ucode_emit.specs.inner.Cursors.{place_operands};
ghost use Rattle.ucode_emit.specs.inner.DraftItems.{draft};
ghost use Rattle.ucode_emit.specs.inner.EmitContext.{IsEmitContext};
ghost use Rattle.ucode_emit.specs.inner.Layers.{Placed};
ghost use Rattle.ucode_emit.specs.inner.Marks.{marks, point_piece};
ghost use Rattle.ucode_emit.specs.Pieces.{sequence_at};
ghost use Rattle.ucode_emit.specs.inner.EmittedPoints.{point_mark, IsEmittedPoint};
ghost use Rattle.ucode_emit.specs.inner.Walk.{AreKnown, IsAt, IsDrafted, mark_at, moves_of, node_branch, place_branch, place_items, CanPlace};

use crate::cursor::{Cursor, take_first, take_pass, take_serves};
use crate::draft::Draft;
use crate::emit_context::EmitContext;
use crate::moves::Move;
use crate::piece::{push_front, push_node};
use crate::point_ids::{EmittedPoint, entries_of, plus, point_ids_of};
use crate::sequences::{operands, sequences_of};
use nv_base::NoMemory;
use place_plan::{Placement, point_number};
use ssu_ir::{Ssu, SsuNode};
use std::alloc::Global;

/// What is known of the points before any code is put down.
#[derive(Drop)]
pub struct Points {
    /// The points in order.
    pub point_ids: Vec<EmittedPoint>,
    /// Of each label the point at which it begins.
    pub entries: Vec<u32>,
    /// Of each point the single moves of its parallel move.
    pub sequences: Vec<Vec<Move>>,
}

/// The points of a form under a placement that fits.
pub fn points_of(alloc: Global, s: &Ssu, p: &Placement) -> Result<Points, NoMemory>
    requires { Placed (labels_view s.now) (plan_view p.now) }
    ensures { IfOk result (λ points. AreKnown s.now (plan_view p.now) points) }
{
    let point_ids = point_ids_of(alloc, s)?;
    let entries = entries_of(alloc, &point_ids)?;
    let sequences = sequences_of(alloc, s, p, &point_ids)?;
    Ok(Points {
        point_ids,
        entries,
        sequences,
    })
}

// The point to which a node branches, 0 where it does not.
fn branch_of(n: &SsuNode, point: u32, arm: u32, entries: &[u32]) -> Result<u32, NoMemory>
    ensures { IfOk result (λ to. to ≡ node_branch point arm entries.now (node_of n.now)) }
{
    match n {
        SsuNode::Lit(_, _, _) => Ok(0),
        SsuNode::Una(_, _, _, _) => Ok(0),
        SsuNode::Bin(_, _, _, _, _) => Ok(0),
        SsuNode::Clone(_, _, _) => Ok(0),
        SsuNode::Read(_, _, _, _) => Ok(0),
        SsuNode::Write(_, _, _, _) => Ok(0),
        SsuNode::If(_, _, _, _, _) => plus(plus(point, 1)?, arm),
        SsuNode::Jump(l, _) => Ok(entry(entries, *l)),
        SsuNode::Halt(_, _) => Ok(0),
    }
}

// The point at which a label begins.
fn entry(entries: &[u32], l: u32) -> u32
    ensures { result ≡ slice_index_or entries.now l 0 }
{
    match entries.get(l as usize) {
        Some(k) => *k,
        None => 0,
    }
}

// The point to which a point branches, 0 where it does not.
fn branch(s: &Ssu, point_id: EmittedPoint, point: u32, entries: &[u32]) -> Result<u32, NoMemory>
    requires { IsEmittedPoint s.now point_id }
    ensures { IfOk result (λ to. to ≡ place_branch point (point_mark s.now point_id).first_arm entries.now (point_mark s.now point_id).place) }
{
    match point_id {
        EmittedPoint::Entry(_) => Ok(0),
        EmittedPoint::Node(id, arm) => branch_of(s.node(id), point, arm, entries),
    }
}

// Adds the code of a point by what is known of it.
fn emit_point(
    alloc: Global,
    code: &mut Draft,
    s: &Ssu,
    p: &Placement,
    point_id: EmittedPoint,
    emit_context: &EmitContext<'_>,
) -> Result<(), NoMemory>
    requires there { IsEmittedPoint s.now point_id }
    requires homes { Rises (map (λ h. h.var) (plan_view p.now).homes) }
    requires emit_context { IsEmitContext (plan_view p.now) (place_operands (point_mark s.now point_id).place) emit_context.now }
    requires can { CanPlace (plan_view p.now) emit_context.now.point emit_context.now.singles.now (point_mark s.now point_id).place }
    ensures { OnOk result (code.new ≡ code.old ++ map draft (place_items (plan_view p.now) emit_context.now.point emit_context.now.to emit_context.now.singles.now (point_mark s.now point_id).place)) }
{
    match point_id {
        EmittedPoint::Entry(l) => push_front(alloc, code, p, emit_context, &s.labels[l].params),
        EmittedPoint::Node(id, _) => push_node(alloc, code, p, emit_context, s.node(id)),
    }
}

// Adds the code of the next point.
fn push_point(
    alloc: Global,
    code: &mut Draft,
    cursor: &mut Cursor,
    s: &Ssu,
    p: &Placement,
    points: &Points,
    k: usize,
) -> Result<(), NoMemory>
    requires placed { Placed (labels_view s.now) (plan_view p.now) }
    requires known { AreKnown s.now (plan_view p.now) points.now }
    requires within { k < length points.now.point_ids.items }
    requires cursor { IsAt (plan_view p.now) k (drop k (marks (labels_view s.now))) cursor.old }
    ensures cursor { OnOk result (IsAt (plan_view p.now) (k + 1) (drop (k + 1) (marks (labels_view s.now))) cursor.new) }
    ensures code { OnOk result (code.new ≡ code.old ++ map draft (point_piece (labels_view s.now) (plan_view p.now) k (mark_at (labels_view s.now) k) (sequence_at (moves_of points.now.sequences.items) k))) }
{
    let point_id = points.point_ids[k];
    let n = operands(s, point_id)?;
    let point = point_number(k)?;
    let to = branch(s, point_id, point, &points.entries)?;
    let emit_context = EmitContext {
        point,
        serves: take_serves(&p.serves, &mut cursor.serves, n),
        first: take_first(&p.firsts, &mut cursor.firsts, point),
        pass: take_pass(&p.passes, &mut cursor.passes, point),
        singles: &points.sequences[k],
        to,
    };
    emit_point(alloc, code, s, p, point_id, &emit_context)
}

/// Adds the code of all points, and says where each begins.
pub fn push_points(
    alloc: Global,
    code: &mut Draft,
    s: &Ssu,
    p: &Placement,
    points: &Points,
) -> Result<Vec<u32>, NoMemory>
    requires placed { Placed (labels_view s.now) (plan_view p.now) }
    requires known { AreKnown s.now (plan_view p.now) points.now }
    requires empty { code.old ≡ [] }
    ensures { IfOk result (λ places. IsDrafted (labels_view s.now) (plan_view p.now) (moves_of points.now.sequences.items) (length points.now.point_ids.items) code.new places.items) }
{
    let mut places = Vec::new(alloc);
    let mut cursor = Cursor {
        serves: 0,
        firsts: 0,
        passes: 0,
    };
    for k in 0..points.point_ids.len() {
        places.push(point_number(code.list().len())?)?;
        push_point(alloc, code, &mut cursor, s, p, points, k)?;
    }
    Ok(places)
}
