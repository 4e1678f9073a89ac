//! The code of one point.

ghost use Rattle.std.specs.Prelude.{◌≡◌, ◌++◌, map, length, None, IfOk, OnOk};
ghost use Rattle.ssu_ir.specs.Slots.{node_of};
ghost use Rattle.ssu_ir.specs.Tree.{node_uses};
ghost use Rattle.place_plan.specs.Fits.{Rises};
ghost use Rattle.place_plan.specs.Plan.{plan_view};
ghost use Rattle.ucode_emit.specs.inner.DraftItems.{draft};
ghost use Rattle.ucode_emit.specs.inner.Given as given;
ghost use Rattle.ucode_emit.specs.inner.EmitContext.{IsEmitContext, CanAll, CanNode, node_items};
ghost use Rattle.ucode_emit.specs.Pieces as pieces;

use crate::access::{copy_each, push_read, push_write};
use crate::draft::{Draft, push_moves};
use crate::emit_context::EmitContext;
use crate::leave::{push_fork, push_halt, push_jump};
use crate::moves::{Move, single_moves};
use crate::operation::{push_bin, push_lit, push_una};
use nv_base::NoMemory;
use place_plan::Placement;
use ssu_ir::SsuNode;
use std::alloc::Global;

// Adds the code of a node, by what is given at its point.
fn push_given(
    alloc: Global,
    code: &mut Draft,
    p: &Placement,
    emit_context: &EmitContext<'_>,
    n: &SsuNode,
) -> Result<(), NoMemory>
    requires homes { Rises (map (λ h. h.var) (plan_view p.now).homes) }
    requires can { given.CanGiven (plan_view p.now) emit_context.now (node_of n.now) }
    ensures { OnOk result (code.new ≡ code.old ++ map draft (given.given_node (plan_view p.now) emit_context.now (node_of n.now))) }
{
    match n {
        SsuNode::Lit(x, v, _) => push_lit(alloc, code, p, emit_context, *x, *v),
        SsuNode::Una(x, op, _, _) => push_una(alloc, code, p, emit_context, *x, *op),
        SsuNode::Bin(x, op, _, _, _) => push_bin(alloc, code, p, emit_context, *x, *op),
        SsuNode::Clone(_, _, _) => Ok(()),
        SsuNode::Read(m, xs, _, _) => push_read(alloc, code, p, emit_context, *m, xs),
        SsuNode::Write(m, _, xs, _) => push_write(alloc, code, emit_context, *m, xs),
        SsuNode::If(c, _, _, _, _) => push_fork(alloc, code, emit_context, *c),
        SsuNode::Jump(_, _) => push_jump(alloc, code, emit_context),
        SsuNode::Halt(e, xs) => push_halt(alloc, code, emit_context, *e, xs),
    }
}

/// Adds the code of a node.
pub fn push_node(
    alloc: Global,
    code: &mut Draft,
    p: &Placement,
    emit_context: &EmitContext<'_>,
    n: &SsuNode,
) -> Result<(), NoMemory>
    requires homes { Rises (map (λ h. h.var) (plan_view p.now).homes) }
    requires emit_context { IsEmitContext (plan_view p.now) (length (node_uses (node_of n.now))) emit_context.now }
    requires can { CanNode (plan_view p.now) emit_context.now.point emit_context.now.singles.now (node_of n.now) }
    ensures { OnOk result (code.new ≡ code.old ++ map draft (node_items (plan_view p.now) emit_context.now.point emit_context.now.to emit_context.now.singles.now (node_of n.now))) }
{
    push_given(alloc, code, p, emit_context, n)
}

// What stands before the code of a label's nodes.
fn front_moves(
    alloc: Global,
    p: &Placement,
    emit_context: &EmitContext<'_>,
    params: &[u32],
) -> Result<Vec<Move>, NoMemory>
    requires homes { Rises (map (λ h. h.var) (plan_view p.now).homes) }
    requires emit_context { IsEmitContext (plan_view p.now) 0 emit_context.now }
    ensures { IfOk result (λ ms. ms.items ≡ pieces.single_moves None emit_context.now.singles.now ++ pieces.all_copies (plan_view p.now) emit_context.now.point params.now) }
{
    let mut moves = Vec::new(alloc);
    single_moves(&mut moves, None, emit_context.singles)?;
    copy_each(&mut moves, p, emit_context.pass.s, params)?;
    Ok(moves)
}

/// Adds what stands before the code of a label's nodes: the single moves of the point's parallel move, and
/// the copies of the parameters.
pub fn push_front(
    alloc: Global,
    code: &mut Draft,
    p: &Placement,
    emit_context: &EmitContext<'_>,
    params: &[u32],
) -> Result<(), NoMemory>
    requires homes { Rises (map (λ h. h.var) (plan_view p.now).homes) }
    requires emit_context { IsEmitContext (plan_view p.now) 0 emit_context.now }
    requires can { CanAll (pieces.single_moves None emit_context.now.singles.now ++ pieces.all_copies (plan_view p.now) emit_context.now.point params.now) }
    ensures { OnOk result (code.new ≡ code.old ++ map draft (pieces.moved (pieces.single_moves None emit_context.now.singles.now ++ pieces.all_copies (plan_view p.now) emit_context.now.point params.now))) }
{
    let moves = front_moves(alloc, p, emit_context, params)?;
    push_moves(code, &moves)
}
