//! The code of literals and operations.

ghost use Rattle.std.specs.Prelude.{◌≡◌, ◌++◌, ◌<◌, ◌/◌, ◌^◌, map, OnOk};
ghost use Rattle.uc_isa.specs.declared.instruction.Instr.TheVariants as instr;
ghost use Rattle.place_plan.specs.Fits.{Rises};
ghost use Rattle.place_plan.specs.Plan.{home, plan_view};
ghost use Rattle.ucode_emit.specs.inner.DraftItems as drafts;
ghost use Rattle.ucode_emit.specs.inner.DraftItems.{draft};
ghost use Rattle.ucode_emit.specs.inner.Machine.{IsReadable, IsWritable};
ghost use Rattle.ucode_emit.specs.inner.Given as given;
ghost use Rattle.ucode_emit.specs.inner.Given.{CanResult};
ghost use Rattle.ucode_emit.specs.inner.EmitContext.{CanAll};
ghost use Rattle.ucode_emit.specs.Pieces as pieces;
ghost use Rattle.ucode_emit.specs.Pieces.{moved};

use crate::draft::{Draft, push_moves};
use crate::emit_context::EmitContext;
use crate::fetch::{push_fetches, served_at};
use crate::moves::{Move, all_copied, named};
use crate::registers::{source, target};
use nv_base::{Bin, NoMemory, Una};
use place_plan::{Place, Placement};
use std::alloc::Global;
use uc_isa::{Dst, Instr, UnOp};

// Where a result is put whose home is this: before a slot it stands in a write register.
fn result_at(s: Option<u8>, home: Place) -> Place
    ensures { result ≡ given.result_at s home }
{
    if home.is_slot() {
        Place::S(named(s))
    } else {
        home
    }
}

// The target of the instruction that gives a value.
fn result_target(p: &Placement, s: Option<u8>, x: u32) -> Dst
    requires homes { Rises (map (λ h. h.var) (plan_view p.now).homes) }
    requires writable { IsWritable (given.result_at s (home (plan_view p.now) x).defined) }
    ensures { result ≡ pieces.target (given.result_at s (home (plan_view p.now) x).defined) }
{
    target(result_at(s, p.defined_of(x)))
}

// Brings a result on to a slot.
fn to_slot(moves: &mut Vec<Move>, s: Option<u8>, home: Place) -> Result<(), NoMemory>
    ensures { OnOk result (moves.new.items ≡ moves.old.items ++ given.slot_moves s home) }
{
    if home.is_slot() {
        moves.push((Place::S(named(s)), home))?;
    }
    Ok(())
}

// Adds what brings a result on to its homes.
fn push_result(
    alloc: Global,
    code: &mut Draft,
    p: &Placement,
    s: Option<u8>,
    x: u32,
) -> Result<(), NoMemory>
    requires homes { Rises (map (λ h. h.var) (plan_view p.now).homes) }
    requires can { CanAll (given.result_moves (plan_view p.now) s x) }
    ensures { OnOk result (code.new ≡ code.old ++ map draft (moved (given.result_moves (plan_view p.now) s x))) }
{
    let mut moves = Vec::new(alloc);
    let home = p.defined_of(x);
    to_slot(&mut moves, s, home)?;
    all_copied(&mut moves, s, home, p.copied_of(x))?;
    push_moves(code, &moves)
}

// By how many places the half word of a narrow literal is shifted.
fn shift_of(v: u32) -> u8
    ensures { result ≡ pieces.shift_of v }
{
    if v < 0x1_0000 {
        0
    } else if v % 0x100 == 0 && v / 0x100 < 0x1_0000 {
        8
    } else {
        16
    }
}

// The instruction of a narrow literal.
fn immed(dst: Dst, v: u32) -> Instr
    requires short { v / 2 ^ pieces.shift_of v < 2 ^ 16 }
    ensures { result ≡ instr.Immed dst (v / 2 ^ pieces.shift_of v) (pieces.shift_of v) }
{
    let s = shift_of(v);
    Instr::Immed {
        dst,
        v: (v >> s) as u16,
        s,
    }
}

// An operation on one word.
fn un_op(op: Una) -> UnOp
    ensures { result ≡ pieces.un_op op }
{
    match op {
        Una::Not => UnOp::Not,
        Una::Shl(k) => UnOp::Shl(k),
        Una::Shr(k) => UnOp::Shr(k),
        Una::Rol(k) => UnOp::Rol(k),
    }
}

/// Adds the code of a literal.
pub fn push_lit(
    alloc: Global,
    code: &mut Draft,
    p: &Placement,
    emit_context: &EmitContext<'_>,
    x: u32,
    v: u32,
) -> Result<(), NoMemory>
    requires homes { Rises (map (λ h. h.var) (plan_view p.now).homes) }
    requires short { v / 2 ^ pieces.shift_of v < 2 ^ 16 }
    requires can { CanResult (plan_view p.now) emit_context.now.pass.s x }
    ensures { OnOk result (code.new ≡ code.old ++ map draft (given.result_items (plan_view p.now) emit_context.now.pass.s x (λ d. instr.Immed d (v / 2 ^ pieces.shift_of v) (pieces.shift_of v)))) }
{
    let dst = result_target(p, emit_context.pass.s, x);
    code.push(immed(dst, v))?;
    push_result(alloc, code, p, emit_context.pass.s, x)
}

/// Adds the code of an operation on one word.
pub fn push_una(
    alloc: Global,
    code: &mut Draft,
    p: &Placement,
    emit_context: &EmitContext<'_>,
    x: u32,
    op: Una,
) -> Result<(), NoMemory>
    requires homes { Rises (map (λ h. h.var) (plan_view p.now).homes) }
    requires operands { CanAll (drafts.fetches emit_context.now.pass.l emit_context.now.serves.now) }
    requires readable { IsReadable (given.at_of emit_context.now.serves.now 0) }
    requires can { CanResult (plan_view p.now) emit_context.now.pass.s x }
    ensures { OnOk result (code.new ≡ code.old ++ map draft (moved (drafts.fetches emit_context.now.pass.l emit_context.now.serves.now) ++ given.result_items (plan_view p.now) emit_context.now.pass.s x (λ d. instr.Un d (pieces.un_op op) (pieces.source (given.at_of emit_context.now.serves.now 0))))) }
{
    push_fetches(alloc, code, emit_context.pass.l, emit_context.serves)?;
    code.push(Instr::Un {
        dst: result_target(p, emit_context.pass.s, x),
        op: un_op(op),
        x: source(served_at(emit_context.serves, 0)),
    })?;
    push_result(alloc, code, p, emit_context.pass.s, x)
}

/// Adds the code of an operation on two words.
pub fn push_bin(
    alloc: Global,
    code: &mut Draft,
    p: &Placement,
    emit_context: &EmitContext<'_>,
    x: u32,
    op: Bin,
) -> Result<(), NoMemory>
    requires homes { Rises (map (λ h. h.var) (plan_view p.now).homes) }
    requires operands { CanAll (drafts.fetches emit_context.now.pass.l emit_context.now.serves.now) }
    requires first { IsReadable (given.at_of emit_context.now.serves.now 0) }
    requires second { IsReadable (given.at_of emit_context.now.serves.now 1) }
    requires can { CanResult (plan_view p.now) emit_context.now.pass.s x }
    ensures { OnOk result (code.new ≡ code.old ++ map draft (moved (drafts.fetches emit_context.now.pass.l emit_context.now.serves.now) ++ given.result_items (plan_view p.now) emit_context.now.pass.s x (λ d. instr.Alu d op (pieces.source (given.at_of emit_context.now.serves.now 0)) (pieces.source (given.at_of emit_context.now.serves.now 1))))) }
{
    push_fetches(alloc, code, emit_context.pass.l, emit_context.serves)?;
    code.push(Instr::Alu {
        dst: result_target(p, emit_context.pass.s, x),
        op,
        x: source(served_at(emit_context.serves, 0)),
        y: source(served_at(emit_context.serves, 1)),
    })?;
    push_result(alloc, code, p, emit_context.pass.s, x)
}
