//! The code of reads and writes.

ghost use Rattle.std.specs.Prelude.{◌≡◌, ◌++◌, ◌∷◌, [], ◌≤◌, length, map, OnOk};
ghost use Rattle.uc_isa.specs.declared.instruction.Instr.TheVariants as instr;
ghost use Rattle.place_plan.specs.Fits.{Rises};
ghost use Rattle.place_plan.specs.Plan.{plan_view};
ghost use Rattle.ucode_emit.specs.inner.DraftItems as drafts;
ghost use Rattle.ucode_emit.specs.inner.DraftItems.{draft};
ghost use Rattle.ucode_emit.specs.inner.Layers.{IsAddress};
ghost use Rattle.ucode_emit.specs.inner.Given as given;
ghost use Rattle.ucode_emit.specs.inner.EmitContext.{CanAll};
ghost use Rattle.ucode_emit.specs.Pieces as pieces;
ghost use Rattle.ucode_emit.specs.Pieces.{Plain, moved};

use crate::draft::{Draft, push_moves};
use crate::emit_context::EmitContext;
use crate::fetch::{fetches, push_fetches, served_at, words};
use crate::moves::{Move, all_copied};
use crate::registers::address;
use nv_base::{Mem, NoMemory};
use place_plan::{Placement, Serve};
use std::alloc::Global;
use uc_isa::Instr;

/// The copies of values that stand where they are defined.
pub fn copy_each(
    moves: &mut Vec<Move>,
    p: &Placement,
    s: Option<u8>,
    xs: &[u32],
) -> Result<(), NoMemory>
    requires { Rises (map (λ h. h.var) (plan_view p.now).homes) }
    ensures { OnOk result (moves.new.items ≡ moves.old.items ++ given.each_copied (plan_view p.now) s xs.now) }
{
    for x in xs {
        all_copied(moves, s, p.defined_of(*x), p.copied_of(*x))?;
    }
    Ok(())
}

// Adds the copies of the values that were read.
fn push_copies(
    alloc: Global,
    code: &mut Draft,
    p: &Placement,
    s: Option<u8>,
    xs: &[u32],
) -> Result<(), NoMemory>
    requires homes { Rises (map (λ h. h.var) (plan_view p.now).homes) }
    requires can { CanAll (given.each_copied (plan_view p.now) s xs.now) }
    ensures { OnOk result (code.new ≡ code.old ++ map draft (moved (given.each_copied (plan_view p.now) s xs.now))) }
{
    let mut moves = Vec::new(alloc);
    copy_each(&mut moves, p, s, xs)?;
    push_moves(code, &moves)
}

/// Adds the code of a read: its address, the read, and the copies of what was read.
pub fn push_read(
    alloc: Global,
    code: &mut Draft,
    p: &Placement,
    emit_context: &EmitContext<'_>,
    m: Mem,
    xs: &[u32],
) -> Result<(), NoMemory>
    requires homes { Rises (map (λ h. h.var) (plan_view p.now).homes) }
    requires operands { CanAll (drafts.fetches emit_context.now.pass.l emit_context.now.serves.now) }
    requires address { IsAddress (given.at_of emit_context.now.serves.now 0) }
    requires few { length xs.now ≤ 8 }
    requires can { CanAll (given.each_copied (plan_view p.now) emit_context.now.pass.s xs.now) }
    ensures { OnOk result (code.new ≡ code.old ++ map draft (moved (drafts.fetches emit_context.now.pass.l emit_context.now.serves.now) ++ Plain (instr.Read m emit_context.now.first (length xs.now) (pieces.address_of (given.at_of emit_context.now.serves.now 0)) 0) ∷ moved (given.each_copied (plan_view p.now) emit_context.now.pass.s xs.now))) }
{
    push_fetches(alloc, code, emit_context.pass.l, emit_context.serves)?;
    code.push(Instr::Read {
        mem: m,
        r: emit_context.first,
        n: xs.len() as u8,
        x: address(served_at(emit_context.serves, 0)),
        off: 0,
    })?;
    push_copies(alloc, code, p, emit_context.pass.s, xs)
}

// The moves before a write: the address, then the words.
fn write_moves(moves: &mut Vec<Move>, l: Option<u8>, serves: &[Serve]) -> Result<(), NoMemory>
    ensures { OnOk result (moves.new.items ≡ moves.old.items ++ given.write_moves l serves.now) }
{
    if let [_, rest @ ..] = serves {
        fetches(moves, l, &serves[..1])?;
        words(moves, l, rest)?;
    }
    Ok(())
}

// Adds them.
fn push_write_moves(
    alloc: Global,
    code: &mut Draft,
    l: Option<u8>,
    serves: &[Serve],
) -> Result<(), NoMemory>
    requires { CanAll (given.write_moves l serves.now) }
    ensures { OnOk result (code.new ≡ code.old ++ map draft (moved (given.write_moves l serves.now))) }
{
    let mut moves = Vec::new(alloc);
    write_moves(&mut moves, l, serves)?;
    push_moves(code, &moves)
}

/// Adds the code of a write of some words: its address, the words, and the write.
pub fn push_write(
    alloc: Global,
    code: &mut Draft,
    emit_context: &EmitContext<'_>,
    m: Mem,
    xs: &[u32],
) -> Result<(), NoMemory>
    requires operands { CanAll (given.write_moves emit_context.now.pass.l emit_context.now.serves.now) }
    requires address { IsAddress (given.at_of emit_context.now.serves.now 0) }
    requires few { length xs.now ≤ 8 }
    ensures { OnOk result (code.new ≡ code.old ++ map draft (moved (given.write_moves emit_context.now.pass.l emit_context.now.serves.now) ++ Plain (instr.Write m emit_context.now.first (length xs.now) (pieces.address_of (given.at_of emit_context.now.serves.now 0)) 0) ∷ [])) }
{
    push_write_moves(alloc, code, emit_context.pass.l, emit_context.serves)?;
    code.push(Instr::Write {
        mem: m,
        r: emit_context.first,
        n: xs.len() as u8,
        x: address(served_at(emit_context.serves, 0)),
        off: 0,
    })
}
