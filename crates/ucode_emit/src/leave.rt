//! The code of comparisons, jumps and ends.

ghost use Rattle.std.specs.Prelude.{◌≡◌, ◌++◌, ◌∷◌, [], ◌≤◌, length, map, OnOk};
ghost use Rattle.nv_base.specs.declared.term.Bin.TheVariants.{Sub};
ghost use Rattle.uc_isa.specs.declared.instruction.Instr.TheVariants as instr;
ghost use Rattle.uc_isa.specs.declared.instruction.Dst.TheVariants as dst;
ghost use Rattle.uc_isa.specs.declared.instruction.Cond.TheVariants.{Always};
ghost use Rattle.uc_isa.specs.Registers as registers;
ghost use Rattle.ucode_emit.specs.inner.DraftItems as drafts;
ghost use Rattle.ucode_emit.specs.inner.DraftItems.{draft};
ghost use Rattle.ucode_emit.specs.inner.Machine.{IsReadable};
ghost use Rattle.ucode_emit.specs.inner.Given as given;
ghost use Rattle.ucode_emit.specs.inner.EmitContext.{CanAll};
ghost use Rattle.ucode_emit.specs.Pieces as pieces;
ghost use Rattle.ucode_emit.specs.Pieces.{Plain, Branch, moved};

use crate::draft::{Draft, push_moves};
use crate::emit_context::EmitContext;
use crate::fetch::{push_fetches, served_at};
use crate::moves::{Move, single_moves};
use crate::registers::source;
use nv_base::{Bin, Cmp, NoMemory};
use std::alloc::Global;
use uc_isa::{Cond, Dst, Instr};

// When a comparison fails, by the flags of the difference of its operands.
fn failing(c: Cmp) -> Cond
    ensures { result ≡ registers.failing c }
{
    match c {
        Cmp::Eq => Cond::NZ,
        Cmp::Ne => Cond::Z,
        Cmp::Lt => Cond::C,
        Cmp::Ge => Cond::NC,
    }
}

/// Adds the code of a comparison, which branches where it fails.
pub fn push_fork(
    alloc: Global,
    code: &mut Draft,
    emit_context: &EmitContext<'_>,
    c: Cmp,
) -> Result<(), NoMemory>
    requires operands { CanAll (drafts.fetches emit_context.now.pass.l emit_context.now.serves.now) }
    requires first { IsReadable (given.at_of emit_context.now.serves.now 0) }
    requires second { IsReadable (given.at_of emit_context.now.serves.now 1) }
    ensures { OnOk result (code.new ≡ code.old ++ map draft (moved (drafts.fetches emit_context.now.pass.l emit_context.now.serves.now) ++ Plain (instr.Alu dst.Nowhere Sub (pieces.source (given.at_of emit_context.now.serves.now 0)) (pieces.source (given.at_of emit_context.now.serves.now 1))) ∷ Branch (registers.failing c) emit_context.now.to ∷ [])) }
{
    push_fetches(alloc, code, emit_context.pass.l, emit_context.serves)?;
    code.push(Instr::Alu {
        dst: Dst::Nowhere,
        op: Bin::Sub,
        x: source(served_at(emit_context.serves, 0)),
        y: source(served_at(emit_context.serves, 1)),
    })?;
    code.push(Instr::Br {
        cond: failing(c),
        target: emit_context.to,
    })
}

// Adds the single moves of a parallel move.
fn push_singles(
    alloc: Global,
    code: &mut Draft,
    l: Option<u8>,
    singles: &[Move],
) -> Result<(), NoMemory>
    requires { CanAll (pieces.single_moves l singles.now) }
    ensures { OnOk result (code.new ≡ code.old ++ map draft (moved (pieces.single_moves l singles.now))) }
{
    let mut moves = Vec::new(alloc);
    single_moves(&mut moves, l, singles)?;
    push_moves(code, &moves)
}

/// Adds the code of a jump.
pub fn push_jump(
    alloc: Global,
    code: &mut Draft,
    emit_context: &EmitContext<'_>,
) -> Result<(), NoMemory>
    requires { CanAll (pieces.single_moves emit_context.now.pass.l emit_context.now.singles.now) }
    ensures { OnOk result (code.new ≡ code.old ++ map draft (moved (pieces.single_moves emit_context.now.pass.l emit_context.now.singles.now) ++ Branch Always emit_context.now.to ∷ [])) }
{
    push_singles(alloc, code, emit_context.pass.l, emit_context.singles)?;
    code.push(Instr::Br {
        cond: Cond::Always,
        target: emit_context.to,
    })
}

/// Adds the code of an end with some words.
pub fn push_halt(
    alloc: Global,
    code: &mut Draft,
    emit_context: &EmitContext<'_>,
    e: u16,
    xs: &[u32],
) -> Result<(), NoMemory>
    requires singles { CanAll (pieces.single_moves emit_context.now.pass.l emit_context.now.singles.now) }
    requires few { length xs.now ≤ 8 }
    ensures { OnOk result (code.new ≡ code.old ++ map draft (moved (pieces.single_moves emit_context.now.pass.l emit_context.now.singles.now) ++ Plain (instr.Halt e (length xs.now)) ∷ [])) }
{
    push_singles(alloc, code, emit_context.pass.l, emit_context.singles)?;
    code.push(Instr::Halt {
        k: e,
        n: xs.len() as u8,
    })
}
