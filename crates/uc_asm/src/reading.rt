//! The lines of instructions that are no branches.
ghost use Rattle.std.specs.Prelude.{◌≡◌, ◌≢◌, ℕ, ◌∷◌, codes, IfSome, IfNone};
ghost use Rattle.uc_asm.specs.Words.{operands, words, InRange};
ghost use Rattle.nv_base.specs.declared.term.Bin.{Bin};
ghost use Rattle.nv_base.specs.declared.term.Mem.{Mem};
ghost use Rattle.uc_isa.specs.declared.instruction.Src.{Src};
ghost use Rattle.uc_isa.specs.declared.instruction.Dst.{Dst};
ghost use Rattle.uc_isa.specs.declared.instruction.Gpr.{Gpr};
ghost use Rattle.uc_isa.specs.declared.instruction.UnOp.{UnOp};
ghost use Rattle.uc_isa.specs.declared.instruction.Instr.{Instr};

use crate::part::{next_address, next_binary, next_memory, next_source, next_target, next_unary};
use nv_base::Mem;
use nv_lines::Parts;
use uc_isa::{Gpr, Instr};

/// The instruction of this kind that isn't a branch.
pub fn read_instruction(kind: &[u8], parts: Parts) -> Option<Instr>
    ensures some { IfSome result (λ i. InRange i × (kind.now ∷ parts.entry ≡ words i)) }
    ensures none { IfNone result ((i : Instr) → InRange i → kind.now ≢ codes "br" → kind.now ∷ parts.entry ≢ words i) }
{
    match kind {
        b"alu" => alu(parts),
        b"un" => un(parts),
        b"immed" => immed(parts),
        b"read" => read(parts),
        b"write" => write(parts),
        b"halt" => halt(parts),
        _ => None,
    }
}

fn alu(parts: Parts) -> Option<Instr>
    ensures some { IfSome result (λ i. InRange i × (codes "alu" ∷ parts.entry ≡ words i)) }
    ensures none { IfNone result ((d : Dst) (op : Bin) (x y : Src) → InRange (Instr.Alu d op x y) → parts.entry ≢ operands (Instr.Alu d op x y)) }
{
    let mut parts = parts;
    let dst = next_target(&mut parts)?;
    let op = next_binary(&mut parts)?;
    let x = next_source(&mut parts)?;
    let y = next_source(&mut parts)?;
    if !parts.is_done() {
        return None;
    }
    Some(Instr::Alu { dst, op, x, y })
}

fn un(parts: Parts) -> Option<Instr>
    ensures some { IfSome result (λ i. InRange i × (codes "un" ∷ parts.entry ≡ words i)) }
    ensures none { IfNone result ((d : Dst) (op : UnOp) (x : Src) → InRange (Instr.Un d op x) → parts.entry ≢ operands (Instr.Un d op x)) }
{
    let mut parts = parts;
    let dst = next_target(&mut parts)?;
    let op = next_unary(&mut parts)?;
    let x = next_source(&mut parts)?;
    if !parts.is_done() {
        return None;
    }
    Some(Instr::Un { dst, op, x })
}

fn immed(parts: Parts) -> Option<Instr>
    ensures some { IfSome result (λ i. InRange i × (codes "immed" ∷ parts.entry ≡ words i)) }
    ensures none { IfNone result ((d : Dst) (v s : ℕ) → InRange (Instr.Immed d v s) → parts.entry ≢ operands (Instr.Immed d v s)) }
{
    let mut parts = parts;
    let dst = next_target(&mut parts)?;
    let v = parts.next_decimal(65_535)?;
    let s = parts.next_decimal(255)?;
    if !parts.is_done() {
        return None;
    }
    Some(Instr::Immed {
        dst,
        v: v as u16,
        s: s as u8,
    })
}

// The operands of a memory instruction.
#[derive(Clone, Copy)]
struct Access {
    mem: Mem,
    r: u8,
    n: u8,
    x: Gpr,
    off: u8,
}

fn operands_of(parts: Parts) -> Option<Access>
    ensures some { IfSome result (λ a. InRange (Instr.Read a.mem a.r a.n a.x a.off) × (parts.entry ≡ operands (Instr.Read a.mem a.r a.n a.x a.off))) }
    ensures none { IfNone result ((m : Mem) (r n : ℕ) (x : Gpr) (off : ℕ) → InRange (Instr.Read m r n x off) → parts.entry ≢ operands (Instr.Read m r n x off)) }
{
    let mut parts = parts;
    let mem = next_memory(&mut parts)?;
    let r = parts.next_decimal(255)?;
    let n = parts.next_decimal(255)?;
    let x = next_address(&mut parts)?;
    let off = parts.next_decimal(255)?;
    if !parts.is_done() {
        return None;
    }
    Some(Access {
        mem,
        r: r as u8,
        n: n as u8,
        x,
        off: off as u8,
    })
}

fn read(parts: Parts) -> Option<Instr>
    ensures some { IfSome result (λ i. InRange i × (codes "read" ∷ parts.entry ≡ words i)) }
    ensures none { IfNone result ((m : Mem) (r n : ℕ) (x : Gpr) (off : ℕ) → InRange (Instr.Read m r n x off) → parts.entry ≢ operands (Instr.Read m r n x off)) }
{
    let Access { mem, r, n, x, off } = operands_of(parts)?;
    Some(Instr::Read { mem, r, n, x, off })
}

fn write(parts: Parts) -> Option<Instr>
    ensures some { IfSome result (λ i. InRange i × (codes "write" ∷ parts.entry ≡ words i)) }
    ensures none { IfNone result ((m : Mem) (r n : ℕ) (x : Gpr) (off : ℕ) → InRange (Instr.Write m r n x off) → parts.entry ≢ operands (Instr.Write m r n x off)) }
{
    let Access { mem, r, n, x, off } = operands_of(parts)?;
    Some(Instr::Write { mem, r, n, x, off })
}

fn halt(parts: Parts) -> Option<Instr>
    ensures some { IfSome result (λ i. InRange i × (codes "halt" ∷ parts.entry ≡ words i)) }
    ensures none { IfNone result ((k n : ℕ) → InRange (Instr.Halt k n) → parts.entry ≢ operands (Instr.Halt k n)) }
{
    let mut parts = parts;
    let k = parts.next_decimal(65_535)?;
    let n = parts.next_decimal(255)?;
    if !parts.is_done() {
        return None;
    }
    Some(Instr::Halt {
        k: k as u16,
        n: n as u8,
    })
}
