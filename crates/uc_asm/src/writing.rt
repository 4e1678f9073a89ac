//! The words of instructions, as a listing has them.
ghost use Rattle.std.specs.Prelude.{◌≡◌, ◌++◌, ◌∷◌, [], OnOk, decimal};
ghost use Rattle.std.specs.List.{flat_map};
ghost use Rattle.nv_lines.specs.Line.{parted};
ghost use Rattle.uc_asm.specs.Words.{words, source_name, target_name, address_name, binary_name, unary_words, condition_name, memory_name};

use nv_base::{Bin, Mem};
use nv_lines::push_decimal;
use std::alloc::AllocError;
use uc_isa::{Cond, Dst, Gpr, Instr, Src, UnOp};

/// An operation on two words.
pub fn push_alu(out: &mut Vec<u8>, dst: Dst, op: Bin, x: Src, y: Src) -> Result<(), AllocError>
    ensures { OnOk result (out.new.items ≡ out.old.items ++ parted (words (Instr.Alu dst op x y))) }
{
    out.extend_from_slice(b"alu")?;
    push_target(out, dst)?;
    push_word(out, binary(op))?;
    push_source(out, x)?;
    push_source(out, y)?;
    Ok(())
}

/// An operation on one word.
pub fn push_un(out: &mut Vec<u8>, dst: Dst, op: UnOp, x: Src) -> Result<(), AllocError>
    ensures { OnOk result (out.new.items ≡ out.old.items ++ parted (words (Instr.Un dst op x))) }
{
    out.extend_from_slice(b"un")?;
    push_target(out, dst)?;
    push_unary(out, op)?;
    push_source(out, x)?;
    Ok(())
}

/// A number into its place.
pub fn push_immed(out: &mut Vec<u8>, dst: Dst, v: u16, s: u8) -> Result<(), AllocError>
    ensures { OnOk result (out.new.items ≡ out.old.items ++ parted (words (Instr.Immed dst v s))) }
{
    out.extend_from_slice(b"immed")?;
    push_target(out, dst)?;
    push_number(out, u64::from(v))?;
    push_number(out, u64::from(s))
}

/// A branch to a place.
pub fn push_branch(out: &mut Vec<u8>, cond: Cond, target: u32) -> Result<(), AllocError>
    ensures { OnOk result (out.new.items ≡ out.old.items ++ parted (words (Instr.Br cond target))) }
{
    out.extend_from_slice(b"br")?;
    push_word(out, condition(cond))?;
    push_letter(out, b"@", u64::from(target))
}

/// A halt.
pub fn push_halt(out: &mut Vec<u8>, k: u16, n: u8) -> Result<(), AllocError>
    ensures { OnOk result (out.new.items ≡ out.old.items ++ parted (words (Instr.Halt k n))) }
{
    out.extend_from_slice(b"halt")?;
    push_number(out, u64::from(k))?;
    push_number(out, u64::from(n))
}

/// A memory instruction of this kind.
pub fn push_access(
    out: &mut Vec<u8>,
    kind: &[u8],
    mem: Mem,
    r: u8,
    n: u8,
    x: Gpr,
    off: u8,
) -> Result<(), AllocError>
    ensures { OnOk result (out.new.items ≡ out.old.items ++ (kind.now ++ flat_map (λ w. 32 ∷ w) (memory_name mem ∷ decimal r ∷ decimal n ∷ address_name x ∷ decimal off ∷ []))) }
{
    out.extend_from_slice(kind)?;
    push_word(out, mem.name())?;
    push_number(out, u64::from(r))?;
    push_number(out, u64::from(n))?;
    push_address(out, x)?;
    push_number(out, u64::from(off))
}

// A word after a space.
fn push_word(out: &mut Vec<u8>, word: &[u8]) -> Result<(), AllocError>
    ensures { OnOk result (out.new.items ≡ out.old.items ++ 32 ∷ word.now) }
{
    out.push(b' ')?;
    out.extend_from_slice(word)
}

/// A number after a space.
pub fn push_number(out: &mut Vec<u8>, n: u64) -> Result<(), AllocError>
    ensures { OnOk result (out.new.items ≡ out.old.items ++ 32 ∷ decimal n) }
{
    out.push(b' ')?;
    push_decimal(out, n)
}

// A number with a mark before it, after a space.
fn push_letter(out: &mut Vec<u8>, mark: &[u8], n: u64) -> Result<(), AllocError>
    ensures { OnOk result (out.new.items ≡ out.old.items ++ 32 ∷ (mark.now ++ decimal n)) }
{
    push_word(out, mark)?;
    push_decimal(out, n)
}

fn push_source(out: &mut Vec<u8>, x: Src) -> Result<(), AllocError>
    ensures { OnOk result (out.new.items ≡ out.old.items ++ 32 ∷ source_name x) }
{
    match x {
        Src::A(r) => push_letter(out, b"A", u64::from(r.number)),
        Src::B(r) => push_letter(out, b"B", u64::from(r.number)),
        Src::L(r) => push_letter(out, b"L", u64::from(r.number)),
        Src::LD(r) => push_letter(out, b"LD", u64::from(r.number)),
    }
}

fn push_target(out: &mut Vec<u8>, dst: Dst) -> Result<(), AllocError>
    ensures { OnOk result (out.new.items ≡ out.old.items ++ 32 ∷ target_name dst) }
{
    match dst {
        Dst::A(r) => push_letter(out, b"A", u64::from(r.number)),
        Dst::B(r) => push_letter(out, b"B", u64::from(r.number)),
        Dst::S(r) => push_letter(out, b"S", u64::from(r.number)),
        Dst::SD(r) => push_letter(out, b"SD", u64::from(r.number)),
        Dst::Nowhere => push_word(out, b"none"),
    }
}

fn push_address(out: &mut Vec<u8>, x: Gpr) -> Result<(), AllocError>
    ensures { OnOk result (out.new.items ≡ out.old.items ++ 32 ∷ address_name x) }
{
    match x {
        Gpr::A(r) => push_letter(out, b"A", u64::from(r.number)),
        Gpr::B(r) => push_letter(out, b"B", u64::from(r.number)),
    }
}

fn push_unary(out: &mut Vec<u8>, op: UnOp) -> Result<(), AllocError>
    ensures { OnOk result (out.new.items ≡ out.old.items ++ flat_map (λ w. 32 ∷ w) (unary_words op)) }
{
    match op {
        UnOp::Copy => push_word(out, b"COPY"),
        UnOp::Not => push_word(out, b"NOT"),
        UnOp::Shl(k) => push_shift(out, b"SHL", k),
        UnOp::Shr(k) => push_shift(out, b"SHR", k),
        UnOp::Rol(k) => push_shift(out, b"ROL", k),
    }
}

fn push_shift(out: &mut Vec<u8>, name: &[u8], k: u8) -> Result<(), AllocError>
    ensures { OnOk result (out.new.items ≡ out.old.items ++ flat_map (λ w. 32 ∷ w) (name.now ∷ decimal k ∷ [])) }
{
    push_word(out, name)?;
    push_number(out, u64::from(k))
}

fn binary(op: Bin) -> &'static [u8]
    ensures { result.now ≡ binary_name op }
{
    match op {
        Bin::Add => b"ADD",
        Bin::Sub => b"SUB",
        Bin::And => b"AND",
        Bin::Or => b"OR",
        Bin::Xor => b"XOR",
    }
}

fn condition(cond: Cond) -> &'static [u8]
    ensures { result.now ≡ condition_name cond }
{
    match cond {
        Cond::Always => b"ALWAYS",
        Cond::Z => b"Z",
        Cond::NZ => b"NZ",
        Cond::C => b"C",
        Cond::NC => b"NC",
    }
}
