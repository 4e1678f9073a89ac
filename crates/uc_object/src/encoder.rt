// Objects as bytes.
ghost use Rattle.std.specs.Prelude.{◌≡◌, ◌<◌, ◌∷◌, [], ℕ, All, IfOk, OnOk};
ghost use Rattle.uc_object.specs.Rows.{IsRow, IsSource, IsAddress, number_of_binary, number_of_unary, shift_count, number_of_condition, number_of_memory};
ghost use Rattle.uc_object.specs.Object.{IsObject, IsCodeObject, IsTaggedObject, IsException, IsNumber, header_of};
ghost use Rattle.uc_object.specs.inner.Parts.{Adds};

use crate::bytes::{halt_row, target_byte};
use crate::{Object, Tag, Tagged};
use nv_base::{Bin, Mem, NoMemory};
use std::alloc::{AllocError, Global};
use uc_isa::{Code, Cond, Dst, Gpr, Instr, Src, UnOp};

/// The bytes of an object, its code lawful or not.
pub fn encode(alloc: Global, o: &Object) -> Result<Vec<u8>, NoMemory>
    ensures object { IfOk result (λ bytes. IsObject bytes.items o.now) }
{
    match o {
        Object::One(code) => encode_code(alloc, code),
        Object::Two(tagged) => encode_tagged(alloc, tagged),
    }
}

/// The object of a code alone, lawful or not: the header, and eight bytes for each instruction.
pub fn encode_code(alloc: Global, code: &Code) -> Result<Vec<u8>, NoMemory>
    ensures object { IfOk result (λ bytes. IsCodeObject bytes.items code.now) }
{
    let list = code.list();
    let mut bytes = header(alloc, b'1', code.params(), list.len() as u32)?;
    push_rows(&mut bytes, list)?;
    Ok(bytes)
}

fn encode_tagged(alloc: Global, tagged: &Tagged) -> Result<Vec<u8>, NoMemory>
    ensures object { IfOk result (λ bytes. IsTaggedObject bytes.items tagged.now) }
{
    let code = tagged.code();
    let list = code.list();
    let exceptions = tagged.exceptions();
    let starts = tagged.starts();
    let mut bytes = header(alloc, b'2', code.params(), list.len() as u32)?;
    bytes.extend_from_slice(&(exceptions.len() as u32).to_le_bytes())?;
    bytes.extend_from_slice(&(starts.len() as u32).to_le_bytes())?;
    push_rows(&mut bytes, list)?;
    push_exceptions(&mut bytes, exceptions)?;
    push_starts(&mut bytes, starts)?;
    Ok(bytes)
}

// The first twelve bytes.
fn header(alloc: Global, version: u8, params: u8, count: u32) -> Result<Vec<u8>, NoMemory>
    ensures { IfOk result (λ bytes. bytes.items ≡ header_of version params count) }
{
    let mut bytes = Vec::new(alloc);
    bytes.extend_from_slice(b"NVO")?;
    bytes.push(version)?;
    bytes.push(params)?;
    bytes.extend_from_slice(&[0, 0, 0])?;
    bytes.extend_from_slice(&count.to_le_bytes())?;
    Ok(bytes)
}

// Adds eight bytes for each instruction.
fn push_rows(out: &mut Vec<u8>, list: &[Instr]) -> Result<(), AllocError>
    ensures { OnOk result (Adds IsRow list.now out.old.items out.new.items) }
{
    for i in list {
        out.extend_from_slice(&row(i))?;
    }
    Ok(())
}

// Adds the bytes of each exception.
fn push_exceptions(out: &mut Vec<u8>, list: &[(u32, Tag)]) -> Result<(), AllocError>
    ensures { OnOk result (Adds IsException list.now out.old.items out.new.items) }
{
    for (line, name) in list {
        push_exception(out, *line, name)?;
    }
    Ok(())
}

// Adds the bytes of an exception.
fn push_exception(out: &mut Vec<u8>, line: u32, name: &Tag) -> Result<(), AllocError>
    ensures { OnOk result (Adds IsException ((line, name.now) ∷ []) out.old.items out.new.items) }
{
    let bytes = name.bytes();
    out.extend_from_slice(&line.to_le_bytes())?;
    out.push(bytes.len() as u8)?;
    out.extend_from_slice(bytes)?;
    Ok(())
}

// Adds four bytes for each start.
fn push_starts(out: &mut Vec<u8>, list: &[u32]) -> Result<(), AllocError>
    ensures { (count : ℕ) → All (λ start. start < count) list.now → OnOk result (Adds (IsNumber count) list.now out.old.items out.new.items) }
{
    for start in list {
        out.extend_from_slice(&start.to_le_bytes())?;
    }
    Ok(())
}

// The eight bytes of an instruction.
fn row(i: &Instr) -> [u8; 8]
    ensures { IsRow i.now result }
{
    match i {
        Instr::Alu { dst, op, x, y } => [
            0,
            binary_number(*op),
            target_byte(*dst),
            source_byte(*x),
            source_byte(*y),
            0,
            0,
            0,
        ],
        Instr::Un { dst, op, x } => [
            1,
            unary_number(*op),
            target_byte(*dst),
            source_byte(*x),
            unary_count(*op),
            0,
            0,
            0,
        ],
        Instr::Immed { dst, v, s } => {
            let [low, high] = v.to_le_bytes();
            [2, *s, target_byte(*dst), 0, low, high, 0, 0]
        }
        Instr::Br { cond, target } => {
            let [a, b, c, d] = target.to_le_bytes();
            [3, condition_number(*cond), 0, 0, a, b, c, d]
        }
        Instr::Read { mem, r, n, x, off } => {
            [4, memory_number(*mem), *r, *n, address_byte(*x), *off, 0, 0]
        }
        Instr::Write { mem, r, n, x, off } => {
            [5, memory_number(*mem), *r, *n, address_byte(*x), *off, 0, 0]
        }
        Instr::Halt { k, n } => halt_row(*k, *n),
    }
}

fn source_byte(x: Src) -> u8
    ensures { IsSource x result }
{
    match x {
        Src::A(r) => r.number,
        Src::B(r) => 16 + r.number,
        Src::L(r) => 32 + r.number,
        Src::LD(r) => 48 + r.number,
    }
}

fn address_byte(x: Gpr) -> u8
    ensures { IsAddress x result }
{
    match x {
        Gpr::A(r) => r.number,
        Gpr::B(r) => 16 + r.number,
    }
}

fn binary_number(op: Bin) -> u8
    ensures { result ≡ number_of_binary op }
{
    match op {
        Bin::Add => 0,
        Bin::Sub => 1,
        Bin::And => 2,
        Bin::Or => 3,
        Bin::Xor => 4,
    }
}

fn unary_number(op: UnOp) -> u8
    ensures { result ≡ number_of_unary op }
{
    match op {
        UnOp::Copy => 0,
        UnOp::Not => 1,
        UnOp::Shl(_) => 2,
        UnOp::Shr(_) => 3,
        UnOp::Rol(_) => 4,
    }
}

fn unary_count(op: UnOp) -> u8
    ensures { result ≡ shift_count op }
{
    match op {
        UnOp::Copy | UnOp::Not => 0,
        UnOp::Shl(k) | UnOp::Shr(k) | UnOp::Rol(k) => k,
    }
}

fn condition_number(cond: Cond) -> u8
    ensures { result ≡ number_of_condition cond }
{
    match cond {
        Cond::Always => 0,
        Cond::Z => 1,
        Cond::NZ => 2,
        Cond::C => 3,
        Cond::NC => 4,
    }
}

fn memory_number(mem: Mem) -> u8
    ensures { result ≡ number_of_memory mem }
{
    match mem {
        Mem::Sram => 0,
        Mem::Sdram => 1,
        Mem::Scratch => 2,
    }
}
