// The parts of an object after its numbers: instructions, exceptions and starts.
ghost use Rattle.std.specs.Prelude.{◌≡◌, ◌<◌, ◌≤◌, ◌+◌, ◌^◌, ℕ, length, take, drop, IfOk, IfErr, Err};
ghost use Rattle.uc_object.specs.Rows.{IsRow};
ghost use Rattle.uc_object.specs.Columns.{IsRowFault, IsExceptionFault};
ghost use Rattle.uc_object.specs.Object.{IsException, IsNumber};
ghost use Rattle.uc_object.specs.inner.Parts.{Has, IsFaultAfter, Spells};

use crate::byte_set::{exception_columns, row_columns};
use crate::column::{byte_at, first_fault};
use crate::field::instruction;
use crate::number::number_below;
use crate::{ObjectError, Tag};
use nv_base::NoMemory;
use std::alloc::Global;
use uc_isa::{Dst, Gpr, Instr, Src};

/// So many instructions from a place on, and where they end.
pub fn instructions(
    alloc: Global,
    count: u32,
    bytes: &[u8],
    start: usize,
) -> Result<(Vec<Instr>, usize), ObjectError>
    requires size { length bytes.now < 2 ^ 32 }
    requires start { start ≤ length bytes.now }
    ensures end { IfOk result (λ read. read.1 ≤ length bytes.now) }
    ensures each { IfOk result (λ read. Has IsRow count read.0.items (drop start bytes.now) (drop read.1 bytes.now)) }
    ensures bad { (at : ℕ) → result ≡ Err (ObjectError.Bad at) → IsFaultAfter IsRow count bytes.now start at }
{
    // The check wants the parts of an instruction named where a list of them is dropped.
    let _named: Option<(Dst, Gpr, Src)> = None;
    let mut list = Vec::new(alloc);
    let mut end = start;
    for _ in 0..count {
        match read_row(&bytes[end..]) {
            Ok(instruction) => list.push(instruction)?,
            Err(fault) => return Err(ObjectError::Bad((end + fault) as u32)),
        }
        end += 8;
    }
    Ok((list, end))
}

// The instruction whose row the bytes begin with, or the row's first fault.
fn read_row(bytes: &[u8]) -> Result<Instr, usize>
    ensures length { IfOk result (λ i. 8 ≤ length bytes.now) }
    ensures row { IfOk result (λ i. IsRow i (take 8 bytes.now)) }
    ensures fault { IfErr result (IsRowFault bytes.now) }
    ensures within { IfErr result (λ at. at ≤ length bytes.now) }
{
    let columns = row_columns(byte_at(bytes, 0), byte_at(bytes, 1));
    match first_fault(&columns, bytes) {
        Some(at) => Err(at),
        None => {
            let row = [
                bytes[0], bytes[1], bytes[2], bytes[3], bytes[4], bytes[5], bytes[6], bytes[7],
            ];
            Ok(instruction(row))
        }
    }
}

/// So many exceptions from a place on, and where they end.
pub fn exceptions(
    alloc: Global,
    count: u32,
    bytes: &[u8],
    start: usize,
) -> Result<(Vec<(u32, Tag)>, usize), ObjectError>
    requires size { length bytes.now < 2 ^ 32 }
    requires start { start ≤ length bytes.now }
    ensures end { IfOk result (λ read. read.1 ≤ length bytes.now) }
    ensures each { IfOk result (λ read. Has IsException count read.0.items (drop start bytes.now) (drop read.1 bytes.now)) }
    ensures bad { (at : ℕ) → result ≡ Err (ObjectError.Bad at) → IsFaultAfter IsException count bytes.now start at }
{
    let mut list = Vec::new(alloc);
    let mut end = start;
    for _ in 0..count {
        let rest = &bytes[end..];
        match exception_size(rest) {
            Ok(size) => {
                list.push(exception(alloc, &rest[..size])?)?;
                end += size;
            }
            Err(fault) => return Err(ObjectError::Bad((end + fault) as u32)),
        }
    }
    Ok((list, end))
}

// How many bytes the exception has that the bytes begin with, or its first fault.
fn exception_size(bytes: &[u8]) -> Result<usize, usize>
    ensures size { IfOk result (λ size. size ≤ length bytes.now) }
    ensures exception { IfOk result (λ size. Spells IsException (take size bytes.now)) }
    ensures fault { IfErr result (IsExceptionFault bytes.now) }
    ensures within { IfErr result (λ at. at ≤ length bytes.now) }
{
    let size = 5 + byte_at(bytes, 4).min(64) as usize;
    let columns = exception_columns();
    match first_fault(&columns[..size], bytes) {
        Some(at) => Err(at),
        None => Ok(size),
    }
}

// The exception of these bytes.
fn exception(alloc: Global, bytes: &[u8]) -> Result<(u32, Tag), NoMemory>
    requires { Spells IsException bytes.now }
    ensures { IfOk result (λ e. IsException (e.0, e.1) bytes.now) }
{
    let line = u32::from_le_bytes([bytes[0], bytes[1], bytes[2], bytes[3]]);
    let name = Tag::new(alloc, &bytes[5..])?;
    Ok((line, name))
}

/// So many starts from a place on, each below the number of the instructions, and where they end.
pub fn starts(
    alloc: Global,
    places: u32,
    count: u32,
    bytes: &[u8],
    start: usize,
) -> Result<(Vec<u32>, usize), ObjectError>
    requires size { length bytes.now < 2 ^ 32 }
    requires some { 1 ≤ places }
    requires start { start ≤ length bytes.now }
    ensures end { IfOk result (λ read. read.1 ≤ length bytes.now) }
    ensures each { IfOk result (λ read. Has (IsNumber places) count read.0.items (drop start bytes.now) (drop read.1 bytes.now)) }
    ensures bad { (at : ℕ) → result ≡ Err (ObjectError.Bad at) → IsFaultAfter (IsNumber places) count bytes.now start at }
{
    let mut list = Vec::new(alloc);
    let mut end = start;
    for _ in 0..count {
        match number_below(u64::from(places), &bytes[end..]) {
            Ok(place) => list.push(place)?,
            Err(fault) => return Err(ObjectError::Bad((end + fault) as u32)),
        }
        end += 4;
    }
    Ok((list, end))
}
