// Bytes as objects.
ghost use Rattle.std.specs.Prelude.{◌≡◌, ◌<◌, ◌≤◌, ◌+◌, ◌^◌, ◌⊎◌, ℕ, length, drop, slice_index, IfOk, IfErr, OnOk, Ok, Err};
ghost use Rattle.uc_object.specs.Object.{IsObject, IsBadPlace};
ghost use Rattle.uc_object.specs.declared.object.Object.{Object as AnObject};
ghost use Rattle.uc_object.specs.inner.Header.{HasHeader, HasCounts};

use crate::byte_set::header_columns;
use crate::column::{byte_at, first_fault};
use crate::number::number_below;
use crate::parts::{exceptions, instructions, starts};
use crate::{Object, ObjectError, Tagged};
use std::alloc::Global;
use uc_isa::{Code, Dst, Gpr, Src};

const HEADER: usize = 12;

const COUNTS: usize = 20;

const MOST_EXCEPTIONS: u64 = 65_535;

const MOST_STARTS: u64 = 1_048_576;

// The numbers of a header.
#[derive(Clone, Copy)]
struct Header {
    version: u8,
    params: u8,
    count: u32,
}

// The numbers after the header of version 2.
#[derive(Clone, Copy)]
struct Counts {
    exceptions: u32,
    starts: u32,
}

/// The object of these bytes, of either version, its code lawful or not. Nothing is reserved by a number in the bytes.
pub fn decode(alloc: Global, bytes: &[u8]) -> Result<Object, ObjectError>
    requires { length bytes.now < 2 ^ 32 }

    ensures object { IfOk result (λ o. IsObject bytes.now o) }
    ensures decoded { (o : AnObject) → IsObject bytes.now o → (result ≡ Ok o) ⊎ (result ≡ Err ObjectError.NoMemory) }

    // Where there is no object for the bytes, the place says where they go wrong.
    ensures bad { (at : ℕ) → result ≡ Err (ObjectError.Bad at) → IsBadPlace bytes.now at }
    ensures refused { (at : ℕ) → IsBadPlace bytes.now at → (result ≡ Err (ObjectError.Bad at)) ⊎ (result ≡ Err ObjectError.NoMemory) }
{
    read(alloc, bytes)
}

// The object of these bytes.
fn read(alloc: Global, bytes: &[u8]) -> Result<Object, ObjectError>
    requires { length bytes.now < 2 ^ 32 }
    ensures object { IfOk result (λ o. IsObject bytes.now o) }
    ensures bad { (at : ℕ) → result ≡ Err (ObjectError.Bad at) → IsBadPlace bytes.now at }
{
    let header = read_header(bytes)?;
    if header.version == b'1' {
        return read_code(alloc, header, bytes);
    }
    let counts = read_counts(header, bytes)?;
    read_tagged(alloc, header, counts, bytes)
}

// The numbers of the header that the bytes begin with.
fn read_header(bytes: &[u8]) -> Result<Header, ObjectError>
    requires { length bytes.now < 2 ^ 32 }
    ensures header { IfOk result (λ h. HasHeader bytes.now h.version h.params h.count (drop 12 bytes.now)) }
    ensures length { IfOk result (λ h. 12 ≤ length bytes.now) }
    ensures bad { (at : ℕ) → result ≡ Err (ObjectError.Bad at) → IsBadPlace bytes.now at }
{
    let columns = header_columns(byte_at(bytes, 8), byte_at(bytes, 9), byte_at(bytes, 10));
    match first_fault(&columns, bytes) {
        Some(at) => Err(ObjectError::Bad(at as u32)),
        None => {
            let count = u32::from_le_bytes([bytes[8], bytes[9], bytes[10], bytes[11]]);
            Ok(Header {
                version: bytes[3],
                params: bytes[4],
                count,
            })
        }
    }
}

// The numbers of exceptions and of starts.
fn read_counts(header: Header, bytes: &[u8]) -> Result<Counts, ObjectError>
    requires size { length bytes.now < 2 ^ 32 }
    requires length { 12 ≤ length bytes.now }
    requires version { header.version ≡ 50 }
    requires header { HasHeader bytes.now header.version header.params header.count (drop 12 bytes.now) }
    ensures counts { IfOk result (λ c. HasCounts bytes.now c.exceptions c.starts) }
    ensures bad { (at : ℕ) → result ≡ Err (ObjectError.Bad at) → IsBadPlace bytes.now at }
{
    let exceptions = match number_below(MOST_EXCEPTIONS + 1, &bytes[HEADER..]) {
        Ok(number) => number,
        Err(at) => return Err(ObjectError::Bad((HEADER + at) as u32)),
    };
    match number_below(MOST_STARTS + 1, &bytes[HEADER + 4..]) {
        Ok(starts) => Ok(Counts { exceptions, starts }),
        Err(at) => Err(ObjectError::Bad((HEADER + 4 + at) as u32)),
    }
}

// The code after a header of version 1.
fn read_code(alloc: Global, header: Header, bytes: &[u8]) -> Result<Object, ObjectError>
    requires size { length bytes.now < 2 ^ 32 }
    requires length { 12 ≤ length bytes.now }
    requires version { header.version ≡ 49 }
    requires header { HasHeader bytes.now header.version header.params header.count (drop 12 bytes.now) }
    ensures object { IfOk result (λ o. IsObject bytes.now o) }
    ensures bad { (at : ℕ) → result ≡ Err (ObjectError.Bad at) → IsBadPlace bytes.now at }
{
    // The check wants the parts of an instruction named where a list of them is dropped.
    let _named: Option<(Dst, Gpr, Src)> = None;
    let (list, end) = instructions(alloc, header.count, bytes, HEADER)?;
    check_end(bytes, end)?;
    Ok(Object::One(Code::new(header.params, list)))
}

// The code, the exceptions and the starts after the numbers of version 2.
fn read_tagged(
    alloc: Global,
    header: Header,
    counts: Counts,
    bytes: &[u8],
) -> Result<Object, ObjectError>
    requires size { length bytes.now < 2 ^ 32 }
    requires version { header.version ≡ 50 }
    requires header { HasHeader bytes.now header.version header.params header.count (drop 12 bytes.now) }
    requires counts { HasCounts bytes.now counts.exceptions counts.starts }
    ensures object { IfOk result (λ o. IsObject bytes.now o) }
    ensures bad { (at : ℕ) → result ≡ Err (ObjectError.Bad at) → IsBadPlace bytes.now at }
{
    let _named: Option<(Dst, Gpr, Src)> = None;
    let (list, end) = instructions(alloc, header.count, bytes, COUNTS)?;
    let (exceptions, end) = exceptions(alloc, counts.exceptions, bytes, end)?;
    let (starts, end) = starts(alloc, header.count, counts.starts, bytes, end)?;
    check_end(bytes, end)?;
    let code = Code::new(header.params, list);
    Ok(Object::Two(Tagged::new(code, exceptions, starts)))
}

// Refuses bytes after the end.
fn check_end(bytes: &[u8], end: usize) -> Result<(), ObjectError>
    requires size { length bytes.now < 2 ^ 32 }
    requires inside { end ≤ length bytes.now }
    ensures end { OnOk result (end ≡ length bytes.now) }
    ensures more { (at : ℕ) → result ≡ Err (ObjectError.Bad at) → (at ≡ end) × (end < length bytes.now) }
{
    if end < bytes.len() {
        return Err(ObjectError::Bad(end as u32));
    }
    Ok(())
}
