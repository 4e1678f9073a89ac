//! The fields of a packet's header, as a comment.

use nv_lines::push_decimal;
use std::alloc::AllocError;

// The words of a header without options.
const PLAIN: usize = 5;

/// Appends a comment with the fields of the IPv4 header that the words begin with, if its checksum is right.
pub fn push_fields(out: &mut Vec<u8>, words: &[u32]) -> Result<(), AllocError> {
    let Some(header) = header_of(words) else {
        return Ok(());
    };
    out.extend_from_slice(b"# IPv4 ")?;
    push_address(out, word(header, 3))?;
    out.extend_from_slice(b" > ")?;
    push_address(out, word(header, 4))?;
    push_number(out, b", bytes ", word(header, 0) & 65_535)?;
    push_number(out, b", TTL ", word(header, 2) >> 24)?;
    let protocol = word(header, 2) >> 16 & 255;
    push_number(out, b", protocol ", protocol)?;
    if protocol == 6 || protocol == 17 {
        push_ports(out, part_after(words, header.len()))?;
    }
    out.push(b'\n')?;
    Ok(())
}

// The ports that a header of TCP or UDP begins with.
fn push_ports(out: &mut Vec<u8>, words: &[u32]) -> Result<(), AllocError> {
    let Some(ports) = words.first() else {
        return Ok(());
    };
    push_number(out, b", ports ", *ports >> 16)?;
    push_number(out, b" > ", *ports & 65_535)
}

// The words of the header, if there is one.
fn header_of(words: &[u32]) -> Option<&[u32]> {
    let first = words.first()?;
    let count = (*first >> 24 & 15) as usize;
    if *first >> 28 != 4 || count < PLAIN {
        return None;
    }
    let header = words.get(..count)?;
    if is_right(header) { Some(header) } else { None }
}

// Whether the sum of all halves is that of a right checksum.
fn is_right(header: &[u32]) -> bool {
    let mut sum: u64 = 0;
    for word in header {
        sum = sum.saturating_add(u64::from(*word >> 16));
        sum = sum.saturating_add(u64::from(*word & 65_535));
    }
    sum % 65_535 == 0
}

fn part_after(words: &[u32], count: usize) -> &[u32] {
    match words.get(count..) {
        Some(rest) => rest,
        None => &[],
    }
}

fn word(words: &[u32], n: usize) -> u32 {
    match words.get(n) {
        Some(word) => *word,
        None => 0,
    }
}

fn push_number(out: &mut Vec<u8>, text: &[u8], n: u32) -> Result<(), AllocError> {
    out.extend_from_slice(text)?;
    push_decimal(out, u64::from(n))
}

fn push_address(out: &mut Vec<u8>, word: u32) -> Result<(), AllocError> {
    push_decimal(out, u64::from(word >> 24))?;
    push_number(out, b".", word >> 16 & 255)?;
    push_number(out, b".", word >> 8 & 255)?;
    push_number(out, b".", word & 255)
}
