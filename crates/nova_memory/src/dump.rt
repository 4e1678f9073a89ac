//! Memories as a dump: words that aren't zero, and what they are as text.

use crate::fields::push_fields;
use nv_base::{Mem, Packet, SOURCE_SCRATCH};
use nv_lines::{push_counted, push_decimal};
use nv_memtext::{Job, push_words};
use std::alloc::{AllocError, Global};

// How many words a line has.
const ROW: usize = 4;

/// A readable text that says these memories and arguments.
pub fn dump_of(alloc: Global, job: &Job) -> Result<Vec<u8>, AllocError> {
    let mut out = Vec::new(alloc);
    let packet = &job.packet;
    out.extend_from_slice(b"memory ")?;
    push_decimal(&mut out, u64::from(packet.size(Mem::Sram)))?;
    push_counted(&mut out, b" ", u64::from(packet.size(Mem::Sdram)))?;
    out.extend_from_slice(b"args")?;
    push_words(&mut out, job.args.list())?;
    out.push(b'\n')?;
    push_memory(&mut out, packet, Mem::Sram)?;
    push_memory(&mut out, packet, Mem::Sdram)?;
    push_memory(&mut out, packet, Mem::Scratch)?;
    Ok(out)
}

fn push_memory(out: &mut Vec<u8>, packet: &Packet, mem: Mem) -> Result<(), AllocError> {
    let words = packet.words(mem);
    let words = match mem {
        Mem::Scratch => &words[..words.len().min(SOURCE_SCRATCH as usize)],
        Mem::Sram | Mem::Sdram => words,
    };
    let mut at: u64 = 0;
    let mut rest = words;
    for row in words.chunks(ROW) {
        if row.iter().any(|word| *word != 0) {
            if matches!(mem, Mem::Sdram) {
                push_fields(out, rest)?;
            }
            push_row(out, mem, at, row)?;
        }
        at = at.saturating_add(row_size(mem));
        rest = &rest[row.len().min(rest.len())..];
    }
    Ok(())
}

// How many addresses a line has.
fn row_size(mem: Mem) -> u64 {
    match mem {
        Mem::Sdram => 2,
        Mem::Sram | Mem::Scratch => 4,
    }
}

fn push_row(out: &mut Vec<u8>, mem: Mem, at: u64, row: &[u32]) -> Result<(), AllocError> {
    out.extend_from_slice(mem.name())?;
    out.push(b' ')?;
    push_decimal(out, at)?;
    out.push(b':')?;
    push_words(out, row)?;
    for _ in row.len()..ROW {
        out.extend_from_slice(b"         ")?;
    }
    out.extend_from_slice(b"  # ")?;
    for word in row {
        for byte in word.to_be_bytes() {
            out.push(shown(byte))?;
        }
    }
    out.push(b'\n')?;
    Ok(())
}

// The sign of a byte, or a dot.
fn shown(byte: u8) -> u8 {
    match byte {
        32..=126 => byte,
        _ => b'.',
    }
}
