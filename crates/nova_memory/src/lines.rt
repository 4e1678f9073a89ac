//! The lines of a memory text that give words to a memory.
ghost use Rattle.std.specs.Prelude.{◌≡◌, ◌≢◌, ◌<◌, ◌+◌, ◌^◌, ◌∷◌, [], length};
ghost use Rattle.nova_memory.specs.Readable.{addresses, words_of};

use nv_base::Mem;
use nv_lines::push_decimal;
use nv_memtext::push_words;
use std::alloc::{AllocError, Global};

/// Writes lines that give these words to a memory from an address on, eight words each.
pub fn push_lines(out: &mut Vec<u8>, mem: Mem, at: u64, words: &[u32]) -> Result<(), AllocError>
    requires { at + length words.now < 2 ^ 64 }
{
    let mut rest = words;
    let mut at = at;
    while !rest.is_empty() {
        let (front, after) = rest.split_at(rest.len().min(8));
        push_line(out, mem, at, front)?;
        at += addresses(mem, front.len());
        rest = after;
    }
    Ok(())
}

fn push_line(out: &mut Vec<u8>, mem: Mem, at: u64, words: &[u32]) -> Result<(), AllocError> {
    out.extend_from_slice(mem.name())?;
    out.push(b' ')?;
    push_decimal(out, at)?;
    push_words(out, words)?;
    out.push(b'\n')?;
    Ok(())
}

/// How many addresses so many words take.
pub fn addresses(mem: Mem, words: usize) -> u64
    ensures { result ≡ addresses mem words }
{
    match mem {
        Mem::Sdram => words as u64 / 2,
        Mem::Sram | Mem::Scratch => words as u64,
    }
}

/// The words of bytes from the highest byte on, the last word or quadword filled up with zeros.
pub fn words_in(alloc: Global, mem: Mem, bytes: &[u8]) -> Result<Vec<u32>, AllocError> {
    let mut words = Vec::new(alloc);
    let mut rest = bytes;
    while !rest.is_empty() {
        let (word, after) = first_word(rest);
        words.push(word)?;
        rest = after;
    }
    if matches!(mem, Mem::Sdram) && words.len() % 2 == 1 {
        words.push(0)?;
    }
    Ok(words)
}

/// The word of the first four bytes, with zeros for those that lack, and what follows.
pub fn first_word(rest: &[u8]) -> (u32, &[u8])
    requires { rest.now ≢ [] }
    ensures word { words_of rest.now ≡ result.0 ∷ words_of result.1.now }
    ensures shorter { length result.1.now < length rest.now }
{
    match rest {
        [a, b, c, d, after @ ..] => (u32::from_be_bytes([*a, *b, *c, *d]), after),
        [a, b, c] => (u32::from_be_bytes([*a, *b, *c, 0]), &[]),
        [a, b] => (u32::from_be_bytes([*a, *b, 0, 0]), &[]),
        [a] => (u32::from_be_bytes([*a, 0, 0, 0]), &[]),
        [] => (0, &[]),
    }
}
