//! A readable text, read.
use crate::args::{ArgsRead, read_args};
use crate::blocks::read_blocks;
use crate::error::ReadableError;
use crate::sizes::{MOST, Sizes, SizesRead, read_sizes};
use crate::token::{Token, tokens_of};
use nv_base::NoMemory;
use nv_lines::{push_counted, push_decimal};
use nv_memtext::push_words;
use std::alloc::{AllocError, Global};

/// The memory text that a readable text says.
pub fn memory_of_readable(alloc: Global, bytes: &[u8]) -> Result<Vec<u8>, ReadableError> {
    let tokens = tokens_of(alloc, bytes)?;
    text_of_tokens(alloc, &tokens)
}

fn text_of_tokens(alloc: Global, tokens: &[Token]) -> Result<Vec<u8>, ReadableError> {
    let SizesRead { sizes, rest } = read_sizes(tokens)?;
    let ArgsRead { args, rest } = read_args(alloc, rest)?;
    let blocks = read_blocks(alloc, rest, sizes.unwrap_or(MOST))?;
    let sizes = sizes.unwrap_or(blocks.needed);
    Ok(whole_text(alloc, sizes, &args, &blocks.lines)?)
}

fn whole_text(
    alloc: Global,
    sizes: Sizes,
    args: &[u32],
    lines: &[u8],
) -> Result<Vec<u8>, AllocError> {
    let mut out = Vec::new(alloc);
    out.extend_from_slice(b"memory ")?;
    push_decimal(&mut out, u64::from(sizes.sram))?;
    push_counted(&mut out, b" ", u64::from(sizes.sdram))?;
    out.extend_from_slice(b"args")?;
    push_words(&mut out, args)?;
    out.push(b'\n')?;
    out.extend_from_slice(lines)?;
    Ok(out)
}

/// Where the first `args` stands in a text: the place of its first byte, and the one behind its last.
pub fn args_place(alloc: Global, bytes: &[u8]) -> Result<Option<(u32, u32)>, NoMemory> {
    let tokens = tokens_of(alloc, bytes)?;
    for token in tokens.iter() {
        if token.text == b"args".as_slice() {
            return Ok(Some(token.places()));
        }
    }
    Ok(None)
}
