//! The blocks of a readable text: bytes of a memory from an address on.
ghost use Rattle.std.specs.Prelude.{◌≡◌, ◌≢◌, ◌≤◌, ◌<◌, [], IfOk, length};
ghost use Rattle.nv_base.specs.Memories.{size_limit};
ghost use Rattle.nova_memory.specs.Adding.{raised};
ghost use Rattle.nv_base.specs.MemoryNames.{memory_name};

use crate::args::is_name;
use crate::error::{ReadableError, Reason};
use crate::item::{bytes_of, place};
use crate::lines::{addresses, push_lines, words_in};
use crate::sizes::Sizes;
use crate::token::Token;
use nv_base::Mem;
use std::alloc::Global;

/// The lines of blocks, and the sizes of the memories that they need.
#[derive(Drop)]
pub struct Blocks {
    pub lines: Vec<u8>,
    pub needed: Sizes,
}

/// Reads all blocks. Each has to lie inside memories of these sizes.
pub fn read_blocks(alloc: Global, tokens: &[Token], sizes: Sizes) -> Result<Blocks, ReadableError>
    requires sram { sizes.sram ≤ size_limit }
    requires sdram { sizes.sdram ≤ size_limit }
{
    let mut blocks = Blocks {
        lines: Vec::new(alloc),
        needed: Sizes { sram: 0, sdram: 0 },
    };
    let mut rest = tokens;
    while !rest.is_empty() {
        let taken = read_block(alloc, &mut blocks, rest, sizes)?;
        rest = &rest[taken..];
    }
    Ok(blocks)
}

// Reads the first block, and gives how many tokens it has.
fn read_block(
    alloc: Global,
    blocks: &mut Blocks,
    tokens: &[Token],
    sizes: Sizes,
) -> Result<usize, ReadableError>
    requires some { tokens.now ≢ [] }
    requires sram { sizes.sram ≤ size_limit }
    requires sdram { sizes.sdram ≤ size_limit }
    ensures some { IfOk result (λ taken. 0 < taken) }
    ensures within { IfOk result (λ taken. taken ≤ length tokens.now) }
{
    let name = &tokens[0];
    let mem = memory_in(name)?;
    let [_, at, rest @ ..] = tokens else {
        return Err(name.bad(Reason::Number));
    };
    let Some(first) = place(at.text) else {
        return Err(at.bad(Reason::Number));
    };
    let (bytes, count) = block_bytes(alloc, rest)?;
    let words = words_in(alloc, mem, &bytes)?;
    let after = u64::from(first) + addresses(mem, words.len());
    if after > sizes.of(mem) {
        return Err(at.bad(Reason::Outside));
    }
    push_lines(&mut blocks.lines, mem, u64::from(first), &words)?;
    blocks.needed.raise(mem, after as u32);
    Ok(count + 2)
}

// The memory that a token names.
fn memory_in(name: &Token) -> Result<Mem, ReadableError>
    ensures { IfOk result (λ mem. name.now.text.now ≡ memory_name mem) }
{
    match Mem::of_name(name.text) {
        Some(mem) => Ok(mem),
        None => Err(name.bad(misplaced(name.text))),
    }
}

// Why a token begins no block.
fn misplaced(text: &[u8]) -> Reason {
    match text {
        b"memory" | b"args" => Reason::Late,
        _ => Reason::Nowhere,
    }
}

// The bytes of the tokens up to the next name, and how many tokens these are.
fn block_bytes(alloc: Global, tokens: &[Token]) -> Result<(Vec<u8>, usize), ReadableError>
    ensures within { IfOk result (λ read. read.1 ≤ length tokens.now) }
{
    let mut bytes = Vec::new(alloc);
    let mut count = 0;
    for token in tokens {
        if is_name(token.text) {
            break;
        }
        let more = bytes_of(alloc, token)?;
        bytes.extend_from_slice(&more)?;
        count += 1;
    }
    Ok((bytes, count))
}

impl Sizes {
    // Makes a memory reach as far as an address.
    fn raise(&mut self, mem: Mem, after: u32)
        ensures { self.new ≡ raised mem after self.old }
    {
        match mem {
            Mem::Sram => self.sram = self.sram.max(after),
            Mem::Sdram => self.sdram = self.sdram.max(after),
            Mem::Scratch => {}
        }
    }
}
