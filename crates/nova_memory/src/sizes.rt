//! The sizes of the memories, where a readable text begins with them.
ghost use Rattle.std.specs.Prelude.{◌≡◌, ◌≤◌, IfOk, IfSome};
ghost use Rattle.nv_base.specs.Memories.{size_limit};
ghost use Rattle.nova_memory.specs.Readable.{size_of};

use crate::error::{ReadableError, Reason};
use crate::item::number;
use crate::token::Token;
use nv_base::{Mem, SIZE_LIMIT, SOURCE_SCRATCH};

/// The words of SRAM and the quadwords of SDRAM.
#[derive(Clone, Copy)]
pub struct Sizes {
    pub sram: u32,
    pub sdram: u32,
}

/// The greatest sizes.
pub const MOST: Sizes = Sizes {
    sram: SIZE_LIMIT,
    sdram: SIZE_LIMIT,
};

impl Sizes {
    /// The greatest address that a memory may end before.
    pub fn of(self, mem: Mem) -> u64
        ensures { result ≡ size_of self.sram self.sdram mem }
    {
        match mem {
            Mem::Sram => u64::from(self.sram),
            Mem::Sdram => u64::from(self.sdram),
            Mem::Scratch => u64::from(SOURCE_SCRATCH),
        }
    }
}

/// The sizes that the first tokens give, if they do, and the tokens that follow.
pub struct SizesRead<'t, 'a> {
    pub sizes: Option<Sizes>,
    pub rest: &'t [Token<'a>],
}

/// Reads the sizes.
pub fn read_sizes<'t, 'a>(tokens: &'t [Token<'a>]) -> Result<SizesRead<'t, 'a>, ReadableError>
    ensures small { IfOk result (λ read. IfSome read.sizes (λ s. (s.sram ≤ size_limit) × (s.sdram ≤ size_limit))) }
{
    match tokens {
        [name, rest @ ..] if name.text == b"memory".as_slice() => {
            let [first, second, rest @ ..] = rest else {
                return Err(name.bad(Reason::Number));
            };
            let sram = size_in(first)?;
            let sdram = size_in(second)?;
            Ok(SizesRead {
                sizes: Some(Sizes { sram, sdram }),
                rest,
            })
        }
        _ => Ok(SizesRead {
            sizes: None,
            rest: tokens,
        }),
    }
}

fn size_in(token: &Token) -> Result<u32, ReadableError>
    ensures small { IfOk result (λ n. n ≤ size_limit) }
{
    match number(token.text) {
        Some(size) if size <= SIZE_LIMIT => Ok(size),
        Some(_) => Err(token.bad(Reason::Large)),
        None => Err(token.bad(Reason::Number)),
    }
}
