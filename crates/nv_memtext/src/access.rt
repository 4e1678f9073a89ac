//! Which words of a memory a line may give.
ghost use Rattle.std.specs.Prelude.{◌+◌, ◌<◌, ◌≤◌, ◌^◌, ◌↔◌, IsTrue};
ghost use Rattle.nv_base.specs.Memories.{IsAccess, first_word, size_limit};
ghost use Rattle.nv_memtext.specs.Places.{room};

use crate::Sizes;
use nv_base::{Mem, SOURCE_SCRATCH};

/// Whether N words are an access to a memory.
pub fn is_access(mem: Mem, count: usize) -> bool
    requires { count ≤ 8 }
    ensures { IsTrue result ↔ IsAccess mem count }
{
    match mem {
        Mem::Sram | Mem::Scratch => count > 0,
        Mem::Sdram => count == 2 || count == 4 || count == 6 || count == 8,
    }
}

/// Whether N words from an address on lie inside the memory.
pub fn is_inside(sizes: &Sizes, mem: Mem, at: u64, count: usize) -> bool
    requires sdram { sizes.now.sdram ≤ size_limit }
    requires at { at < 10 ^ 10 }
    requires count { count ≤ 8 }
    ensures { IsTrue result ↔ (first_word mem at + count ≤ room sizes.now.sram sizes.now.sdram mem) }
{
    match mem {
        Mem::Sram => at + count as u64 <= sizes.sram,
        Mem::Sdram => 2 * at + count as u64 <= 2 * sizes.sdram,
        Mem::Scratch => at + count as u64 <= SOURCE_SCRATCH as u64,
    }
}
