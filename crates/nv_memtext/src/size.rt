//! The sizes of a packet's memories.
ghost use Rattle.std.specs.Prelude.{◌≡◌};
ghost use Rattle.nv_base.specs.Memories.{first_too_large};

use nv_base::SIZE_LIMIT;

/// The sizes that the first line gives: words of SRAM and quadwords of SDRAM.
#[derive(Clone, Copy)]
pub struct Sizes {
    pub sram: u64,
    pub sdram: u64,
}

/// The first of the sizes that is too large, that of SRAM before that of SDRAM.
pub fn too_large(sizes: &Sizes) -> Option<u64>
    ensures { result ≡ first_too_large sizes.now.sram sizes.now.sdram }
{
    if sizes.sram > SIZE_LIMIT as u64 {
        return Some(sizes.sram);
    }
    if sizes.sdram > SIZE_LIMIT as u64 {
        return Some(sizes.sdram);
    }
    None
}
