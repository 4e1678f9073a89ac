//! The stretches of a memory that an outcome text shows.
ghost use Rattle.std.specs.Prelude.{◌≡◌, ◌<◌, ◌^◌};
ghost use Rattle.nv_memtext.specs.Places.{stretch_start};

use nv_base::Mem;

/// The address of a memory's stretch `k`.
pub fn start(mem: Mem, k: usize) -> u64
    requires { k < 2 ^ 32 }
    ensures { result ≡ stretch_start mem k }
{
    match mem {
        Mem::Sdram => 4 * k as u64,
        Mem::Sram | Mem::Scratch => 8 * k as u64,
    }
}
