// Memory exhaustion, and the refusals of a new packet.
ghost use Rattle.std.specs.Prelude.{◌≡◌};
ghost use Rattle.nv_base.specs.declared.error.PacketError.TheVariants.{NoMemory as WantOfMemory};

use std::alloc::{AllocError, AllocFailed};

/// The allocator refused to give memory. This answer may come from every call that allocates.
#[derive(Clone, Copy, Debug)]
pub struct NoMemory;

impl From<AllocError> for NoMemory {
    fn from(_error: AllocError) -> NoMemory {
        NoMemory
    }
}

impl<T: Drop> From<AllocFailed<T>> for NoMemory {
    fn from(_failed: AllocFailed<T>) -> NoMemory {
        NoMemory
    }
}

/// Why there is no new packet.
#[derive(Clone, Copy, Debug)]
pub enum PacketError {
    NoMemory,
    /// The first size above 65,536, that of SRAM before that of SDRAM.
    TooLarge(u32),
}

impl From<NoMemory> for PacketError {
    ghost from_gives = { λ _ e. e ≡ WantOfMemory };

    fn from(_error: NoMemory) -> PacketError {
        PacketError::NoMemory
    }
}

impl From<AllocError> for PacketError {
    ghost from_gives = { λ _ e. e ≡ WantOfMemory };

    fn from(_error: AllocError) -> PacketError {
        PacketError::NoMemory
    }
}
