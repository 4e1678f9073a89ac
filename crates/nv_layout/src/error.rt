// Why a layout has no outline.
ghost use Rattle.std.specs.Prelude.{◌≡◌};
ghost use Rattle.nv_layout.specs.declared.error.LayoutError.TheVariants.{NoMemory as WantOfMemory};

use nv_base::NoMemory;
use std::alloc::{AllocError, AllocFailed};

/// Why a layout text has no outline.
#[derive(Clone, Copy, Debug)]
pub enum LayoutError {
    NoMemory,
    /// The kind of the first fault: 3 an unknown layout, 4 a wrong number of bits, 5 a name twice in a
    /// record, 6 alternatives of different sizes, 7 a layout without a field, over 1,024 bits or
    /// higher than 100.
    Fault(u8),
}

impl From<NoMemory> for LayoutError {
    ghost from_gives = { λ _ e. e ≡ WantOfMemory };

    fn from(_error: NoMemory) -> LayoutError {
        LayoutError::NoMemory
    }
}

impl From<AllocError> for LayoutError {
    ghost from_gives = { λ _ e. e ≡ WantOfMemory };

    fn from(_error: AllocError) -> LayoutError {
        LayoutError::NoMemory
    }
}

impl<T: Drop> From<AllocFailed<T>> for LayoutError {
    ghost from_gives = { λ _ e. e ≡ WantOfMemory };

    fn from(_failed: AllocFailed<T>) -> LayoutError {
        LayoutError::NoMemory
    }
}
