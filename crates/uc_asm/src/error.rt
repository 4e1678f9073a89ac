//! Why a text isn't assembled.
ghost use Rattle.std.specs.Prelude.{◌≡◌};
ghost use Rattle.uc_asm.specs.declared.error.AsmError.TheVariants.{NoMemory as WantOfMemory};

use nv_base::NoMemory;
use std::alloc::{AllocError, AllocFailed};
use thiserror::Error;

/// Why a text isn't assembled. Lines count from 1.
#[derive(Clone, Copy, Debug, PartialEq, Eq, Error)]
pub enum AsmError {
    #[error("out of memory")]
    NoMemory,
    /// The first line that isn't of the format. A text without an instruction fails at the line after its last.
    #[error("line {0} is not of the format")]
    Syntax(u32),
    /// The first line whose label is declared before, or whose target isn't declared.
    #[error("line {0} has a label that is declared twice or not at all")]
    Label(u32),
    /// The first line whose instruction breaks a rule, and the least of the seven that it breaks.
    #[error("line {0} breaks rule {1}")]
    Unlawful(u32, u8),
}

impl From<NoMemory> for AsmError {
    ghost from_gives = { λ _ e. e ≡ WantOfMemory };

    fn from(_error: NoMemory) -> AsmError {
        AsmError::NoMemory
    }
}

impl From<AllocError> for AsmError {
    ghost from_gives = { λ _ e. e ≡ WantOfMemory };

    fn from(_error: AllocError) -> AsmError {
        AsmError::NoMemory
    }
}

impl<T: Drop> From<AllocFailed<T>> for AsmError {
    ghost from_gives = { λ _ e. e ≡ WantOfMemory };

    fn from(_error: AllocFailed<T>) -> AsmError {
        AsmError::NoMemory
    }
}
