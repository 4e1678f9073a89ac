//! Errors.

ghost use Rattle.std.specs.Prelude.{◌≡◌};
ghost use Rattle.bank_prog.specs.declared.error.BankError.TheVariants.{NoMemory as WantOfMemory};

use nv_base::NoMemory;
use std::alloc::{AllocError, AllocFailed};

/// Why there is no program.
#[derive(Clone, Copy)]
pub enum BankError {
    NoMemory,
    /// So many columns, or N rows, are more than a program may have.
    TooLarge(u64),
}

impl From<NoMemory> for BankError {
    ghost from_gives = { λ _ e. e ≡ WantOfMemory };

    fn from(_error: NoMemory) -> BankError {
        BankError::NoMemory
    }
}

impl From<AllocError> for BankError {
    ghost from_gives = { λ _ e. e ≡ WantOfMemory };

    fn from(_error: AllocError) -> BankError {
        BankError::NoMemory
    }
}

impl<T: Drop> From<AllocFailed<T>> for BankError {
    ghost from_gives = { λ _ e. e ≡ WantOfMemory };

    fn from(_failed: AllocFailed<T>) -> BankError {
        BankError::NoMemory
    }
}
