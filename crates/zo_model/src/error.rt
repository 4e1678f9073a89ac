//! Errors.

use std::alloc::{AllocError, AllocFailed};

/// Memory ran out.
#[derive(Clone, Copy, Debug, Drop)]
pub struct NoMemory;

impl From<AllocError> for NoMemory {
    fn from(_error: AllocError) -> NoMemory {
        NoMemory
    }
}

impl<T: Drop> From<AllocFailed<T>> for NoMemory {
    fn from(_error: AllocFailed<T>) -> NoMemory {
        NoMemory
    }
}

/// Why a text of a program or of a report wasn't read.
#[derive(Clone, Copy, Debug, PartialEq, Eq, Drop)]
pub enum ZoError {
    /// Memory ran out.
    NoMemory,
    /// The first faulty line, counted from 1.
    Bad(u32),
}

impl From<NoMemory> for ZoError {
    ghost use Rattle.std.specs.Prelude.{◌≡◌};
    ghost use Rattle.zo_model.specs.declared.error.ZoError.TheVariants as errors;

    ghost from_gives = { λ _ e. e ≡ errors.NoMemory };

    fn from(_error: NoMemory) -> ZoError {
        ZoError::NoMemory
    }
}

impl From<AllocError> for ZoError {
    ghost use Rattle.std.specs.Prelude.{◌≡◌};
    ghost use Rattle.zo_model.specs.declared.error.ZoError.TheVariants as errors;

    ghost from_gives = { λ _ e. e ≡ errors.NoMemory };

    fn from(_error: AllocError) -> ZoError {
        ZoError::NoMemory
    }
}

impl<T: Drop> From<AllocFailed<T>> for ZoError {
    ghost use Rattle.std.specs.Prelude.{◌≡◌};
    ghost use Rattle.zo_model.specs.declared.error.ZoError.TheVariants as errors;

    ghost from_gives = { λ _ e. e ≡ errors.NoMemory };

    fn from(_error: AllocFailed<T>) -> ZoError {
        ZoError::NoMemory
    }
}
