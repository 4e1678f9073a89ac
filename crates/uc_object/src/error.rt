// Why bytes aren't an object.
ghost use Rattle.std.specs.Prelude.{◌≡◌};
ghost use Rattle.uc_object.specs.declared.error.ObjectError.TheVariants.{NoMemory as WantOfMemory};

use nv_base::NoMemory;
use std::alloc::{AllocError, AllocFailed};
use thiserror::Error;

/// Why bytes aren't decoded.
#[derive(Clone, Copy, Debug, PartialEq, Eq, Error)]
pub enum ObjectError {
    #[error("out of memory")]
    NoMemory,
    /// The bytes aren't an object. The number is the first place such that no object begins with the bytes up to and
    /// including it, or the number of bytes where they begin an object and end too soon.
    #[error("no object goes on so at byte {0}")]
    Bad(u32),
}

impl From<NoMemory> for ObjectError {
    ghost from_gives = { λ _ e. e ≡ WantOfMemory };

    fn from(_error: NoMemory) -> ObjectError {
        ObjectError::NoMemory
    }
}

impl From<AllocError> for ObjectError {
    ghost from_gives = { λ _ e. e ≡ WantOfMemory };

    fn from(_error: AllocError) -> ObjectError {
        ObjectError::NoMemory
    }
}

impl<T: Drop> From<AllocFailed<T>> for ObjectError {
    ghost from_gives = { λ _ e. e ≡ WantOfMemory };

    fn from(_error: AllocFailed<T>) -> ObjectError {
        ObjectError::NoMemory
    }
}
