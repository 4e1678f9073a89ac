// Why an expression gives no value.

use crate::value::Value;
use nv_base::{Mem, NoMemory};
use std::alloc::{AllocError, AllocFailed};

/// Why an expression gives no value.
#[derive(Drop)]
pub enum Interruption<'a> {
    NoMemory,
    /// An exception, by its number, with its values.
    Raised(u16, Vec<Value<'a>>),
    /// An access at this address reached past the memory.
    Fault(Mem, u32),
    /// No call was left.
    Going,
}

impl<'a> From<NoMemory> for Interruption<'a> {
    ghost use Rattle.std.specs.Prelude.{◌≡◌};
    ghost use Rattle.nv_meaning_values.specs.declared.stop.Interruption.TheVariants.{NoMemory as WantOfMemory};

    ghost from_gives = { λ _ s. s ≡ WantOfMemory };

    fn from(_error: NoMemory) -> Interruption<'a> {
        Interruption::NoMemory
    }
}

impl<'a> From<AllocError> for Interruption<'a> {
    ghost use Rattle.std.specs.Prelude.{◌≡◌};
    ghost use Rattle.nv_meaning_values.specs.declared.stop.Interruption.TheVariants.{NoMemory as WantOfMemory};

    ghost from_gives = { λ _ s. s ≡ WantOfMemory };

    fn from(_error: AllocError) -> Interruption<'a> {
        Interruption::NoMemory
    }
}

impl<'a, T: Drop> From<AllocFailed<T>> for Interruption<'a> {
    ghost use Rattle.std.specs.Prelude.{◌≡◌};
    ghost use Rattle.nv_meaning_values.specs.declared.stop.Interruption.TheVariants.{NoMemory as WantOfMemory};

    ghost from_gives = { λ _ s. s ≡ WantOfMemory };

    fn from(_failed: AllocFailed<T>) -> Interruption<'a> {
        Interruption::NoMemory
    }
}
