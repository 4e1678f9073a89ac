//! Why a program isn't typed.

ghost use Rattle.std.specs.Prelude.{◌≡◌, [], ◌∷◌};
ghost use Rattle.nv_ast.specs.Faults.{at_span};
ghost use Rattle.nv_ast.specs.Tests.{where_true};
ghost use Rattle.nv_types_table.specs.inner.Faulty.{Judges};
ghost use Rattle.nv_types_table.specs.declared.error.TypeError.TheVariants.{NoMemory as WantOfMemory};

use nv_ast::Span;
use nv_base::NoMemory;
use std::alloc::{AllocError, AllocFailed};

/// Why a program isn't typed, or too large.
#[derive(Clone, Copy, Debug, PartialEq, Eq)]
pub enum TypeError {
    NoMemory,
    /// The kind of the first fault, from 1 to 24, and where it lies.
    Fault(u8, Span),
    /// The expanded size, which is over 4,096.
    TooLarge(u32),
}

impl From<NoMemory> for TypeError {
    ghost from_gives = { λ _ e. e ≡ WantOfMemory };

    fn from(_error: NoMemory) -> TypeError {
        TypeError::NoMemory
    }
}

impl From<AllocError> for TypeError {
    ghost from_gives = { λ _ e. e ≡ WantOfMemory };

    fn from(_error: AllocError) -> TypeError {
        TypeError::NoMemory
    }
}

impl<T: Drop> From<AllocFailed<T>> for TypeError {
    ghost from_gives = { λ _ e. e ≡ WantOfMemory };

    fn from(_failed: AllocFailed<T>) -> TypeError {
        TypeError::NoMemory
    }
}

// A fault of this kind where there is one.
pub fn fault_where(found: bool, kind: u8, span: Span) -> Result<(), TypeError>
    ensures { Judges (at_span span (where_true found kind)) result }
{
    if found {
        Err(TypeError::Fault(kind, span))
    } else {
        Ok(())
    }
}
