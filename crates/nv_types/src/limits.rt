//! The limit of programs.

ghost use Rattle.std.specs.Prelude.{◌≡◌, ◌<◌, ◌≤◌, IfOk, IfErr};

use nv_types_table::error::TypeError;

/// The greatest expanded size of a program that is accepted.
const LARGEST: u32 = 4096;

/// `TooLarge`: an expanded size that is not accepted.
pub fn fitting_size(expanded: u32) -> Result<(), TypeError>
    ensures small { IfOk result (λ _. expanded ≤ 4096) }
    ensures large { IfErr result (λ e. (e ≡ TypeError.TooLarge expanded) × (4096 < expanded)) }
{
    if expanded > LARGEST {
        return Err(TypeError::TooLarge(expanded));
    }
    Ok(())
}
