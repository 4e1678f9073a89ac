// Why a text has no typed program.

ghost use Rattle.std.specs.Prelude.{◌≡◌};
ghost use Rattle.nova_compile.specs.declared.error.FrontError.TheVariants.{NoMemory as WantOfMemory};

use nv_ast::Span;
use nv_base::NoMemory;
use nv_text::TextError;

/// Why a text has no typed program, or a too large one.
#[derive(Clone, Copy, Debug, PartialEq, Eq)]
pub enum FrontError {
    NoMemory,
    /// The text has no program. It isn't `TextError::NoMemory`.
    Text(TextError),
    /// The kind of the first fault of the program's types, from 1 to 24, and where it lies.
    Fault(u8, Span),
    /// The expanded size of the program, which is over 4,096.
    TooLarge(u32),
}

impl From<NoMemory> for FrontError {
    ghost from_gives = { λ _ e. e ≡ WantOfMemory };

    fn from(_error: NoMemory) -> FrontError {
        FrontError::NoMemory
    }
}
