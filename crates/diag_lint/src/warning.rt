//! A warning.

use nv_ast::{Name, Span};
use nv_base::Mem;

/// What a warning is about.
#[derive(Clone, Copy)]
pub enum Cause<'a> {
    /// A variable that isn't used.
    Variable(&'a Name),
    /// A parameter that isn't used.
    Parameter(&'a Name),
    /// A function that `main` doesn't reach.
    Function(&'a Name),
    /// An exception that isn't raised.
    Exception(&'a Name),
    /// A layout that isn't used.
    Layout(&'a Name),
    /// A number that needs more bits than its field has.
    Wide(&'a Name, u32, u32),
    /// A read of which no word is used.
    Read,
    /// A condition that is always one way.
    Condition(bool),
    /// A call of a function by itself, with the arguments that it was given.
    Endless,
    /// An access behind the end of the largest memory.
    Past(Mem),
}

/// What a warning is about, and where; of a name, the stretch of the source in which it is first.
#[derive(Clone, Copy)]
pub struct Warning<'a> {
    pub cause: Cause<'a>,
    pub span: Span,
}

impl<'a> Cause<'a> {
    /// The name by which it is explained and left out.
    pub fn code(self) -> &'static str {
        match self {
            Cause::Variable(_)
            | Cause::Parameter(_)
            | Cause::Function(_)
            | Cause::Exception(_)
            | Cause::Layout(_) => "unused",
            Cause::Wide(_, _, _) => "wide",
            Cause::Read => "read",
            Cause::Condition(_) => "condition",
            Cause::Endless => "endless",
            Cause::Past(_) => "address",
        }
    }
}

/// A call of a function in another one.
#[derive(Clone, Copy)]
pub struct Call<'a> {
    pub caller: &'a Name,
    pub callee: &'a Name,
    pub span: Span,
}
