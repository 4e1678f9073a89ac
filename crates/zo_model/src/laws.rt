//! A program is read back from its text.

ghost use Rattle.zo_model.specs.Contents.{contents};
ghost use Rattle.zo_model.specs.Program.{IsValid};
ghost use Rattle.zo_model.specs.ProgramAnswer.{AnswersProgram};

use crate::error::ZoError;
use crate::program::ZeroOne;
use crate::read_text::read_program;
use crate::text::print_program;
use std::alloc::Global;

/// The program that is read from the text of a program: the same, where memory suffices. A text of 2^32 bytes or more isn't
/// read, as if there were no memory for it.
pub fn read_back(alloc: Global, z: &ZeroOne) -> Result<ZeroOne, ZoError>
    requires { IsValid z.now }
    ensures { AnswersProgram result (contents z.now) }
{
    let text = print_program(alloc, z)?;
    if text.len() >= 1 << 32 {
        return Err(ZoError::NoMemory);
    }
    read_program(alloc, &text)
}
