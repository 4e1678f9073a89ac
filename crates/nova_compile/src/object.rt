//! The object of code.
ghost use Rattle.std.specs.Prelude.{◌≤◌, ◌<◌, ◌^◌, All, length, IfOk};
ghost use Rattle.nv_ast.specs.ProgramView.{program_of};
ghost use Rattle.nv_text.specs.Limits.{source_limit};
ghost use Rattle.nova_compile.specs.Naming.{source_exceptions};
ghost use Rattle.uc_object.specs.Object.{IsTaggedObject};

use crate::naming::exceptions_of;
use nv_ast::Program;
use nv_base::NoMemory;
use std::alloc::Global;
use uc_isa::Code;
use uc_object::{Object, Tagged, encode};

/// The object of the code of a source, with the names of its exceptions, and where its labels start.
pub fn object_of(
    alloc: Global,
    text: &[u8],
    program: &Program,
    code: Code,
    starts: Vec<u32>,
) -> Result<Vec<u8>, NoMemory>
    requires text { length text.now ≤ source_limit }
    requires starts { length starts.items ≤ 2 ^ 20 }
    requires inside { All (λ start. start < length code.list) starts.items }
    ensures { IfOk result (λ bytes. IsTaggedObject bytes.items (record { code = code; exceptions = source_exceptions text.now (program_of program.now); starts = starts.items })) }
{
    let exceptions = exceptions_of(alloc, text, program)?;
    let tagged = Tagged::new(code, exceptions, starts);
    let object = Object::Two(tagged);
    encode(alloc, &object)
}
