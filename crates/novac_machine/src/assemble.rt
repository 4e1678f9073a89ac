//! The command `asm`.
ghost use Rattle.std.specs.Prelude.{◌≡◌, ◌⊎◌, ◌≤◌, length, IfOk, IfErr};
ghost use Rattle.novac_machine.specs.Assembly.{AsmMakes, AsmRefuses, IsAssembledTo};
ghost use Rattle.novac_words.specs.Limits.{assembly_limit};
ghost use Rattle.novac_words.specs.Lines.{IsUncaused};
ghost use Rattle.novac_machine.specs.inner.Files.{files_of, AreTold};

use crate::save::Made;
use novac_words::{Refusal, Status, counted_line};
use std::alloc::Global;
use uc_asm::{AsmError, assemble};
use uc_object::encode_code;

/// Assembles a text, whose object is saved under a name.
pub fn assemble_bytes<'a>(
    alloc: Global,
    bytes: &[u8],
    object: &'a str,
) -> Result<Made<'a>, Refusal<'a>>
    requires { length bytes.now ≤ assembly_limit }
    ensures made { IfOk result (λ m. AsmMakes bytes.now object.now m.status (files_of m.outputs) m.text.items) }
    ensures told { IfOk result (λ m. AreTold m.outputs) }
    ensures refused { IfErr result (λ e. IsUncaused e ⊎ AsmRefuses bytes.now e) }
{
    let (encoded, instructions) = object_of(alloc, bytes)?;
    let text = counted_line(alloc, b"assembled ", instructions)?;
    Ok(Made::one(alloc, Status::Done, text, object, encoded)?)
}

// The object of an assembly text, and the number of its instructions.
fn object_of<'a>(alloc: Global, text: &[u8]) -> Result<(Vec<u8>, u64), Refusal<'a>>
    requires { length text.now ≤ assembly_limit }
    ensures assembled { IfOk result (λ p. IsAssembledTo text.now p.0.items p.1) }
    ensures refused { IfErr result (λ e. IsUncaused e ⊎ AsmRefuses text.now e) }
{
    let code = match assemble(alloc, text) {
        Ok(code) => code,
        Err(AsmError::NoMemory) => return Err(Refusal::NoMemory),
        Err(AsmError::Syntax(n)) => return Err(Refusal::Syntax(n)),
        Err(AsmError::Label(n)) => return Err(Refusal::Label(n)),
        Err(AsmError::Unlawful(n, rule)) => return Err(Refusal::UnlawfulLine(n, rule)),
    };
    let object = encode_code(alloc, &code)?;
    let instructions = code.list().len() as u64;
    Ok((object, instructions))
}
