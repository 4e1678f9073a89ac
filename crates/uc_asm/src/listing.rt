//! The listing of a code.
ghost use Rattle.std.specs.Prelude.{◌≡◌, ◌++◌, ◌∷◌, [], IfOk, OnOk};
ghost use Rattle.uc_isa.specs.Lawful.{IsLawful};
ghost use Rattle.uc_asm.specs.Labels.{IsCodeOf};
ghost use Rattle.uc_asm.specs.Words.{InRange};
ghost use Rattle.uc_asm.specs.Items.{instruction_line, params_line};
ghost use Rattle.uc_asm.specs.Text.{listing};

use crate::words::push_words;
use crate::writing::push_number;
use nv_base::NoMemory;
use std::alloc::{AllocError, Global};
use uc_isa::{Code, Instr};

/// The text of a code, without labels: each target is written as a place.
pub fn print(alloc: Global, code: &Code) -> Result<Vec<u8>, NoMemory>
    ensures listing { IfOk result (λ bytes. bytes.items ≡ listing code.now) }
    ensures text { IfOk result (λ bytes. IsLawful code.now.list → IsCodeOf bytes.items code.now) }
{
    let mut out = Vec::new(alloc);
    push_params(&mut out, code.params())?;
    let list = code.list();
    for i in list {
        push_instruction(&mut out, *i)?;
    }
    Ok(out)
}

/// The line of the number of parameters, with its end.
pub fn push_params(out: &mut Vec<u8>, params: u8) -> Result<(), AllocError>
    ensures { OnOk result (out.new.items ≡ out.old.items ++ (params_line params ++ 10 ∷ [])) }
{
    out.extend_from_slice(b"params")?;
    push_number(out, u64::from(params))?;
    out.push(b'\n')?;
    Ok(())
}

/// The line of an instruction, with its end.
pub fn push_instruction(out: &mut Vec<u8>, i: Instr) -> Result<(), AllocError>
    ensures line { OnOk result (out.new.items ≡ out.old.items ++ (instruction_line i ++ 10 ∷ [])) }
    ensures fits { InRange i }
{
    push_words(out, i)?;
    out.push(b'\n')?;
    Ok(())
}
