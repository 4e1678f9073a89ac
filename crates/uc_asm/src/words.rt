//! The words of an instruction of any kind.
ghost use Rattle.std.specs.Prelude.{◌≡◌, ◌++◌, OnOk};
ghost use Rattle.uc_asm.specs.Items.{instruction_line};

use crate::writing::{push_access, push_alu, push_branch, push_halt, push_immed, push_un};
use std::alloc::AllocError;
use uc_isa::Instr;

/// Writes the words of an instruction.
pub fn push_words(out: &mut Vec<u8>, i: Instr) -> Result<(), AllocError>
    ensures { OnOk result (out.new.items ≡ out.old.items ++ instruction_line i) }
{
    match i {
        Instr::Alu { dst, op, x, y } => push_alu(out, dst, op, x, y),
        Instr::Un { dst, op, x } => push_un(out, dst, op, x),
        Instr::Immed { dst, v, s } => push_immed(out, dst, v, s),
        Instr::Br { cond, target } => push_branch(out, cond, target),
        Instr::Read { mem, r, n, x, off } => push_access(out, b"read", mem, r, n, x, off),
        Instr::Write { mem, r, n, x, off } => push_access(out, b"write", mem, r, n, x, off),
        Instr::Halt { k, n } => push_halt(out, k, n),
    }
}
