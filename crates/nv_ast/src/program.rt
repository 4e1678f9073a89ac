// Whole programs.

ghost use Rattle.std.specs.Prelude.{◌≤◌};
ghost use Rattle.nv_ast.specs.Exceptions.{exceptions};

use crate::tree::Decl;

/// A program: its declarations in order, and the number of bytes of its text.
#[derive(Drop)]
pub struct Program {
    pub decls: Vec<Decl>,
    pub length: u32,
    /// Each exception has a number in a `u16`, from 1 on.
    pub ghost numbered: { exceptions decls.items ≤ 65535 },
}
