// Functions and programs.

ghost use Rattle.std.specs.Prelude.{◌≡◌, true, map};
ghost use Rattle.cps_ir.specs.View.{fun_view};
ghost use Rattle.cps_ir.specs.Formed.{is_program};

use crate::term::Term;

/// A function: the variables of its parameters, how many words it returns, what it does, and the number
/// of its group. A function calls those of earlier groups with a label for their words, and those of its
/// own without.
#[derive(Drop)]
pub struct CpsFun {
    pub params: Vec<u32>,
    pub results: u32,
    pub body: Term,
    pub group: u32,
}

/// A well formed program: its functions, and the number of `main` among them. Counts of words agree at
/// calls, returns, jumps and handlers; each label is made round where it is named; each variable and each
/// label stands once in its function, a variable above its use.
#[derive(Drop)]
pub struct Cps {
    pub funs: Vec<CpsFun>,
    pub main: u32,
    pub ghost formed: { is_program (map fun_view funs.items) main ≡ true },
}
