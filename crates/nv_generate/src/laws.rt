//! Laws of the text that a seed makes: each is the contract of a function that does nothing.

ghost use Rattle.nv_generate.specs.Laws.{TwoLines, EachHasProgram};

/// The text of two lines.
#[tactic(auto, using(crate::proofs::Worked::two_lines))]
pub fn two_lines()
    ensures { TwoLines }
{}

/// Each text is that of a program, which ends with a word.
#[tactic(auto, using(crate::proofs::Programs::each_has_program))]
pub fn each_has_a_program()
    ensures { EachHasProgram }
{}
