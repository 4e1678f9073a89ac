//! Texts of sources.
ghost use Rattle.laws_commands.specs.Sources.{NamesByLines, OneProgram};

/// A text has one program or one cause of refusal, and never both.
#[tactic(auto, using(crate::proofs::SourcesProved::one_program))]
pub fn one_program()
    ensures { OneProgram }
{}

/// The names of a source's exceptions, each with its line.
#[tactic(auto, using(crate::proofs::SourcesProved::names_by_lines))]
pub fn names_by_lines()
    ensures { NamesByLines }
{}
