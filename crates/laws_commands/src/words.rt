//! Words of commands.
ghost use Rattle.laws_commands.specs.Words.{CallsOfCommands, CompileWords, FilesOfCommands, InputsAreRead, OtherWords};

/// The words of `compile` with its options.
#[tactic(auto, using(crate::proofs::WordsProved::compile_words))]
pub fn compile_words()
    ensures { CompileWords }
{}

/// The words of other commands.
#[tactic(auto, using(crate::proofs::WordsProved::other_words))]
pub fn other_words()
    ensures { OtherWords }
{}

/// What commands read and save.
#[tactic(auto, using(crate::proofs::WordsProved::files_of_commands))]
pub fn files_of_commands()
    ensures { FilesOfCommands }
{}

/// Which calls of a store commands make, and where reading stops.
#[tactic(auto, using(crate::proofs::WordsProved::calls_of_commands, crate::proofs::WordsProved::inputs_are_read))]
pub fn inputs_are_read()
    ensures calls { CallsOfCommands }
    ensures inputs { InputsAreRead }
{}
