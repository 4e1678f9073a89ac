//! Short traces.
ghost use Rattle.laws_commands.specs.Traces.{FirstDifference, ShortTrace};

/// The text of a trace, up to a line, and without the compiler's words.
#[tactic(auto, using(crate::proofs::ShortTraces::short_trace))]
pub fn short_trace()
    ensures { ShortTrace }
{}

/// Where two lists of writes first differ.
#[tactic(auto, using(crate::proofs::ShortTraces::first_difference))]
pub fn first_difference()
    ensures { FirstDifference }
{}
