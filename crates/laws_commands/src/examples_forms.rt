//! Short forms.
ghost use Rattle.laws_commands.specs.ExamplesForms.{EntriesByJumps, Operations, ShortCounts};

/// How often labels are entered.
#[tactic(auto, using(crate::proofs::ShortForms::entries_by_jumps))]
pub fn entries_by_jumps()
    ensures { EntriesByJumps }
{}

/// What code and forms do besides moves.
#[tactic(auto, using(crate::proofs::ShortForms::operations))]
pub fn operations()
    ensures { Operations }
{}

/// The text of how often labels are entered.
#[tactic(auto, using(crate::proofs::ShortForms::short_counts))]
pub fn short_counts()
    ensures { ShortCounts }
{}
