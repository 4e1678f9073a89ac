//! What commands print, and their statuses.
ghost use Rattle.laws_commands.specs.Messages.{ShortMessages, StatusesOfOutcomes};

/// Lines of commands and of refusals.
#[tactic(auto, using(crate::proofs::MessagesProved::short_messages))]
pub fn short_messages()
    ensures { ShortMessages }
{}

/// The statuses of outcomes, and statuses without a changed file.
#[tactic(auto, using(crate::proofs::MessagesProved::statuses_of_outcomes))]
pub fn statuses_of_outcomes()
    ensures { StatusesOfOutcomes }
{}
