//! Stores of few files.
ghost use Rattle.laws_commands.specs.Saves.{TwoSaves};
ghost use Rattle.laws_commands.specs.Stores.{CallsInOrder, CountsRise, OnlyThese, SavesReplace};

/// Which calls are some of two, in their order.
#[tactic(auto, using(crate::proofs::ShortStores::calls_in_order, crate::proofs::ShortStores::only_these))]
pub fn calls_in_order()
    ensures parts { CallsInOrder }
    ensures asked { OnlyThese }
{}

/// When a count of failures rose.
#[tactic(auto, using(crate::proofs::ShortStores::counts_rise))]
pub fn counts_rise()
    ensures { CountsRise }
{}

/// What a save changes.
#[tactic(auto, using(crate::proofs::ShortStores::saves_replace))]
pub fn saves_replace()
    ensures { SavesReplace }
{}

/// What two saves leave, and what one that failed.
#[tactic(auto, using(crate::proofs::ShortSaves::two_saves))]
pub fn two_saves()
    ensures { TwoSaves }
{}
