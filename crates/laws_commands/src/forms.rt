//! Forms of one program.
ghost use Rattle.laws_commands.specs.Forms.{NoOtherEnd, OneMeaning, OnlyComputationsAreLeftOut, SumBounds};

/// The bounds of a sum.
#[tactic(auto, using(crate::proofs::FormsProved::sum_bounds))]
pub fn sum_bounds()
    ensures { SumBounds }
{}

/// What forms and codes of one program have in common.
#[tactic(auto, using(crate::proofs::FormsProved::one_meaning))]
pub fn one_meaning()
    ensures { OneMeaning }
{}

/// Where a program's sizes fit, its compilation can't end in another way.
#[tactic(auto, using(crate::proofs::FormsProved::no_other_end))]
pub fn no_other_end()
    ensures { NoOtherEnd }
{}

/// What code may leave out of a form's operations.
#[tactic(auto, using(crate::proofs::FormsProved::only_computations))]
pub fn only_computations_are_left_out()
    ensures { OnlyComputationsAreLeftOut }
{}
