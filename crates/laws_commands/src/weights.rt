//! Texts of weights.
ghost use Rattle.laws_commands.specs.Weights.{WeightsOfFiles};

/// The weights of a text, and those without one.
#[tactic(auto, using(crate::proofs::WeightsProved::weights_of_files))]
pub fn weights_of_files()
    ensures { WeightsOfFiles }
{}
