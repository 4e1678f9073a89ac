//! Laws of the definitions in specs/: each is the contract of a function that does nothing.
ghost use Rattle.std.specs.Prelude.{◌≤◌, ℕ, List};
ghost use Rattle.place_weights.specs.Weighted.{AreWeights, weight_of};

/// Each label weighs from 1 to 1,023, also past the list.
pub fn weights_are_bounded()
    ensures { (ws : List ℕ) (l : ℕ) → AreWeights ws → (1 ≤ weight_of ws l) × (weight_of ws l ≤ 1023) }
{}
