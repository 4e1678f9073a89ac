//! Laws of the definitions in specs/: each is the contract of a function that does nothing.

ghost use Rattle.std.specs.Prelude.{◌<◌, ◌^◌, ℕ, List, All, map, take};
ghost use Rattle.place_weights.specs.WeightsText.{Gives, weights_text, count_limit};

/// What is printed of counts is the text of the first of them.
pub fn printed_counts_are_a_text()
    ensures { (counts : List ℕ) → All (λ c. c < 2 ^ 32) counts → Gives (weights_text (take count_limit counts)) (take count_limit counts) }
{}
