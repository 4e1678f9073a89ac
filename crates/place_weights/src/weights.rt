//! The weights of labels.

ghost use Rattle.std.specs.Prelude.{◌≡◌};
ghost use Rattle.place_weights.specs.Weighted.{weight_of, AreWeights};

use std::marker::Model;

/// A weight for each label: how much what stands in it counts. Contracts see it as the list of its numbers.
#[derive(Drop)]
pub struct Weights {
    list: Vec<u16>,
}

impl Model for Weights {
    ghost use Rattle.std.specs.Prelude.{List, ℕ};
    ghost use Rattle.place_weights.specs.Weighted.{AreWeights};

    ghost Value = { List ℕ };

    ghost view = { λ w. w.list.items };

    ghost invariant = { λ w. AreWeights w.list.items };
}

impl Weights {
    /// The weights of the labels from number 0 on.
    pub fn new(list: Vec<u16>) -> Weights
        requires { AreWeights list.items }
        ensures { result ≡ list.items }
    {
        Weights { list }
    }

    /// The weight of a label; past the list it is 1.
    pub fn of(&self, label: u32) -> u16
        ensures weight { result ≡ weight_of self.now label }
        ensures weights { AreWeights self.now }
    {
        self.list.get(label as usize).copied().unwrap_or(1)
    }
}
