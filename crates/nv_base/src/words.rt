// At most eight words, in place.
ghost use Rattle.std.specs.Prelude.{◌≡◌, ◌≤◌, length};

use std::marker::Model;

/// At most eight words, kept in place and seen as their list.
#[derive(Clone, Copy, PartialEq, Eq)]
pub struct Words {
    all: [u32; 8],
    count: usize,
}

impl Model for Words {
    ghost use Rattle.std.specs.Prelude.{◌≡◌, ℕ, List, ◌≤◌, ◌-◌, take, replicate, ◌++◌, length};

    ghost Value = { List ℕ };

    ghost view = { λ w. take w.count w.all };

    ghost invariant = { λ w. (w.count ≤ 8) × (length (take w.count w.all) ≡ w.count) × (w.all ≡ take w.count w.all ++ replicate (8 - w.count) 0) };

    ghost inverse = { λ ws. record { all = ws ++ replicate (8 - length ws) 0; count = length ws } };

    ghost use Rattle.std.proofs.Common.{ap, sym, ◌∙◌};

    ghost inverse_ok = { λ w h. λ j. record { all = (ap (λ n. take w.count w.all ++ replicate (8 - n) 0) h.1 ∙ sym h.2) j; count = h.1 j } };
}

impl Words {
    /// These words.
    pub fn of(list: &[u32]) -> Words
        requires { length list.now ≤ 8 }
        ensures { result ≡ list.now }
    {
        let mut all = [0; 8];
        all[..list.len()].copy_from_slice(list);
        Words {
            all,
            count: list.len(),
        }
    }

    /// The words in order.
    pub fn list(&self) -> &[u32]
        ensures words { result.now ≡ self.now }
        ensures eight { length self.now ≤ 8 }
    {
        &self.all[..self.count]
    }
}
