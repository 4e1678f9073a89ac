//! What expressions cost.

ghost use Rattle.std.specs.Prelude.{◌≡◌};
ghost use Rattle.nv_types_table.specs.inner.Costs.{two_costs, node_cost};

/// The words of a value, the expanded size of what computes it, and how many words that wants at once.
/// Each number stands still at its type's greatest.
#[derive(Clone, Copy)]
pub struct Cost {
    pub words: u64,
    pub size: u64,
    pub need: u64,
}

impl Cost {
    /// Of nothing.
    pub const NONE: Cost = Cost {
        words: 0,
        size: 0,
        need: 0,
    };

    /// Of two parts of one expression: the words and sizes of both, and the greater need.
    pub fn beside(self, other: Cost) -> Cost
        ensures { result ≡ two_costs self other }
    {
        Cost {
            words: self.words.saturating_add(other.words),
            size: self.size.saturating_add(other.size),
            need: self.need.max(other.need),
        }
    }

    /// Of an expression whose value has N words and whose parts cost so much.
    pub fn node(words: u64, parts: Cost) -> Cost
        ensures { result ≡ node_cost words parts }
    {
        Cost {
            words,
            size: parts.size.saturating_add(words).saturating_add(1),
            need: parts
                .need
                .saturating_add(parts.words)
                .saturating_add(words)
                .saturating_add(2),
        }
    }
}
