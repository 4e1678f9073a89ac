//! Probing: what a branch on a column would gain, by some rounds in both of its arms, which are undone.

use crate::tree::{Hint, Tree};
use zo_solve_relaxation::ONE;

/// How far the rounds of a probe go in an arm, by moves of what size.
#[derive(Clone, Copy, Drop)]
struct Reach {
    rounds: u32,
    tolerance: i64,
}

/// At first, and where a finer probe would take long.
const COARSE: Reach = Reach {
    rounds: 80,
    tolerance: ONE >> 8,
};
/// Until an arm that is closed shows.
const FINE: Reach = Reach {
    rounds: 300,
    tolerance: ONE >> 16,
};
/// No gain is greater.
const MOST: i128 = 1 << 40;
/// A smaller gain counts as this.
const LITTLE: i64 = ONE >> 10;

/// What a probe told of a column.
#[derive(Clone, Copy, Drop)]
pub struct Probe {
    /// The product of what both arms of a branch on it gain.
    pub score: i64,
    /// The lesser of the two gains.
    pub least: i64,
    /// Whether both are closed.
    pub is_closing: bool,
}

impl Probe {
    /// The column of the probe, with its score.
    pub fn hint(&self, column: u32) -> Hint {
        Hint {
            column,
            score: self.score,
        }
    }
}

impl Tree {
    /// The best bound of some rounds.
    fn best_bound(&mut self, need: i128, rounds: u32) -> i128 {
        let mut top = self.rounds.bound();
        for _ in 0..rounds {
            if self.rounds.is_still() {
                return top;
            }
            self.rounds.round();
            top = top.max(self.rounds.bound());
            if top > need {
                return top;
            }
        }
        top
    }

    /// What the bound gains with the column fixed at this; an arm that is closed gains half a unit more than is missing.
    fn gain(&mut self, column: u32, value: bool, need: i128, rounds: u32) -> (i64, bool) {
        let before = self.rounds.bound();
        let mark = self.rounds.log_mark();
        let trail = self.rounds.fixed_count();
        self.rounds.clear_queue();
        self.rounds.fix(column, value);
        let mut top = need.wrapping_add(1);
        if self.rounds.propagate() {
            top = self.best_bound(need, rounds);
        }
        let gain = if top > need {
            need.wrapping_sub(before)
                .max(0)
                .wrapping_add(i128::from(ONE / 2))
        } else {
            top.wrapping_sub(before)
        };
        self.rounds.undo(trail);
        self.rounds.roll_back(mark);
        self.rounds.clear_due();
        let gain = i64::try_from(gain.min(MOST)).unwrap_or(0);
        (gain.max(LITTLE), top > need)
    }

    /// What a branch on the column gains.
    pub fn probe(&mut self, column: u32, need: i128) -> Probe {
        let reach = if self.is_fine { FINE } else { COARSE };
        self.rounds.set_aside();
        let tolerance = self.rounds.set_tolerance(reach.tolerance);
        let (zero, is_closed) = self.gain(column, false, need, reach.rounds);
        let (one, is_also_closed) = self.gain(column, true, need, reach.rounds);
        self.rounds.set_tolerance(tolerance);
        self.rounds.take_aside();
        self.rounds.log_mark();
        let product = i128::from(zero).wrapping_mul(i128::from(one)) / 1_024;
        Probe {
            score: i64::try_from(product).unwrap_or(i64::MAX),
            least: zero.min(one),
            is_closing: is_closed && is_also_closed,
        }
    }
}
