//! A long run of rounds.

use crate::rounds::Rounds;

/// How long a run goes.
#[derive(Clone, Copy, Drop)]
pub struct Length {
    /// So many rounds, and so many while the bound still rises.
    pub rounds: u32,
    pub most: u32,
}

/// What a run has reached.
#[derive(Clone, Copy, Drop)]
struct Reached {
    // the best bound at the end of a window, and when it was last looked at
    top: i128,
    last: i128,
}

impl Rounds {
    /// Ends the window where it is full. Whether the run goes on.
    fn advance(&mut self, reached: &mut Reached, need: i128) -> bool {
        if !self.window.is_full() {
            return true;
        }
        self.end_window(true);
        if self.bound > reached.top {
            reached.top = self.bound;
            self.keep_best();
        }
        self.bound <= need
    }

    /// The rounds of a long run.
    fn run_windows(&mut self, reached: &mut Reached, need: i128, length: Length) {
        let mut rounds = length.rounds;
        for k in 0..length.rounds.max(length.most) {
            if k >= rounds || self.is_still() {
                return;
            }
            self.round();
            if self.bound > need || !self.advance(reached, need) {
                return;
            }
            if k.saturating_add(1) == rounds && rounds < length.most {
                let gain = reached.top.wrapping_sub(reached.last);
                if gain > 0 && gain.wrapping_mul(200) > reached.top {
                    rounds = rounds.saturating_add(160);
                }
                reached.last = reached.top;
            }
        }
    }

    /// A long run, in windows, until the bound is above `need`; it stands then where its bound was best.
    pub fn run_long(&mut self, need: i128, length: Length) {
        self.begin_means();
        self.keep_best();
        let mut reached = Reached {
            top: self.bound,
            last: self.bound,
        };
        self.run_windows(&mut reached, need, length);
        self.end_means();
        if self.bound < reached.top && self.bound <= need {
            self.give_best();
        }
    }
}
