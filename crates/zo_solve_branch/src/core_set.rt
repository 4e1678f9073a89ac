//! Cores: a few columns that can't go together as a dive fixed them.
//!
//! Where no probe gains, a dive goes on until its bound closes the node. The fixed columns whose reduced costs made the bound are
//! a core. It is made smaller while the bound still closes: what is left is often an odd cycle, and a branch on its dearest
//! column breaks it.

use crate::tree::Tree;
use std::alloc::Global;
use zo_model::ZeroOne;
use zo_solve_relaxation::{ONE, put};

/// Moves of the columns are at least this.
const TOLERANCE: i64 = ONE >> 12;
/// So many rounds after each choice, so many at the end, and so many in a test.
const NEXT: u32 = 20;

const LAST: u32 = 200;

const TEST_ROUNDS: u32 = 300;
/// So many parts of a core are tested.
const TESTS: u32 = 40;

/// A column of a core: by how much it is dear, negated; its number; and where it is fixed.
type Member = (i64, u32, bool);

/// How often a core was cut, and by how much next.
#[derive(Drop)]
struct Cut {
    core: Vec<Member>,
    chunk: usize,
}

impl Tree {
    /// The columns fixed behind so many whose reduced costs made the bound, the dearest first.
    fn members(&self, alloc: Global, from: usize) -> Vec<Member> {
        let mut core = Vec::new(alloc);
        for k in from..self.rounds.fixed_count() {
            if let Some(column) = self.rounds.fixed(k) {
                let over = self.rounds.reduced_cost(column);
                let value = self.rounds.place_of(column) == Some(true);
                let dearness = if value { over.wrapping_neg() } else { over };
                if dearness < 0 {
                    put(&mut core, (dearness, column, value));
                }
            }
        }
        core.sort_unstable();
        core
    }

    /// Fixes one column more as a dive does. Whether the dive goes on.
    fn dive_on(&mut self, need: i128) -> bool {
        if self.rounds.bound() > need || self.rounds.is_spent() {
            return false;
        }
        let Some(row) = self.rounds.first_unmet() else {
            self.rounds.run(LAST);
            return false;
        };
        let Some(column) = self.rounds.likeliest(row) else {
            return false;
        };
        self.rounds.fix(column, true);
        if !self.rounds.propagate() {
            self.rounds.run(2 * NEXT);
            return false;
        }
        self.rounds.run(NEXT);
        true
    }

    /// A dive until the bound is above `need`.
    fn dive_closed(&mut self, z: &ZeroOne, need: i128) {
        for _ in 0..z.costs.len() {
            if !self.dive_on(need) {
                return;
            }
        }
    }

    /// Whether the bound gets above `need` with these columns fixed alone.
    fn test(&mut self, core: &[Member], trail: usize, mark: usize, need: i128) -> bool {
        self.rounds.undo(trail);
        self.rounds.roll_back(mark);
        for (_, column, value) in core {
            self.rounds.fix(*column, *value);
        }
        self.rounds.clear_queue();
        for _ in 0..TEST_ROUNDS {
            if self.rounds.is_still() || self.rounds.bound() > need {
                break;
            }
            self.rounds.round();
        }
        self.rounds.bound() > need
    }

    /// Tests the core without its last columns, and keeps what closes; else these go to the front.
    fn cut_once(&mut self, alloc: Global, cut: &mut Cut, trail: usize, mark: usize, need: i128) {
        let keep = cut.core.len().saturating_sub(cut.chunk).max(1);
        let kept = cut.core.get(..keep).unwrap_or(&[]);
        if self.test(kept, trail, mark, need) {
            let smaller = self.members(alloc, trail);
            if smaller.is_empty() {
                cut.core.truncate(keep);
            } else {
                cut.core = smaller;
            }
            cut.chunk = cut.chunk.min(cut.core.len() / 2);
        } else {
            cut.core.rotate_left(keep.min(cut.core.len()));
            cut.chunk /= 2;
        }
    }

    /// A core of a dive from here.
    fn cut(
        &mut self,
        alloc: Global,
        z: &ZeroOne,
        trail: usize,
        mark: usize,
        need: i128,
    ) -> Vec<Member> {
        self.dive_closed(z, need);
        let core = self.members(alloc, trail);
        let chunk = core.len() / 2;
        let mut cut = Cut { core, chunk };
        for _ in 0..TESTS {
            if cut.core.len() <= 1 || cut.chunk == 0 {
                break;
            }
            self.cut_once(alloc, &mut cut, trail, mark, need);
        }
        let Cut { core, .. } = cut;
        core
    }

    /// The dearest column of a core, if there is one.
    pub fn core_column(&mut self, alloc: Global, z: &ZeroOne, need: i128) -> Option<u32> {
        self.rounds.set_aside();
        let tolerance = self.rounds.set_tolerance(TOLERANCE);
        let mark = self.rounds.log_mark();
        let trail = self.rounds.fixed_count();
        self.rounds.clear_queue();
        let core = self.cut(alloc, z, trail, mark, need);
        self.rounds.undo(trail);
        self.rounds.roll_back(mark);
        self.rounds.set_tolerance(tolerance);
        self.rounds.take_aside();
        self.rounds.log_mark();
        match core.first() {
            Some((_, column, _)) => Some(*column),
            None => None,
        }
    }
}
