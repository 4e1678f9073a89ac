//! Exchanges: a vector is made cheaper where a part of it can be.
//!
//! First all columns are free whose fraction is a quarter or more from the vector, and a dive completes the others. Then each
//! costly column that is 1 is fixed at 0, with a region round it free, and a dive completes the vector to one that costs no
//! more; so an equal one is taken too, and the search drifts. A pass has one size of regions, and the next one a greater.
//! Nothing rests on it: the vector is tested before it is taken.

use crate::dive::{Way, run_dive};
use crate::needless::costly;
use crate::region::Region;
use std::alloc::{AllocError, Global};
use zo_model::ZeroOne;
use zo_solve_relaxation::{ONE, Rounds};

/// The sizes of the regions.
const SIZES: [usize; 5] = [300, 600, 1_200, 2_400, 4_800];
/// A column of so much more or less than in the vector is free in the first exchange.
const FAR: i64 = ONE / 4;
/// So many passes go at the most.
const PASS_LIMIT: usize = 1_000;
/// So many choices of a dive may be taken back.
const REPAIRS: u32 = 30;

/// A vector, what it costs in units of the costs' divisor, and how far the exchanges go.
#[derive(Drop)]
pub struct Exchange {
    pub on: Vec<bool>,
    pub cost: i64,
    /// No vector costs less.
    pub lower: i64,
    /// Where the work ends.
    pub end: u64,
}

impl Exchange {
    /// Whether the exchanges end.
    fn is_done(&self, rounds: &Rounds) -> bool {
        self.cost <= self.lower || rounds.work() > self.end || rounds.is_spent()
    }

    /// Frees the columns of a region.
    fn free(&self, rounds: &mut Rounds, columns: &[u32]) {
        for column in columns {
            rounds.place(*column, None);
        }
        rounds.clear_queue();
    }

    /// Takes the columns of a region as they are fixed.
    fn take(&mut self, rounds: &Rounds, columns: &[u32]) {
        for column in columns {
            if let Some(on) = self.on.get_mut(*column as usize) {
                *on = rounds.place_of(*column) == Some(true);
            }
        }
        self.cost = rounds.spent();
    }

    /// Fixes the columns of a region again as the vector has them.
    fn fix_again(&self, rounds: &mut Rounds, columns: &[u32]) {
        rounds.undo(0);
        for column in columns {
            let one = self.on.get(*column as usize).copied();
            rounds.place(*column, Some(one == Some(true)));
        }
        rounds.clear_queue();
    }

    /// Puts the columns into the region whose kept fractions are far from the vector.
    fn add_far(&self, rounds: &Rounds, region: &mut Region) {
        region.clear();
        for (j, on) in self.on.iter().enumerate() {
            let whole = if *on { ONE } else { 0 };
            if rounds.kept(j).wrapping_sub(whole).wrapping_abs() >= FAR {
                region.add(u32::try_from(j).unwrap_or(u32::MAX));
            }
        }
    }

    /// A dive in which the columns far from the vector are free. Whether it was made cheaper.
    fn exchange_far(
        &mut self,
        z: &ZeroOne,
        rounds: &mut Rounds,
        region: &mut Region,
        first: u32,
    ) -> bool {
        self.add_far(rounds, region);
        self.free(rounds, &region.columns);
        rounds.run(first);
        let way = Way {
            next: 40,
            cutoff: self.cost,
            repairs: REPAIRS,
        };
        let is_found = run_dive(z, rounds, way);
        if is_found {
            self.take(rounds, &region.columns);
        }
        self.fix_again(rounds, &region.columns);
        is_found
    }

    /// A dive without this column in which the region is free. Whether every row is met, for no more.
    fn dive_without(&self, z: &ZeroOne, rounds: &mut Rounds, column: u32, size: usize) -> bool {
        rounds.fix(column, false);
        if !rounds.propagate() {
            return false;
        }
        rounds.run(u32::try_from(40 + size / 20).unwrap_or(40));
        if rounds.bound() > i128::from(self.cost).wrapping_mul(i128::from(ONE)) {
            return false;
        }
        let way = Way {
            next: u32::try_from(10 + size / 240).unwrap_or(10),
            cutoff: self.cost.wrapping_add(1),
            repairs: REPAIRS,
        };
        run_dive(z, rounds, way)
    }

    /// An exchange round a column. Whether the vector was made cheaper.
    fn exchange_one(
        &mut self,
        z: &ZeroOne,
        rounds: &mut Rounds,
        region: &mut Region,
        column: u32,
        size: usize,
        pass: usize,
    ) -> bool {
        region.grow(rounds, column, &self.on, size, pass);
        self.free(rounds, &region.columns);
        let was = self.cost;
        if self.dive_without(z, rounds, column, size) {
            self.take(rounds, &region.columns);
        }
        self.fix_again(rounds, &region.columns);
        self.cost < was
    }

    /// An exchange round each costly column. Whether the vector was made cheaper.
    fn pass(
        &mut self,
        alloc: Global,
        z: &ZeroOne,
        rounds: &mut Rounds,
        region: &mut Region,
        pass: usize,
    ) -> Result<(bool, bool), AllocError> {
        let size = SIZES.get(pass % 5).copied().unwrap_or(300);
        let dear = costly(alloc, z, &self.on)?;
        let mut is_better = false;
        for column in &dear {
            if self.is_done(rounds) {
                return Ok((is_better, false));
            }
            if self.on.get(*column as usize).copied() == Some(true) {
                is_better |= self.exchange_one(z, rounds, region, *column, size, pass);
            }
        }
        Ok((is_better, !dear.is_empty()))
    }

    /// Exchanges of the columns far from the vector, as long as they gain. Whether one did.
    fn pass_far(
        &mut self,
        z: &ZeroOne,
        rounds: &mut Rounds,
        region: &mut Region,
        first: u32,
    ) -> bool {
        let mut is_better = false;
        for _ in 0..PASS_LIMIT {
            if !self.exchange_far(z, rounds, region, first) {
                return is_better;
            }
            is_better = true;
        }
        is_better
    }

    /// Passes over the vector, from this one on, until so many in a row don't gain.
    fn passes(
        &mut self,
        alloc: Global,
        z: &ZeroOne,
        rounds: &mut Rounds,
        from: usize,
        still: u32,
    ) -> Result<(), AllocError> {
        let mut region = Region::new(alloc, z)?;
        let mut left = still;
        for pass in from..PASS_LIMIT {
            let mut is_better = false;
            if pass % 5 == 0 {
                let first = if pass == 0 { 300 } else { 1_000 };
                is_better = self.pass_far(z, rounds, &mut region, first);
            }
            if self.is_done(rounds) {
                return Ok(());
            }
            let (gains, goes_on) = self.pass(alloc, z, rounds, &mut region, pass)?;
            if !goes_on {
                return Ok(());
            }
            left = if is_better || gains {
                still
            } else {
                left.saturating_sub(1)
            };
            if left == 0 {
                return Ok(());
            }
        }
        Ok(())
    }

    /// Makes the vector cheaper.
    pub fn run(
        &mut self,
        alloc: Global,
        z: &ZeroOne,
        rounds: &mut Rounds,
        from: usize,
        still: u32,
    ) -> Result<(), AllocError> {
        rounds.undo(0);
        rounds.place_all(&self.on);
        self.cost = rounds.spent();
        rounds.run(20);
        self.passes(alloc, z, rounds, from, still)?;
        rounds.place_all(&[]);
        Ok(())
    }
}
