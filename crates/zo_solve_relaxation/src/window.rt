//! Windows of a long run: at the end of one its mean is taken where its bound is better, and the weight of the columns' moves
//! against those of the multipliers follows the ways that both went.

use crate::column::Weight;
use crate::rounds::{ONE, Rounds, quotient};

/// The square of 1 / 64 of a way, in 64ths.
const SHORT: i128 = 1 << 28;

/// A weight stays within so many powers of two below and above the first one.
const BELOW: i64 = 4;

const ABOVE: i64 = 12;

/// The square of a way, in 64ths, times a size.
fn way(from: i64, to: i64, size: i64) -> i128 {
    let step = i128::from(quotient(to.wrapping_sub(from), 64));
    step.wrapping_mul(step).wrapping_mul(i128::from(size))
}

/// By how many powers of two the weight follows: the columns' way times its square against that of the multipliers.
fn follows(columns: i128, duals: i128, weight: Weight) -> i64 {
    let up = i128::from(weight.up);
    let down = i128::from(weight.down);
    let a = duals.wrapping_mul(down).wrapping_mul(down);
    let b = columns.wrapping_mul(up).wrapping_mul(up);
    if a > b.wrapping_mul(256) {
        2
    } else if a > b.wrapping_mul(4) {
        1
    } else if b > a.wrapping_mul(256) {
        -2
    } else if b > a.wrapping_mul(4) {
        -1
    } else {
        0
    }
}

/// A window of rounds, whose means are kept while it is open.
#[derive(Clone, Copy, Drop)]
pub struct Window {
    pub is_open: bool,
    /// The rounds since the run began, and when the window did.
    pub clock: u32,
    begun: u32,
}

impl Window {
    /// No window is open.
    pub fn none() -> Window {
        Window {
            is_open: false,
            clock: 0,
            begun: 0,
        }
    }

    /// One round more.
    pub fn tick(&mut self) {
        self.clock = self.clock.wrapping_add(1);
    }

    /// The rounds of the window.
    fn rounds(&self) -> i64 {
        i64::from(self.clock.wrapping_sub(self.begun))
    }

    /// Whether a long run ends its window here.
    pub fn is_full(&self) -> bool {
        self.rounds() >= quotient(i64::from(self.clock), 6).max(40)
    }
}

/// The size of which this is the reciprocal.
fn size_of(reciprocal: u32) -> i64 {
    quotient(1 << 32, i64::from(reciprocal))
}

impl Rounds {
    /// Begins the means.
    pub fn begin_means(&mut self) {
        self.window.clock = 0;
        self.window.is_open = true;
        self.open_window();
    }

    /// Ends the means.
    pub fn end_means(&mut self) {
        self.window.is_open = false;
    }

    /// Begins a window.
    fn open_window(&mut self) {
        let clock = self.window.clock;
        for (past, column) in self.column_pasts.iter_mut().zip(&self.columns) {
            past.begun = column.value;
        }
        for (past, dual) in self.dual_pasts.iter_mut().zip(&self.duals) {
            past.begun = dual.value;
        }
        for past in self.column_histories.iter_mut() {
            past.open(clock);
        }
        for past in self.dual_histories.iter_mut() {
            past.open(clock);
        }
        self.window.begun = clock;
    }

    /// The mean of a row's multiplier.
    fn mean_dual(&self, i: usize, rounds: i64) -> i64 {
        match (self.duals.get(i), self.dual_histories.get(i)) {
            (Some(dual), Some(past)) => quotient(past.sum(dual.value, self.window.clock), rounds),
            _ => 0,
        }
    }

    /// The mean of a column.
    fn mean_column(&self, j: usize, rounds: i64) -> i32 {
        match (self.columns.get(j), self.column_histories.get(j)) {
            (Some(column), Some(past)) => {
                let sum = past.sum(i64::from(column.value), self.window.clock);
                i32::try_from(quotient(sum, rounds)).unwrap_or(0)
            }
            _ => 0,
        }
    }

    /// Adds a row's mean multiplier to what the means say of its columns; what it adds to their bound.
    fn price_mean(&mut self, i: usize, rounds: i64) -> i128 {
        let mean = self.mean_dual(i, rounds);
        let Some(dual) = self.duals.get(i) else {
            return 0;
        };
        if mean == 0 {
            return 0;
        }
        let terms = self.matrix.rows.list(u32::try_from(i).unwrap_or(u32::MAX));
        for k in 0..terms.len() {
            if let Some((j, a)) = terms.get(k) {
                if let Some(past) = self.column_pasts.get_mut(j as usize) {
                    past.mean = past.mean.wrapping_add(mean.wrapping_mul(a));
                }
            }
        }
        i128::from(mean).wrapping_mul(i128::from(dual.least))
    }

    /// The bound that the mean multipliers give.
    fn mean_bound(&mut self, rounds: i64) -> i128 {
        for past in self.column_pasts.iter_mut() {
            past.mean = 0;
        }
        let mut bound: i128 = 0;
        for i in 0..self.duals.len() {
            if self.matrix.is_counted(i) {
                bound = bound.wrapping_add(self.price_mean(i, rounds));
            }
        }
        for (past, column) in self.column_pasts.iter().zip(&self.columns) {
            let mut column = *column;
            column.pull = past.mean;
            bound = bound.wrapping_add(i128::from(column.worth()));
        }
        bound
    }

    /// Moves a column to its mean.
    fn take_mean(&mut self, j: usize, rounds: i64) {
        let mean = self.mean_column(j, rounds);
        let j = u32::try_from(j).unwrap_or(u32::MAX);
        if i64::from(mean) != self.value(j) {
            self.mark(j);
        }
        self.set_value(j, mean)
    }

    /// Goes to the means.
    fn take_means(&mut self, rounds: i64) {
        for i in 0..self.duals.len() {
            if self.matrix.is_counted(i) {
                let mean = self.mean_dual(i, rounds);
                let row = u32::try_from(i).unwrap_or(u32::MAX);
                self.set_dual(row, mean);
                self.wake(row);
            }
        }
        for j in 0..self.columns.len() {
            self.take_mean(j, rounds);
        }
    }

    /// The way that the columns went in this window.
    fn column_way(&self) -> i128 {
        let mut sum: i128 = 0;
        for (past, column) in self.column_pasts.iter().zip(&self.columns) {
            let (from, to) = (i64::from(past.begun), i64::from(column.value));
            if from != to {
                sum = sum.wrapping_add(way(from, to, size_of(column.reciprocal)));
            }
        }
        sum
    }

    /// The way that the multipliers went in this window.
    fn dual_way(&self) -> i128 {
        let mut sum: i128 = 0;
        for (past, dual) in self.dual_pasts.iter().zip(&self.duals) {
            if past.begun != dual.value {
                sum = sum.wrapping_add(way(past.begun, dual.value, size_of(dual.reciprocal)));
            }
        }
        sum
    }

    /// The weight follows the ways that columns and multipliers went in this window.
    fn weigh(&mut self) {
        let (columns, duals) = (self.column_way(), self.dual_way());
        if columns > SHORT || duals > SHORT {
            let first = self.first_weight.exponent;
            let exponent = self
                .weight
                .exponent
                .wrapping_add(follows(columns, duals, self.weight));
            let least = first.wrapping_sub(BELOW);
            let most = first.wrapping_add(ABOVE);
            self.weight = Weight::new(exponent.max(least).min(most));
        }
    }

    /// Ends a window, and begins the next one.
    pub fn end_window(&mut self, is_weighing: bool) {
        let rounds = self.window.rounds();
        if rounds <= 0 {
            return;
        }
        let bound = self.mean_bound(rounds);
        if bound > self.bound {
            self.take_means(rounds);
        }
        if is_weighing {
            self.weigh();
        }
        self.open_window();
        let size = self.size().saturating_mul(2);
        self.spend(size);
    }

    /// The bound on the cost of every vector, rounded up, in units of the divisor; 0 where it isn't positive.
    pub fn lower(&self) -> i64 {
        let whole = i128::from(ONE);
        let units = self.bound.max(0).wrapping_add(whole - 1).checked_div(whole);
        i64::try_from(units.unwrap_or(0)).unwrap_or(0)
    }
}
