//! A column of the relaxation.

use crate::rounds::{ONE, scaled};

/// How far columns move, against multipliers: `up / down`.
#[derive(Clone, Copy, Drop)]
pub struct Weight {
    pub exponent: i64,
    pub up: i64,
    pub down: i64,
}

/// A number of powers of two, from 0 to 40.
fn within(exponent: i64) -> i64 {
    exponent.max(0).min(40)
}

/// A power of two, at most 2^40.
fn power(exponent: i64) -> i64 {
    let mut power: i64 = 1;
    for _ in 0..within(exponent) {
        power = power.wrapping_mul(2);
    }
    power
}

/// A number of powers of two below a reciprocal.
fn shift(exponent: i64) -> u32 {
    u32::try_from(within(exponent).wrapping_add(32)).unwrap_or(32)
}

impl Weight {
    /// The weight 2^e.
    pub fn new(exponent: i64) -> Weight {
        Weight {
            exponent,
            up: power(exponent),
            down: power(exponent.wrapping_neg()),
        }
    }

    /// What a column's step is to be divided by, as the number of a shift, with the reciprocal's.
    pub fn column_shift(&self) -> u32 {
        shift(self.exponent)
    }

    /// What a multiplier's step is to be divided by, as the number of a shift, with the reciprocal's.
    pub fn dual_shift(&self) -> u32 {
        shift(self.exponent.wrapping_neg())
    }
}

/// How the moves of a round go.
#[derive(Clone, Copy, Drop)]
pub struct Pace {
    /// What over is multiplied by, and by how much the product is shifted.
    pub factor: i64,
    pub shift: u32,
    /// Smaller moves are left out.
    pub tolerance: i64,
}

/// A column, as a fraction in units of 1 / `ONE`, in 32 bytes.
#[derive(Clone, Copy, Drop)]
pub struct Column {
    // what the multipliers say of it
    pub pull: i64,
    pub value: i32,
    // where it would be after as large a step again
    pub ahead: i32,
    // what it costs in the rounds, over the greatest common divisor of all costs
    pub price: u32,
    // that of the sum of its coefficients' sizes over the rows that count, times 2^32; 0 where there is none
    pub reciprocal: u32,
    pub place: Option<bool>,
}

/// What a column did in a round.
#[derive(Clone, Copy, Drop)]
pub struct Move {
    /// Where it was, if it moved.
    pub was: Option<i32>,
    /// How far the place moved that it is going to.
    pub step: i64,
}

/// A value between 0 and 1.
fn whole(value: i64) -> i32 {
    i32::try_from(value).unwrap_or(0)
}

impl Column {
    /// By how much its price is over what the multipliers say of it.
    pub fn over(&self) -> i64 {
        i64::from(self.price)
            .wrapping_mul(ONE)
            .wrapping_sub(self.pull)
    }

    /// What it adds to the bound.
    pub fn worth(&self) -> i64 {
        let over = self.over();
        match self.place {
            Some(true) => over,
            Some(false) => 0,
            None => over.min(0),
        }
    }

    /// Where a step leads, towards 0 or 1.
    fn stepped(&self, pace: Pace) -> i32 {
        let over = self.over();
        if self.reciprocal == 0 {
            return match over {
                0 => self.value,
                1.. => 0,
                _ => whole(ONE),
            };
        }
        let step = scaled(over.wrapping_mul(pace.factor), self.reciprocal, pace.shift);
        let was = i64::from(self.value);
        let value = was.wrapping_sub(step).max(0).min(ONE);
        if value != 0 && value != ONE && value.wrapping_sub(was).wrapping_abs() < pace.tolerance {
            return self.value;
        }
        whole(value)
    }

    /// Where it goes: a fixed column to where it is fixed.
    fn next(&self, pace: Pace) -> i32 {
        match self.place {
            Some(true) => whole(ONE),
            Some(false) => 0,
            None => self.stepped(pace),
        }
    }

    /// Goes there.
    pub fn go(&mut self, pace: Pace) -> Move {
        let was = self.value;
        let value = self.next(pace);
        let ahead = match self.place {
            Some(_) => value,
            None => value.wrapping_mul(2).wrapping_sub(was),
        };
        let step = i64::from(ahead).wrapping_sub(i64::from(self.ahead));
        self.value = value;
        self.ahead = ahead;
        Move {
            was: if value == was { None } else { Some(was) },
            step,
        }
    }

    /// Goes to where it is fixed.
    pub fn settle(&mut self) {
        match self.place {
            Some(true) => self.value = whole(ONE),
            Some(false) => self.value = 0,
            None => {}
        }
        self.ahead = self.value;
        self.pull = 0;
    }

    /// By how much it is neither 0 nor 1.
    pub fn fractionality(&self) -> i64 {
        let value = i64::from(self.value);
        value.min(ONE.wrapping_sub(value))
    }
}
