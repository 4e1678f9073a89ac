//! A row's multiplier.

use crate::column::Pace;
use crate::rounds::{ONE, scaled};

/// No multiplier grows past this.
const LIMIT: i64 = 1 << 44;

/// A row's multiplier, in units of 1 / `ONE`, in 32 bytes.
#[derive(Clone, Copy, Drop)]
pub struct Dual {
    pub value: i64,
    // the row's sum at where the columns are going
    pub act: i64,
    pub least: i32,
    // that of the sum of its coefficients' sizes, times 2^32; 0 where it doesn't count
    pub reciprocal: u32,
    // how many of its columns are unfixed
    pub free: u32,
}

impl Dual {
    /// Where a step leads by what the row lacks.
    pub fn next(&self, pace: Pace) -> i64 {
        let lack = i64::from(self.least)
            .wrapping_mul(ONE)
            .wrapping_sub(self.act);
        if self.value == 0 && lack <= 0 {
            return 0;
        }
        if self.free == 0 {
            return if lack < 0 { 0 } else { self.value };
        }
        let step = scaled(lack.wrapping_mul(pace.factor), self.reciprocal, pace.shift);
        let value = self.value.wrapping_add(step).max(0).min(LIMIT);
        if value != 0 && value.wrapping_sub(self.value).wrapping_abs() < pace.tolerance {
            return self.value;
        }
        value
    }
}
