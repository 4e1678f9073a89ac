//! The sums of rows while columns are fixed.

use std::alloc::{AllocError, Global};
use zo_model::{Row, ZeroOne};

/// How a row changes when a column goes from one place to another.
#[derive(Clone, Copy, Drop)]
pub struct Change {
    pub unmet: i64,
    pub falls: bool,
}

/// A row's sums with the columns that are fixed, each over what the row demands.
#[derive(Clone, Copy, Drop)]
pub struct Activity {
    // the most that it can still be
    pub reach: i64,
    // with 0 for all unfixed columns
    pub ones: i64,
    pub is_queued: bool,
}

/// The most that a column adds to its row.
fn reach_part(place: Option<bool>, a: i64) -> i64 {
    match place {
        Some(true) => a,
        Some(false) => 0,
        None => a.max(0),
    }
}

/// What a column that is fixed at 1 adds to its row.
pub fn one_part(place: Option<bool>, a: i64) -> i64 {
    match place {
        Some(true) => a,
        Some(false) | None => 0,
    }
}

impl Activity {
    /// 1 where the row isn't met.
    pub fn unmet(&self) -> i64 {
        if self.ones < 0 { 1 } else { 0 }
    }

    /// A column of it goes from one place to another.
    pub fn change(&mut self, old: Option<bool>, new: Option<bool>, a: i64) -> Change {
        let unmet = self.unmet();
        let rise = reach_part(new, a).wrapping_sub(reach_part(old, a));
        self.reach = self.reach.wrapping_add(rise);
        let ones = one_part(new, a).wrapping_sub(one_part(old, a));
        self.ones = self.ones.wrapping_add(ones);
        Change {
            unmet: self.unmet().wrapping_sub(unmet),
            falls: rise < 0,
        }
    }
}

/// The sums of a row with no column fixed.
fn activity_of(row: &Row) -> Activity {
    let mut reach: i64 = 0;
    for (_, a) in &row.terms {
        reach = reach.wrapping_add(i64::from(*a).max(0));
    }
    let least = i64::from(row.least);
    Activity {
        reach: reach.wrapping_sub(least),
        ones: least.wrapping_neg(),
        is_queued: false,
    }
}

/// The sums of each row with no column fixed.
pub fn activities_of(alloc: Global, z: &ZeroOne) -> Result<Vec<Activity>, AllocError> {
    let mut activities = Vec::with_capacity(alloc, z.rows.len())?;
    for row in &z.rows {
        activities.push(activity_of(row))?;
    }
    Ok(activities)
}
