//! Vectors by rounding.
//!
//! Columns are fixed at 1 one by one, each in the first row that needs one, at what the rounds say of it; what the rows then
//! force is fixed too. After a doubtful choice the rounds go on with what is fixed. Where the bound is then at the cost that is
//! to be beaten, the choice is taken back, with all that the rounds did since, and the column is fixed at 0. Nothing rests on
//! all this: what is found is tested before it is taken.

use std::alloc::{AllocError, Global};
use zo_model::ZeroOne;
use zo_solve_relaxation::{ONE, Rounds};

/// A column of at least this isn't doubtful.
const SURE: i64 = ONE - ONE / 10;
/// So many choices may turn out to be wrong.
const WRONG_LIMIT: u32 = 200;

/// How a dive goes.
#[derive(Clone, Copy, Drop)]
pub struct Way {
    /// So many rounds go after each doubtful choice.
    pub next: u32,
    /// The vector has to cost less, in units of the costs' divisor.
    pub cutoff: i64,
    /// So many choices may be taken back because of that.
    pub repairs: u32,
}

/// How many choices turned out to be wrong, and how many may still be taken back.
#[derive(Clone, Copy, Drop)]
struct Turns {
    wrong: u32,
    repairs: u32,
}

/// The greatest bound of a vector below the cutoff.
fn limit(way: Way) -> i128 {
    i128::from(way.cutoff)
        .wrapping_sub(1)
        .wrapping_mul(i128::from(ONE))
}

/// Fixes a column at 1 with what that forces, and lets the rounds go on where it was doubtful. Whether it may stay.
fn try_one(rounds: &mut Rounds, column: u32, way: Way, is_watched: bool) -> bool {
    let is_doubtful = rounds.value(column) < SURE;
    rounds.fix(column, true);
    if !rounds.propagate() {
        return false;
    }
    if is_doubtful {
        rounds.run(way.next);
        return !is_watched || rounds.bound() <= limit(way);
    }
    true
}

/// Fixes a column at 0 with what that forces, and lets the rounds go on. Whether there may be a way on.
fn turn_back(rounds: &mut Rounds, column: u32, way: Way, is_watched: bool) -> bool {
    rounds.fix(column, false);
    if !rounds.propagate() {
        return false;
    }
    rounds.run(way.next);
    !is_watched || rounds.bound() <= limit(way)
}

/// Fixes a column at 1, or at 0 where that fails. Whether there may be a way on.
fn decide(rounds: &mut Rounds, column: u32, way: Way, turns: &mut Turns) -> bool {
    let is_watched = turns.repairs > 0 && rounds.value(column) < SURE;
    let before = rounds.fixed_count();
    let mark = if is_watched {
        rounds.set_log(true);
        rounds.log_mark()
    } else {
        0
    };
    if try_one(rounds, column, way, is_watched) {
        rounds.forget();
        rounds.set_log(false);
        return true;
    }
    rounds.undo(before);
    turns.wrong = turns.wrong.saturating_add(1);
    if is_watched {
        rounds.roll_back(mark);
        turns.repairs = turns.repairs.saturating_sub(1);
    }
    rounds.set_log(false);
    if turns.wrong > WRONG_LIMIT {
        return false;
    }
    turn_back(rounds, column, way, is_watched)
}

/// Goes on from what is fixed until every row is met, or there is no way on. Whether every row is met below the cutoff.
pub fn run_dive(z: &ZeroOne, rounds: &mut Rounds, way: Way) -> bool {
    if !rounds.propagate() {
        return false;
    }
    let mut turns = Turns {
        wrong: 0,
        repairs: way.repairs,
    };
    for _ in 0..z.costs.len() {
        if rounds.spent() >= way.cutoff {
            return false;
        }
        let Some(row) = rounds.first_unmet() else {
            return true;
        };
        let Some(column) = rounds.likeliest(row) else {
            return false;
        };
        if !decide(rounds, column, way, &mut turns) {
            rounds.set_log(false);
            return false;
        }
    }
    rounds.is_met() && rounds.spent() < way.cutoff
}

/// The vector of the columns that are fixed at 1.
pub fn vector(alloc: Global, z: &ZeroOne, rounds: &Rounds) -> Result<Vec<bool>, AllocError> {
    let mut on = Vec::with_capacity(alloc, z.costs.len())?;
    for j in 0..z.costs.len() {
        let place = rounds.place_of(u32::try_from(j).unwrap_or(u32::MAX));
        on.push(place == Some(true))?;
    }
    Ok(on)
}
