//! Columns that have one place in all cheaper vectors.
//!
//! Where a column is moved against its reduced cost, the bound rises by that. So a column whose reduced cost is more than what
//! the bound lacks of the best vector's cost stays where it is cheap.

use zo_solve_relaxation::Rounds;

/// So often columns are fixed, with so many rounds after it.
const PASSES: u32 = 3;

const ROUNDS: u32 = 150;

/// Fixes each column, of so many, whose reduced cost is more than the bound lacks. How many.
fn fix_once(rounds: &mut Rounds, columns: usize, need: i128) -> usize {
    let before = rounds.fixed_count();
    let lack = need.wrapping_sub(rounds.bound());
    for j in 0..columns {
        let column = u32::try_from(j).unwrap_or(u32::MAX);
        let over = i128::from(rounds.reduced_cost(column));
        if over > lack {
            rounds.fix(column, false);
        } else if over.wrapping_neg() > lack {
            rounds.fix(column, true);
        }
    }
    rounds.spend(columns);
    rounds.fixed_count().saturating_sub(before)
}

/// Fixes the columns that have one place in all vectors that cost no more than `need`. Whether there may be such a vector.
pub fn fix_decided(rounds: &mut Rounds, columns: usize, need: i128) -> bool {
    rounds.enqueue_all();
    for _ in 0..PASSES {
        let count = fix_once(rounds, columns, need);
        if !rounds.propagate() {
            return false;
        }
        rounds.run(ROUNDS);
        if rounds.bound() > need {
            return false;
        }
        if count == 0 {
            return true;
        }
    }
    true
}
