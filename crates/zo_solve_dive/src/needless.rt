//! What a vector needs: its costly columns, and whether its rows hold without one.

use std::alloc::{AllocError, Global};
use zo_model::{Row, ZeroOne};
use zo_solve_relaxation::{Rounds, Terms};

/// The low half of a word.
const LOW: u64 = 0xffff_ffff;

/// The columns that are 1 and cost something, the dearest first.
pub fn costly(alloc: Global, z: &ZeroOne, on: &[bool]) -> Result<Vec<u32>, AllocError> {
    let mut keys: Vec<u64> = Vec::new(alloc);
    for (j, (cost, on)) in z.costs.iter().zip(on).enumerate() {
        if *on && *cost > 0 {
            let key = u64::from(u32::MAX - *cost) << 32;
            keys.push(key | (j as u64 & LOW))?;
        }
    }
    keys.sort_unstable();
    let mut columns = Vec::new(alloc);
    for key in &keys {
        columns.push(u32::try_from(*key & LOW).unwrap_or(0))?;
    }
    Ok(columns)
}

/// The row's sum.
fn sum_of(row: &Row, on: &[bool]) -> i64 {
    let mut sum: i64 = 0;
    for (j, a) in &row.terms {
        if on.get(*j as usize).copied() == Some(true) {
            sum = sum.wrapping_add(i64::from(*a));
        }
    }
    sum
}

/// The rows' sums.
fn sums_of(alloc: Global, z: &ZeroOne, on: &[bool]) -> Result<Vec<i64>, AllocError> {
    let mut sums = Vec::new(alloc);
    for row in &z.rows {
        sums.push(sum_of(row, on))?;
    }
    Ok(sums)
}

/// Whether each row of the column holds without it.
fn is_needless(z: &ZeroOne, sums: &[i64], terms: Terms<'_>) -> bool {
    for k in 0..terms.len() {
        if let Some((i, a)) = terms.get(k) {
            if let (Some(row), Some(sum)) = (z.rows.get(i as usize), sums.get(i as usize)) {
                if sum.wrapping_sub(a) < i64::from(row.least) {
                    return false;
                }
            }
        }
    }
    true
}

/// Takes the column out of the sums of its rows.
fn drop_column(sums: &mut [i64], terms: Terms<'_>) {
    for k in 0..terms.len() {
        if let Some((i, a)) = terms.get(k) {
            if let Some(sum) = sums.get_mut(i as usize) {
                *sum = sum.wrapping_sub(a);
            }
        }
    }
}

/// Makes each column 0 that no row needs, the dearest first.
pub fn drop_needless(
    alloc: Global,
    z: &ZeroOne,
    rounds: &Rounds,
    on: &mut [bool],
) -> Result<(), AllocError> {
    let mut sums = sums_of(alloc, z, on)?;
    let dear = costly(alloc, z, on)?;
    for column in &dear {
        let terms = rounds.column(*column);
        if is_needless(z, &sums, terms) {
            drop_column(&mut sums, terms);
            if let Some(place) = on.get_mut(*column as usize) {
                *place = false;
            }
        }
    }
    Ok(())
}
