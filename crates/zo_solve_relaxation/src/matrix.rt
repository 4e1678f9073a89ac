//! The rows that count, and the columns' terms in them.
//!
//! A row that holds for every 0-1 vector says nothing, and neither does one that another row implies. Both keep the multiplier 0
//! and stay out of the rounds. Where the difference of two rows always holds, the second one implies the first. A row is compared
//! with those near it in the shortest of its columns.

use crate::terms::Lists;
use std::alloc::{AllocError, Global};
use zo_model::{Row, ZeroOne};

/// A row is compared with N rows before it and after it.
const NEAR: usize = 8;

/// The rows that count, and the terms in them by rows and by columns.
#[derive(Drop)]
pub struct Matrix {
    counts: Vec<bool>,
    pub rows: Lists,
    pub columns: Lists,
}

/// Whether some 0-1 vector misses the row.
fn can_fail(row: &Row) -> bool {
    let mut least: i64 = 0;
    for (_, a) in &row.terms {
        least = least.wrapping_add(i64::from(*a).min(0));
    }
    least < i64::from(row.least)
}

/// Which rows some 0-1 vector misses.
fn failing(alloc: Global, z: &ZeroOne) -> Result<Vec<bool>, AllocError> {
    let mut counts = Vec::new(alloc);
    for row in &z.rows {
        counts.push(can_fail(row))?;
    }
    Ok(counts)
}

/// Whether a coefficient of a row isn't 1 or -1.
fn is_sized(row: &Row) -> bool {
    for (_, a) in &row.terms {
        if a.wrapping_abs() != 1 {
            return true;
        }
    }
    false
}

/// Whether a coefficient of a row that counts isn't 1 or -1.
fn has_sizes(z: &ZeroOne, counts: &[bool]) -> bool {
    for (row, is_counted) in z.rows.iter().zip(counts) {
        if *is_counted && is_sized(row) {
            return true;
        }
    }
    false
}

/// Adds to each count those before it, and puts the sum after them.
fn add_up(starts: &mut Vec<u32>) -> Result<(), AllocError> {
    let mut sum: u32 = 0;
    for start in starts.iter_mut() {
        let count = *start;
        *start = sum;
        sum = sum.wrapping_add(count);
    }
    starts.push(sum)?;
    Ok(())
}

/// For each column how many terms in rows that count stand before it.
fn column_starts(alloc: Global, z: &ZeroOne, counts: &[bool]) -> Result<Vec<u32>, AllocError> {
    let mut starts: Vec<u32> = vec![in alloc; 0; z.costs.len()]?;
    for (row, is_counted) in z.rows.iter().zip(counts) {
        if *is_counted {
            for (j, _) in &row.terms {
                if let Some(count) = starts.get_mut(*j as usize) {
                    *count = count.wrapping_add(1);
                }
            }
        }
    }
    add_up(&mut starts)?;
    Ok(starts)
}

/// For each row how many terms in rows that count stand before it.
fn row_starts(alloc: Global, z: &ZeroOne, counts: &[bool]) -> Result<Vec<u32>, AllocError> {
    let mut starts: Vec<u32> = Vec::with_capacity(alloc, z.rows.len())?;
    for (row, is_counted) in z.rows.iter().zip(counts) {
        let count = if *is_counted { row.terms.len() } else { 0 };
        starts.push(u32::try_from(count).unwrap_or(0))?;
    }
    add_up(&mut starts)?;
    Ok(starts)
}

/// Puts the terms of a row where their columns' next ones go.
fn put_terms(lists: &mut Lists, next: &mut [u32], row: u32, terms: &[(u32, i32)]) {
    for (j, a) in terms {
        if let Some(at) = next.get_mut(*j as usize) {
            lists.set(*at as usize, row, *a);
            *at = at.wrapping_add(1);
        }
    }
}

/// The columns' terms in rows that count.
fn by_columns(alloc: Global, z: &ZeroOne, counts: &[bool]) -> Result<Lists, AllocError> {
    let starts = column_starts(alloc, z, counts)?;
    let mut next = Vec::from_slice(alloc, &starts)?;
    let mut lists = Lists::with_starts(alloc, starts, has_sizes(z, counts))?;
    for (i, (row, is_counted)) in z.rows.iter().zip(counts).enumerate() {
        if *is_counted {
            if let Ok(i) = u32::try_from(i) {
                put_terms(&mut lists, &mut next, i, &row.terms);
            }
        }
    }
    Ok(lists)
}

/// The terms of the rows that count.
fn by_rows(alloc: Global, z: &ZeroOne, counts: &[bool]) -> Result<Lists, AllocError> {
    let starts = row_starts(alloc, z, counts)?;
    let mut lists = Lists::with_starts(alloc, starts, has_sizes(z, counts))?;
    let mut at: usize = 0;
    for (row, is_counted) in z.rows.iter().zip(counts) {
        if *is_counted {
            for (j, a) in &row.terms {
                lists.set(at, *j, *a);
                at = at.wrapping_add(1);
            }
        }
    }
    Ok(lists)
}

/// A place in one of two lists of terms.
#[derive(Clone, Copy, Drop)]
struct Merged {
    a: usize,
    b: usize,
    least: i64,
}

/// The next term of the difference of two rows, whose columns rise.
fn next_term(a: &[(u32, i32)], b: &[(u32, i32)], at: Merged) -> Merged {
    let here = a.get(at.a).copied().unwrap_or((u32::MAX, 0));
    let there = b.get(at.b).copied().unwrap_or((u32::MAX, 0));
    let mut difference: i64 = 0;
    let mut next = at;
    if here.0 <= there.0 {
        difference = i64::from(here.1);
        next.a = at.a.wrapping_add(1);
    }
    if there.0 <= here.0 {
        difference = difference.wrapping_sub(i64::from(there.1));
        next.b = at.b.wrapping_add(1);
    }
    next.least = at.least.wrapping_add(difference.min(0));
    next
}

/// Whether each 0-1 vector that meets the second row meets the first, since their difference always holds.
fn is_implied(row: &Row, by: &Row) -> bool {
    let room = i64::from(row.least).wrapping_sub(i64::from(by.least));
    let count = row.terms.len().saturating_add(by.terms.len());
    let mut at = Merged {
        a: 0,
        b: 0,
        least: 0,
    };
    for _ in 0..count {
        if at.a >= row.terms.len() && at.b >= by.terms.len() {
            break;
        }
        at = next_term(&row.terms, &by.terms, at);
        if at.least < room {
            return false;
        }
    }
    at.least >= room
}

/// The rows that may count, and their terms by columns.
#[derive(Drop)]
struct Candidates {
    counts: Vec<bool>,
    columns: Lists,
}

/// Which rows count.
fn counted(alloc: Global, z: &ZeroOne) -> Result<Vec<bool>, AllocError> {
    let counts = failing(alloc, z)?;
    let columns = by_columns(alloc, z, &counts)?;
    let mut all = Candidates { counts, columns };
    for i in 0..z.rows.len() {
        if all.is_repeated(z, i) {
            if let Some(counts) = all.counts.get_mut(i) {
                *counts = false;
            }
        }
    }
    let Candidates { counts, .. } = all;
    Ok(counts)
}

impl Matrix {
    /// The rows that count, and their terms.
    pub fn new(alloc: Global, z: &ZeroOne) -> Result<Matrix, AllocError> {
        let counts = counted(alloc, z)?;
        let rows = by_rows(alloc, z, &counts)?;
        let columns = by_columns(alloc, z, &counts)?;
        Ok(Matrix {
            counts,
            rows,
            columns,
        })
    }

    /// How many terms there are.
    pub fn len(&self) -> usize {
        self.columns.len()
    }

    /// Whether the row is there and counts.
    pub fn is_counted(&self, row: usize) -> bool {
        self.counts.get(row).copied().unwrap_or(false)
    }
}

impl Candidates {
    /// Whether the row is there and may count.
    fn is_counted(&self, row: usize) -> bool {
        self.counts.get(row).copied().unwrap_or(false)
    }

    /// The column of a row that has the fewest terms.
    fn shortest(&self, row: &Row) -> u32 {
        let mut best: u32 = 0;
        let mut fewest = usize::MAX;
        for (j, _) in &row.terms {
            let count = self.columns.list(*j).len();
            if count < fewest {
                best = *j;
                fewest = count;
            }
        }
        best
    }

    /// Whether the other row may count and implies this one.
    fn implies(&self, z: &ZeroOne, other: Option<(u32, i64)>, i: usize, row: &Row) -> bool {
        let Some((s, _)) = other else {
            return false;
        };
        let s = s as usize;
        if s == i || !self.is_counted(s) {
            return false;
        }
        match z.rows.get(s) {
            Some(by) => is_implied(row, by),
            None => false,
        }
    }

    /// Whether a row near it that may count implies it.
    fn is_repeated(&self, z: &ZeroOne, i: usize) -> bool {
        if !self.is_counted(i) {
            return false;
        }
        let Some(row) = z.rows.get(i) else {
            return false;
        };
        let near = self.columns.list(self.shortest(row));
        let at = near.count_before(i);
        for off in 1..NEAR + 1 {
            if off <= at && self.implies(z, near.get(at.wrapping_sub(off)), i, row) {
                return true;
            }
            if self.implies(z, near.get(at.saturating_add(off)), i, row) {
                return true;
            }
        }
        false
    }
}
