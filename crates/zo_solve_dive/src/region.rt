//! The columns round a column: those that stand with it in short rows, and with these again, up to so many; and of the long rows
//! near it that just hold a few columns that are 1.

use std::alloc::{AllocError, Global};
use zo_model::ZeroOne;
use zo_solve_relaxation::{Rounds, Terms, put};

/// A row of more terms is long.
const SHORT: usize = 12;
/// Of a long row N columns that are 1 are taken.
const FEW: usize = 2;
/// So many columns have their long rows looked at.
const HEAD: usize = 20;

/// A list of columns, with a mark at each of them, and a number at each row that was looked at.
#[derive(Drop)]
pub struct Region {
    pub columns: Vec<u32>,
    marks: Vec<bool>,
    seen: Vec<u64>,
    stamp: u64,
    // how many columns of long rows may still be taken
    room: usize,
}

impl Region {
    /// No column yet.
    pub fn new(alloc: Global, z: &ZeroOne) -> Result<Region, AllocError> {
        let marks = vec![in alloc; false; z.costs.len()]?;
        let seen = vec![in alloc; 0; z.rows.len()]?;
        Ok(Region {
            columns: Vec::with_capacity(alloc, z.costs.len())?,
            marks,
            seen,
            stamp: 0,
            room: 0,
        })
    }

    /// Puts a column in. Whether it wasn't there.
    pub fn add(&mut self, column: u32) -> bool {
        if let Some(mark) = self.marks.get_mut(column as usize) {
            if !*mark {
                *mark = true;
                put(&mut self.columns, column);
                return true;
            }
        }
        false
    }

    /// Takes all columns out.
    pub fn clear(&mut self) {
        for column in &self.columns {
            if let Some(mark) = self.marks.get_mut(*column as usize) {
                *mark = false;
            }
        }
        self.columns.clear();
        self.stamp = self.stamp.wrapping_add(1);
    }

    /// Puts the columns of a short row in.
    fn add_short(&mut self, terms: Terms<'_>) {
        for k in 0..terms.len() {
            if let Some((j, _)) = terms.get(k) {
                self.add(j);
            }
        }
    }

    /// Puts a few columns of a long row in that are 1, from a place on.
    fn add_long(&mut self, terms: Terms<'_>, on: &[bool], from: usize) {
        let mut left = FEW;
        for k in 0..terms.len() {
            let at = from.wrapping_add(k).checked_rem(terms.len()).unwrap_or(0);
            if let Some((j, _)) = terms.get(at) {
                if left > 0 && on.get(j as usize).copied() == Some(true) && self.add(j) {
                    left = left.saturating_sub(1);
                    self.room = self.room.saturating_sub(1);
                }
            }
        }
    }

    /// Whether the row wasn't looked at yet.
    fn is_new(&self, row: u32) -> bool {
        match self.seen.get(row as usize) {
            Some(seen) => *seen != self.stamp,
            None => false,
        }
    }

    /// Looks at a row of the column at a place of the list.
    fn visit(&mut self, rounds: &mut Rounds, row: u32, on: &[bool], from: usize, is_head: bool) {
        let count = rounds.row(row).len();
        let is_short = count <= SHORT;
        if !self.is_new(row) || (!is_short && !(is_head && self.room > 0 && rounds.is_tight(row))) {
            return;
        }
        if let Some(seen) = self.seen.get_mut(row as usize) {
            *seen = self.stamp;
        }
        rounds.spend(count);
        if is_short {
            self.add_short(rounds.row(row));
        } else {
            self.add_long(rounds.row(row), on, from);
        }
    }

    /// The columns round this one, some so many.
    pub fn grow(
        &mut self,
        rounds: &mut Rounds,
        column: u32,
        on: &[bool],
        most: usize,
        salt: usize,
    ) {
        self.clear();
        self.room = most / 100;
        self.add(column);
        let from = salt
            .wrapping_mul(37)
            .wrapping_add((column as usize).wrapping_mul(11));
        for head in 0..most {
            if self.columns.len() >= most {
                return;
            }
            let Some(next) = self.columns.get(head).copied() else {
                return;
            };
            for k in 0..rounds.column(next).len() {
                if let Some((row, _)) = rounds.column(next).get(k) {
                    self.visit(rounds, row, on, from, head < HEAD);
                }
            }
        }
    }
}
