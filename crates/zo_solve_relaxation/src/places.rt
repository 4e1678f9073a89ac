//! Which columns are fixed, with the sums of the rows that count, and what these force.
//!
//! A column is forced where its coefficient is greater than the slack of its row. Only rows of which less can be reached are
//! looked at again.

use crate::activities::{Activity, activities_of, one_part};
use crate::due::put;
use crate::rounds::Rounds;
use std::alloc::{AllocError, Global};
use zo_model::ZeroOne;

/// The greatest size of a coefficient.
const LARGEST: i64 = 32_768;

/// The sums of the rows with the columns that are fixed.
#[derive(Drop)]
pub struct Places {
    activities: Vec<Activity>,
    // the columns that are fixed, in the order in which they were, and the rows that may force others
    trail: Vec<u32>,
    queue: Vec<u32>,
    // all rows before this one are met; how many aren't
    first: usize,
    unmet: i64,
    // what the columns fixed at 1 cost, over the greatest common divisor of all costs
    spent: i64,
}

impl Places {
    /// No column is fixed.
    pub fn new(alloc: Global, z: &ZeroOne) -> Result<Places, AllocError> {
        Ok(Places {
            activities: activities_of(alloc, z)?,
            trail: Vec::with_capacity(alloc, z.costs.len())?,
            queue: Vec::with_capacity(alloc, z.rows.len())?,
            first: 0,
            unmet: 0,
            spent: 0,
        })
    }

    /// Has a row looked at for what it forces.
    fn enqueue(&mut self, row: u32) {
        if let Some(it) = self.activities.get_mut(row as usize) {
            if !it.is_queued {
                it.is_queued = true;
                put(&mut self.queue, row);
            }
        }
    }

    /// Takes a row out of those that may force others.
    fn dequeue(&mut self) -> Option<u32> {
        let row = self.queue.pop()?;
        if let Some(it) = self.activities.get_mut(row as usize) {
            it.is_queued = false;
        }
        Some(row)
    }

    /// A column of a row goes from one place to another.
    fn update(&mut self, row: u32, old: Option<bool>, new: Option<bool>, a: i64) {
        let Some(it) = self.activities.get_mut(row as usize) else {
            return;
        };
        let change = it.change(old, new, a);
        self.unmet = self.unmet.wrapping_add(change.unmet);
        if change.unmet > 0 {
            self.first = self.first.min(row as usize);
        }
        if change.falls {
            self.enqueue(row);
        }
    }
}

impl Rounds {
    /// Counts the rows that aren't met, and has all that count looked at.
    pub(crate) fn count_rows(&mut self) {
        for i in 0..self.places.activities.len() {
            if self.matrix.is_counted(i) {
                if let Some(it) = self.places.activities.get(i) {
                    self.places.unmet = self.places.unmet.wrapping_add(it.unmet());
                }
            }
        }
        self.enqueue_all()
    }

    /// Has all rows that count looked at for what they force.
    pub fn enqueue_all(&mut self) {
        for i in 0..self.places.activities.len() {
            if self.matrix.is_counted(i) {
                self.places.enqueue(u32::try_from(i).unwrap_or(u32::MAX));
            }
        }
    }

    /// Has no row looked at for what it forces.
    pub fn clear_queue(&mut self) {
        for _ in 0..self.places.queue.len() {
            self.places.dequeue();
        }
    }

    /// A row has one unfixed column more or less. Its multiplier is looked at where no column is left.
    fn count_free(&mut self, row: u32, is_fixed: bool) {
        if let Some(dual) = self.duals.get_mut(row as usize) {
            if !is_fixed {
                dual.free = dual.free.wrapping_add(1);
                return;
            }
            dual.free = dual.free.wrapping_sub(1);
            if dual.free == 0 && dual.value != 0 {
                self.due_duals.now.add(row);
            }
        }
    }

    /// The rows of a column change as it goes from one place to another.
    fn update_rows(&mut self, column: u32, old: Option<bool>, new: Option<bool>) {
        let count = self.matrix.columns.list(column).len();
        for k in 0..count {
            if let Some((row, a)) = self.matrix.columns.list(column).get(k) {
                self.places.update(row, old, new, a);
                if old.is_none() != new.is_none() {
                    self.count_free(row, new.is_some());
                }
            }
        }
        self.spend(count.saturating_mul(2).saturating_add(1));
    }

    /// Puts a column into another place.
    pub fn place(&mut self, column: u32, new: Option<bool>) {
        let old = self.place_of(column);
        if old == new || column as usize >= self.columns.len() {
            return;
        }
        self.update_rows(column, old, new);
        let cost = self.cost(column);
        let change = one_part(new, cost).wrapping_sub(one_part(old, cost));
        self.places.spent = self.places.spent.wrapping_add(change);
        self.put_place(column, new);
        self.mark(column)
    }

    /// Notes a column's place, and what it adds to the bound there.
    fn put_place(&mut self, column: u32, new: Option<bool>) {
        if let Some(it) = self.columns.get_mut(column as usize) {
            let was = it.worth();
            it.place = new;
            let change = it.worth().wrapping_sub(was);
            self.bound = self.bound.wrapping_add(i128::from(change));
        }
    }

    /// Where a column is fixed.
    pub fn place_of(&self, column: u32) -> Option<bool> {
        match self.columns.get(column as usize) {
            Some(column) => column.place,
            None => None,
        }
    }

    /// Whether the column is there and unfixed.
    pub fn is_free(&self, column: u32) -> bool {
        match self.columns.get(column as usize) {
            Some(column) => column.place.is_none(),
            None => false,
        }
    }

    /// Fixes a column where it is unfixed.
    pub fn fix(&mut self, column: u32, v: bool) {
        if self.is_free(column) {
            self.place(column, Some(v));
            put(&mut self.places.trail, column);
        }
    }

    /// How many columns `fix` has fixed.
    pub fn fixed_count(&self) -> usize {
        self.places.trail.len()
    }

    /// A column that `fix` has fixed, in the order of the calls.
    pub fn fixed(&self, at: usize) -> Option<u32> {
        self.places.trail.get(at).copied()
    }

    /// What the columns fixed at 1 cost, in units of the divisor.
    pub fn spent(&self) -> i64 {
        self.places.spent
    }

    /// Unfixes the columns that were fixed behind so many.
    pub fn undo(&mut self, count: usize) {
        for _ in count..self.places.trail.len() {
            if let Some(column) = self.places.trail.pop() {
                self.place(column, None);
            }
        }
        self.clear_queue();
    }

    /// Puts all columns into the places of a vector, without a way back, and none as far as it doesn't go.
    pub fn place_all(&mut self, on: &[bool]) {
        for j in 0..self.columns.len() {
            let place = on.get(j).copied();
            self.place(u32::try_from(j).unwrap_or(u32::MAX), place);
        }
        self.places.trail.clear();
        self.clear_queue();
    }

    /// Fixes each column without which the row can't hold. Whether the row can still hold.
    fn force(&mut self, row: u32) -> bool {
        let Some(it) = self.places.activities.get(row as usize) else {
            return true;
        };
        let slack = it.reach;
        let largest = if self.matrix.rows.is_unit() {
            1
        } else {
            LARGEST
        };
        if slack < 0 {
            return false;
        }
        if slack >= largest {
            return true;
        }
        let count = self.matrix.rows.list(row).len();
        self.spend(count);
        for k in 0..count {
            if let Some((column, a)) = self.matrix.rows.list(row).get(k) {
                if a.wrapping_abs() > slack {
                    self.fix(column, a > 0);
                }
            }
        }
        true
    }

    /// Fixes what the rows force, to the end. Whether all of them can still hold.
    pub fn propagate(&mut self) -> bool {
        for _ in 0..u64::MAX {
            let Some(row) = self.places.dequeue() else {
                return true;
            };
            if !self.force(row) {
                return false;
            }
        }
        true
    }

    /// Whether the row doesn't count, or is met with 0 for all unfixed columns.
    pub fn is_row_met(&self, row: usize) -> bool {
        match self.places.activities.get(row) {
            Some(it) => it.ones >= 0 || !self.matrix.is_counted(row),
            None => true,
        }
    }

    /// Whether all rows are met with 0 for all unfixed columns.
    pub fn is_met(&self) -> bool {
        self.places.unmet == 0
    }

    /// Whether the row just holds with the columns that are fixed at 1, or doesn't.
    pub fn is_tight(&self, row: u32) -> bool {
        match self.places.activities.get(row as usize) {
            Some(it) => it.ones <= 0,
            None => false,
        }
    }

    /// The first row that isn't met with 0 for all unfixed columns.
    pub fn first_unmet(&mut self) -> Option<u32> {
        if self.is_met() {
            return None;
        }
        let from = self.places.first;
        for i in from..self.places.activities.len() {
            if !self.is_row_met(i) {
                self.places.first = i;
                self.spend(i.saturating_sub(from));
                return u32::try_from(i).ok();
            }
        }
        self.places.first = self.places.activities.len();
        None
    }

    /// The unfixed column that helps the row and is greatest by the rounds, of equal ones the cheapest.
    pub fn likeliest(&mut self, row: u32) -> Option<u32> {
        let mut best: Option<u32> = None;
        let mut greatest: i64 = -1;
        let mut cheapest: i64 = 0;
        let terms = self.matrix.rows.list(row);
        for k in 0..terms.len() {
            if let Some((column, a)) = terms.get(k) {
                if a > 0 && self.is_free(column) {
                    let (value, cost) = (self.value(column), self.cost(column));
                    if value > greatest || (value == greatest && cost < cheapest) {
                        best = Some(column);
                        greatest = value;
                        cheapest = cost;
                    }
                }
            }
        }
        let count = terms.len();
        self.spend(count);
        best
    }
}
