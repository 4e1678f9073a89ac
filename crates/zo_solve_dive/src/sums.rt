//! Running sums of the rows while columns are fixed and unfixed.

ghost use Rattle.std.specs.Prelude.{◌≡◌, ℕ, ◌<◌, ◌≤◌, ◌^◌, ◌↔◌, ◌<ℤ◌, ◌≤ℤ◌, length, pos, All, Option, None, Some, IfNone, IfOk, IfSome, IsTrue, slice_get, slice_set, slice_index_or};
ghost use Rattle.zo_model.specs.Program.{IsValid, columns};
ghost use Rattle.zo_cert_tree.specs.Certificate.{unfixed};
ghost use Rattle.zo_cert_tree.specs.Fixing.{ones};
ghost use Rattle.zo_cert_tree.specs.Searched.{IsInReach, IsMet};
ghost use Rattle.zo_cert_tree.specs.Searched as searched;
ghost use Rattle.zo_cert_tree.specs.inner.Path.{IsFixed};
ghost use Rattle.zo_solve_dive.specs.inner.Keeping.{EachReaches};

use crate::tables::{columns_of, move_sums, ones_of, reaches_of, settled};
use std::alloc::Global;
use std::marker::Model;
use zo_cert_tree::Fixed;
use zo_model::{NoMemory, Row, ZeroOne};

/// Which columns of a program are fixed, and the sums of all rows with them. Contracts see the program, and the columns' places.
#[derive(Drop)]
pub struct Sums<'a> {
    z: &'a ZeroOne,
    // for each column its rows, each with the coefficient there
    columns: Vec<Vec<(u32, i32)>>,
    fixed: Fixed,
    // for each row the most that its sum can still be
    reaches: Vec<i128>,
    // for each row its sum with 0 for all unfixed columns
    ones: Vec<i128>,
}

impl<'a> Model for Sums<'a> {
    ghost use Rattle.zo_solve_dive.specs.Sums.{SumsOf};
    ghost use Rattle.zo_solve_dive.specs.inner.Keeping.{KeepsSums};

    ghost Value = { SumsOf };

    ghost view = { λ s. record { program = s.z.now; fixed = s.fixed.at.items } };

    ghost invariant = { λ s. KeepsSums s.z.now s.columns.items s.fixed.at.items s.reaches.items s.ones.items };
}

/// The first row whose sum is below its least, if there is one.
fn first_below(rows: &[Row], sums: &[i128]) -> Option<u32>
    requires few { length rows.now ≤ 2 ^ 26 }
    requires many { length sums.now ≡ length rows.now }
    ensures there { IfSome result (λ i. i < length rows.now) }
    ensures below { IfSome result (λ i. IfSome (slice_get rows.now i) (λ r. slice_index_or sums.now i (pos 0) <ℤ r.least)) }
    ensures none { IfNone result (EachReaches rows.now sums.now) }
    ensures first { IfSome result (λ i. (k : ℕ) → k < i → IfSome (slice_get rows.now k) (λ r. r.least ≤ℤ slice_index_or sums.now k (pos 0))) }
{
    for i in 0..rows.len() {
        if sums[i] < i128::from(rows[i].least) {
            return Some(i as u32);
        }
    }
    None
}

impl<'a> Sums<'a> {
    /// The sums of a program of which no column is fixed.
    pub fn new(alloc: Global, z: &'a ZeroOne) -> Result<Sums<'a>, NoMemory>
        requires valid { IsValid z.now }
        ensures { IfOk result (λ s. s ≡ record { program = z.now; fixed = unfixed z.now }) }
    {
        let at = vec![in alloc; None; z.costs.len()]?;
        let reaches = reaches_of(alloc, z, &at)?;
        let ones = ones_of(alloc, z, &at)?;
        let columns = columns_of(alloc, z)?;
        Ok(Sums {
            z,
            columns,
            fixed: Fixed { at },
            reaches,
            ones,
        })
    }

    /// Puts a column into another place.
    fn place(&mut self, column: usize, new: Option<bool>)
        requires { column < length self.old.fixed }
        ensures { self.new ≡ record self.old { fixed = slice_set self.old.fixed column new } }
    {
        let old = self.fixed.at[column];
        self.fixed.at[column] = new;
        move_sums(&mut self.reaches, &self.columns[column], old, new);
        move_sums(
            &mut self.ones,
            &self.columns[column],
            settled(old),
            settled(new),
        );
    }

    /// Puts a column into another place, if it isn't there already.
    fn set(&mut self, column: usize, new: Option<bool>)
        requires { column < length self.old.fixed }
        ensures { self.new ≡ record self.old { fixed = slice_set self.old.fixed column new } }
    {
        if self.fixed.at[column] != new {
            self.place(column, new);
        }
    }

    /// Puts all columns into these places.
    pub fn follow(&mut self, fixed: &[Option<bool>])
        requires { length fixed.now ≡ length self.old.fixed }
        ensures { self.new ≡ record self.old { fixed = fixed.now } }
    {
        for j in 0..fixed.len() {
            self.set(j, fixed[j]);
        }
    }

    /// Whether the column is there and unfixed.
    pub fn is_free(&self, column: u32) -> bool
        ensures { IsTrue result ↔ slice_get self.now.fixed column ≡ Some None }
    {
        let j = column as usize;
        j < self.fixed.at.len() && self.fixed.at[j].is_none()
    }

    /// Whether the column is there and fixed.
    pub fn is_fixed(&self, column: u32) -> bool
        ensures { IsTrue result ↔ IsFixed (slice_get self.now.fixed column) }
    {
        let j = column as usize;
        j < self.fixed.at.len() && self.fixed.at[j].is_some()
    }

    /// Fixes a column.
    pub fn fix(&mut self, column: u32, v: bool)
        requires { slice_get self.old.fixed column ≡ Some None }
        ensures { self.new ≡ record self.old { fixed = slice_set self.old.fixed column (Some v) } }
    {
        self.place(column as usize, Some(v));
    }

    /// Unfixes a column.
    pub fn unfix(&mut self, column: u32)
        requires { IsFixed (slice_get self.old.fixed column) }
        ensures { self.new ≡ record self.old { fixed = slice_set self.old.fixed column None } }
    {
        self.place(column as usize, None);
    }

    /// The most that the row's sum can still be: the sum of the coefficients of its columns that are fixed at 1, and of the
    /// positive ones of its unfixed columns.
    pub fn reach(&self, row: u32) -> i64
        requires { row < length self.now.program.rows.items }
        ensures { IfSome (slice_get self.now.program.rows.items row) (λ r. result ≡ searched.reach self.now.fixed r.terms.items) }
    {
        self.reaches[row as usize] as i64
    }

    /// Whether every row holds with 0 for all unfixed columns.
    pub fn is_met(&self) -> bool
        ensures { IsTrue result ↔ IsMet self.now.program self.now.fixed }
    {
        first_below(&self.z.rows, &self.ones).is_none()
    }

    /// The first row that can't hold any more, if there is one.
    pub fn out_of_reach(&self) -> Option<u32>
        ensures some { IfSome result (λ i. IfSome (slice_get self.now.program.rows.items i) (λ row. IsInReach self.now.fixed row → ⊥)) }
        ensures there { IfSome result (λ i. i < length self.now.program.rows.items) }
        ensures first { IfSome result (λ i. (k : ℕ) → k < i → IfSome (slice_get self.now.program.rows.items k) (IsInReach self.now.fixed)) }
        ensures none { IfNone result (All (IsInReach self.now.fixed) self.now.program.rows.items) }
    {
        first_below(&self.z.rows, &self.reaches)
    }

    /// Which columns are fixed.
    pub fn fixed(&self) -> &Fixed
        ensures { result.now.at.items ≡ self.now.fixed }
    {
        &self.fixed
    }
}
