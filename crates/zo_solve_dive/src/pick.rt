//! The choice of the column to branch on.

ghost use Rattle.std.specs.Prelude.{◌≡◌, ◌≤◌, ◌^◌, List, Bool, Option, length, slice_get, Some, None};
ghost use Rattle.zo_model.specs.Program.{AreTerms, IsValid, columns};
ghost use Rattle.zo_model.specs.declared.program.Row as rows;
ghost use Rattle.zo_solve_dive.specs.Choice.{IsFirstChoice, IsFree, IsLeast, IsPreferred};
ghost use Rattle.zo_solve_dive.specs.inner.Least.{AnswersLeast, Either, IsFreeIn, IsPreferredBy};
ghost use Rattle.zo_solve_dive.specs.Pick.{Answers, CanPick, HasFree};

use crate::reach::is_row_met;
use zo_cert_tree::Fixed;
use zo_model::{Row, ZeroOne};

/// A choice of the column to branch on.
///
/// Where a column is unfixed the choice names an unfixed one. A struct can't keep this fact about its closure, so the calls
/// that take a pick ask for it again, as `Pick::new` gives it.
#[derive(Clone, Copy, Drop)]
pub struct Pick<F: Fn(&ZeroOne, &Fixed) -> u32> {
    pub choose: F,
}

impl<F: Fn(&ZeroOne, &Fixed) -> u32> Pick<F> {
    /// A pick by this closure.
    pub fn new(choose: F) -> Pick<F>
        requires can_pick { CanPick (F.pre choose) (F.post choose) }
        ensures same { result.choose ≡ choose }
        ensures can_pick { CanPick (F.pre result.choose) (F.post result.choose) }
    {
        Pick { choose }
    }

    /// The column to branch on.
    pub fn column(&self, z: &ZeroOne, fixed: &Fixed) -> u32
        requires can_pick { CanPick (F.pre self.now.choose) (F.post self.now.choose) }
        requires valid { IsValid z.now }
        requires places { length fixed.now.at.items ≡ columns z.now }
        requires free { HasFree fixed.now.at.items }
        ensures answer { Answers (F.post self.now.choose) z.now fixed.now.at.items result }
        ensures free { slice_get fixed.now.at.items result ≡ Some None }
    {
        (self.choose)(z, fixed)
    }
}

/// The first unfixed column of a row, if there is one.
fn first_free(terms: &[(u32, i32)], fixed: &[Option<bool>]) -> Option<u32>
    requires terms { AreTerms (length fixed.now) terms.now }
    ensures { AnswersLeast (IsFreeIn fixed.now terms.now) result }
{
    for (j, _) in terms {
        if fixed[*j as usize].is_none() {
            return Some(*j);
        }
    }
    None
}

/// The first unfixed column of a row that isn't met, if there is one.
fn first_free_of_unmet(row: &Row, fixed: &[Option<bool>]) -> Option<u32>
    requires terms { AreTerms (length fixed.now) row.now.terms.items }
    ensures { AnswersLeast (IsPreferredBy fixed.now row.now) result }
{
    if is_row_met(row, fixed) {
        return None;
    }
    first_free(&row.terms, fixed)
}

/// The lesser column, where there are two.
fn lesser(a: Option<u32>, b: Option<u32>) -> Option<u32>
    ensures { (fixed : List (Option Bool)) (rs : List rows.Row) (r : rows.Row) → AnswersLeast (IsPreferred rs fixed) a → AnswersLeast (IsPreferredBy fixed r) b → AnswersLeast (Either (IsPreferred rs fixed) (IsPreferredBy fixed r)) result }
{
    match (a, b) {
        (Some(i), Some(j)) => Some(i.min(j)),
        (Some(i), None) => Some(i),
        (None, b) => b,
    }
}

/// The least unfixed column.
pub fn least_free(fixed: &[Option<bool>]) -> u32
    requires few { length fixed.now ≤ 2 ^ 26 }
    ensures { HasFree fixed.now → IsLeast (IsFree fixed.now) result }
{
    for (j, place) in fixed.iter().enumerate() {
        if place.is_none() {
            return j as u32;
        }
    }
    0
}

/// The least unfixed column of the rows that aren't met, if there is one.
fn least_preferred(z: &ZeroOne, fixed: &Fixed) -> Option<u32>
    requires valid { IsValid z.now }
    requires places { length fixed.now.at.items ≡ columns z.now }
    ensures { AnswersLeast (IsPreferred z.now.rows.items fixed.now.at.items) result }
{
    let mut best: Option<u32> = None;
    for i in 0..z.rows.len() {
        best = lesser(best, first_free_of_unmet(&z.rows[i], &fixed.at));
    }
    best
}

/// The least unfixed column that stands in a row which isn't met yet, with 0 for the unfixed columns, else the least unfixed
/// column.
pub fn first_choice(z: &ZeroOne, fixed: &Fixed) -> u32
    requires valid { IsValid z.now }
    requires places { length fixed.now.at.items ≡ columns z.now }
    ensures choice { HasFree fixed.now.at.items → IsFirstChoice z.now fixed.now.at.items result }
    ensures free { HasFree fixed.now.at.items → slice_get fixed.now.at.items result ≡ Some None }
{
    match least_preferred(z, fixed) {
        Some(column) => column,
        None => least_free(&fixed.at),
    }
}
