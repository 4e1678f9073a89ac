//! Sums of a row by the places of its columns, and the vector of a node that is met.

ghost use Rattle.std.specs.Prelude.{◌≡◌, length, IsTrue, ◌↔◌, IfOk, map};
ghost use Rattle.zo_model.specs.Program.{AreSmallTerms, AreTerms, cost_of, columns};
ghost use Rattle.zo_model.specs.Program as program;
ghost use Rattle.zo_cert_tree.specs.Fixing.{ones};
ghost use Rattle.zo_cert_tree.specs.Fixing as fixing;
ghost use Rattle.zo_cert_tree.specs.Searched.{IsMet};
ghost use Rattle.zo_cert_tree.specs.Searched as searched;
ghost use Rattle.zo_solve_dive.specs.Vector.{AreOnes, IsVector, cost_at};

use std::alloc::{AllocError, Global};
use zo_model::{Assignment, Row, ZeroOne};

/// The coefficient of a column that is fixed at 1, else 0.
fn one_part(place: Option<bool>, a: i32) -> i32
    ensures { result ≡ program.where_one (fixing.is_one place) a }
{
    match place {
        Some(true) => a,
        Some(false) | None => 0,
    }
}

/// The most that a column adds to its row.
pub fn reach_part(place: Option<bool>, a: i32) -> i32
    ensures { result ≡ searched.reach_part place a }
{
    match place {
        Some(true) => a,
        Some(false) => 0,
        None => a.max(0),
    }
}

/// The sum of the coefficients of the columns that are fixed at 1.
pub fn ones_total(terms: &[(u32, i32)], fixed: &[Option<bool>]) -> i64
    requires terms { AreSmallTerms (length fixed.now) terms.now }
    ensures { result ≡ program.terms_sum terms.now (ones fixed.now) }
{
    let mut sum: i64 = 0;
    for (j, a) in terms {
        sum += i64::from(one_part(fixed[*j as usize], *a));
    }
    sum
}

/// The most that the row's sum can still be.
pub fn reach(terms: &[(u32, i32)], fixed: &[Option<bool>]) -> i64
    requires terms { AreSmallTerms (length fixed.now) terms.now }
    ensures { result ≡ searched.reach fixed.now terms.now }
{
    let mut sum: i64 = 0;
    for (j, a) in terms {
        sum += i64::from(reach_part(fixed[*j as usize], *a));
    }
    sum
}

/// Whether the row holds with 0 for all unfixed columns.
#[tactic(auto, using(zo_model::proofs::Rows::terms_small))]
pub fn is_row_met(row: &Row, fixed: &[Option<bool>]) -> bool
    requires terms { AreTerms (length fixed.now) row.now.terms.items }
    ensures { IsTrue result ↔ program.Meets (ones fixed.now) row.now }
{
    ones_total(&row.terms, fixed) >= i64::from(row.least)
}

/// Whether the column is fixed at 1.
fn is_one(place: Option<bool>) -> bool
    ensures { result ≡ fixing.is_one place }
{
    match place {
        Some(one) => one,
        None => false,
    }
}

/// Which columns are fixed at 1.
fn ones_list(alloc: Global, fixed: &[Option<bool>]) -> Result<Vec<bool>, AllocError>
    ensures { IfOk result (λ on. on.items ≡ map fixing.is_one fixed.now) }
{
    fixed.iter().map(|place| is_one(*place)).collect(alloc)
}

/// The vector in which the columns fixed at 1 are 1, and all others 0.
pub fn ones_vector(
    alloc: Global,
    z: &ZeroOne,
    fixed: &[Option<bool>],
) -> Result<Assignment, AllocError>
    requires places { length fixed.now ≡ columns z.now }
    requires met { IsMet z.now fixed.now }
    ensures vector { IfOk result (λ x. IsVector z.now x) }
    ensures ones { IfOk result (AreOnes fixed.now) }
    ensures cost { IfOk result (λ x. cost_at z.now x ≡ cost_of z.now (ones fixed.now)) }
{
    Ok(Assignment {
        on: ones_list(alloc, fixed)?,
    })
}
