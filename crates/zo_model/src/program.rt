//! 0-1 programs, the cost of an assignment, and whether it meets the rows.

ghost use Rattle.std.specs.Prelude.{◌≡◌, ◌≤◌, ◌^◌, length, IsTrue, ◌↔◌};
ghost use Rattle.zo_model.specs.Program.{columns, cost_of, vector, AreSmallTerms, AreTerms, AtMost, Feasible, IsCoefficient, IsRow, IsValid, Meets, Rise};
ghost use Rattle.zo_model.specs.Program as program;

/// At most N columns, and as many rows.
pub(crate) const COUNT_LIMIT: usize = 1 << 26;
/// The cost of a column is below this.
pub(crate) const COST_LIMIT: u32 = 1 << 20;
/// The least of a row is at most this far from 0.
pub(crate) const LEAST_LIMIT: i32 = 1 << 30;

/// Demands that the coefficients of the columns that are 1 sum to at least `least`.
///
/// A term is a column and its coefficient.
#[derive(Drop)]
pub struct Row {
    pub terms: Vec<(u32, i32)>,
    pub least: i32,
}

/// Minimise the sum of the costs of the columns that are 1, under the rows.
#[derive(Drop)]
pub struct ZeroOne {
    pub costs: Vec<u32>,
    pub rows: Vec<Row>,
}

/// Which columns are 1.
#[derive(Drop)]
pub struct Assignment {
    pub on: Vec<bool>,
}

/// The sum of the costs of the columns that are 1.
pub fn cost(z: &ZeroOne, x: &Assignment) -> u64
    requires valid { IsValid z.now }
    requires columns { length x.now.on.items ≡ columns z.now }
    ensures { result ≡ cost_of z.now (vector x.now.on.items) }
{
    let mut sum: u64 = 0;
    for j in 0..z.costs.len() {
        if x.on[j] {
            sum += u64::from(z.costs[j]);
        }
    }
    sum
}

/// `a`, where the column is 1, else 0.
fn where_one(on: bool, a: i32) -> i32
    ensures { result ≡ program.where_one on a }
{
    if on { a } else { 0 }
}

/// The sum of the coefficients of the columns that are 1.
fn terms_total(terms: &[(u32, i32)], x: &[bool]) -> i64
    requires terms { AreSmallTerms (length x.now) terms.now }
    ensures { result ≡ program.terms_sum terms.now (vector x.now) }
{
    let mut sum: i64 = 0;
    for (j, a) in terms {
        sum += i64::from(where_one(x[*j as usize], *a));
    }
    sum
}

/// Whether the row's sum is at least its `least`.
#[tactic(auto, using(crate::proofs::Rows::terms_small))]
fn meets(row: &Row, x: &[bool]) -> bool
    requires terms { AreTerms (length x.now) row.now.terms.items }
    ensures { IsTrue result ↔ Meets (vector x.now) row.now }
{
    terms_total(&row.terms, x) >= i64::from(row.least)
}

/// Whether each row's sum is at least its `least`.
pub fn feasible(z: &ZeroOne, x: &Assignment) -> bool
    requires valid { IsValid z.now }
    requires columns { length x.now.on.items ≡ columns z.now }
    ensures { IsTrue result ↔ Feasible z.now (vector x.now.on.items) }
{
    z.rows.iter().all(|row| meets(row, &x.on))
}

/// Whether the terms' columns rise and are there.
fn rise(columns: usize, terms: &[(u32, i32)]) -> bool
    ensures { IsTrue result ↔ Rise 0 columns terms.now }
{
    let mut next: usize = 0;
    for (j, _) in terms {
        let column = *j as usize;
        if column < next || column >= columns {
            return false;
        }
        next = column + 1;
    }
    true
}

/// Whether the coefficient fits 16 bits and is not 0.
fn is_coefficient(a: i32) -> bool
    ensures { IsTrue result ↔ IsCoefficient a }
{
    -32768 <= a && a <= 32767 && a != 0
}

/// Whether the terms are those of a row over N columns.
fn are_terms(columns: usize, terms: &[(u32, i32)]) -> bool
    requires few { columns ≤ 2 ^ 26 }
    ensures { IsTrue result ↔ AreTerms columns terms.now }
{
    rise(columns, terms) && terms.iter().all(|term| is_coefficient(term.1))
}

/// Whether the least of a row lies within its limits.
fn is_least(least: i32) -> bool
    ensures { IsTrue result ↔ AtMost (2 ^ 30) least }
{
    -LEAST_LIMIT <= least && least <= LEAST_LIMIT
}

/// Whether the row is one over N columns.
fn is_row(columns: usize, row: &Row) -> bool
    requires few { columns ≤ 2 ^ 26 }
    ensures { IsTrue result ↔ IsRow columns row.now }
{
    are_terms(columns, &row.terms) && is_least(row.least)
}

/// Whether the program keeps the limits: at most 2^26 columns and rows, costs below 2^20, the columns of each row rise and
/// are there, its coefficients fit 16 bits and are not 0, and its least lies within 2^30 of 0.
pub fn is_valid(z: &ZeroOne) -> bool
    ensures { IsTrue result ↔ IsValid z.now }
{
    let columns = z.costs.len();
    columns <= COUNT_LIMIT
        && z.rows.len() <= COUNT_LIMIT
        && z.costs.iter().all(|cost| *cost < COST_LIMIT)
        && z.rows.iter().all(|row| is_row(columns, row))
}
