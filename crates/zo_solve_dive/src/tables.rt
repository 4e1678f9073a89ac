//! For each row its sums by the places of its columns, and for each column its rows.

ghost use Rattle.std.specs.Prelude.{◌≡◌, ℕ, ◌<◌, ◌^◌, ◌+ℤ◌, [], length, pos, ℤ, All, Option, IfOk, slice_get, slice_index_or};
ghost use Rattle.std.specs.Global.{Vec as VecOf};
ghost use Rattle.zo_model.specs.Program.{AreSmallTerms, AtMost, IsValid, columns, terms_sum};
ghost use Rattle.zo_cert_tree.specs.Certificate.{terms_of};
ghost use Rattle.zo_cert_tree.specs.Fixing.{ones};
ghost use Rattle.zo_cert_tree.specs.Searched as searched;
ghost use Rattle.zo_solve_dive.specs.inner.Keeping.{AreEntries, IsSpread, IsTranspose, along, moved, settled};

use crate::reach::{ones_total, reach, reach_part};
use std::alloc::{AllocError, Global};
use zo_model::ZeroOne;

/// An unfixed column counted as 0.
pub fn settled(place: Option<bool>) -> Option<bool>
    ensures { result ≡ settled place }
{
    match place {
        Some(v) => Some(v),
        None => Some(false),
    }
}

/// By how much a row's sum changes where a column of this coefficient goes from one place to another.
fn moved(old: Option<bool>, new: Option<bool>, a: i32) -> i128
    requires { AtMost (2 ^ 15) a }
    ensures { result ≡ moved old new a }
{
    i128::from(reach_part(new, a)) - i128::from(reach_part(old, a))
}

/// Moves the sums of a column's rows where it goes from one place to another.
pub fn move_sums(sums: &mut [i128], entries: &[(u32, i32)], old: Option<bool>, new: Option<bool>)
    requires entries { AreEntries (length sums.old) entries.now }
    requires small { (i : ℕ) → i < length sums.old → AtMost (2 ^ 42) (slice_index_or sums.old i (pos 0)) }
    ensures { (i : ℕ) → i < length sums.old → slice_index_or sums.new i (pos 0) ≡ slice_index_or sums.old i (pos 0) +ℤ along i (moved old new) entries.now }
{
    for (i, a) in entries {
        sums[*i as usize] += moved(old, new, *a);
    }
}

/// So many empty lists.
fn empty_columns(alloc: Global, count: usize) -> Result<Vec<Vec<(u32, i32)>>, AllocError>
    ensures many { IfOk result (λ cs. length cs.items ≡ count) }
    ensures empty { IfOk result (λ cs. All (λ (c : VecOf (ℕ × ℤ)). c.items ≡ []) cs.items) }
{
    let mut columns = Vec::with_capacity(alloc, count)?;
    for _ in 0..count {
        columns.push(Vec::new(alloc))?;
    }
    Ok(columns)
}

/// Puts each term of a row into its column's list.
fn spread(columns: &mut [Vec<(u32, i32)>], row: u32, terms: &[(u32, i32)]) -> Result<(), AllocError>
    requires terms { AreSmallTerms (length columns.old) terms.now }
    ensures { IfOk result (λ _. IsSpread row terms.now columns.old columns.new) }
{
    for (j, a) in terms {
        columns[*j as usize].push((row, *a))?;
    }
    Ok(())
}

/// For each column its rows, each with the coefficient there.
pub fn columns_of(alloc: Global, z: &ZeroOne) -> Result<Vec<Vec<(u32, i32)>>, AllocError>
    requires valid { IsValid z.now }
    ensures { IfOk result (λ cs. IsTranspose z.now cs.items) }
{
    let mut columns = empty_columns(alloc, z.costs.len())?;
    for i in 0..z.rows.len() {
        spread(&mut columns, i as u32, &z.rows[i].terms)?;
    }
    Ok(columns)
}

/// Of each row the most that its sum can still be.
pub fn reaches_of(
    alloc: Global,
    z: &ZeroOne,
    fixed: &[Option<bool>],
) -> Result<Vec<i128>, AllocError>
    requires valid { IsValid z.now }
    requires places { length fixed.now ≡ columns z.now }
    ensures many { IfOk result (λ sums. length sums.items ≡ length z.now.rows.items) }
    ensures each { IfOk result (λ sums. (i : ℕ) → i < length z.now.rows.items → slice_index_or sums.items i (pos 0) ≡ searched.reach fixed.now (terms_of (slice_get z.now.rows.items i))) }
{
    let mut sums = Vec::with_capacity(alloc, z.rows.len())?;
    for i in 0..z.rows.len() {
        sums.push(i128::from(reach(&z.rows[i].terms, fixed)))?;
    }
    Ok(sums)
}

/// Of each row its sum with 0 for all unfixed columns.
pub fn ones_of(alloc: Global, z: &ZeroOne, fixed: &[Option<bool>]) -> Result<Vec<i128>, AllocError>
    requires valid { IsValid z.now }
    requires places { length fixed.now ≡ columns z.now }
    ensures many { IfOk result (λ sums. length sums.items ≡ length z.now.rows.items) }
    ensures each { IfOk result (λ sums. (i : ℕ) → i < length z.now.rows.items → slice_index_or sums.items i (pos 0) ≡ terms_sum (terms_of (slice_get z.now.rows.items i)) (ones fixed.now)) }
{
    let mut sums = Vec::with_capacity(alloc, z.rows.len())?;
    for i in 0..z.rows.len() {
        sums.push(i128::from(ones_total(&z.rows[i].terms, fixed)))?;
    }
    Ok(sums)
}
