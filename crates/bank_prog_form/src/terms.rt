//! The terms of a row by the numbers of its columns.

ghost use Rattle.std.specs.Prelude.{◌≡◌, ◌≢◌, ◌≤◌, ◌<◌, ℕ, true, false, Some, length, slice_index_or, ℤ, pos, ◌+ℤ◌, OnOk};
ghost use Rattle.std.proofs.Common.{SFits, w32};
ghost use Rattle.std.specs.HashMap.{get};
ghost use Rattle.bank_prog_form.specs.Program as program;
ghost use Rattle.bank_prog_form.specs.Program.{same_column, add_named};
ghost use Rattle.bank_prog_form.specs.inner.Adds as adds;
ghost use Rattle.bank_prog_form.specs.inner.Adds.{Rising};

use crate::column::Column;
use crate::numbers::{Numbers, number};
use nv_base::NoMemory;

/// Where the terms begin whose columns aren't below j.
fn place(terms: &[(u32, i32)], j: u32) -> usize
    requires { Rising 0 terms.now }
    ensures within { result ≤ length terms.now }
    ensures below { (i : ℕ) → i < result → (slice_index_or terms.now i (0, pos 0)).0 < j }
    ensures above { (i : ℕ) → result ≤ i → i < length terms.now → j ≤ (slice_index_or terms.now i (0, pos 0)).0 }
{
    let mut i = terms.len();
    while i > 0 && terms[i - 1].0 >= j {
        i -= 1;
    }
    i
}

/// Whether a term of column j stands there.
fn stands_at(terms: &[(u32, i32)], i: usize, j: u32) -> bool
    ensures there { result ≡ true → (i < length terms.now) × ((slice_index_or terms.now i (0, pos 0)).0 ≡ j) }
    ensures other { result ≡ false → i < length terms.now → (slice_index_or terms.now i (0, pos 0)).0 ≢ j }
{
    i < terms.len() && terms[i].0 == j
}

/// The sum, where it fits.
fn sum(a: i32, b: i32) -> Option<i32>
    ensures { (z : ℤ) → result ≡ Some z → (SFits w32 z) × (z ≡ a +ℤ b) }
{
    a.checked_add(b)
}

/// One term more; the terms of one column are added up.
fn add_term(terms: &mut Vec<(u32, i32)>, j: u32, a: i32) -> Result<(), NoMemory>
    requires { Rising 0 terms.old.items }
    ensures { OnOk result (terms.new.items ≡ program.add_term j a terms.old.items) }
{
    let i = place(terms, j);
    if stands_at(terms, i, j) {
        match sum(a, terms[i].1) {
            Some(b) => terms[i] = (j, b),
            None => return Err(NoMemory),
        }
    } else {
        terms.insert(i, (j, a))?;
    }
    Ok(())
}

/// A column with its coefficient, where it is there.
fn add_named(
    terms: &mut Vec<(u32, i32)>,
    numbers: &Numbers,
    c: Column,
    a: i32,
) -> Result<(), NoMemory>
    requires { Rising 0 terms.old.items }
    ensures { OnOk result (terms.new.items ≡ program.add_named (get same_column numbers.now c) a terms.old.items) }
{
    match number(numbers, c) {
        Some(j) => add_term(terms, j, a),
        None => Ok(()),
    }
}

/// These columns, each with the same coefficient.
pub fn add_each(
    terms: &mut Vec<(u32, i32)>,
    numbers: &Numbers,
    cs: &[Column],
    a: i32,
) -> Result<(), NoMemory>
    requires { Rising 0 terms.old.items }
    ensures terms { OnOk result (terms.new.items ≡ adds.add_each (get same_column numbers.now) a cs.now terms.old.items) }
    ensures rising { OnOk result (Rising 0 terms.new.items) }
{
    for c in cs {
        add_named(terms, numbers, *c, a)?;
    }
    Ok(())
}
