//! What all that asks about a form's program of the banks is answered from. A compilation makes these tables once, and
//! lends them to the calls that build the program, begin the search, and read its answer.

ghost use Rattle.std.specs.Prelude.{◌≡◌, ◌≤◌, ◌<◌, ◌^◌, ℕ, true, length, map, Err, IfOk};
ghost use Rattle.std.specs.HashMap.{get};
ghost use Rattle.ssu_ir.specs.Single.{single};
ghost use Rattle.ssu_ir.specs.View.{labels_view};
ghost use Rattle.bank_prog_form.specs.Columns as columns;
ghost use Rattle.bank_prog_form.specs.Program.{same_column, number_of};
ghost use Rattle.bank_prog_form.specs.declared.column.Column as column;
ghost use Rattle.bank_prog.specs.declared.error.BankError.TheVariants.{TooLarge as Exceeds};

use crate::columns::columns_of;
use crate::error::BankError;
use bank_prog_form::column::{Column, Priced};
use bank_prog_form::form::{Form, form_of};
use bank_prog_form::numbers::{COUNT_LIMIT, Numbers, number_columns};
use nv_base::NoMemory;
use ssu_ir::Ssu;
use std::alloc::Global;

/// A form with its tables; the columns of its program in order, each with its cost where all labels weigh 1; and the
/// number of each column.
#[derive(Drop)]
pub struct BankTables<'a> {
    pub form: Form<'a>,
    pub priced: Priced,
    pub numbers: Numbers,
    ghost in_order: { priced.items ≡ columns.priced (labels_view form.ssu.now) },
    ghost few: { length (columns.columns (labels_view form.ssu.now)) ≤ 2 ^ 26 },
    ghost numbered: { (c : column.Column) → get same_column numbers c ≡ number_of (labels_view form.ssu.now) c },
}

/// A form's tables, with those of its columns.
///
/// # Errors
///
/// `TooLarge` tells the number of columns, where it is above 2^26.
pub fn with_columns(alloc: Global, form: Form<'_>) -> Result<BankTables<'_>, BankError>
    ensures form { IfOk result (λ t. t.form.ssu.now ≡ form.entry.ssu.now) }
    ensures many { (n : ℕ) → result ≡ Err (Exceeds n) → (n ≡ length (columns.columns (labels_view form.entry.ssu.now))) × (2 ^ 26 < n) }
{
    let priced = columns_of(alloc, &form)?;
    if priced.len() > COUNT_LIMIT {
        return Err(BankError::TooLarge(priced.len() as u64));
    }
    let numbers = number_columns(alloc, &priced)?;
    Ok(BankTables {
        form,
        priced,
        numbers,
    })
}

/// The tables of a form and of its columns.
///
/// # Errors
///
/// `TooLarge` tells the number of columns, where it is above 2^26.
pub fn bank_tables_of(alloc: Global, s: &Ssu) -> Result<BankTables<'_>, BankError>
    requires { single (labels_view s.now) ≡ true }
    ensures form { IfOk result (λ t. t.form.ssu.now ≡ s.now) }
    ensures many { (n : ℕ) → result ≡ Err (Exceeds n) → (n ≡ length (columns.columns (labels_view s.now))) × (2 ^ 26 < n) }
{
    let form = form_of(alloc, s)?;
    with_columns(alloc, form)
}

/// The names of columns without their costs.
fn names_of(alloc: Global, priced: &[(Column, u32)]) -> Result<Vec<Column>, NoMemory>
    ensures { IfOk result (λ v. v.items ≡ map (λ c. c.0) priced.now) }
{
    Ok(priced.iter().map(|c| c.0).collect(alloc)?)
}

impl BankTables<'_> {
    /// The columns in their order.
    pub fn names(&self, alloc: Global) -> Result<Vec<Column>, NoMemory>
        ensures { IfOk result (λ v. v.items ≡ columns.columns (labels_view self.now.form.ssu.now)) }
    {
        names_of(alloc, &self.priced)
    }
}
