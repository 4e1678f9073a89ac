//! The program of a form.

ghost use Rattle.std.specs.Prelude.{◌≡◌, ◌≤◌, ◌*◌, ◌^◌, ℕ, true, length, Err, IfOk};
ghost use Rattle.ssu_ir.specs.Measures.{size};
ghost use Rattle.ssu_ir.specs.Single.{single};
ghost use Rattle.ssu_ir.specs.View.{labels_view};
ghost use Rattle.zo_model.specs.Contents.{contents};
ghost use Rattle.zo_model.specs.Program.{IsValid};
ghost use Rattle.bank_prog_form.specs.Columns.{columns};
ghost use Rattle.bank_prog_form.specs.Program as program;
ghost use Rattle.bank_prog_form.specs.Program.{IsTooLarge};
ghost use Rattle.bank_prog.specs.Weighted.{weighted_program};
ghost use Rattle.bank_prog.specs.declared.error.BankError.TheVariants.{TooLarge as Exceeds};

use crate::all_rows::rows_of;
use crate::error::BankError;
use crate::tables::{BankTables, bank_tables_of};
use crate::weighing::weighted_costs;
use bank_prog_form::numbers::COUNT_LIMIT;
use place_weights::Weights;
use ssu_ir::Ssu;
use std::alloc::Global;
use zo_model::ZeroOne;

/// The program of the banks by the tables of a form, where N slots may be used and the labels have these weights.
///
/// # Errors
///
/// `TooLarge` tells the number of rows, where it is above 2^26.
pub fn program_of(
    alloc: Global,
    t: &BankTables<'_>,
    slots: u32,
    w: &Weights,
) -> Result<ZeroOne, BankError>
    requires single { single (labels_view t.now.form.ssu.now) ≡ true }
    requires slots { slots ≤ 128 }
    ensures program { IfOk result (λ z. contents z ≡ weighted_program (labels_view t.now.form.ssu.now) slots w.now) }
    ensures valid { IfOk result IsValid }
    ensures rows { IfOk result (λ z. length (program.rows (labels_view t.now.form.ssu.now) slots) ≤ 2 ^ 26) }
    ensures many { (n : ℕ) → result ≡ Err (Exceeds n) → IsTooLarge (labels_view t.now.form.ssu.now) slots n }
{
    let rows = rows_of(alloc, &t.numbers, &t.form, slots, &t.form.live)?;
    if rows.len() > COUNT_LIMIT {
        return Err(BankError::TooLarge(rows.len() as u64));
    }
    let costs = weighted_costs(alloc, &t.form, &t.priced, w)?;
    Ok(ZeroOne { costs, rows })
}

/// The program of the banks, where N slots may be used and the labels have these weights.
///
/// # Errors
///
/// `TooLarge` tells the number of columns, else that of rows, where it is above 2^26.
#[tactic(auto, using(crate::proofs::FewColumns::columns_few, crate::proofs::FewRows::rows_few, crate::proofs::FewRows::large_few))]
pub fn build(alloc: Global, s: &Ssu, slots: u32, w: &Weights) -> Result<ZeroOne, BankError>
    requires single { single (labels_view s.now) ≡ true }
    requires slots { slots ≤ 128 }
    ensures program { IfOk result (λ z. contents z ≡ weighted_program (labels_view s.now) slots w.now) }
    ensures valid { IfOk result IsValid }
    ensures few { IfOk result (λ z. length (columns (labels_view s.now)) ≤ 2 ^ 26) }
    ensures rows { IfOk result (λ z. length (program.rows (labels_view s.now) slots) ≤ 2 ^ 26) }
    ensures many { (n : ℕ) → result ≡ Err (Exceeds n) → IsTooLarge (labels_view s.now) slots n }
    // At most 64 columns, and 64 rows, for each point, value and use of the form.
    ensures columns_by_size { length (columns (labels_view s.now)) ≤ 64 * size (labels_view s.now) }
    ensures rows_by_size { length (program.rows (labels_view s.now) slots) ≤ 64 * size (labels_view s.now) }
    ensures bounded { (n : ℕ) → result ≡ Err (Exceeds n) → n ≤ 64 * size (labels_view s.now) }
{
    let t = bank_tables_of(alloc, s)?;
    program_of(alloc, &t, slots, w)
}
