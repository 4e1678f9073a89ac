//! The cheapest choice of banks that is found for a form.

ghost use Rattle.std.specs.Prelude.{◌≡◌, ◌≤◌, ◌^◌, ◌⊎◌, ℕ, true, length, IfOk, IfErr, MatchResult};
ghost use Rattle.ssu_ir.specs.Single.{single};
ghost use Rattle.ssu_ir.specs.View.{labels_view};
ghost use Rattle.bank_prog_form.specs.Program.{rows, IsTooLarge};
ghost use Rattle.nova_back.specs.Causes.{HasVector};
ghost use Rattle.nova_back.specs.inner.Search.{IsChosen, IsSearchOn, IsTold, IsUnbuilt, IsUnfound};

use crate::error::BackError;
use crate::search::searched;
use crate::start::start_of;
use bank_prog::{BankTables, by_next_use, program_of};
use place_weights::Weights;
use std::alloc::Global;
use zo_cert::{Report, Verdict};

/// The report of a search on a form under these weights.
fn report_on(
    alloc: Global,
    bank: &BankTables<'_>,
    slots: u32,
    budget: u32,
    work: u64,
    w: &Weights,
) -> Result<Report, BackError>
    requires single { single (labels_view bank.now.form.ssu.now) ≡ true }
    requires slots { slots ≤ 128 }
    requires some { 1 ≤ budget }
    requires budget { budget ≤ 1000000 }
    ensures report { IfOk result (IsSearchOn (labels_view bank.now.form.ssu.now) slots w.now budget) }
    ensures few_rows { IfOk result (λ _. length (rows (labels_view bank.now.form.ssu.now) slots) ≤ 2 ^ 26) }
    ensures refused { IfErr result (IsUnbuilt (labels_view bank.now.form.ssu.now) slots) }
{
    let z = program_of(alloc, bank, slots, w)?;
    let start = start_of(alloc, bank, slots)?;
    let guess = by_next_use(alloc, bank)?;
    match searched(alloc, z, start, guess, slots, budget, work) {
        Ok(report) => Ok(report),
        Err(zo_model::NoMemory) => Err(BackError::NoMemory),
    }
}

/// The report, where it has a vector.
fn with_vector(report: Report) -> Result<Report, BackError>
    ensures same { IfOk result (λ r. r ≡ report) }
    ensures found { IfOk result (λ r. HasVector r.verdict) }
    ensures told { IfErr result (IsTold report) }
{
    match report.verdict {
        Verdict::Optimal | Verdict::Feasible => Ok(report),
        Verdict::Infeasible => Err(BackError::Infeasible(report)),
        Verdict::Spent => Err(BackError::Spent(report)),
    }
}

/// The report on the banks of a form under these weights, by its tables, where it has a vector.
///
/// # Errors
///
/// The size of the program is looked at first, then whether the search found a choice.
pub fn choice_of(
    alloc: Global,
    bank: &BankTables<'_>,
    slots: u32,
    budget: u32,
    work: u64,
    w: &Weights,
) -> Result<Report, BackError>
    requires single { single (labels_view bank.now.form.ssu.now) ≡ true }
    requires slots { slots ≤ 128 }
    requires some { 1 ≤ budget }
    requires budget { budget ≤ 1000000 }
    ensures chosen { IfOk result (IsChosen (labels_view bank.now.form.ssu.now) slots w.now budget) }
    ensures few_rows { IfOk result (λ _. length (rows (labels_view bank.now.form.ssu.now) slots) ≤ 2 ^ 26) }
    ensures refused { IfErr result (IsUnfound (labels_view bank.now.form.ssu.now) slots w.now budget) }
    ensures only_large { (n : ℕ) → IsTooLarge (labels_view bank.now.form.ssu.now) slots n → MatchResult result (λ _. ⊥) (λ e. (e ≡ BackError.NoMemory) ⊎ (e ≡ BackError.TooLarge n)) }
{
    let report = report_on(alloc, bank, slots, budget, work, w)?;
    with_vector(report)
}
