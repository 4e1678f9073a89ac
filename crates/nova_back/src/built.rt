//! Code whose banks are chosen by the 0-1 program.

ghost use Rattle.std.specs.Prelude.{◌≡◌, ◌≤◌, ◌^◌, ◌⊎◌, ℕ, List, true, length, IfOk, IfErr, MatchResult};
ghost use Rattle.ssu_ir.specs.Measures.{code_bound, peak};
ghost use Rattle.ssu_ir.specs.Single.{single};
ghost use Rattle.ssu_ir.specs.View.{labels_view};
ghost use Rattle.zo_model.specs.Program.{costs_of, vector};
ghost use Rattle.bank_prog_form.specs.Columns.{columns};
ghost use Rattle.bank_prog.specs.Weighted.{weighted_costs};
ghost use Rattle.bank_prog_form.specs.Program.{rows, IsTooLarge};
ghost use Rattle.uc_isa.specs.Moves.{moves};
ghost use Rattle.nova_back.specs.Causes.{IsCodeOf, AreStartsOf, IsReportOn, HasVector, IsCheapFor, IsCause, report_cost};
ghost use Rattle.nova_back.specs.Placed.{IsPlacedBy};
ghost use Rattle.nova_back.specs.inner.Search.{IsChoice};

use crate::choice::choice_of;
use crate::error::BackError;
use bank_prog::{BankTables, bank_tables_of};
use nv_base::NoMemory;
use place_weights::Weights;
use reg_assign::assign_by;
use ssu_ir::Ssu;
use std::alloc::Global;
use uc_isa::Code;
use uc_peep::without_needless;
use uc_peep_facts::{with_sources, with_turned_branches, without_repeats};
use ucode_emit::{Emitted, emit};
use zo_cert::Report;
use zo_model::Assignment;

/// A form in single use, the report on its banks, its code, and where its labels start in that.
#[derive(Drop)]
pub struct Built {
    pub ssu: Ssu,
    /// What the search found, with the program of the banks and the certificate.
    pub report: Report,
    pub code: Code,
    pub starts: Vec<u32>,
}

/// The code of a form whose values stand where a choice of banks has them. It reads words where they came from. Instructions
/// that repeat what stands already, needless ones, and branches over a jump are left out.
fn code_of(
    alloc: Global,
    bank: &BankTables<'_>,
    slots: u32,
    x: &Assignment,
) -> Result<Emitted, NoMemory>
    requires single { single (labels_view bank.now.form.ssu.now) ≡ true }
    requires slots { slots ≤ 128 }
    requires choice { IsChoice (labels_view bank.now.form.ssu.now) slots x.now }
    requires few_rows { length (rows (labels_view bank.now.form.ssu.now) slots) ≤ 2 ^ 26 }
    ensures code { IfOk result (λ e. IsCodeOf (labels_view bank.now.form.ssu.now) slots e.code) }
    ensures starts { IfOk result (λ e. AreStartsOf (labels_view bank.now.form.ssu.now) e.code e.starts.items) }
    ensures placed { IfOk result (λ e. IsPlacedBy (labels_view bank.now.form.ssu.now) slots (vector x.now.on.items) e.code.list) }
    ensures light { IfOk result (λ e. (ws : List ℕ) → moves e.code.list e.starts.items ws ≤ costs_of (weighted_costs (labels_view bank.now.form.ssu.now) ws) (vector x.now.on.items)) }
    ensures short { IfOk result (λ e. length e.code.list ≤ code_bound (labels_view bank.now.form.ssu.now)) }
{
    let placement = assign_by(alloc, bank, slots, x)?;
    let emitted = emit(alloc, bank.form.ssu, &placement)?;
    let read = with_sources(alloc, emitted.code, &emitted.starts)?;
    let first = without_needless(alloc, read, emitted.starts)?;
    let once = without_repeats(alloc, first.code, first.starts)?;
    let turned = with_turned_branches(alloc, once.code, once.starts)?;
    let peeped = without_needless(alloc, turned.code, turned.starts)?;
    Ok(Emitted {
        code: peeped.code,
        starts: peeped.starts,
    })
}

/// The code of a form in single use, of at most `store` instructions, with each value in the banks that the 0-1 program
/// of the form and `slots` spill slots chooses, where its labels have these weights, in a search of at most `budget` branches.
///
/// # Errors
///
/// The size of the program is looked at first, then whether the search found a choice, and last how long the code is.
pub fn back(
    alloc: Global,
    s: Ssu,
    slots: u32,
    budget: u32,
    store: u32,
    w: &Weights,
) -> Result<Built, BackError>
    requires single { single (labels_view s) ≡ true }
    requires slots { slots ≤ 128 }
    requires some { 1 ≤ budget }
    requires budget { budget ≤ 1000000 }
    ensures form { IfOk result (λ b. labels_view b.ssu ≡ labels_view s) }
    ensures code { IfOk result (λ b. IsCodeOf (labels_view s) slots b.code) }
    ensures starts { IfOk result (λ b. AreStartsOf (labels_view s) b.code b.starts.items) }
    ensures short { IfOk result (λ b. length b.code.list ≤ store) }
    ensures brief { IfOk result (λ b. length b.code.list ≤ code_bound (labels_view s)) }
    ensures report { IfOk result (λ b. IsReportOn (labels_view s) slots w.now budget b.report) }
    ensures found { IfOk result (λ b. HasVector b.report.verdict) }
    // The code is what the form emits where its values stand as the report's vector has them, without some instructions.
    ensures placed { IfOk result (λ b. IsPlacedBy (labels_view s) slots (vector b.report.x.on.items) b.code.list) }
    // Under the weights the code's moves cost at most what the report's vector does.
    ensures light { IfOk result (λ b. moves b.code.list b.starts.items w.now ≤ report_cost b.report) }
    // Where all live values at once fit a bank, at most two copies a value and one a use, each times the greatest weight.
    ensures cheap { peak (labels_view s) ≤ 15 → IfOk result (λ b. IsCheapFor (labels_view s) w.now (report_cost b.report)) }
    ensures few { IfOk result (λ _. length (columns (labels_view s)) ≤ 2 ^ 26) }
    ensures few_rows { IfOk result (λ _. length (rows (labels_view s) slots) ≤ 2 ^ 26) }
    ensures refused { IfErr result (λ e. (e ≡ BackError.NoMemory) ⊎ IsCause (labels_view s) slots w.now budget store e) }
    ensures only_large { (n : ℕ) → IsTooLarge (labels_view s) slots n → MatchResult result (λ _. ⊥) (λ e. (e ≡ BackError.NoMemory) ⊎ (e ≡ BackError.TooLarge n)) }
{
    back_within(alloc, s, slots, budget, u64::MAX, store, w)
}

/// The same by a search that visits at most about `work` columns, rows and terms of the program beside its branches. The less, the
/// dearer may the choice be that it comes to.
#[tactic(auto, using(crate::proofs::Reported::light_by))]
pub fn back_within(
    alloc: Global,
    s: Ssu,
    slots: u32,
    budget: u32,
    work: u64,
    store: u32,
    w: &Weights,
) -> Result<Built, BackError>
    requires single { single (labels_view s) ≡ true }
    requires slots { slots ≤ 128 }
    requires some { 1 ≤ budget }
    requires budget { budget ≤ 1000000 }
    ensures form { IfOk result (λ b. labels_view b.ssu ≡ labels_view s) }
    ensures code { IfOk result (λ b. IsCodeOf (labels_view s) slots b.code) }
    ensures starts { IfOk result (λ b. AreStartsOf (labels_view s) b.code b.starts.items) }
    ensures short { IfOk result (λ b. length b.code.list ≤ store) }
    ensures brief { IfOk result (λ b. length b.code.list ≤ code_bound (labels_view s)) }
    ensures report { IfOk result (λ b. IsReportOn (labels_view s) slots w.now budget b.report) }
    ensures found { IfOk result (λ b. HasVector b.report.verdict) }
    // The code is what the form emits where its values stand as the report's vector has them, without some instructions.
    ensures placed { IfOk result (λ b. IsPlacedBy (labels_view s) slots (vector b.report.x.on.items) b.code.list) }
    // Under the weights the code's moves cost at most what the report's vector does.
    ensures light { IfOk result (λ b. moves b.code.list b.starts.items w.now ≤ report_cost b.report) }
    // Where all live values at once fit a bank, at most two copies a value and one a use, each times the greatest weight.
    ensures cheap { peak (labels_view s) ≤ 15 → IfOk result (λ b. IsCheapFor (labels_view s) w.now (report_cost b.report)) }
    ensures few { IfOk result (λ _. length (columns (labels_view s)) ≤ 2 ^ 26) }
    ensures few_rows { IfOk result (λ _. length (rows (labels_view s) slots) ≤ 2 ^ 26) }
    ensures refused { IfErr result (λ e. (e ≡ BackError.NoMemory) ⊎ IsCause (labels_view s) slots w.now budget store e) }
    ensures only_large { (n : ℕ) → IsTooLarge (labels_view s) slots n → MatchResult result (λ _. ⊥) (λ e. (e ≡ BackError.NoMemory) ⊎ (e ≡ BackError.TooLarge n)) }
{
    let bank = bank_tables_of(alloc, &s)?;
    let report = choice_of(alloc, &bank, slots, budget, work, w)?;
    let emitted = code_of(alloc, &bank, slots, &report.x)?;
    let instructions = emitted.code.list().len();
    if instructions > store as usize {
        return Err(BackError::StoreFull(instructions as u32));
    }
    drop(bank);
    Ok(Built {
        ssu: s,
        report,
        code: emitted.code,
        starts: emitted.starts,
    })
}
