//! The command `compile`.
ghost use Rattle.std.specs.Prelude.{◌≡◌, ◌⊎◌, ◌≤◌, ◌<◌, ◌∷◌, [], ℕ, List, length, IfOk, IfErr};
ghost use Rattle.zo_cert.specs.Contents.{report_contents};
ghost use Rattle.zo_cert.specs.Report.{IsValidReport};
ghost use Rattle.zo_cert.specs.ReportText.{report_text};
ghost use Rattle.novac_commands.specs.Checking.{IsReportOf};
ghost use Rattle.nova_back.specs.Causes.{report_cost};
ghost use Rattle.novac_commands.specs.Compiling.{CompileMakes, CompileRefuses, WeighedMakes, WeighedRefuses};
ghost use Rattle.novac_commands.specs.Weighing.{IsWeighedBy, TextsRefuse};
ghost use Rattle.novac_words.specs.Limits.{source_limit};
ghost use Rattle.novac_words.specs.Lines.{IsUncaused, compiled_text};
ghost use Rattle.novac_words.specs.declared.status.Status.{Status};
ghost use Rattle.zo_cert.specs.declared.report.Verdict.{Verdict};
ghost use Rattle.novac_machine.specs.Saving.{file};
ghost use Rattle.novac_machine.specs.inner.Files.{file_of, files_of, AreTold, IsTold};
ghost use Rattle.nova_compile.specs.inner.Parts.{HasParts, IsBuilt, IsWithoutBanks};
ghost use Rattle.novac_commands.specs.inner.CompileOutcome.{IsCompileOutcome, IsSavable, IsSortedAs};
ghost use Rattle.novac_words.specs.inner.Words.{AreInLimits};

use crate::source::{source_of, text_refusal};
use nova_back::Built;
use nova_compile::{CompileError, Compiled, compile_text, no_weights, object_of};
use novac_machine::{Made, Output, Outputs};
use novac_words::{Options, Refusal, Status, compiled_line, counted_line, line};
use nv_base::NoMemory;
use place_weights::{Weights, WeightsError, read_weights};
use std::alloc::Global;
use zo_cert::{Report, print_report};
use zo_model::cost;

/// What the compilation of a source that isn't refused comes to.
#[derive(Drop)]
pub enum CompileOutcome {
    Code(Compiled),
    /// No choice of banks meets the rows.
    Infeasible(Report),
    /// No choice of banks was found within the budget.
    Spent(Report),
}

/// Compiles a source, whose object and report are saved under two names; where no banks were found, the report alone. Each label
/// weighs 1.
pub fn compile_bytes<'a>(
    alloc: Global,
    bytes: &[u8],
    object: &'a str,
    report: &'a str,
    options: Options,
) -> Result<Made<'a>, Refusal<'a>>
    requires text { length bytes.now ≤ source_limit }
    requires options { AreInLimits options }
    ensures made { IfOk result (λ m. WeighedMakes bytes.now [] object.now report.now options.slots options.budget options.store m.status (files_of m.outputs) m.text.items) }
    ensures told { IfOk result (λ m. AreTold m.outputs) }
    ensures refused { IfErr result (λ e. IsUncaused e ⊎ WeighedRefuses bytes.now [] options.slots options.budget options.store e) }
{
    let ones = no_weights(alloc);
    compile_under(alloc, bytes, object, report, options, &ones)
}

/// The same where the labels of the source's form have the weights of a text. A fault of the source is told before one of the text.
pub fn compile_weighed<'a>(
    alloc: Global,
    bytes: &[u8],
    weights: &[u8],
    object: &'a str,
    report: &'a str,
    options: Options,
) -> Result<Made<'a>, Refusal<'a>>
    requires text { length bytes.now ≤ source_limit }
    requires options { AreInLimits options }
    ensures made { IfOk result (λ m. WeighedMakes bytes.now (weights.now ∷ []) object.now report.now options.slots options.budget options.store m.status (files_of m.outputs) m.text.items) }
    ensures told { IfOk result (λ m. AreTold m.outputs) }
    ensures refused { IfErr result (λ e. IsUncaused e ⊎ WeighedRefuses bytes.now (weights.now ∷ []) options.slots options.budget options.store e) }
{
    let w = weights_of(alloc, bytes, weights)?;
    compile_under(alloc, bytes, object, report, options, &w)
}

// The weights of a text, which goes with this source.
fn weights_of<'a>(alloc: Global, bytes: &[u8], weights: &[u8]) -> Result<Weights, Refusal<'a>>
    requires { length bytes.now ≤ source_limit }
    ensures weighed { IfOk result (IsWeighedBy weights.now) }
    ensures refused { IfErr result (λ e. IsUncaused e ⊎ TextsRefuse bytes.now (weights.now ∷ []) e) }
{
    match read_weights(alloc, weights) {
        Ok(w) => Ok(w),
        Err(WeightsError::NoMemory) => Err(Refusal::NoMemory),
        Err(WeightsError::Bad(n)) => {
            // The source's own faults come first.
            let _program = source_of(alloc, bytes)?;
            Err(Refusal::BadWeights(n))
        }
    }
}

// Compiles a source under these weights.
fn compile_under<'a>(
    alloc: Global,
    bytes: &[u8],
    object: &'a str,
    report: &'a str,
    options: Options,
    w: &Weights,
) -> Result<Made<'a>, Refusal<'a>>
    requires text { length bytes.now ≤ source_limit }
    requires options { AreInLimits options }
    ensures made { IfOk result (λ m. CompileMakes bytes.now object.now report.now options.slots w.now options.budget options.store m.status (files_of m.outputs) m.text.items) }
    ensures told { IfOk result (λ m. AreTold m.outputs) }
    ensures refused { IfErr result (λ e. IsUncaused e ⊎ CompileRefuses bytes.now options.slots w.now options.budget options.store e) }
{
    let found = outcome_of_report(alloc, bytes, options, w)?;
    Ok(outcome_made(alloc, bytes, found, object, report, options.budget)?)
}

// What is saved and told of a source that isn't refused.
fn outcome_made<'a>(
    alloc: Global,
    text: &[u8],
    found: CompileOutcome,
    object: &'a str,
    report: &'a str,
    budget: u32,
) -> Result<Made<'a>, NoMemory>
    requires text { length text.now ≤ source_limit }
    requires found { IsSavable found }
    ensures made { (slots : ℕ) (ws : List ℕ) (store : ℕ) → IsCompileOutcome text.now slots ws budget store found → IfOk result (λ m. CompileMakes text.now object.now report.now slots ws budget store m.status (files_of m.outputs) m.text.items) }
    ensures told { IfOk result (λ m. AreTold m.outputs) }
{
    match found {
        CompileOutcome::Code(compiled) => code_made(alloc, text, compiled, object, report),
        CompileOutcome::Infeasible(without) => {
            let made = infeasible_made(alloc, report, &without);
            // By a call, and not at each way out, where the proof would follow each field.
            drop(without);
            made
        }
        CompileOutcome::Spent(without) => {
            let made = spent_made(alloc, report, &without, budget);
            drop(without);
            made
        }
    }
}

// The report that says that no choice of banks meets the rows, which is to be saved.
fn infeasible_made<'a>(alloc: Global, name: &'a str, without: &Report) -> Result<Made<'a>, NoMemory>
    requires { IsValidReport without.now }
    ensures made { (text object_name : List ℕ) (slots : ℕ) (ws : List ℕ) (budget store : ℕ) → IsWithoutBanks text slots ws budget Verdict.Infeasible without.now → IfOk result (λ m. CompileMakes text object_name name.now slots ws budget store m.status (files_of m.outputs) m.text.items) }
    ensures told { IfOk result (λ m. AreTold m.outputs) }
{
    let text = line(alloc, b"infeasible")?;
    report_made(alloc, Status::Infeasible, text, name, without)
}

// The report of a search that spent its budget, which is to be saved.
fn spent_made<'a>(
    alloc: Global,
    name: &'a str,
    without: &Report,
    budget: u32,
) -> Result<Made<'a>, NoMemory>
    requires { IsValidReport without.now }
    ensures made { (text object_name : List ℕ) (slots : ℕ) (ws : List ℕ) (store : ℕ) → IsWithoutBanks text slots ws budget Verdict.Spent without.now → IfOk result (λ m. CompileMakes text object_name name.now slots ws budget store m.status (files_of m.outputs) m.text.items) }
    ensures told { IfOk result (λ m. AreTold m.outputs) }
{
    let text = counted_line(alloc, b"budget ", u64::from(budget))?;
    report_made(alloc, Status::BudgetSpent, text, name, without)
}

/// The code of a source and the report on its banks, or the report alone, where each label weighs 1.
pub fn outcome_evenly<'a>(
    alloc: Global,
    text: &[u8],
    options: Options,
) -> Result<CompileOutcome, Refusal<'a>>
    requires text { length text.now ≤ source_limit }
    requires options { AreInLimits options }
    ensures found { IfOk result (IsCompileOutcome text.now options.slots [] options.budget options.store) }
    ensures refused { IfErr result (λ e. IsUncaused e ⊎ CompileRefuses text.now options.slots [] options.budget options.store e) }
{
    let ones = no_weights(alloc);
    outcome_of_report(alloc, text, options, &ones)
}

/// The code of a source and the report on its banks, or the report alone, where the labels of its form have these weights.
pub fn outcome_of_report<'a>(
    alloc: Global,
    text: &[u8],
    options: Options,
    w: &Weights,
) -> Result<CompileOutcome, Refusal<'a>>
    requires text { length text.now ≤ source_limit }
    requires options { AreInLimits options }
    ensures found { IfOk result (IsCompileOutcome text.now options.slots w.now options.budget options.store) }
    ensures refused { IfErr result (λ e. IsUncaused e ⊎ CompileRefuses text.now options.slots w.now options.budget options.store e) }
{
    match compile_text(alloc, text, options.slots, options.budget, options.store, w) {
        Ok(compiled) => Ok(CompileOutcome::Code(compiled)),
        Err(error) => sorted(error),
    }
}

// Whether it is refused, or has a report.
fn sorted<'a>(error: CompileError) -> Result<CompileOutcome, Refusal<'a>>
    ensures { IsSortedAs error result }
{
    match error {
        CompileError::Infeasible(report) => Ok(CompileOutcome::Infeasible(report)),
        CompileError::Spent(report) => Ok(CompileOutcome::Spent(report)),
        CompileError::NoMemory => Err(Refusal::NoMemory),
        CompileError::Text(fault) => Err(text_refusal(fault)),
        CompileError::Fault(kind, span) => Err(Refusal::SourceType(kind, span)),
        CompileError::TooLarge(size) => Err(Refusal::SourceLarge(size)),
        CompileError::StoreFull(length) => Err(Refusal::StoreFull(length)),
    }
}

// An object and a report that are to be saved, and told.
fn code_made<'a>(
    alloc: Global,
    text: &[u8],
    t: Compiled,
    object: &'a str,
    report: &'a str,
) -> Result<Made<'a>, NoMemory>
    requires text { length text.now ≤ source_limit }
    requires parts { HasParts t }
    ensures made { (slots : ℕ) (ws : List ℕ) (budget store : ℕ) → IsBuilt text.now slots ws budget store t → IfOk result (λ m. CompileMakes text.now object.now report.now slots ws budget store m.status (files_of m.outputs) m.text.items) }
    ensures told { IfOk result (λ m. AreTold m.outputs) }
{
    let Compiled { typed, built } = t;
    let Built {
        ssu,
        report: found,
        code,
        starts,
    } = built;
    let instructions = code.list().len() as u64;
    let bytes = object_of(alloc, text, typed.program(), code, starts)?;
    drop(typed);
    drop(ssu);
    let made = both_made(alloc, bytes, instructions, &found, object, report);
    drop(found);
    made
}

// The bytes of an object and a report, with the line that tells the object's length and the report's verdict.
fn both_made<'a>(
    alloc: Global,
    bytes: Vec<u8>,
    instructions: u64,
    found: &Report,
    object: &'a str,
    report: &'a str,
) -> Result<Made<'a>, NoMemory>
    requires { IsValidReport found.now }
    ensures status { IfOk result (λ m. m.status ≡ Status.Done) }
    ensures saves { IfOk result (λ m. files_of m.outputs ≡ file object.now bytes.items ∷ file report.now (report_text (report_contents found.now)) ∷ []) }
    ensures text { IfOk result (λ m. m.text.items ≡ compiled_text instructions found.now.verdict (report_cost found.now)) }
    ensures told { IfOk result (λ m. AreTold m.outputs) }
    ensures report { IfOk result (λ _. IsReportOf (report_text (report_contents found.now)) found.now) }
{
    let first = Output::new(alloc, object, bytes)?;
    let second = report_output(alloc, report, found)?;
    let text = compiled_line(alloc, instructions, found.verdict, cost(&found.z, &found.x))?;
    Ok(Made {
        status: Status::Done,
        text,
        outputs: Outputs::Two(first, second),
    })
}

// A report that is to be saved alone, with the status and the line that say why.
fn report_made<'a>(
    alloc: Global,
    status: Status,
    text: Vec<u8>,
    name: &'a str,
    report: &Report,
) -> Result<Made<'a>, NoMemory>
    requires { IsValidReport report.now }
    ensures status { IfOk result (λ m. m.status ≡ status) }
    ensures text { IfOk result (λ m. m.text.items ≡ text.items) }
    ensures saves { IfOk result (λ m. files_of m.outputs ≡ file name.now (report_text (report_contents report.now)) ∷ []) }
    ensures told { IfOk result (λ m. AreTold m.outputs) }
    ensures report { IsReportOf (report_text (report_contents report.now)) report.now }
{
    let output = report_output(alloc, name, report)?;
    Ok(Made {
        status,
        text,
        outputs: Outputs::One(output),
    })
}

// The text of a report, as a file that is to be saved.
fn report_output<'a>(alloc: Global, name: &'a str, report: &Report) -> Result<Output<'a>, NoMemory>
    requires { IsValidReport report.now }
    ensures file { IfOk result (λ o. file_of o ≡ file name.now (report_text (report_contents report.now))) }
    ensures told { IfOk result IsTold }
    ensures report { IsReportOf (report_text (report_contents report.now)) report.now }
{
    match print_report(alloc, report) {
        Ok(bytes) => Output::new(alloc, name, bytes),
        Err(_) => Err(NoMemory),
    }
}
