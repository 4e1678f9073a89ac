//! From the text of a program to its code.
ghost use Rattle.std.specs.Prelude.{◌≡◌, ◌≤◌, ◌⊎◌, [], length, IfOk, IfErr, MatchResult};
ghost use Rattle.nv_text.specs.Limits.{source_limit};
ghost use Rattle.nv_ast.specs.Tree.{ProgramTree};
ghost use Rattle.nv_ast.specs.TypedView.{typed_program};
ghost use Rattle.ssu_ir.specs.Measures.{peak};
ghost use Rattle.ssu_ir.specs.View.{labels_view};
ghost use Rattle.uc_isa.specs.Moves.{moves};
ghost use Rattle.zo_model.specs.Program.{vector};
ghost use Rattle.nova_back.specs.Causes.{IsCodeOf, AreStartsOf, IsReportOn, HasVector, IsCheapFor, report_cost};
ghost use Rattle.nova_back.specs.Placed.{IsPlacedBy};
ghost use Rattle.nova_compile.specs.Sources.{IsTypedSource};
ghost use Rattle.nova_compile.specs.Building.{IsCompileCause, IsFormCause, IsTextCause};
ghost use Rattle.nova_compile.specs.Forms.{form_bound, IsCodeFor, IsBoundedFormOf, HasBanks};

use crate::{FrontError, front};
use nova_back::{BackError, Built, back_within};
use nova_middle::middle;
use nv_ast::{Span, Typed};
use nv_base::NoMemory;
use nv_text::TextError;
use place_weights::Weights;
use std::alloc::Global;
use zo_cert::Report;

/// A typed program; its form in single use, code that does what it says, and the report on its banks.
#[derive(Drop)]
pub struct Compiled {
    pub typed: Typed,
    pub built: Built,
}

/// Why a text has no code.
#[derive(Drop)]
pub enum CompileError {
    NoMemory,
    /// The text has no program.
    Text(TextError),
    /// The kind of the first fault of the program's types, from 1 to 24, and where it lies.
    Fault(u8, Span),
    /// The expanded size of the program, which is over 4,096; or the number of columns of the 0-1 program of its banks, or
    /// else that of its rows, which is over 2^26.
    TooLarge(u64),
    /// No choice of banks meets the rows: the report proves it.
    Infeasible(Report),
    /// The budget of branches was spent before a choice of banks was found: the report has the tree that was searched.
    Spent(Report),
    /// The number of instructions of the program's code, which is over what was allowed.
    StoreFull(u32),
}

impl From<NoMemory> for CompileError {
    ghost use Rattle.nova_compile.specs.declared.build.CompileError.TheVariants.{NoMemory as WantOfMemory};

    ghost from_gives = { λ _ e. e ≡ WantOfMemory };

    fn from(_error: NoMemory) -> CompileError {
        CompileError::NoMemory
    }
}

impl From<FrontError> for CompileError {
    ghost use Rattle.nova_compile.specs.inner.Passing.{IsPassedAs};

    ghost from_gives = { IsPassedAs };

    fn from(error: FrontError) -> CompileError {
        match error {
            FrontError::NoMemory => CompileError::NoMemory,
            FrontError::Text(fault) => CompileError::Text(fault),
            FrontError::Fault(kind, span) => CompileError::Fault(kind, span),
            FrontError::TooLarge(size) => CompileError::TooLarge(u64::from(size)),
        }
    }
}

impl From<BackError> for CompileError {
    ghost use Rattle.nova_compile.specs.inner.Passing.{IsHandedAs};

    ghost from_gives = { IsHandedAs };

    fn from(error: BackError) -> CompileError {
        match error {
            BackError::NoMemory => CompileError::NoMemory,
            BackError::TooLarge(count) => CompileError::TooLarge(count),
            BackError::Infeasible(report) => CompileError::Infeasible(report),
            BackError::Spent(report) => CompileError::Spent(report),
            BackError::StoreFull(length) => CompileError::StoreFull(length),
        }
    }
}

/// Where there are no weights, each label weighs 1.
pub fn no_weights(alloc: Global) -> Weights
    ensures { result ≡ [] }
{
    Weights::new(Vec::new(alloc))
}

/// Compiles a text of at most 262,144 bytes to code of at most `store` instructions, with each value in the banks that the
/// 0-1 program of its form and of at most 128 spill slots chooses, where the form's labels have these weights, in a search of
/// 1 to 1,000,000 branches.
///
/// # Errors
///
/// A fault of the text is answered first, then the first fault of the program's types and its expanded size; then the
/// size of the 0-1 program, whether the search found banks, and the length of the code.
pub fn compile_text(
    alloc: Global,
    bytes: &[u8],
    slots: u32,
    budget: u32,
    store: u32,
    w: &Weights,
) -> Result<Compiled, CompileError>
    requires text { length bytes.now ≤ source_limit }
    requires slots { slots ≤ 128 }
    requires some { 1 ≤ budget }
    requires budget { budget ≤ 1000000 }
    ensures program { IfOk result (λ t. IsTypedSource bytes.now (typed_program t.typed)) }
    ensures form { IfOk result (λ t. IsBoundedFormOf (typed_program t.typed) (labels_view t.built.ssu)) }
    ensures code { IfOk result (λ t. IsCodeFor (typed_program t.typed) t.built.code) }
    ensures form_code { IfOk result (λ t. IsCodeOf (labels_view t.built.ssu) slots t.built.code) }
    ensures short { IfOk result (λ t. length t.built.code.list ≤ store) }
    ensures brief { IfOk result (λ t. length t.built.code.list ≤ form_bound (typed_program t.typed)) }
    ensures starts { IfOk result (λ t. AreStartsOf (labels_view t.built.ssu) t.built.code t.built.starts.items) }
    ensures report { IfOk result (λ t. IsReportOn (labels_view t.built.ssu) slots w.now budget t.built.report) }
    ensures found { IfOk result (λ t. HasVector t.built.report.verdict) }
    // The code is what the form emits where its values stand as the report's vector has them, without some instructions.
    ensures placed { IfOk result (λ t. IsPlacedBy (labels_view t.built.ssu) slots (vector t.built.report.x.on.items) t.built.code.list) }
    // Under the weights the code's moves cost at most what the report's vector does.
    ensures light { IfOk result (λ t. moves t.built.code.list t.built.starts.items w.now ≤ report_cost t.built.report) }
    // Where all live values at once fit a bank, at most two copies a value and one a use, each times the greatest weight.
    ensures cheap { IfOk result (λ t. peak (labels_view t.built.ssu) ≤ 15 → IsCheapFor (labels_view t.built.ssu) w.now (report_cost t.built.report)) }
    ensures banks { IfOk result (λ t. HasBanks (typed_program t.typed) slots w.now budget t.built.code t.built.starts.items t.built.report) }
    ensures only_program { (p : ProgramTree) → IsTypedSource bytes.now p → MatchResult result (λ t. typed_program t.typed ≡ p) (λ e. (e ≡ CompileError.NoMemory) ⊎ IsFormCause p slots w.now budget store e) }
    ensures refused { IfErr result (λ e. (e ≡ CompileError.NoMemory) ⊎ IsCompileCause bytes.now slots w.now budget store e) }
    ensures only_refused { (f : CompileError) → IsTextCause bytes.now f → MatchResult result (λ _. ⊥) (λ e. (e ≡ CompileError.NoMemory) ⊎ (e ≡ f)) }
{
    compile_text_within(alloc, bytes, slots, budget, u64::MAX, store, w)
}

/// The same by a search that visits at most about `work` columns, rows and terms of the program beside its branches.
pub fn compile_text_within(
    alloc: Global,
    bytes: &[u8],
    slots: u32,
    budget: u32,
    work: u64,
    store: u32,
    w: &Weights,
) -> Result<Compiled, CompileError>
    requires text { length bytes.now ≤ source_limit }
    requires slots { slots ≤ 128 }
    requires some { 1 ≤ budget }
    requires budget { budget ≤ 1000000 }
    ensures program { IfOk result (λ t. IsTypedSource bytes.now (typed_program t.typed)) }
    ensures form { IfOk result (λ t. IsBoundedFormOf (typed_program t.typed) (labels_view t.built.ssu)) }
    ensures code { IfOk result (λ t. IsCodeFor (typed_program t.typed) t.built.code) }
    ensures form_code { IfOk result (λ t. IsCodeOf (labels_view t.built.ssu) slots t.built.code) }
    ensures short { IfOk result (λ t. length t.built.code.list ≤ store) }
    ensures brief { IfOk result (λ t. length t.built.code.list ≤ form_bound (typed_program t.typed)) }
    ensures starts { IfOk result (λ t. AreStartsOf (labels_view t.built.ssu) t.built.code t.built.starts.items) }
    ensures report { IfOk result (λ t. IsReportOn (labels_view t.built.ssu) slots w.now budget t.built.report) }
    ensures found { IfOk result (λ t. HasVector t.built.report.verdict) }
    // The code is what the form emits where its values stand as the report's vector has them, without some instructions.
    ensures placed { IfOk result (λ t. IsPlacedBy (labels_view t.built.ssu) slots (vector t.built.report.x.on.items) t.built.code.list) }
    // Under the weights the code's moves cost at most what the report's vector does.
    ensures light { IfOk result (λ t. moves t.built.code.list t.built.starts.items w.now ≤ report_cost t.built.report) }
    // Where all live values at once fit a bank, at most two copies a value and one a use, each times the greatest weight.
    ensures cheap { IfOk result (λ t. peak (labels_view t.built.ssu) ≤ 15 → IsCheapFor (labels_view t.built.ssu) w.now (report_cost t.built.report)) }
    ensures banks { IfOk result (λ t. HasBanks (typed_program t.typed) slots w.now budget t.built.code t.built.starts.items t.built.report) }
    ensures only_program { (p : ProgramTree) → IsTypedSource bytes.now p → MatchResult result (λ t. typed_program t.typed ≡ p) (λ e. (e ≡ CompileError.NoMemory) ⊎ IsFormCause p slots w.now budget store e) }
    ensures refused { IfErr result (λ e. (e ≡ CompileError.NoMemory) ⊎ IsCompileCause bytes.now slots w.now budget store e) }
    ensures only_refused { (f : CompileError) → IsTextCause bytes.now f → MatchResult result (λ _. ⊥) (λ e. (e ≡ CompileError.NoMemory) ⊎ (e ≡ f)) }
{
    let (typed, flat) = front(alloc, bytes)?;
    let form = middle(alloc, &flat)?;
    let built = back_within(alloc, form, slots, budget, work, store, w)?;
    Ok(Compiled { typed, built })
}
