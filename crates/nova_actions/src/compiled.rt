//! Sources, compiled.
ghost use Rattle.std.specs.Prelude.{◌≤◌, length, IfSome};
ghost use Rattle.nv_ast.specs.TypedView.{typed_program};
ghost use Rattle.nv_text.specs.Limits.{source_limit};
ghost use Rattle.nova_compile.specs.Naming.{source_exceptions};
ghost use Rattle.nova_compile.specs.inner.Parts.{HasParts, HasValidReport};
ghost use Rattle.nova_words.specs.Limits.{AreInLimits, IsBudget};
ghost use Rattle.uc_object.specs.Object.{IsTaggedObject};
ghost use Rattle.zo_cert.specs.Report.{IsValidReport};

use diag_source::Checked;
use diag_text::finding::Code;
use nova_back::Built;
use nova_compile::{CompileError, Compiled, compile_text_within, no_weights, object_of};
use nova_show::{Answer, Ending, Saving, add_saving};
use nova_words::{Build, Warnings};
use nv_base::NoMemory;
use nv_text::MOST_BYTES;
use place_weights::Weights;
use std::alloc::Global;
use zo_cert::{Report, Verdict, print_report};

// How a source is compiled that is only run or listed.
const SLOTS: u32 = 128;

const STORE: u32 = 1_048_576;

// In haste a search makes so many branches, and beside them it visits so many columns, rows and terms.
const HASTY_BUDGET: u32 = 1;

const HASTY_WORK: u64 = 20_000_000;

/// The object of a source, by a search for banks of so many branches, or one in haste; where there is none, the answer says why.
pub fn object_of_source(
    alloc: Global,
    name: &str,
    budget: Option<u32>,
    bytes: &[u8],
    answer: &mut Answer,
) -> Option<Vec<u8>>
    requires { IsBudget budget }
{
    if bytes.len() > MOST_BYTES {
        push_refused(alloc, name, bytes, answer);
        return None;
    }
    let compiled = compile_within(alloc, name, budget, bytes, answer)?;
    object_in(alloc, bytes, compiled, answer)
}

/// The code of a source that is run or looked at, by a search for banks of so many branches, or one in haste. It is told where that
/// doesn't show that the choice is the cheapest.
pub fn compile_within(
    alloc: Global,
    name: &str,
    budget: Option<u32>,
    bytes: &[u8],
    answer: &mut Answer,
) -> Option<Compiled>
    requires budget { IsBudget budget }
    requires text { length bytes.now ≤ source_limit }
    ensures { IfSome result HasParts }
{
    let ones = no_weights(alloc);
    let mut none = Vec::new(alloc);
    let words = words_for(name, budget);
    let work = work_for(budget);
    let compiled = compile(alloc, words, work, bytes, &ones, &mut none, answer)?;
    if compiled.built.report.verdict == Verdict::Feasible {
        push_unproved(name, budget, answer);
    }
    Some(compiled)
}

// That a cheaper choice of banks may be there.
fn push_unproved(name: &str, budget: Option<u32>, answer: &mut Answer) {
    answer.note(
        name,
        match budget {
            Some(_) =>
                "the search for banks made all its branches: a cheaper choice may be there (`--budget N` allows more)",
            None =>
                "compiled in haste: a cheaper choice of banks may be there (`--budget N` searches for it)",
        },
    )
}

// A search of so many branches does all that it can beside them.
fn work_for(budget: Option<u32>) -> u64 {
    match budget {
        Some(_) => u64::MAX,
        None => HASTY_WORK,
    }
}

// The branches that are asked for, or those of a search in haste.
fn branches_for(budget: Option<u32>) -> u32
    requires { IsBudget budget }
    ensures some { 1 ≤ result }
    ensures most { result ≤ 1000000 }
{
    match budget {
        Some(branches) => branches,
        None => HASTY_BUDGET,
    }
}

// The words of `build` with this budget, and with room for code of any length.
fn words_for(name: &str, budget: Option<u32>) -> Build<'_>
    requires { IsBudget budget }
    ensures { AreInLimits result }
{
    Build {
        source: name,
        object: None,
        report: None,
        weights: None,
        slots: SLOTS,
        budget: branches_for(budget),
        store: STORE,
        warnings: Warnings {
            are_denied: false,
            allowed: None,
        },
    }
}

/// The code of a source and the report on its banks, by a search that does so much beside its branches; where there is none, the answer says why, and the report that says so is
/// saved if it is asked for.
pub fn compile(
    alloc: Global,
    words: Build,
    work: u64,
    bytes: &[u8],
    w: &Weights,
    savings: &mut Vec<Saving>,
    answer: &mut Answer,
) -> Option<Compiled>
    requires words { AreInLimits words }
    requires text { length bytes.now ≤ source_limit }
    ensures { IfSome result HasParts }
{
    match compile_text_within(
        alloc,
        bytes,
        words.slots,
        words.budget,
        work,
        words.store,
        w,
    ) {
        Ok(compiled) => Some(compiled),
        Err(error) => {
            push_error(alloc, words, bytes, error, savings, answer);
            None
        }
    }
}

// Says why a source isn't compiled, and saves the report that says so if it is asked for.
fn push_error(
    alloc: Global,
    words: Build,
    bytes: &[u8],
    error: CompileError,
    savings: &mut Vec<Saving>,
    answer: &mut Answer,
)
    requires { HasValidReport error }
{
    match error {
        CompileError::NoMemory => answer.fail(),
        CompileError::Text(_) | CompileError::Fault(_, _) => {
            push_refused(alloc, words.source, bytes, answer)
        }
        CompileError::TooLarge(size) => push_large(alloc, words.source, bytes, size, answer),
        CompileError::StoreFull(length) => push_store(words, length, answer),
        CompileError::Infeasible(report) => {
            push_slots(words, answer);
            save_report(alloc, words, &report, savings, answer);
            drop(report)
        }
        CompileError::Spent(report) => {
            push_budget(words, answer);
            save_report(alloc, words, &report, savings, answer);
            drop(report)
        }
    }
}

/// The object of compiled code, by the call that novac makes.
pub fn object_in(
    alloc: Global,
    bytes: &[u8],
    compiled: Compiled,
    answer: &mut Answer,
) -> Option<Vec<u8>>
    requires text { length bytes.now ≤ source_limit }
    requires parts { HasParts compiled }
    ensures { IfSome result (λ object. IsTaggedObject object.items (record { code = compiled.built.code; exceptions = source_exceptions bytes.now (typed_program compiled.typed); starts = compiled.built.starts.items })) }
{
    let Compiled { typed, built } = compiled;
    let Built {
        ssu,
        report,
        code,
        starts,
    } = built;
    let object = object_of(alloc, bytes, typed.program(), code, starts);
    drop(typed);
    drop(ssu);
    drop(report);
    match object {
        Ok(object) => Some(object),
        Err(NoMemory) => {
            answer.fail();
            None
        }
    }
}

/// Saves a report under the name that the words give, if they do.
pub fn save_report(
    alloc: Global,
    words: Build,
    report: &Report,
    savings: &mut Vec<Saving>,
    answer: &mut Answer,
)
    requires { IsValidReport report.now }
{
    if let Some(name) = words.report {
        match print_report(alloc, report) {
            Ok(bytes) => add_saving(alloc, savings, name, bytes, answer),
            Err(_) => answer.fail(),
        }
    }
}

/// Says why a source is refused, where it is.
pub fn push_refused(alloc: Global, name: &str, bytes: &[u8], answer: &mut Answer) {
    let _ = is_refused(alloc, name, bytes, answer);
}

// The same, and whether it is refused.
fn is_refused(alloc: Global, name: &str, bytes: &[u8], answer: &mut Answer) -> bool {
    let it = Checked::new(alloc, name, bytes);
    let has_faults = it.push_faults(alloc, &mut answer.err, answer.form);
    if has_faults {
        answer.ending = Ending::Failed;
    }
    drop(it);
    has_faults
}

// The expanded size of a program is told as a fault of the source; that of its 0-1 program here.
fn push_large(alloc: Global, name: &str, bytes: &[u8], size: u64, answer: &mut Answer) {
    if is_refused(alloc, name, bytes, answer) {
        return;
    }
    let mut it = answer.finding();
    it.title.put("the 0-1 program of the banks has ");
    it.title.number(size);
    it.title
        .put(" columns or rows, and at most 67108864 are allowed");
    it.code = Code::Named("status 8");
    it.help.line("Fewer values that are live at once, or smaller functions, make it smaller.");
    answer.push(name, it)
}

fn push_slots(words: Build, answer: &mut Answer) {
    let mut it = answer.finding();
    it.title.put("no choice of banks is possible with ");
    it.title.counted(u64::from(words.slots), "slot");
    it.code = Code::Named("status 9");
    it.help.line("Allow more by `--slots N`, up to 128, or have fewer values live at once.");
    answer.push(words.source, it)
}

fn push_budget(words: Build, answer: &mut Answer) {
    let mut it = answer.finding();
    it.title.put("no choice of banks was found in a search of so many branches: ");
    it.title.number(u64::from(words.budget));
    it.code = Code::Named("status 10");
    it.help.line("Allow more by `--budget N`, up to 1000000, or more slots by `--slots N`.");
    answer.push(words.source, it)
}

fn push_store(words: Build, length: u32, answer: &mut Answer) {
    let mut it = answer.finding();
    it.title.put("the code has ");
    it.title.number(u64::from(length));
    it.title.put(" instructions, and at most ");
    it.title.number(u64::from(words.store));
    it.title.put(" are allowed");
    it.code = Code::Named("status 11");
    it.help.line("Allow more by `--store N`, up to 1048576.");
    answer.push(words.source, it)
}
