//! The command `build`.
ghost use Rattle.std.specs.Prelude.{◌≡◌, ◌≤◌, length};
ghost use Rattle.novac_words.specs.Limits.{source_limit};
ghost use Rattle.nova_compile.specs.inner.Parts.{HasParts};
ghost use Rattle.nova_words.specs.Limits.{AreInLimits};
ghost use Rattle.zo_cert.specs.Report.{IsValidReport};

use crate::check::{check_allowed, push_warnings};
use crate::compiled::{compile, object_in, save_report};
use diag_source::Checked;
use nova_compile::{Compiled, no_weights};
use nova_show::{Answer, Counts, Ending, Saving, add_saving, counts_of, load, output_name};
use nova_words::Build;
use novac_words::limits::{SOURCE_LIMIT, WEIGHTS_LIMIT};
use nv_lines::Message;
use nv_outside::Files;
use place_weights::{Weights, WeightsError, read_weights};
use std::alloc::Global;
use zo_cert::{Report, Verdict};
use zo_model::cost;
use zo_solve::{Order, lower_bound};

/// Compiles a source, says what came of it, and gives the files that are to be saved.
pub fn build<F: Files>(
    alloc: Global,
    files: &mut F,
    words: Build,
    answer: &mut Answer,
) -> Vec<Saving>
    requires { AreInLimits words }
    ensures { F.held files.new ≡ F.held files.old }
{
    let mut savings = Vec::new(alloc);
    if !check_allowed(alloc, words.warnings, answer) {
        return savings;
    }
    let name = output_name(alloc, words.source, words.object, ".nova", ".obj", answer);
    if let Some(object) = name {
        build_as(alloc, files, words, object.as_str(), &mut savings, answer);
        drop(object);
    }
    savings
}

fn build_as<F: Files>(
    alloc: Global,
    files: &mut F,
    words: Build,
    object: &str,
    savings: &mut Vec<Saving>,
    answer: &mut Answer,
)
    requires { AreInLimits words }
    ensures { F.held files.new ≡ F.held files.old }
{
    if !check_names(words, object, answer) {
        return;
    }
    let Some(source) = load(alloc, files, words.source, SOURCE_LIMIT, answer) else {
        return;
    };
    if let Some(weights) = weights_for(alloc, files, words, answer) {
        build_source(alloc, words, object, &source, &weights, savings, answer);
    }
}

// Refuses an output that is an input or the other output too.
fn check_names(words: Build, object: &str, answer: &mut Answer) -> bool {
    if words.source == "-" && words.object.is_none() {
        return refuse(answer, "a source from the standard input wants `-o OBJ`");
    }
    let report = words.report.unwrap_or("");
    let weights = words.weights.unwrap_or("");
    if object.is_empty() || words.source.is_empty() {
        refuse(answer, "the name of a file is empty")
    } else if object == report {
        refuse(answer, "object and report have one name")
    } else if object != "-" && (object == words.source || object == weights) {
        refuse(answer, "the object would replace an input")
    } else if report != "-"
        && (report == words.source || report == weights)
        && words.report.is_some()
    {
        refuse(answer, "the report would replace an input")
    } else {
        true
    }
}

fn refuse(answer: &mut Answer, text: &str) -> bool {
    answer.fault("nova", text);
    answer.ending = Ending::BadWords;
    false
}

// The weights that the words name.
fn weights_for<F: Files>(
    alloc: Global,
    files: &mut F,
    words: Build,
    answer: &mut Answer,
) -> Option<Weights>
    ensures { F.held files.new ≡ F.held files.old }
{
    let Some(name) = words.weights else {
        return Some(no_weights(alloc));
    };
    let text = load(alloc, files, name, WEIGHTS_LIMIT, answer)?;
    match read_weights(alloc, &text) {
        Ok(weights) => return Some(weights),
        Err(WeightsError::NoMemory) => answer.fail(),
        Err(WeightsError::Bad(line)) => {
            answer.line_fault(
                name,
                line,
                "the line isn't one of a weights text (status 21)",
            )
        }
    }
    None
}

fn build_source(
    alloc: Global,
    words: Build,
    object: &str,
    source: &[u8],
    weights: &Weights,
    savings: &mut Vec<Saving>,
    answer: &mut Answer,
)
    requires words { AreInLimits words }
    requires text { length source.now ≤ source_limit }
{
    let found = compile(alloc, words, u64::MAX, source, weights, savings, answer);
    let Some(compiled) = found else {
        return;
    };
    if !is_denied(alloc, words, source, answer) {
        save_both(alloc, words, object, source, compiled, savings, answer);
    }
}

// Warns of a source, and gives whether that refuses it.
fn is_denied(alloc: Global, words: Build, source: &[u8], answer: &mut Answer) -> bool {
    let it = Checked::new(alloc, words.source, source);
    let is_denied = push_warnings(alloc, &it, words.warnings, answer);
    drop(it);
    is_denied
}

// Saves report and object, and says what they are.
fn save_both(
    alloc: Global,
    words: Build,
    object: &str,
    source: &[u8],
    compiled: Compiled,
    savings: &mut Vec<Saving>,
    answer: &mut Answer,
)
    requires text { length source.now ≤ source_limit }
    requires parts { HasParts compiled }
{
    let counts = counts_of(compiled.built.code.list());
    let mut text = Message::new(alloc);
    push_summary(alloc, &mut text, &compiled.built.report, counts, false);
    save_report(alloc, words, &compiled.built.report, savings, answer);
    if let Some(bytes) = object_in(alloc, source, compiled, answer) {
        push_text(object, words.report == Some("-"), &text, answer);
        add_saving(alloc, savings, object, bytes, answer);
    }
}

// A text goes to the standard output, unless a file does. Among objects of JSON it isn't told.
fn push_text(object: &str, has_report: bool, text: &Message, answer: &mut Answer) {
    if object == "-" || has_report {
        if answer.form.is_text() {
            answer.err.message_text(text)
        }
    } else {
        answer.out.put(object);
        answer.out.put(": ");
        answer.out.message_text(text)
    }
}

/// Appends what code and banks come to. After a search in haste the cost isn't compared with the least.
pub fn push_summary(
    alloc: Global,
    out: &mut Message,
    report: &Report,
    counts: Counts,
    is_hasty: bool,
)
    requires { IsValidReport report.now }
{
    out.counted(counts.all, "instruction");
    out.put(", moves between banks cost ");
    out.number(cost(&report.z, &report.x));
    push_verdict(alloc, out, report, is_hasty);
    out.line("");
    out.put("  of these ");
    out.counted(counts.between, "move");
    out.put(" between banks, ");
    out.counted(counts.within, "move");
    out.put(" within a bank, ");
    out.counted(counts.literals, "literal");
    out.put(", ");
    out.counted(counts.spills, "spill");
    out.line("")
}

// Whether a cheaper choice of banks is possible.
fn push_verdict(alloc: Global, out: &mut Message, report: &Report, is_hasty: bool)
    requires { IsValidReport report.now }
{
    match report.verdict {
        Verdict::Optimal => out.put(", optimal"),
        Verdict::Feasible if is_hasty => out.put(", maybe above the least"),
        Verdict::Feasible => push_above(alloc, out, report),
        Verdict::Infeasible | Verdict::Spent => {}
    }
}

// By how much it may be cheaper, by a bound that multipliers of the rows prove.
fn push_above(alloc: Global, out: &mut Message, report: &Report)
    requires { IsValidReport report.now }
{
    match least_cost(alloc, report) {
        Some(least) => {
            out.put(", at most ");
            out.number(cost(&report.z, &report.x).saturating_sub(least));
            out.put(" above the least")
        }
        None => out.fail(),
    }
}

// A cost that no choice of banks is below; none for memory exhaustion.
fn least_cost(alloc: Global, report: &Report) -> Option<u64>
    requires { IsValidReport report.now }
{
    let Ok(order) = Order::new(alloc, &report.z) else {
        return None;
    };
    let found = least_by(alloc, report, &order);
    drop(order);
    found
}

fn least_by(alloc: Global, report: &Report, order: &Order) -> Option<u64>
    requires { IsValidReport report.now }
{
    match lower_bound(alloc, &report.z, order) {
        Ok(bounded) => {
            let least = bounded.least;
            drop(bounded);
            Some(least)
        }
        Err(_) => None,
    }
}
