//! The warnings on a source without a fault.

use crate::lint::Lint;
use crate::warning::{Call, Cause, Warning};
use diag_source::Checked;
use diag_source::sizes::main_cost;
use diag_syntax::place::Place;
use diag_text::finding::{Code, Finding, Form, Severity, Source};
use diag_types::Walk;
use nv_ast::{Name, Program, Span};
use nv_base::Mem;
use nv_lines::Message;
use nv_text::Token;
use std::alloc::Global;

// A source with its tokens, and how warnings of it are printed.
#[derive(Clone, Copy)]
struct Text<'n, 's, 't> {
    source: Source<'n, 's>,
    tokens: &'t [Token],
    form: Form,
    allowed: &'n str,
}

/// Appends the warnings of a source without a fault in a form, in the order of their places, and gives how many there are. Those of
/// some names, with commas between them, are left out.
pub fn push_warnings_as(
    alloc: Global,
    out: &mut Message,
    form: Form,
    it: &Checked,
    allowed: &str,
) -> usize {
    match it.typed() {
        Some(typed) => {
            let text = Text {
                source: it.source,
                tokens: &it.tokens,
                form,
                allowed,
            };
            push_lint(alloc, out, text, typed.program())
        }
        None => 0,
    }
}

fn push_lint(alloc: Global, out: &mut Message, text: Text, program: &Program) -> usize {
    let mut lint = Lint::new(alloc);
    let count = push_all(alloc, out, text, &mut lint, program);
    drop(lint);
    count
}

// The same, by a walk that is still to be made.
fn push_all<'a>(
    alloc: Global,
    out: &mut Message,
    text: Text,
    lint: &mut Lint<'a>,
    program: &'a Program,
) -> usize {
    lint.program(program);
    out.fail_if(lint.is_short());
    let mut told = Vec::new(alloc);
    for warning in lint.warnings.iter() {
        if !is_allowed(text.allowed, warning.cause.code()) {
            out.keep(&mut told, *warning);
        }
    }
    push_sorted(alloc, out, text, &told);
    let is_large = !is_allowed(text.allowed, SIZE) && push_size(alloc, out, text, lint, program);
    told.len().saturating_add(usize::from(is_large))
}

/// The names of warnings.
pub const WARNING_NAMES: [&str; 7] = [
    "unused",
    "wide",
    "read",
    "condition",
    "endless",
    "address",
    SIZE,
];

const SIZE: &str = "size";

// Whether a name is one of those between commas.
fn is_allowed(allowed: &str, code: &str) -> bool {
    for name in allowed.split(',') {
        if name == code {
            return true;
        }
    }
    false
}

fn is_warning(name: &str) -> bool {
    for it in WARNING_NAMES.iter() {
        if *it == name {
            return true;
        }
    }
    false
}

/// The first of some names, with commas between them, that no warning has.
pub fn unknown_warning(allowed: &str) -> Option<&str> {
    for name in allowed.split(',') {
        if !is_warning(name) {
            return Some(name);
        }
    }
    None
}

// Warns of a program that is nearly too large, and gives whether it is.
fn push_size<'a>(
    alloc: Global,
    out: &mut Message,
    text: Text,
    lint: &Lint<'a>,
    program: &'a Program,
) -> bool {
    let nowhere = Span { first: 0, after: 0 };
    let mut walk = Walk::new(alloc, 0, nowhere);
    let is_large = push_if_large(alloc, out, text, &mut walk, lint, program);
    drop(walk);
    is_large
}

fn push_if_large<'a>(
    alloc: Global,
    out: &mut Message,
    text: Text,
    walk: &mut Walk<'a>,
    lint: &Lint<'a>,
    program: &'a Program,
) -> bool {
    walk.program(program);
    out.fail_if(walk.is_short());
    let size = match main_cost(walk) {
        Some(cost) => cost.size,
        None => 0,
    };
    if size <= NEARLY_TOO_LARGE {
        return false;
    }
    match largest_call(walk, lint) {
        Some(call) => push_large(alloc, out, text, call.span, size),
        None => return false,
    }
    true
}

// The expanded size above which there is a warning.
const NEARLY_TOO_LARGE: u64 = 3072;

// Appends how large a program is, at the call that makes most of it.
fn push_large(alloc: Global, out: &mut Message, text: Text, span: Span, size: u64) {
    let mut it = Finding::new(alloc, Severity::Warning);
    it.span = Some(span);
    it.code = Code::Named(SIZE);
    it.title.put("the expanded size is ");
    it.title.number(size);
    it.title
        .put(" of at most 4096, most of it by calls of this function");
    it.help.line("Each call counts all that it calls. Make a loop of calls that are alike.");
    it.push(alloc, out, text.form, text.source)
}

// The first call of the function whose calls in `main` count most.
fn largest_call<'a>(walk: &Walk<'a>, lint: &Lint<'a>) -> Option<Call<'a>> {
    let mut most: u64 = 0;
    let mut largest = None;
    for call in lint.calls.iter() {
        let size = called_size(walk, lint, call);
        if size > most {
            most = size;
            largest = Some(*call);
        }
    }
    largest
}

// What the calls of a function in `main` count, where this is one of them.
fn called_size<'a>(walk: &Walk<'a>, lint: &Lint<'a>, call: &Call<'a>) -> u64 {
    if call.caller.bytes() != b"main".as_slice() {
        return 0;
    }
    match walk.costs.get(call.callee) {
        Some(cost) => cost.size.saturating_mul(calls_of(lint, call)),
        None => 0,
    }
}

// How often the function of a call is called by the same function.
fn calls_of(lint: &Lint, call: &Call) -> u64 {
    let mut count: u64 = 0;
    for it in lint.calls.iter() {
        if it.caller == call.caller && it.callee == call.callee {
            count = count.saturating_add(1);
        }
    }
    count
}

// The most warnings that are told of one source.
const MOST_WARNINGS: usize = 200;

// Appends warnings in the order of their places.
fn push_sorted(alloc: Global, out: &mut Message, text: Text, warnings: &[Warning]) {
    let mut after = None;
    for _ in 0..warnings.len().min(MOST_WARNINGS) {
        let Some(n) = next_place(warnings, after) else {
            return;
        };
        if let Some(warning) = warnings.get(n) {
            push_warning(alloc, out, text, *warning);
        }
        after = Some(n);
    }
}

// The number of the warning that comes after one: warnings stand in the order of their places. Of those at one place the one that was
// found last comes first, as the names of a pattern are found from the last to the first.
fn next_place(warnings: &[Warning], after: Option<usize>) -> Option<usize> {
    let mut next = None;
    for n in 0..warnings.len() {
        if comes_after(warnings, n, after) && (next.is_none() || !comes_after(warnings, n, next)) {
            next = Some(n);
        }
    }
    next
}

// Whether a warning comes after another one, or none is given.
fn comes_after(warnings: &[Warning], n: usize, other: Option<usize>) -> bool {
    let Some(other) = other else {
        return true;
    };
    let one = first_of(warnings, n);
    let place = first_of(warnings, other);
    one > place || one == place && n < other
}

fn first_of(warnings: &[Warning], n: usize) -> u32 {
    match warnings.get(n) {
        Some(warning) => warning.span.first,
        None => 0,
    }
}

fn push_warning(alloc: Global, out: &mut Message, text: Text, warning: Warning) {
    let mut it = Finding::new(alloc, Severity::Warning);
    it.span = Some(shown(text, warning));
    it.code = Code::Named(warning.cause.code());
    push_cause(&mut it.title, warning.cause);
    push_advice(&mut it.help, warning.cause);
    it.push(alloc, out, text.form, text.source)
}

// The name that a warning is about, or the whole span.
fn shown(text: Text, warning: Warning) -> Span {
    match warning.cause {
        Cause::Variable(name) => name_in(text, warning.span, name, false),
        Cause::Parameter(name) => name_in(text, warning.span, name, true),
        Cause::Function(name) | Cause::Exception(name) | Cause::Layout(name) => name_in(
            text,
            warning.span,
            name,
            false,
        ),
        _ => warning.span,
    }
}

// The first token in a span that is a name, and maybe a parameter.
fn name_in(text: Text, span: Span, name: &Name, is_parameter: bool) -> Span {
    let first = Place::at(text.source.bytes, text.tokens, span.first as usize);
    for n in first.index()..text.tokens.len() {
        let place = first.moved(n);
        if place.span(0).first >= span.after {
            return span;
        }
        if place.text(0) == name.bytes() && (!is_parameter || place.is_parameter()) {
            return place.span(0);
        }
    }
    span
}

// Appends a sentence on what a warning is about.
fn push_cause(out: &mut Message, cause: Cause) {
    match cause {
        Cause::Variable(name) => push_unused(out, "variable", name, " is never used"),
        Cause::Parameter(name) => push_unused(out, "parameter", name, " is never used"),
        Cause::Function(name) => push_unused(out, "function", name, " isn't reached from `main`"),
        Cause::Exception(name) => push_unused(out, "exception", name, " is never raised"),
        Cause::Layout(name) => push_unused(out, "layout", name, " is never used"),
        Cause::Wide(name, bits, n) => push_wide(out, name, bits, n),
        Cause::Read => out.put("no word of this read is used"),
        Cause::Condition(true) => out.put("this condition always holds"),
        Cause::Condition(false) => out.put("this condition never holds"),
        Cause::Endless => out.put(
            "this call has the arguments of the function itself, so it never ends",
        ),
        Cause::Past(Mem::Sdram) => out.put("no SDRAM has this quadword"),
        Cause::Past(_) => out.put("no SRAM has this word"),
    }
}

fn push_unused(out: &mut Message, what: &str, name: &Name, after: &str) {
    out.put(what);
    out.put(" ");
    out.quoted(name.bytes());
    out.put(after)
}

// Appends that a number doesn't fit its field.
fn push_wide(out: &mut Message, name: &Name, bits: u32, n: u32) {
    out.number(u64::from(n));
    out.put(" doesn't fit field ");
    out.quoted(name.bytes());
    out.put(" of ");
    out.counted(u64::from(bits), "bit")
}

// Appends what helps.
fn push_advice(out: &mut Message, cause: Cause) {
    match cause {
        Cause::Variable(_) => out.line("Write `_` in its place, or begin its name with `_`."),
        Cause::Parameter(_) => out.line("Leave it out, or begin its name with `_`."),
        Cause::Wide(_, _, _) => out.line("The field takes its lowest bits alone."),
        Cause::Endless => out.line("Count down or up, as in `go[n - 1]`."),
        Cause::Past(Mem::Sdram) => out.line(
            "SDRAM has at most 65,536 quadwords, and an address counts quadwords, of two words each.",
        ),
        Cause::Past(_) => out.line("A memory has at most 65,536 words."),
        Cause::Read => out.line("It can only end the run by an address fault. Leave it out."),
        _ => {}
    }
}
