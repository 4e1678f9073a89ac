//! What a fault of the types is.

use crate::checked::Checked;
use crate::elsewhere::{main_in_capitals, push_elsewhere};
use crate::large::push_large_parts;
use crate::narrow::{narrowed, narrowed_to};
use diag_syntax::place::Place;
use diag_text::finding::{Code, Finding, Form, Severity};
use diag_text::kinds::{kind_advice, kind_sentence};
use diag_types::Walk;
use nv_ast::{Program, Span};
use nv_lines::Message;
use nv_types::Fault;
use std::alloc::Global;

// The most faults that are told of one source.
const MOST_FAULTS: usize = 12;

/// Appends the faults of a program, each as if the bodies of the faulty functions before it were without fault.
pub fn push_all(
    alloc: Global,
    out: &mut Message,
    form: Form,
    it: &Checked,
    program: &Program,
    faults: &[Fault],
) {
    for (n, fault) in faults.iter().enumerate() {
        if n >= MOST_FAULTS {
            return;
        }
        if form.is_text() && n > 0 {
            out.line("");
        }
        let mut found = Finding::new(alloc, Severity::Error);
        explain(alloc, &mut found, it, program, faults, n, *fault);
        found.push(alloc, out, form, it.source)
    }
}

// Says what a fault is, with what a walk over the program up to it tells.
fn explain(
    alloc: Global,
    found: &mut Finding,
    it: &Checked,
    program: &Program,
    faults: &[Fault],
    n: usize,
    fault: Fault,
) {
    let mut walk = Walk::new(alloc, fault.kind, fault.span);
    for (m, earlier) in faults.iter().enumerate() {
        if m < n {
            walk.pass_over(earlier.span);
        }
    }
    explain_walked(alloc, found, &mut walk, it, program, fault);
    drop(walk)
}

// The same, by a walk that is still to be made.
fn explain_walked<'a>(
    alloc: Global,
    found: &mut Finding,
    walk: &mut Walk<'a>,
    it: &Checked,
    program: &'a Program,
    fault: Fault,
) {
    walk.program(program);
    found.help.fail_if(walk.is_short());
    found.code = Code::Kind(fault.kind);
    found.span = shown_span(it, walk, program, fault);
    if walk.title.is_empty() {
        found.title.put(kind_sentence(fault.kind));
    }
    found.title.message_text(&walk.title);
    let span = named_span(found, fault);
    push_elsewhere(
        alloc,
        &mut found.help,
        program,
        it.source.bytes,
        fault.kind,
        span,
    );
    found.help.message_text(&walk.note);
    let known = walk.advice.unwrap_or(kind_advice(fault.kind));
    let advice = seen_advice(it, fault).unwrap_or(known);
    if !advice.is_empty() {
        found.help.line(advice)
    }
}

// What helps against a value of another type, where its first tokens tell it.
fn seen_advice(it: &Checked, fault: Fault) -> Option<&'static str> {
    let place = Place::at(it.source.bytes, &it.tokens, fault.span.first as usize);
    if fault.kind != 14 {
        return None;
    }
    if place.is_number(0) && place.is_among(1, &["||", "&&"]) {
        return Some("Each side is a comparison: `x == 1 || x == 2`.");
    }
    if place.is_among(0, &["true", "false"]) && place.is_among(1, &["==", "!="]) {
        return Some("A word is compared with a number: `x == 1`.");
    }
    let is_access = place.is_among(0, &["sram", "sdram", "scratch"]) && place.next_is("[");
    if is_access && place.later(2).is(0, "0") {
        return Some("An access moves at least one word: `sram[1](at)`.");
    }
    None
}

// Where the name stands of which another declaration is told: kind 2 is told by the whole declaration.
fn named_span(found: &Finding, fault: Fault) -> Span {
    match found.span {
        Some(span) if fault.kind != 2 => span,
        _ => fault.span,
    }
}

// The part of the source that is at fault, or none where it is that no function is like `main`.
fn shown_span(it: &Checked, walk: &Walk, program: &Program, fault: Fault) -> Option<Span> {
    if fault.kind == 1 {
        return main_in_capitals(program);
    }
    let span = narrowed(it.source.bytes, &it.tokens, fault);
    match walk.culprit {
        Some(name) if matches!(fault.kind, 5 | 14 | 18) => Some(narrowed_to(
            it.source.bytes,
            &it.tokens,
            span,
            name.bytes(),
        )),
        _ => Some(span),
    }
}

/// Says that a program is too large, with the functions that make most of it and the lines that call them.
pub fn explain_size(
    alloc: Global,
    found: &mut Finding,
    it: &Checked,
    program: &Program,
    size: u32,
) {
    found.code = Code::Named("too large");
    found.title.put("the expanded size is ");
    found.title.number(u64::from(size));
    found.title.put(", and at most 4096 is allowed");
    found.span = push_large_parts(alloc, &mut found.help, it, program);
    found.help.line(
        "Each call of another group counts that group again. Call once, after an `if` that chooses the arguments, or make a loop.",
    )
}
