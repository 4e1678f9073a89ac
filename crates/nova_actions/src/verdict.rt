//! What is said of the outcomes on one memory text.

use crate::compare::push_difference;
use nova_texts::Report;
use nv_lines::Message;
use std::alloc::Global;

/// What a run should print, and what the interpreter and the code print.
#[derive(Clone, Copy)]
pub struct Outcomes<'a> {
    pub expected: Option<&'a [u8]>,
    pub meant: &'a [u8],
    pub done: &'a [u8],
    /// How many steps of the code and calls of the interpreter were allowed.
    pub steps: u32,
    /// Whether the outcome text is written anew.
    pub is_updating: bool,
}

/// Says whether both print what they should, and gives whether the outcome text is to be written anew.
pub fn push_verdict(alloc: Global, path: &str, outcomes: Outcomes, report: &mut Report) -> bool {
    let expected = outcomes.expected.unwrap_or(outcomes.meant);
    let is_other = expected != outcomes.meant;
    if is_other && !outcomes.is_updating {
        report.fail(path, unexpected(alloc, expected, outcomes));
        return false;
    }
    if outcomes.meant != outcomes.done || outcomes.is_updating && is_going(outcomes.meant) {
        report.fail(path, unmeant(alloc, outcomes));
        return false;
    }
    let is_new = outcomes.is_updating && (is_other || outcomes.expected.is_none());
    report.pass(path, remark(outcomes, is_new));
    is_new
}

fn remark(outcomes: Outcomes, is_new: bool) -> &'static str {
    if is_new {
        ", and its outcome text is written"
    } else if outcomes.expected.is_none() {
        ", without an outcome text"
    } else {
        ""
    }
}

// That the program does something else than the outcome text says.
fn unexpected(alloc: Global, expected: &[u8], outcomes: Outcomes) -> Message {
    let mut out = Message::new(alloc);
    if is_going(outcomes.meant) && !is_going(expected) {
        push_spent(&mut out, "the interpreter made all calls", outcomes.steps)
    } else {
        out.line("the program doesn't do what the outcome text says")
    }
    push_difference(&mut out, expected, outcomes.meant);
    out
}

// That the code does something else than the program means.
fn unmeant(alloc: Global, outcomes: Outcomes) -> Message {
    let mut out = Message::new(alloc);
    if is_going(outcomes.meant) && outcomes.is_updating {
        push_spent(&mut out, "the interpreter made all calls", outcomes.steps);
        return out;
    }
    if is_going(outcomes.done) && !is_going(outcomes.meant) {
        push_spent(&mut out, "the code took all steps", outcomes.steps)
    } else {
        out.line("the code doesn't do what the program means, within so many steps")
    }
    push_difference(&mut out, outcomes.meant, outcomes.done);
    out
}

// Whether a run was out of steps.
fn is_going(found: &[u8]) -> bool {
    found.starts_with(b"going")
}

fn push_spent(out: &mut Message, what: &str, steps: u32) {
    out.put("out of steps: ");
    out.put(what);
    out.put(" that are allowed, ");
    out.number(u64::from(steps));
    out.line(" (`--steps N` allows more)")
}
