//! What makes a program too large: its functions, the largest first, and the lines that call them.

use crate::checked::Checked;
use diag_syntax::place::Place;
use diag_types::Walk;
use nv_ast::{Decl, Name, Program, Span};
use nv_lines::{Message, line_of};
use std::alloc::Global;

// So many functions are told, and so many lines of each.
const MOST_FUNCTIONS: usize = 5;

const MOST_LINES: u64 = 12;

// A function with what its calls count: how large it is, and how often it is called.
#[derive(Clone, Copy)]
struct Called<'a> {
    name: &'a Name,
    span: Span,
    size: u64,
    calls: u64,
}

impl<'a> Called<'a> {
    fn whole(&self) -> u64 {
        self.size.saturating_mul(self.calls)
    }
}

/// Appends the functions whose calls count most, and gives the first call of the first of them.
pub fn push_large_parts(
    alloc: Global,
    out: &mut Message,
    it: &Checked,
    program: &Program,
) -> Option<Span> {
    let nowhere = Span { first: 0, after: 0 };
    let mut walk = Walk::new(alloc, 0, nowhere);
    let span = push_walked(alloc, out, it, &mut walk, program);
    drop(walk);
    span
}

// The same, by a walk that is still to be made.
fn push_walked<'a>(
    alloc: Global,
    out: &mut Message,
    it: &Checked,
    walk: &mut Walk<'a>,
    program: &'a Program,
) -> Option<Span> {
    walk.program(program);
    out.fail_if(walk.is_short());
    let mut found = Vec::new(alloc);
    for decl in program.decls.iter() {
        if let Decl::Group(funs) = decl {
            for fun in funs {
                let called = Called {
                    name: &fun.name,
                    span: fun.span,
                    size: size_of(walk, &fun.name),
                    calls: calls_of(it, &fun.name),
                };
                out.keep(&mut found, called);
            }
        }
    }
    push_most(out, it, &found)
}

// What a call of a function counts.
fn size_of<'a>(walk: &Walk<'a>, name: &'a Name) -> u64 {
    match walk.costs.get(name) {
        Some(cost) => cost.size,
        None => 0,
    }
}

// How often a function is called in the text. `main` counts once.
fn calls_of(it: &Checked, name: &Name) -> u64 {
    let mut count: u64 = 0;
    let first = Place::at(it.source.bytes, &it.tokens, 0);
    for n in 0..it.tokens.len() {
        if is_call(&first.moved(n), name) {
            count = count.saturating_add(1);
        }
    }
    count
}

fn is_call(place: &Place, name: &Name) -> bool {
    place.text(0) == name.bytes() && place.next_is("[") && !place.is_among(1, &["fun", "and"])
}

// Appends the largest ones in order.
fn push_most(out: &mut Message, it: &Checked, found: &[Called]) -> Option<Span> {
    let mut shown = None;
    let mut most = u64::MAX;
    for n in 0..MOST_FUNCTIONS {
        let Some(called) = next_below(found, most) else {
            return shown;
        };
        most = called.whole();
        let span = push_called(out, it, &called);
        if n == 0 {
            shown = Some(span);
        }
    }
    shown
}

// The largest one that is smaller than this.
fn next_below<'a>(found: &[Called<'a>], most: u64) -> Option<Called<'a>> {
    let mut largest: Option<Called<'a>> = None;
    for called in found {
        let whole = called.whole();
        let is_larger = match &largest {
            Some(other) => whole > other.whole(),
            None => whole > 0,
        };
        if whole < most && is_larger {
            largest = Some(*called);
        }
    }
    largest
}

// Appends how large a function is and which lines call it, and gives the first call.
fn push_called(out: &mut Message, it: &Checked, called: &Called) -> Span {
    out.quoted(called.name.bytes());
    out.put(" of line ");
    out.number(line_of(it.source.bytes, called.span.first as usize) as u64);
    out.put(" has size ");
    out.number(called.size);
    out.put(", and is called ");
    out.counted(called.calls, "time");
    out.put(if called.calls == 1 {
        ": line "
    } else {
        ": lines "
    });
    let span = push_lines(out, it, called);
    out.line("");
    span
}

fn push_lines(out: &mut Message, it: &Checked, called: &Called) -> Span {
    let mut shown = called.span;
    let mut count: u64 = 0;
    let first = Place::at(it.source.bytes, &it.tokens, 0);
    for n in 0..it.tokens.len() {
        let place = first.moved(n);
        if is_call(&place, called.name) && count <= MOST_LINES {
            push_line(out, it, &place, count);
            if count == 0 {
                shown = place.span(0);
            }
            count = count.saturating_add(1);
        }
    }
    shown
}

fn push_line(out: &mut Message, it: &Checked, place: &Place, count: u64) {
    if count == MOST_LINES {
        return out.put(", ..");
    }
    out.put(if count == 0 { "" } else { ", " });
    out.number(line_of(it.source.bytes, place.span(0).first as usize) as u64)
}
