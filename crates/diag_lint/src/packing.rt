//! Numbers that don't fit their fields.

use crate::lint::Lint;
use crate::warning::Cause;
use nv_ast::{Expr, FieldText, Kind, LayoutText, Name, Span};

// The most parts of layouts that are looked through at one `pack`.
const MOST_PARTS: u32 = 10_000;

// A part of a layout with the record that is packed into it.
#[derive(Clone, Copy)]
enum Work<'a> {
    Text(&'a LayoutText, &'a [(Name, Expr)]),
    Fields(&'a [(Name, FieldText)], &'a [(Name, Expr)]),
}

/// Warns of each number in a record that needs more bits than its field in a layout has.
pub fn wide_fields<'a>(lint: &mut Lint<'a>, text: &'a LayoutText, es: &'a [(Name, Expr)]) {
    let mut work = Vec::new(lint.alloc);
    lint.note.keep(&mut work, Work::Text(text, es));
    for _ in 0..MOST_PARTS {
        match work.pop() {
            Some(Work::Text(text, es)) => queue_text(lint, &mut work, text, es),
            Some(Work::Fields(fields, es)) => compare(lint, &mut work, fields, es),
            None => return,
        }
    }
}

fn queue_text<'a>(
    lint: &mut Lint<'a>,
    work: &mut Vec<Work<'a>>,
    text: &'a LayoutText,
    es: &'a [(Name, Expr)],
) {
    match text {
        LayoutText::Named(x) => {
            if let Some(it) = lint.layouts.get(x) {
                lint.note.keep(work, Work::Text(it, es));
            }
        }
        LayoutText::Gap(_) => {}
        LayoutText::Parts(fields) => lint.note.keep(work, Work::Fields(fields, es)),
        LayoutText::Joined(texts) => {
            for text in texts {
                lint.note.keep(work, Work::Text(text, es));
            }
        }
    }
}

fn compare<'a>(
    lint: &mut Lint<'a>,
    work: &mut Vec<Work<'a>>,
    fields: &'a [(Name, FieldText)],
    es: &'a [(Name, Expr)],
) {
    for field in fields {
        if let Some(e) = named(es, &field.0) {
            compare_field(lint, work, field, e);
        }
    }
}

// The expression of a field.
fn named<'a>(es: &'a [(Name, Expr)], name: &Name) -> Option<&'a Expr> {
    for e in es {
        if &e.0 == name {
            return Some(&e.1);
        }
    }
    None
}

fn compare_field<'a>(
    lint: &mut Lint<'a>,
    work: &mut Vec<Work<'a>>,
    field: &'a (Name, FieldText),
    e: &'a Expr,
) {
    match (&field.1, &e.kind) {
        (FieldText::Bits(bits), Kind::Number(n)) => compare_number(
            lint, &field.0, *bits, *n, e.span,
        ),
        (FieldText::Inner(text), Kind::Fields(es)) => lint.note.keep(work, Work::Text(text, es)),
        (FieldText::Overlay(alternatives), Kind::Fields(es)) => lint
            .note
            .keep(work, Work::Fields(alternatives, es)),
        _ => {}
    }
}

fn compare_number<'a>(lint: &mut Lint<'a>, name: &'a Name, bits: u32, n: u32, span: Span) {
    if bits < 32 && n >> bits != 0 {
        lint.warn(Cause::Wide(name, bits, n), span);
    }
}
