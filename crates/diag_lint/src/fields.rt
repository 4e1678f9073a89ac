//! How many bits the fields of unpacked values have.

use crate::lint::Lint;
use nv_ast::{Expr, FieldText, Kind, LayoutText, Name};

// The most parts of layouts that are looked through for one field.
const MOST_PARTS: u32 = 10_000;

// A layout, or the alternatives of an overlay, in which a field is looked for.
#[derive(Clone, Copy)]
enum Holder<'a> {
    Text(&'a LayoutText),
    Fields(&'a [(Name, FieldText)]),
}

/// The bits of the bit field that an expression takes of an unpacked value, where that is seen.
pub fn field_bits<'a>(lint: &Lint<'a>, e: &'a Expr) -> Option<u32> {
    let Kind::Dot(inner, name) = &e.kind else {
        return None;
    };
    match field_of(lint, holder_of(lint, inner)?, name)? {
        FieldText::Bits(n) => Some(*n),
        _ => None,
    }
}

// The layout of which an expression is the unpacked value.
fn holder_of<'a>(lint: &Lint<'a>, e: &'a Expr) -> Option<Holder<'a>> {
    match &e.kind {
        Kind::Paren(inner) => holder_of(lint, inner),
        Kind::Var(x) => Some(Holder::Text(lint.layout_of(x)?)),
        Kind::Unpack(l, _) => Some(Holder::Text(lint.layouts.get(l)?)),
        Kind::Dot(inner, name) => match field_of(lint, holder_of(lint, inner)?, name)? {
            FieldText::Bits(_) => None,
            FieldText::Inner(text) => Some(Holder::Text(text)),
            FieldText::Overlay(alternatives) => Some(Holder::Fields(alternatives)),
        },
        _ => None,
    }
}

// The field of a name, through joined and named layouts.
fn field_of<'a>(lint: &Lint<'a>, holder: Holder<'a>, name: &'a Name) -> Option<&'a FieldText> {
    let mut work = Vec::new(lint.alloc);
    if work.push(holder).is_err() {
        return None;
    }
    for _ in 0..MOST_PARTS {
        match work.pop()? {
            Holder::Fields(fields) => {
                if let Some(text) = named(fields, name) {
                    return Some(text);
                }
            }
            Holder::Text(text) => queue(lint, &mut work, text)?,
        }
    }
    None
}

fn named<'a>(fields: &'a [(Name, FieldText)], name: &Name) -> Option<&'a FieldText> {
    for field in fields {
        if &field.0 == name {
            return Some(&field.1);
        }
    }
    None
}

// Adds the parts of a layout; none for memory exhaustion.
fn queue<'a>(lint: &Lint<'a>, work: &mut Vec<Holder<'a>>, text: &'a LayoutText) -> Option<()> {
    match text {
        LayoutText::Gap(_) => {}
        LayoutText::Named(x) => {
            if let Some(it) = lint.layouts.get(x) {
                work.push(Holder::Text(it)).ok()?;
            }
        }
        LayoutText::Parts(fields) => work.push(Holder::Fields(fields)).ok()?,
        LayoutText::Joined(texts) => {
            for text in texts {
                work.push(Holder::Text(text)).ok()?;
            }
        }
    }
    Some(())
}
