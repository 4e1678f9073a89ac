//! The outline of a source, and its parts that an editor may fold.

use crate::document::Document;
use crate::json::push_comma;
use crate::positions::Encoding;
use nova_lsp_names::{Definition, Role};
use nv_lines::Message;

/// Appends the declarations of a source, layouts with their fields.
pub fn push_symbols(out: &mut Message, document: &Document, encoding: Encoding) {
    let mut is_first = true;
    out.put("[");
    for (n, it) in document.names.definitions.iter().enumerate() {
        if it.role.is_global() {
            push_comma(out, &mut is_first);
            push_symbol(out, document, n, *it, encoding)
        }
    }
    out.put("]")
}

fn push_symbol(
    out: &mut Message,
    document: &Document,
    n: usize,
    it: Definition,
    encoding: Encoding,
) {
    push_head(out, document, it, it.token.saturating_sub(1), encoding);
    if it.role == Role::Layout {
        out.put(",\"children\":[");
        push_children(out, document, n, encoding);
        out.put("]")
    }
    out.put("}")
}

// Appends a symbol without its children and its end.
fn push_head(
    out: &mut Message,
    document: &Document,
    it: Definition,
    first: usize,
    encoding: Encoding,
) {
    let from = document.names.first_of(first);
    let to = document.names.after_of(it.last.max(it.token));
    out.put("{\"name\":");
    out.string(document.names.spelling(it.token));
    out.put(",\"kind\":");
    out.number(symbol_kind(it.role));
    out.put(",\"range\":");
    document.push_range(out, from, to, encoding);
    out.put(",\"selectionRange\":");
    document.push_token_range(out, it.token, encoding)
}

fn push_children(out: &mut Message, document: &Document, owner: usize, encoding: Encoding) {
    let mut is_first = true;
    for n in owner.saturating_add(1)..document.names.definitions.len() {
        let Some(it) = document.names.definition(n) else {
            return;
        };
        if it.role != Role::Field && it.role != Role::Joined {
            return;
        }
        if it.role == Role::Field {
            push_comma(out, &mut is_first);
            push_head(out, document, it, it.token, encoding);
            out.put("}")
        }
    }
}

// The number that the protocol has for a symbol of a role.
fn symbol_kind(role: Role) -> u64 {
    match role {
        Role::Layout | Role::Joined => 23,
        Role::Exception => 24,
        Role::Function => 12,
        Role::Field => 8,
        Role::Parameter | Role::Variable => 13,
    }
}

/// Appends the brackets that go over several lines.
pub fn push_folds(out: &mut Message, document: &Document) {
    let mut is_first = true;
    out.put("[");
    for (close, open) in document.names.partners.iter().enumerate() {
        if *open < close {
            push_bracket(out, document, *open, close, &mut is_first)
        }
    }
    out.put("]")
}

// Appends the lines of a bracket but the last one, where there are several.
fn push_bracket(
    out: &mut Message,
    document: &Document,
    open: usize,
    close: usize,
    is_first: &mut bool,
) {
    let from = line_of(document, open);
    let to = line_of(document, close);
    if from < to {
        push_comma(out, is_first);
        push_fold(out, from, to.saturating_sub(1))
    }
}

fn line_of(document: &Document, token: usize) -> usize {
    let at = document.names.first_of(token);
    document
        .starts
        .position(&document.text, at, Encoding::Utf8)
        .line
}

fn push_fold(out: &mut Message, from: usize, to: usize) {
    out.put("{\"startLine\":");
    out.number(from as u64);
    out.put(",\"endLine\":");
    out.number(to as u64);
    out.put("}")
}
