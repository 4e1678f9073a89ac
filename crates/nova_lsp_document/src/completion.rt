//! What may stand at a place.

use crate::document::Document;
use crate::json::push_comma;
use crate::sizes::header;
use nova_lsp_names::{Definition, Mark, Role};
use nv_lines::Message;
use std::alloc::Global;

// What is wanted at a place.
#[derive(Clone, Copy)]
enum Wanted {
    /// The fields of a layout or a field, or of any.
    Field(Option<usize>),
    Layout,
    Exception,
    Any,
}

/// Appends the names that may stand at a byte.
pub fn push_completion(alloc: Global, out: &mut Message, document: &Document, at: usize) {
    // The name that is begun counts as not yet there.
    let token = match document.names.token_at(at) {
        Some(n) if document.names.name(n).is_some() => n,
        _ => document.names.tokens_before(at),
    };
    let mut is_first = true;
    out.put("[");
    match wanted_at(document, token) {
        Wanted::Field(Some(owner)) => push_fields(alloc, out, document, owner, &mut is_first),
        Wanted::Field(None) => push_role(out, document, Role::Field, &mut is_first),
        Wanted::Layout => push_role(out, document, Role::Layout, &mut is_first),
        Wanted::Exception => push_role(out, document, Role::Exception, &mut is_first),
        Wanted::Any => push_any(out, document, token, &mut is_first),
    }
    out.put("]")
}

// What the token before a place makes wanted.
fn wanted_at(document: &Document, token: usize) -> Wanted {
    let before = mark_before(document, token, 1);
    match before {
        Mark::Dot => Wanted::Field(owner_before(document, token)),
        Mark::Raise | Mark::Handle => Wanted::Exception,
        Mark::OpenSquare => match mark_before(document, token, 2) {
            Mark::Pack | Mark::Unpack => Wanted::Layout,
            _ => Wanted::Any,
        },
        Mark::OpenRound => match mark_before(document, token, 2) {
            Mark::Packed | Mark::Unpacked => Wanted::Layout,
            _ => Wanted::Any,
        },
        _ => Wanted::Any,
    }
}

fn mark_before(document: &Document, token: usize, back: usize) -> Mark {
    match token.checked_sub(back) {
        Some(n) => document.names.mark(n),
        None => Mark::Other,
    }
}

// What has the fields of the value before the dot before a token.
fn owner_before(document: &Document, token: usize) -> Option<usize> {
    document.names.owner_of_value(token.checked_sub(2)?)
}

fn push_fields(
    alloc: Global,
    out: &mut Message,
    document: &Document,
    owner: usize,
    is_first: &mut bool,
) {
    let mut fields = Vec::new(alloc);
    document.names.push_fields(alloc, owner, &mut fields);
    for n in fields.iter() {
        if let Some(it) = document.names.definition(*n) {
            push_item(out, document, it, is_first)
        }
    }
}

fn push_role(out: &mut Message, document: &Document, role: Role, is_first: &mut bool) {
    for it in document.names.definitions.iter() {
        if it.role == role {
            push_item(out, document, *it, is_first)
        }
    }
}

// The keywords that begin something.
const KEYWORDS: [&str; 20] = [
    "let",
    "if",
    "else",
    "try",
    "handle",
    "raise",
    "pack",
    "unpack",
    "sram",
    "sdram",
    "scratch",
    "word",
    "bool",
    "packed",
    "unpacked",
    "true",
    "false",
    "fun",
    "layout",
    "exception",
];

// Appends the variables in sight, all functions, layouts and exceptions, and the keywords.
fn push_any(out: &mut Message, document: &Document, token: usize, is_first: &mut bool) {
    for it in document.names.definitions.iter() {
        let is_in_sight = it.role.is_local() && it.from < token && token <= it.last;
        if is_in_sight || it.role.is_global() {
            push_item(out, document, *it, is_first)
        }
    }
    for word in KEYWORDS {
        push_comma(out, is_first);
        out.put("{\"label\":\"");
        out.put(word);
        out.put("\",\"kind\":14}")
    }
}

fn push_item(out: &mut Message, document: &Document, it: Definition, is_first: &mut bool) {
    push_comma(out, is_first);
    out.put("{\"label\":");
    out.string(document.names.spelling(it.token));
    out.put(",\"kind\":");
    out.number(item_kind(it.role));
    if it.role == Role::Function {
        out.put(",\"detail\":");
        out.string(header(document, it))
    } else if it.role == Role::Field {
        out.put(",\"detail\":");
        out.string(document.between(it.token, it.last.max(it.token)))
    }
    out.put("}")
}

// The number that the protocol has for an item of a role.
fn item_kind(role: Role) -> u64 {
    match role {
        Role::Layout | Role::Joined => 22,
        Role::Exception => 23,
        Role::Function => 3,
        Role::Field => 5,
        Role::Parameter | Role::Variable => 6,
    }
}
