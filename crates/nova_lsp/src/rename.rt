//! Other names for what a source defines.

use diag_source::Checked;
use nova_lsp_document::{Document, Encoding, definition_at, is_of, name_at, push_comma};
use nova_lsp_names::{Names, Role};
use nv_ast::{Sort, Token};
use nv_lines::Message;
use nv_text::{MOST_BYTES, tokens};
use std::alloc::Global;

// The longest name that is read.
const LONGEST: usize = 64;

/// Why a name isn't replaced.
#[derive(Clone, Copy, PartialEq, Eq)]
pub enum Refusal {
    /// There is no name, or it isn't known what it stands for.
    Unknown,
    /// The new name isn't one.
    NoName,
    /// The source would mean another thing, or be refused.
    Taken,
    NoMemory,
}

/// Appends the range of the name at a byte, where it can be replaced.
pub fn push_renamed_range(out: &mut Message, document: &Document, at: usize, encoding: Encoding) {
    match name_at(document, at) {
        Some(it) if it.definition.is_some() => {
            document.push_token_range(out, it.token, encoding)
        }
        _ => out.put("null"),
    }
}

/// Appends the edits that give the definition of the name at a byte another name. They are refused where the source would
/// no longer be free of faults, or a name would stand for another definition.
pub fn push_rename(
    alloc: Global,
    out: &mut Message,
    document: &Document,
    at: usize,
    name: &str,
    encoding: Encoding,
) -> Option<Refusal> {
    if !is_name(alloc, name) {
        return Some(Refusal::NoName);
    }
    let Some(definition) = definition_at(document, at) else {
        return Some(Refusal::Unknown);
    };
    if has_unknown(document, definition) {
        return Some(Refusal::Unknown);
    }
    let refusal = refusal_of(alloc, document, definition, name);
    if refusal.is_none() {
        push_edits(out, document, definition, name, encoding)
    }
    refusal
}

// Whether a text is a name.
fn is_name(alloc: Global, name: &str) -> bool {
    if name.len() > LONGEST {
        return false;
    }
    match tokens(alloc, name.as_bytes()) {
        Ok(found) => is_one_name(&found, name.len()),
        Err(_) => false,
    }
}

fn is_one_name(found: &[Token], length: usize) -> bool {
    match found {
        [token] => {
            let is_word = matches!(token.sort, Sort::Word(_));
            is_word && token.span.first == 0 && token.span.after as usize == length
        }
        _ => false,
    }
}

// Whether some field of the name of a field isn't known to be that or another one.
fn has_unknown(document: &Document, definition: usize) -> bool {
    let Some(it) = document.names.definition(definition) else {
        return true;
    };
    if it.role != Role::Field {
        return false;
    }
    let name = document.names.spelling(it.token);
    for other in document.names.occurrences.iter() {
        if other.role == Role::Field && other.definition.is_none() {
            if document.names.spelling(other.token) == name {
                return true;
            }
        }
    }
    false
}

// Why the definition can't have the name, if so.
fn refusal_of(
    alloc: Global,
    document: &Document,
    definition: usize,
    name: &str,
) -> Option<Refusal> {
    let mut renamed = Message::new(alloc);
    push_renamed(&mut renamed, document, definition, name);
    match renamed.into_bytes() {
        Ok(text) => refusal_of_text(alloc, document, &text),
        Err(_) => Some(Refusal::NoMemory),
    }
}

// Appends the text with the other name.
fn push_renamed(out: &mut Message, document: &Document, definition: usize, name: &str) {
    let mut at: usize = 0;
    for it in document.names.occurrences.iter() {
        if is_of(document, *it, definition, true) {
            let first = document.names.first_of(it.token);
            out.bytes(nv_lines::part(&document.text, at, first));
            out.put(name);
            at = document.names.after_of(it.token)
        }
    }
    out.bytes(nv_lines::part(&document.text, at, document.text.len()))
}

fn refusal_of_text(alloc: Global, document: &Document, text: &[u8]) -> Option<Refusal> {
    if text.len() > MOST_BYTES {
        return Some(Refusal::Taken);
    }
    if document.typed.is_some() && !is_typed(alloc, text) {
        return Some(Refusal::Taken);
    }
    let Ok(found) = tokens(alloc, text) else {
        return Some(Refusal::Taken);
    };
    match Names::of(alloc, found) {
        Ok(names) => {
            let is_same = has_same_definitions(&document.names, &names);
            drop(names);
            if is_same { None } else { Some(Refusal::Taken) }
        }
        Err(_) => Some(Refusal::NoMemory),
    }
}

// Whether a text has no fault.
fn is_typed(alloc: Global, text: &[u8]) -> bool {
    let it = Checked::new(alloc, "", text);
    let is_typed = it.typed().is_some();
    drop(it);
    is_typed
}

// Whether each name stands for the same definition in both.
fn has_same_definitions(one: &Names, other: &Names) -> bool {
    if one.occurrences.len() != other.occurrences.len() {
        return false;
    }
    for (a, b) in one.occurrences.iter().zip(other.occurrences.iter()) {
        if a.token != b.token || a.definition != b.definition {
            return false;
        }
    }
    true
}

fn push_edits(
    out: &mut Message,
    document: &Document,
    definition: usize,
    name: &str,
    encoding: Encoding,
) {
    let mut is_first = true;
    out.put("{\"changes\":{");
    out.string(document.uri.as_bytes());
    out.put(":[");
    for it in document.names.occurrences.iter() {
        if is_of(document, *it, definition, true) {
            push_comma(out, &mut is_first);
            out.put("{\"range\":");
            document.push_token_range(out, it.token, encoding);
            out.put(",\"newText\":");
            out.string(name.as_bytes());
            out.put("}")
        }
    }
    out.put("]}}")
}
