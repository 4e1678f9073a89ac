//! Where names are defined and used.

use crate::document::Document;
use crate::json::push_comma;
use crate::positions::Encoding;
use nova_lsp_names::Occurrence;
use nv_lines::Message;

/// The name at a byte, and what it stands for.
pub fn name_at(document: &Document, at: usize) -> Option<Occurrence> {
    let token = document.names.token_at(at)?;
    document.names.at(token)
}

/// The definition of the name at a byte.
pub fn definition_at(document: &Document, at: usize) -> Option<usize> {
    name_at(document, at)?.definition
}

/// Appends where the name at a byte is defined.
pub fn push_definition(out: &mut Message, document: &Document, at: usize, encoding: Encoding) {
    match token_of_definition(document, at) {
        Some(token) => push_location(out, document, token, encoding),
        None => out.put("null"),
    }
}

fn token_of_definition(document: &Document, at: usize) -> Option<usize> {
    let n = definition_at(document, at)?;
    Some(document.names.definition(n)?.token)
}

fn push_location(out: &mut Message, document: &Document, token: usize, encoding: Encoding) {
    out.put("{\"uri\":");
    out.string(document.uri.as_bytes());
    out.put(",\"range\":");
    document.push_token_range(out, token, encoding);
    out.put("}")
}

/// Whether an occurrence is one of a definition, and not the definition itself unless that is asked for.
pub fn is_of(document: &Document, it: Occurrence, definition: usize, has_itself: bool) -> bool {
    if it.definition != Some(definition) {
        return false;
    }
    has_itself || !is_itself(document, it, definition)
}

fn is_itself(document: &Document, it: Occurrence, definition: usize) -> bool {
    match document.names.definition(definition) {
        Some(found) => found.token == it.token,
        None => false,
    }
}

/// Appends where the name at a byte is used.
pub fn push_references(
    out: &mut Message,
    document: &Document,
    at: usize,
    has_itself: bool,
    encoding: Encoding,
) {
    let definition = definition_at(document, at);
    let mut is_first = true;
    out.put("[");
    for it in document.names.occurrences.iter() {
        if definition.is_some_and(|n| is_of(document, *it, n, has_itself)) {
            push_comma(out, &mut is_first);
            push_location(out, document, it.token, encoding)
        }
    }
    out.put("]")
}

/// Appends the ranges where the name at a byte stands.
pub fn push_highlights(out: &mut Message, document: &Document, at: usize, encoding: Encoding) {
    let definition = definition_at(document, at);
    let mut is_first = true;
    out.put("[");
    for it in document.names.occurrences.iter() {
        if definition.is_some_and(|n| is_of(document, *it, n, true)) {
            push_comma(out, &mut is_first);
            out.put("{\"range\":");
            document.push_token_range(out, it.token, encoding);
            out.put("}")
        }
    }
    out.put("]")
}
