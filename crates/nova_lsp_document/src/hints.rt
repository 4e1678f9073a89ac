//! What an editor shows beside the text.

use crate::document::Document;
use crate::fetches::push_fetches;
use crate::json::push_comma;
use crate::positions::{Encoding, push_position};
use crate::sizes::size_line;
use memchr::memchr;
use nova_lsp_names::{Definition, Role};
use nv_lines::{Message, part};

/// Appends beside the name of each layout, exception and function how large it is, while the text has no fault, and beside a
/// name of a fetched tuple which word it is.
pub fn push_hints(out: &mut Message, document: &Document, encoding: Encoding) {
    let mut is_first = true;
    out.put("[");
    if document.typed.is_some() {
        push_sizes(out, document, &mut is_first, encoding)
    }
    push_fetches(out, document, &mut is_first, encoding);
    out.put("]")
}

fn push_sizes(out: &mut Message, document: &Document, is_first: &mut bool, encoding: Encoding) {
    let mut n: usize = 0;
    for line in document.sizes.split(|byte| *byte == b'\n') {
        if let Some(found) = next_global(document, n, line) {
            push_hint(out, document, found, line, is_first, encoding);
            n = found.saturating_add(1)
        }
    }
}

// The number of the next declaration, where a line of the sizes is about it.
fn next_global(document: &Document, from: usize, line: &[u8]) -> Option<usize> {
    if line.first() == Some(&b' ') {
        return None;
    }
    for n in from..document.names.definitions.len() {
        let it = document.names.definition(n)?;
        if it.role.is_global() {
            return if size_of(document, it, line).is_some() {
                Some(n)
            } else {
                None
            };
        }
    }
    None
}

// What a line of the sizes says of a declaration.
fn size_of<'s>(document: &Document, it: Definition, line: &'s [u8]) -> Option<&'s [u8]> {
    let word = match it.role {
        Role::Layout => "layout `",
        Role::Exception => "exception `",
        _ => "function `",
    };
    size_line(line, word, document.names.spelling(it.token))
}

fn push_hint(
    out: &mut Message,
    document: &Document,
    n: usize,
    line: &[u8],
    is_first: &mut bool,
    encoding: Encoding,
) {
    let Some(it) = document.names.definition(n) else {
        return;
    };
    let Some(size) = size_of(document, it, line) else {
        return;
    };
    let at = document.names.after_of(it.token);
    push_comma(out, is_first);
    out.put("{\"position\":");
    push_position(out, document.starts.position(&document.text, at, encoding));
    out.put(",\"label\":");
    out.string(short(size));
    out.put(",\"paddingLeft\":true}")
}

// Of a function its size; of a layout its bits and words, and of an exception its number and words.
fn short(size: &[u8]) -> &[u8] {
    if !size.starts_with(b"group ") {
        return size;
    }
    let after = part(size, comma_in(size).saturating_add(2), size.len());
    part(after, 0, comma_in(after))
}

// The place of the first comma, or the end.
fn comma_in(text: &[u8]) -> usize {
    match memchr(b',', text) {
        Some(at) => at,
        None => text.len(),
    }
}
