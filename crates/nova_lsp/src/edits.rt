//! The edits that format a text.

use nova_fmt::formatted;
use nova_lsp_document::{Document, Encoding, push_comma};
use nv_lines::{Message, part};
use nv_text::{MOST_BYTES, TextError};
use std::alloc::Global;

/// Appends the edits that format a text; none where it has a faulty token.
pub fn push_formatting(alloc: Global, out: &mut Message, document: &Document, encoding: Encoding) {
    if document.text.len() > MOST_BYTES {
        return out.put("[]");
    }
    match formatted(alloc, &document.text) {
        Ok(text) => push_new_text(out, document, &text, encoding),
        Err(TextError::NoMemory) => out.fail(),
        Err(_) => out.put("[]"),
    }
}

// Appends the edits that make a text another one. Lines stay where they are, so each line that differs is an edit.
fn push_new_text(out: &mut Message, document: &Document, text: &[u8], encoding: Encoding) {
    let mut is_first = true;
    let mut line: usize = 0;
    out.put("[");
    for new in text.split(|byte| *byte == b'\n') {
        push_new_line(out, document, line, new, &mut is_first, encoding);
        line = line.saturating_add(1)
    }
    out.put("]")
}

fn push_new_line(
    out: &mut Message,
    document: &Document,
    line: usize,
    new: &[u8],
    is_first: &mut bool,
    encoding: Encoding,
) {
    let from = document.starts.start(line).min(document.text.len());
    let to = end_of(document, line);
    if part(&document.text, from, to) != new {
        push_comma(out, is_first);
        push_edit(out, document, from, to, new, encoding)
    }
}

// The byte after the last one of a line, without its line feed.
fn end_of(document: &Document, line: usize) -> usize {
    if line < document.starts.count() {
        document
            .starts
            .start(line.saturating_add(1))
            .saturating_sub(1)
    } else {
        document.text.len()
    }
}

/// Appends the edit that puts bytes in the place of a stretch of a text.
pub fn push_edit(
    out: &mut Message,
    document: &Document,
    from: usize,
    to: usize,
    new: &[u8],
    encoding: Encoding,
) {
    out.put("{\"range\":");
    document.push_range(out, from, to, encoding);
    out.put(",\"newText\":");
    out.string(new);
    out.put("}")
}
