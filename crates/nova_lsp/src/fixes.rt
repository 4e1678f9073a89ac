//! What mends a fault or a warning, as its help says.

use crate::edits::push_edit;
use nova_lsp_document::{Document, Encoding, Position, list_at, number_at, push_comma, text_at};
use nv_lines::{Message, split_once};
use serde_json::Value;

// A stretch of the text.
#[derive(Clone, Copy)]
struct Stretch {
    from: usize,
    to: usize,
}

/// Appends what mends the faults and the warnings that a request names.
pub fn push_actions(out: &mut Message, document: &Document, params: &Value, encoding: Encoding) {
    let mut is_first = true;
    out.put("[");
    for it in list_at(params, "/context/diagnostics") {
        let place = stretch_of(document, it, encoding);
        let message = text_at(it, "/message");
        push_renamings(out, document, place, message, &mut is_first, encoding);
        push_underscores(out, document, place, message, &mut is_first, encoding);
        push_removal(out, document, place, message, &mut is_first, encoding)
    }
    out.put("]")
}

// The stretch that a diagnostic is about.
fn stretch_of(document: &Document, it: &Value, encoding: Encoding) -> Stretch {
    let from = Position {
        line: number_at(it, "/range/start/line"),
        character: number_at(it, "/range/start/character"),
    };
    let to = Position {
        line: number_at(it, "/range/end/line"),
        character: number_at(it, "/range/end/character"),
    };
    Stretch {
        from: document.byte(from, encoding),
        to: document.byte(to, encoding),
    }
}

// Of a name that is unknown the nearest ones.
fn push_renamings(
    out: &mut Message,
    document: &Document,
    place: Stretch,
    message: &str,
    is_first: &mut bool,
    encoding: Encoding,
) {
    let Some(nearest) = nearest_in(message.as_bytes()) else {
        return;
    };
    let Some(unknown) = name_in(document, place, quoted(message.as_bytes())) else {
        return;
    };
    let mut is_name = false;
    for piece in nearest.split(|byte| *byte == b'`') {
        if is_name && is_word(piece) {
            push_fix(out, document, unknown, piece, is_first, encoding)
        }
        is_name = !is_name
    }
}

// What a message says of the names that are nearest.
fn nearest_in(message: &[u8]) -> Option<&[u8]> {
    for line in message.split(|byte| *byte == b'\n') {
        if let Some(rest) = line.strip_prefix(b"nearest:") {
            return Some(rest);
        }
    }
    None
}

// Whether it may stand in a text of JSON as it is.
fn is_word(piece: &[u8]) -> bool {
    for byte in piece {
        if !byte.is_ascii_alphanumeric() && *byte != b'_' {
            return false;
        }
    }
    true
}

// What stands first between backquotes.
fn quoted(message: &[u8]) -> &[u8] {
    let Some((_, rest)) = split_once(message, b'`') else {
        return &[];
    };
    match split_once(rest, b'`') {
        Some((name, _)) => name,
        None => &[],
    }
}

// Where a name stands in a stretch.
fn name_in(document: &Document, place: Stretch, name: &[u8]) -> Option<Stretch> {
    if name.is_empty() {
        return None;
    }
    for token in 0..document.names.tokens.len() {
        let from = document.names.first_of(token);
        let to = document.names.after_of(token);
        if place.from <= from && to <= place.to && document.names.spelling(token) == name {
            return Some(Stretch { from, to });
        }
    }
    None
}

// Of a name that is never used an underscore before it or in its place.
fn push_underscores(
    out: &mut Message,
    document: &Document,
    place: Stretch,
    message: &str,
    is_first: &mut bool,
    encoding: Encoding,
) {
    let Some(unused) = name_in(document, place, quoted(message.as_bytes())) else {
        return;
    };
    let before = Stretch {
        from: unused.from,
        to: unused.from,
    };
    if message.contains("begin its name with `_`") {
        push_fix(out, document, before, b"_", is_first, encoding)
    }
    if message.contains("Write `_` in its place") {
        push_fix(out, document, unused, b"_", is_first, encoding)
    }
}

// Of what has to go its removal.
fn push_removal(
    out: &mut Message,
    document: &Document,
    place: Stretch,
    message: &str,
    is_first: &mut bool,
    encoding: Encoding,
) {
    if message.ends_with("There is no unary plus. Leave it out.")
        || message.ends_with("One `;` is enough.")
    {
        push_fix(out, document, place, b"", is_first, encoding)
    }
}

fn push_fix(
    out: &mut Message,
    document: &Document,
    place: Stretch,
    with: &[u8],
    is_first: &mut bool,
    encoding: Encoding,
) {
    push_comma(out, is_first);
    out.put("{\"title\":\"");
    push_title(out, place, with);
    out.put("\",\"kind\":\"quickfix\",\"edit\":{\"changes\":{");
    out.string(document.uri.as_bytes());
    out.put(":[");
    push_edit(out, document, place.from, place.to, with, encoding);
    out.put("]}}}")
}

fn push_title(out: &mut Message, place: Stretch, with: &[u8]) {
    if with.is_empty() {
        return out.put("Leave it out");
    }
    out.put(if place.from == place.to {
        "Begin the name with `"
    } else {
        "Write `"
    });
    out.bytes(with);
    out.put("`")
}
