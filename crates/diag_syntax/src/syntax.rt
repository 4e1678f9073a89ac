//! Why a text has no program.

use crate::address::explain_address;
use crate::alike::alike_at;
use crate::expected::Expected;
use crate::misspelled::{misspelled_before, misspelled_here};
use crate::place::Place;
use crate::slip::{Mark, Slip};
use crate::slips::{byte_advice, slip_at};
use diag_text::finding::{Code, Finding};
use nv_ast::Span;
use nv_lines::{Message, column_of, line_of, part};
use nv_text::{MOST_BYTES, TextError, Token, tokens};
use std::alloc::Global;

/// Says why a text of at most 262,144 bytes has no program.
pub fn explain_text(alloc: Global, it: &mut Finding, bytes: &[u8], fault: TextError) {
    match fault {
        TextError::NoMemory => it.help.fail(),
        TextError::Char(at) => explain_char(it, bytes, at),
        TextError::Number(at) => explain_word(
            it,
            word_at(bytes, at),
            "syntax number",
            "the number is above 4,294,967,295",
            "A word has 32 bits. Write the number as several words.",
        ),
        TextError::Name(at) => explain_word(
            it,
            word_at(bytes, at),
            "syntax name",
            "the word has more than 64 bytes",
            "Choose a shorter name.",
        ),
        TextError::Syntax(at) => explain_syntax(alloc, it, bytes, at),
        TextError::Deep(at) => explain_word(
            it,
            word_at(bytes, at),
            "syntax deep",
            "from here on every program is nested more than 100 deep",
            "Give the inner parts names, by `let`, a layout or a function.",
        ),
    }
}

// A fault of the word at a span, and what helps.
fn explain_word(it: &mut Finding, span: Span, code: &'static str, sentence: &str, advice: &str) {
    it.span = Some(span);
    it.code = Code::Named(code);
    it.title.put(sentence);
    it.help.line(advice)
}

// A byte that begins no token.
fn explain_char(it: &mut Finding, bytes: &[u8], at: u32) {
    let rest = part(bytes, at as usize, bytes.len());
    it.span = Some(Span {
        first: at,
        after: at.saturating_add(1),
    });
    it.code = Code::Named("syntax char");
    it.title.put("no token begins with ");
    let front = part(bytes, 0, at as usize);
    match alike_at(rest) {
        Some(alike) if !front.is_empty() => {
            it.title.quoted(alike.text.as_bytes());
            it.title.put(", ");
            it.title.put(alike.number);
            it.help.line(alike.help)
        }
        _ => {
            push_byte(&mut it.title, rest);
            it.help.line(byte_advice(front, rest))
        }
    }
}

// Appends the first byte of a text: where it is a sign the sign, else its number.
fn push_byte(out: &mut Message, rest: &[u8]) {
    let Some(byte) = rest.first() else {
        return;
    };
    if byte.is_ascii_graphic() {
        out.quoted(&[*byte])
    } else {
        out.put("the byte ");
        out.number(u64::from(*byte))
    }
}

// The letters and digits from a place on, or one byte where none is there.
fn word_at(bytes: &[u8], at: u32) -> Span {
    let mut after = at.saturating_add(1);
    for byte in part(bytes, after as usize, bytes.len()) {
        if !byte.is_ascii_alphanumeric() && *byte != b'_' {
            break;
        }
        after = after.saturating_add(1);
    }
    Span { first: at, after }
}

// A token with which the text begins no program.
fn explain_syntax(alloc: Global, it: &mut Finding, bytes: &[u8], at: u32) {
    if bytes.len() > MOST_BYTES {
        return;
    }
    match tokens(alloc, bytes) {
        Ok(found) => {
            explain_token(alloc, it, bytes, at, &found);
            drop(found)
        }
        Err(_) => it.help.fail(),
    }
}

// The same, with the tokens of the text.
fn explain_token(alloc: Global, it: &mut Finding, bytes: &[u8], at: u32, found: &[Token]) {
    let place = Place::at(bytes, found, at as usize);
    it.code = Code::Named("syntax syntax");
    if explain_address(alloc, it, bytes, at as usize) {
        return;
    }
    let expected = Expected::at(alloc, &mut it.help, bytes, found, at as usize);
    let slip = slip_of(alloc, &mut it.help, &place, &expected);
    it.span = Some(marked(&place, slip.mark));
    match slip.title {
        Some(title) => it.title.put(title),
        None => push_title(alloc, &mut it.title, &place, &expected),
    }
    let is_told = push_open(&mut it.help, bytes, &place, &expected);
    if !is_told || !slip.is_general {
        push_help(&mut it.help, slip.help)
    }
}

// The slip at a place. Where none is known, a keyword may be misspelled.
fn slip_of(alloc: Global, out: &mut Message, place: &Place, expected: &Expected) -> Slip {
    if let Some(slip) = misspelled_before(alloc, out, place) {
        return slip;
    }
    let slip = slip_at(place, expected);
    if !slip.is_general {
        return slip;
    }
    match misspelled_here(alloc, out, place, expected) {
        Some(found) => found,
        None => slip,
    }
}

fn push_help(out: &mut Message, help: &str) {
    if !help.is_empty() {
        out.line(help)
    }
}

// Where a slip is shown. After the text's end the last token's end is.
fn marked(place: &Place, mark: Mark) -> Span {
    match mark {
        Mark::Before(back) => place.span(back),
        Mark::Found => {
            if place.text(0).is_empty() {
                end_of(place.span(1))
            } else {
                place.span(0)
            }
        }
        Mark::Gap => end_of(place.span(1)),
    }
}

// The place right after a span.
fn end_of(span: Span) -> Span {
    Span {
        first: span.after,
        after: span.after,
    }
}

// Appends what is expected and what is found.
fn push_title(alloc: Global, out: &mut Message, place: &Place, expected: &Expected) {
    out.put("expected ");
    expected.push(alloc, out);
    out.put(", found ");
    if place.text(0).is_empty() {
        out.put("the end of the text")
    } else {
        out.quoted(place.text(0))
    }
}

// Appends which bracket isn't closed, or which `if` has no second arm, where this is the fault, and gives whether it is.
fn push_open(out: &mut Message, bytes: &[u8], place: &Place, expected: &Expected) -> bool {
    if let Some(choice) = unfinished(place, expected) {
        push_opened(out, bytes, &choice);
        out.line(" has no `else`.");
        return true;
    }
    let Some(open) = place.open_bracket() else {
        return false;
    };
    if !is_unclosed(place, &open, expected) {
        return false;
    }
    push_opened(out, bytes, &open);
    out.line(" isn't closed.");
    true
}

// Appends a token with its line and column.
fn push_opened(out: &mut Message, bytes: &[u8], open: &Place) {
    let at = open.span(0).first as usize;
    out.quoted(open.text(0));
    out.put(" of ");
    out.number(line_of(bytes, at) as u64);
    out.put(":");
    out.number(column_of(bytes, at) as u64)
}

// The `if` without a second arm that a place ends.
fn unfinished<'a, 't>(place: &Place<'a, 't>, expected: &Expected) -> Option<Place<'a, 't>> {
    let is_ended = place.is(0, "}") && place.is(1, ";") && expected.has("1");
    let is_cut = place.is_among(0, &[";", "}", ")", "]"]) || place.text(0).is_empty();
    if is_ended || is_cut && expected.has("else") && !place.next_is("else") {
        return place.open_choice();
    }
    None
}

// Whether a bracket should have been closed before a place.
fn is_unclosed(place: &Place, open: &Place, expected: &Expected) -> bool {
    if is_named(place, open) {
        return false;
    }
    if place.text(0).is_empty() || place.begins_declaration() {
        return true;
    }
    if open.is(0, "{") && place.is_in_layout() && place.ends_declaration() {
        return true;
    }
    let closing = open.closing();
    expected.has(closing) && !open.is(0, "{") && !place.is(0, closing) && place.is_among(0, &ENDING)
}

// Whether a token is a keyword in the place of the name of a parameter or a field.
fn is_named(place: &Place, open: &Place) -> bool {
    open.is_among(0, &["[", "{"]) && place.next_is(":")
}

// Tokens before which the round and square brackets of a statement are closed.
const ENDING: [&str; 7] = [";", ")", "]", "}", "let", "else", "handle"];
