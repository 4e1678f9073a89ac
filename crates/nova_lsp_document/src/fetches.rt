//! Which word of a fetch a name stands for.

use crate::document::Document;
use crate::json::push_comma;
use crate::positions::{Encoding, push_position};
use nova_lsp_names::Mark;
use nv_lines::Message;

/// Appends, beside each name of a tuple that is bound to a fetch, which of its words that is, counted from 0.
pub fn push_fetches(
    out: &mut Message,
    document: &Document,
    is_first: &mut bool,
    encoding: Encoding,
) {
    for token in 0..document.names.tokens.len() {
        if binds(document, token) {
            push_tuple(out, document, token.saturating_add(2), is_first, encoding)
        }
    }
}

// The same of the tuple whose names begin at a token.
fn push_tuple(
    out: &mut Message,
    document: &Document,
    names: usize,
    is_first: &mut bool,
    encoding: Encoding,
) {
    let close = next_bracket(document, names);
    if is_fetched(document, close) {
        push_words(out, document, names, close, is_first, encoding)
    }
}

// Whether a tuple is bound here.
fn binds(document: &Document, token: usize) -> bool {
    document.names.mark(token) == Mark::Let
        && document.names.mark(token.saturating_add(1)) == Mark::OpenRound
}

// The first bracket from a token on.
fn next_bracket(document: &Document, from: usize) -> usize {
    for token in from..document.names.tokens.len() {
        let mark = document.names.mark(token);
        if mark.opens() || mark.closes() {
            return token;
        }
    }
    document.names.tokens.len()
}

// Whether a fetch follows the end of a tuple of names.
fn is_fetched(document: &Document, close: usize) -> bool {
    document.names.mark(close) == Mark::CloseRound
        && document.names.mark(close.saturating_add(1)) == Mark::Equals
        && document.names.mark(close.saturating_add(2)) == Mark::Memory
        && document.names.mark(close.saturating_add(3)) == Mark::OpenSquare
}

fn push_words(
    out: &mut Message,
    document: &Document,
    from: usize,
    to: usize,
    is_first: &mut bool,
    encoding: Encoding,
) {
    let mut word: u64 = 0;
    for token in from..to {
        match document.names.mark(token) {
            Mark::Comma => word = word.saturating_add(1),
            Mark::Word => push_word(out, document, token, word, is_first, encoding),
            _ => {}
        }
    }
}

fn push_word(
    out: &mut Message,
    document: &Document,
    token: usize,
    word: u64,
    is_first: &mut bool,
    encoding: Encoding,
) {
    let at = document.names.after_of(token);
    push_comma(out, is_first);
    out.put("{\"position\":");
    push_position(out, document.starts.position(&document.text, at, encoding));
    out.put(",\"label\":\"word ");
    out.number(word);
    out.put("\",\"paddingLeft\":true}")
}
