//! The part of a faulty expression, declaration or statement that is at fault.

use diag_syntax::place::Place;
use nv_ast::Span;
use nv_lines::part;
use nv_text::Token;
use nv_types::Fault;

/// The part of a fault's span that is at fault, as far as the kind tells it.
pub fn narrowed(bytes: &[u8], tokens: &[Token], fault: Fault) -> Span {
    let span = fault.span;
    let front = part(bytes, 0, span.after as usize);
    let found = tokens_to(tokens, span.after);
    let first = Place::at(front, found, span.first as usize);
    let last = Place::at(front, found, span.after as usize);
    let some = match fault.kind {
        2 => declared_name(&first),
        4 => faulty_size(&first, found.len()),
        8 => unknown_in_head(&first, found.len()),
        9 if first.next_is("[") => second_parameter(&first, found.len()),
        9 | 13 | 16 | 17 => pattern(&first, &last),
        14 => last_value(&first, &last),
        3 if first.is(0, "layout") => unknown_layout(&first, found.len()),
        3 => argument_of(&first, &["unpack", "pack"]),
        11 => Some(first.span(0)),
        15 | 21 => Some(last.span(1)),
        19 => argument_of(&first, &["sram", "sdram", "scratch"]),
        23 => bool_parameter(&first, found.len()),
        _ => None,
    };
    some.unwrap_or(span)
}

// The tokens that end at a byte or before it.
fn tokens_to(tokens: &[Token], after: u32) -> &[Token] {
    let count = tokens.partition_point(|token: &Token| token.span.after <= after);
    match tokens.get(..count) {
        Some(front) => front,
        None => tokens,
    }
}

// The name that is declared.
fn declared_name(first: &Place) -> Option<Span> {
    if first.is_among(0, &["layout", "exception"]) {
        return Some(first.later(1).span(0));
    }
    Some(first.span(0))
}

// What stands in the brackets after one of these words.
fn argument_of(first: &Place, words: &[&str]) -> Option<Span> {
    let second = first.later(1);
    if first.is_among(0, words) && second.is(0, "[") {
        return Some(first.later(2).span(0));
    }
    None
}

// The first field or gap with no bits or too many.
fn faulty_size(first: &Place, count: usize) -> Option<Span> {
    for n in first.index()..count {
        let place = first.moved(n);
        if place.is(1, ":") && place.is_number(0) && !place.is_size(32) {
            return Some(joined(place.span(2), place.span(0)));
        }
        if place.is(1, "{") && place.is_number(0) && !place.is_size(1024) {
            return Some(place.span(0));
        }
    }
    None
}

// The first name of a layout in a declaration that isn't declared above it.
fn unknown_layout(first: &Place, count: usize) -> Option<Span> {
    for n in first.index()..count {
        let place = first.moved(n);
        let is_named = place.is_among(1, &["=", "##", ":"]) && place.is_word(0);
        if is_named && !place.is(0, "overlay") && !is_declared(first, &place) {
            return Some(place.span(0));
        }
    }
    None
}

// The first name of a layout in the types of a head that isn't declared above it.
fn unknown_in_head(first: &Place, count: usize) -> Option<Span> {
    for n in first.index()..count {
        let place = first.moved(n);
        let is_named = place.is(1, "(") && place.is_among(2, &["packed", "unpacked"]);
        if is_named && !is_declared(first, &place) {
            return Some(place.span(0));
        }
    }
    None
}

// The first parameter of a head whose name an earlier one has.
fn second_parameter(first: &Place, count: usize) -> Option<Span> {
    for n in first.index()..count {
        let place = first.moved(n);
        if place.is_parameter() && is_parameter_before(first, &place) {
            return Some(place.span(0));
        }
        if place.is(0, "]") && place.next_is(":") {
            return None;
        }
    }
    None
}

// Whether a parameter of the name of another one stands before it.
fn is_parameter_before(first: &Place, name: &Place) -> bool {
    for n in first.index()..name.index() {
        let place = first.moved(n);
        if place.is_parameter() && place.text(0) == name.text(0) {
            return true;
        }
    }
    false
}

// What follows the statements that an expression begins with, where it begins with some.
fn last_value(first: &Place, last: &Place) -> Option<Span> {
    let mut depth: usize = 0;
    let mut from = None;
    for n in first.index()..last.index() {
        let place = first.moved(n);
        if place.is_among(0, &["{", "(", "["]) {
            depth = depth.saturating_add(1);
        } else if place.is_among(0, &["}", ")", "]"]) {
            depth = depth.saturating_sub(1);
        } else if depth == 0 && place.is(0, ";") {
            from = Some(place.later(1).span(0));
        } else if depth == 0 && place.is_among(0, &["if", "try"]) {
            return if place.is(1, ";") {
                Some(joined(place.span(0), last.span(1)))
            } else {
                None
            };
        }
    }
    Some(joined(from?, last.span(1)))
}

// Whether a layout of this name is declared above.
fn is_declared(first: &Place, name: &Place) -> bool {
    for n in 0..first.index() {
        let place = first.moved(n);
        if place.is(1, "layout") && place.text(0) == name.text(0) {
            return true;
        }
    }
    false
}

/// The last field of a name in a span, or the span.
pub fn narrowed_to(bytes: &[u8], tokens: &[Token], span: Span, name: &[u8]) -> Span {
    let found = tokens_to(tokens, span.after);
    let first = Place::at(bytes, found, span.first as usize);
    let mut shown = span;
    for n in first.index()..found.len() {
        let place = first.moved(n);
        if place.text(0) == name && (place.next_is(":") || place.next_is("=")) {
            shown = place.span(0);
        }
    }
    shown
}

// From one span to another.
fn joined(one: Span, other: Span) -> Span {
    Span {
        first: one.first,
        after: other.after,
    }
}

// The pattern of a `let`, the head of a handler, or the name of an exception.
fn pattern(first: &Place, last: &Place) -> Option<Span> {
    match first.text(0) {
        b"let" => before_sign(first, last.index()),
        b"try" => handler(first, last.index()),
        b"raise" => Some(first.later(1).span(0)),
        _ => None,
    }
}

// What stands between a `let` and its `=`.
fn before_sign(first: &Place, count: usize) -> Option<Span> {
    for n in first.index()..count {
        let place = first.moved(n);
        if place.is(0, "=") {
            return Some(joined(first.later(1).span(0), place.span(1)));
        }
    }
    None
}

// The head of the handler of a `try`: the last one in it that stands in no brackets.
fn handler(first: &Place, count: usize) -> Option<Span> {
    let mut depth: usize = 0;
    let mut head = None;
    for n in first.index()..count {
        let place = first.moved(n);
        if place.is_among(0, &["{", "(", "["]) {
            depth = depth.saturating_add(1);
        } else if place.is_among(0, &["}", ")", "]"]) {
            depth = depth.saturating_sub(1);
        } else if depth == 0 && place.is(0, "handle") {
            head = Some(place);
        }
    }
    match head {
        Some(place) => Some(joined(place.span(0), after_patterns(&place, count))),
        None => None,
    }
}

// The bracket that ends the patterns of a handler.
fn after_patterns(head: &Place, count: usize) -> Span {
    for n in head.index()..count {
        let place = head.moved(n);
        if place.is(0, "]") {
            return place.span(0);
        }
    }
    head.span(0)
}

// The first parameter of a head that has a bool.
fn bool_parameter(first: &Place, count: usize) -> Option<Span> {
    let mut name = first.span(0);
    for n in first.index()..count {
        let place = first.moved(n);
        if place.is_parameter() {
            name = place.span(0);
        }
        if place.is(0, "bool") {
            return Some(joined(name, place.span(0)));
        }
        if place.is(0, "]") && place.later(1).is(0, ":") {
            return None;
        }
    }
    None
}
