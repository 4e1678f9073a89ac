//! What is told of the thing under the cursor.

use diag_types::Walk;
use nova_lsp_document::{Document, Encoding, header, size_line};
use nova_lsp_names::{Definition, Mark, Occurrence, Role};
use nv_ast::{Sort, Span, Typed};
use nv_lines::{Message, part};
use std::alloc::Global;

/// Appends what is told of the token at a byte.
pub fn push_hover(
    alloc: Global,
    out: &mut Message,
    document: &Document,
    at: usize,
    encoding: Encoding,
) {
    let Some(token) = document.names.token_at(at) else {
        return out.put("null");
    };
    let mut text = Message::new(alloc);
    push_text(alloc, &mut text, document, token);
    if text.is_empty() {
        return out.put("null");
    }
    out.put("{\"contents\":{\"kind\":\"markdown\",\"value\":");
    out.string_of(&text);
    out.put("},\"range\":");
    document.push_token_range(out, token, encoding);
    out.put("}")
}

fn push_text(alloc: Global, text: &mut Message, document: &Document, token: usize) {
    if let Some(n) = number_at(document, token) {
        return push_number(text, n);
    }
    if let Some(it) = document.names.at(token) {
        push_name(alloc, text, document, it)
    }
}

fn number_at(document: &Document, token: usize) -> Option<u32> {
    match document.names.tokens.get(token) {
        Some(it) => match it.sort {
            Sort::Number(n) => Some(n),
            _ => None,
        },
        None => None,
    }
}

// Appends a number in decimal, in hexadecimal, and as the four bytes of an address.
fn push_number(out: &mut Message, n: u32) {
    out.put("`");
    out.number(u64::from(n));
    out.put("` = `0x");
    push_hexadecimal(out, n);
    out.put("`");
    if n > 0xff_ffff {
        out.put(" = `");
        push_address(out, n);
        out.put("`")
    }
    out.line("")
}

fn push_hexadecimal(out: &mut Message, n: u32) {
    let mut is_begun = false;
    for place in 0..8u32 {
        let digit = ((n >> (28 - 4 * place)) & 15) as u8;
        is_begun = is_begun || digit > 0 || place == 7;
        if is_begun {
            out.byte(if digit < 10 {
                b'0' + digit
            } else {
                b'a' + (digit - 10)
            })
        }
    }
}

fn push_address(out: &mut Message, n: u32) {
    for place in 0..4u32 {
        if place > 0 {
            out.put(".");
        }
        out.number(u64::from((n >> (24 - 8 * place)) & 255))
    }
}

fn push_name(alloc: Global, text: &mut Message, document: &Document, it: Occurrence) {
    let definition = match it.definition {
        Some(n) => document.names.definition(n),
        None => None,
    };
    match definition {
        Some(found) if found.role.is_global() => push_global(text, document, found),
        Some(found) if found.role == Role::Field => push_field(alloc, text, document, it, found),
        Some(found) => push_local(alloc, text, document, it, found),
        None => push_type_of(alloc, text, document, it),
    }
}

fn push_code(text: &mut Message, code: &[u8]) {
    text.line("```nova");
    text.bytes(code);
    text.line("");
    text.line("```")
}

// Appends a layout, an exception or a function with what is said of its size.
fn push_global(text: &mut Message, document: &Document, it: Definition) {
    push_code(text, header(document, it));
    push_sizes(text, document, it)
}

// The word that the sizes have for a role.
fn word_of(role: Role) -> &'static str {
    match role {
        Role::Layout | Role::Joined => "layout `",
        Role::Exception => "exception `",
        _ => "function `",
    }
}

// Appends what the sizes say of a declaration.
fn push_sizes(text: &mut Message, document: &Document, it: Definition) {
    let name = document.names.spelling(it.token);
    let mut is_inside = false;
    for line in document.sizes.split(|byte| *byte == b'\n') {
        if is_inside && line.first() != Some(&b' ') {
            return;
        }
        if is_inside {
            push_item(text, line);
        } else if let Some(rest) = size_line(line, word_of(it.role), name) {
            is_inside = true;
            text.bytes(rest);
            text.line("")
        }
    }
}

// Appends a line on a field as an item.
fn push_item(text: &mut Message, line: &[u8]) {
    text.put("\n- ");
    text.bytes(part(line, 4, line.len()));
    text.line("")
}

// Appends a field with its type, its word and its bits.
fn push_field(
    alloc: Global,
    text: &mut Message,
    document: &Document,
    it: Occurrence,
    field: Definition,
) {
    push_code(
        text,
        document.between(field.token, field.last.max(field.token)),
    );
    push_type_of(alloc, text, document, it);
    let mut path = Message::new(alloc);
    push_path(&mut path, document, field);
    if let Ok(path) = path.into_bytes() {
        push_place(text, document, layout_of(document, field), &path)
    }
}

// The most fields that stand inside one another.
const MOST_HEIGHT: u32 = 100;

// The layout that has a field.
fn layout_of(document: &Document, field: Definition) -> Definition {
    let mut it = field;
    for _ in 0..MOST_HEIGHT {
        match owner_of(document, it) {
            Some(owner) => it = owner,
            None => return it,
        }
    }
    it
}

fn owner_of(document: &Document, it: Definition) -> Option<Definition> {
    document.names.definition(it.owner?)
}

// Appends the names of a field and of the fields around it, from the outermost one on.
fn push_path(path: &mut Message, document: &Document, field: Definition) {
    for height in (0..MOST_HEIGHT).rev() {
        if let Some(it) = above(document, field, height) {
            if it.role == Role::Field {
                path.bytes(document.names.spelling(it.token));
                path.put(if height > 0 { "." } else { "" })
            }
        }
    }
}

// What is so many levels above a field.
fn above(document: &Document, field: Definition, height: u32) -> Option<Definition> {
    let mut it = field;
    for _ in 0..height {
        it = owner_of(document, it)?;
    }
    Some(it)
}

// Appends what the sizes say of the field of a layout with a path. A record that is no layout has none.
fn push_place(text: &mut Message, document: &Document, layout: Definition, path: &[u8]) {
    if layout.role != Role::Layout {
        return;
    }
    let name = document.names.spelling(layout.token);
    let mut is_inside = false;
    for line in document.sizes.split(|byte| *byte == b'\n') {
        if line.first() != Some(&b' ') {
            is_inside = size_line(line, "layout `", name).is_some();
        } else if is_inside {
            if let Some(rest) = field_line(line, path) {
                text.bytes(rest);
                return text.line("");
            }
        }
    }
}

fn field_line<'s>(line: &'s [u8], path: &[u8]) -> Option<&'s [u8]> {
    part(line, 4, line.len())
        .strip_prefix(path)?
        .strip_prefix(b": ")
}

// Appends a variable with its type.
fn push_local(
    alloc: Global,
    text: &mut Message,
    document: &Document,
    it: Occurrence,
    variable: Definition,
) {
    if variable.role == Role::Parameter {
        return push_code(text, parameter(document, variable.token));
    }
    let used = use_of(document, it);
    push_type_of(alloc, text, document, used)
}

// A parameter with its type.
fn parameter(document: &Document, token: usize) -> &[u8] {
    let mut last = token;
    let mut open: usize = 0;
    for n in token..document.names.tokens.len() {
        let mark = document.names.mark(n);
        if mark.opens() {
            open = open.saturating_add(1)
        } else if open == 0 && (mark == Mark::Comma || mark.closes()) {
            return document.between(token, last);
        } else if mark.closes() {
            open = open.saturating_sub(1)
        }
        last = n
    }
    document.between(token, token)
}

// An occurrence of a variable that isn't its definition.
fn use_of(document: &Document, it: Occurrence) -> Occurrence {
    for other in document.names.occurrences.iter() {
        if other.definition == it.definition && !is_defined_at(document, *other) {
            return *other;
        }
    }
    it
}

fn is_defined_at(document: &Document, it: Occurrence) -> bool {
    match it.definition {
        Some(n) => match document.names.definition(n) {
            Some(found) => found.token == it.token,
            None => false,
        },
        None => false,
    }
}

// Appends a name with the type that it has as an expression.
fn push_type_of(alloc: Global, text: &mut Message, document: &Document, it: Occurrence) {
    let Some(typed) = &document.typed else {
        return;
    };
    let Ok(first) = u32::try_from(document.names.first_of(first_token(document, it))) else {
        return;
    };
    let Ok(after) = u32::try_from(document.names.after_of(it.token)) else {
        return;
    };
    let span = Span { first, after };
    let mut code = Message::new(alloc);
    code.bytes(document.names.spelling(it.token));
    code.put(": ");
    if push_type(alloc, &mut code, typed, span) {
        text.line("```nova");
        text.message_text(&code);
        text.line("");
        text.line("```")
    }
}

// The first token of the expression that ends with a name: before a field the value and its fields.
fn first_token(document: &Document, it: Occurrence) -> usize {
    let mut token = it.token;
    for _ in 0..document.names.tokens.len() {
        let Some(dot) = token.checked_sub(1) else {
            return token;
        };
        if document.names.mark(dot) != Mark::Dot {
            return token;
        }
        token = value_before(document, dot.saturating_sub(1))
    }
    token
}

// The first token of a value that ends with a token: a name, brackets, a call or an `unpack`.
fn value_before(document: &Document, last: usize) -> usize {
    let open = match document.names.partners.get(last) {
        Some(open) => *open,
        None => last,
    };
    let before = document.names.mark(open.saturating_sub(1));
    if document.names.mark(last) == Mark::CloseSquare && before == Mark::Word {
        return open.saturating_sub(1);
    }
    if document.names.mark(last) == Mark::CloseRound && before == Mark::CloseSquare {
        return open.saturating_sub(4);
    }
    open
}

// Appends the type of the expression at a span, and gives whether there is one.
fn push_type(alloc: Global, out: &mut Message, typed: &Typed, span: Span) -> bool {
    let mut walk = Walk::new(alloc, VALUE, span);
    walk.program(typed.program());
    let is_found = push_found(alloc, out, walk);
    is_found
}

// The kind of fault at which a walk tells the type of an expression.
const VALUE: u8 = 22;

fn push_found(alloc: Global, out: &mut Message, walk: Walk) -> bool {
    let Walk { note, .. } = walk;
    let Ok(told) = note.into_bytes() else {
        return false;
    };
    for line in told.split(|byte| *byte == b'\n') {
        if let Some(found) = line.strip_prefix(b"found: ") {
            out.bytes(found);
            return true;
        }
    }
    false
}
