//! Where else a name is declared.

use nv_ast::{Decl, Fun, Name, Program, Span};
use nv_lines::{Message, line_of, part, strip};
use std::alloc::Global;

// What is declared: in which name space, and where.
#[derive(Clone, Copy)]
struct Declaration<'a> {
    space: u8,
    name: &'a Name,
    span: Span,
}

// The name spaces.
const LAYOUTS: u8 = 0;

const EXCEPTIONS: u8 = 1;

const FUNCTIONS: u8 = 2;

/// Appends where else a name is declared: for kind 2 before, and for the kinds 3, 8, 11 and 17 below.
pub fn push_elsewhere(
    alloc: Global,
    out: &mut Message,
    program: &Program,
    bytes: &[u8],
    kind: u8,
    span: Span,
) {
    let listed = listed(alloc, out, program);
    match kind {
        2 => push_earlier(out, &listed, bytes, span),
        3 | 8 => push_later(out, &listed, bytes, LAYOUTS, span),
        11 => push_later(out, &listed, bytes, FUNCTIONS, span),
        17 => push_later(out, &listed, bytes, EXCEPTIONS, span),
        _ => {}
    }
}

/// The head of a function whose name is `main` in letters of another case.
pub fn main_in_capitals(program: &Program) -> Option<Span> {
    for decl in program.decls.iter() {
        if let Decl::Group(funs) = decl {
            if let Some(span) = main_among(funs) {
                return Some(span);
            }
        }
    }
    None
}

fn main_among(funs: &[Fun]) -> Option<Span> {
    for fun in funs {
        if fun.name.bytes().eq_ignore_ascii_case(b"main".as_slice()) {
            return Some(Span {
                first: fun.span.first,
                after: fun.span.first.saturating_add(4),
            });
        }
    }
    None
}

// All declarations in order.
fn listed<'a>(alloc: Global, out: &mut Message, program: &'a Program) -> Vec<Declaration<'a>> {
    let mut found = Vec::new(alloc);
    for decl in program.decls.iter() {
        add(out, &mut found, decl);
    }
    found
}

fn add<'a>(out: &mut Message, found: &mut Vec<Declaration<'a>>, decl: &'a Decl) {
    match decl {
        Decl::Layout(name, _, span) => {
            let space = LAYOUTS;
            let span = *span;
            out.keep(found, Declaration { space, name, span })
        }
        Decl::Exception(name, _, span) => {
            let space = EXCEPTIONS;
            let span = *span;
            out.keep(found, Declaration { space, name, span })
        }
        Decl::Group(funs) => add_functions(out, found, funs),
    }
}

fn add_functions<'a>(out: &mut Message, found: &mut Vec<Declaration<'a>>, funs: &'a [Fun]) {
    for fun in funs {
        let declared = Declaration {
            space: FUNCTIONS,
            name: &fun.name,
            span: fun.span,
        };
        out.keep(found, declared);
    }
}

// 2: the first declaration of the name that is declared again at a span.
fn push_earlier(out: &mut Message, listed: &[Declaration], bytes: &[u8], span: Span) {
    let Some(again) = declared_at(listed, span) else {
        return;
    };
    for it in listed {
        if it.space == again.space && it.name == again.name {
            return push_where(out, "declared before", bytes, it.span);
        }
    }
}

// What is declared at a span.
fn declared_at<'a>(listed: &[Declaration<'a>], span: Span) -> Option<Declaration<'a>> {
    for it in listed {
        if it.span == span {
            return Some(*it);
        }
    }
    None
}

// What is declared below under the name that stands at a span, maybe behind `handle`.
fn push_later(out: &mut Message, listed: &[Declaration], bytes: &[u8], space: u8, span: Span) {
    let text = part(bytes, span.first as usize, span.after as usize);
    let text = match strip(text, b"handle ") {
        Some(rest) => rest,
        None => text,
    };
    for it in listed {
        let is_below = it.span.first > span.first;
        if it.space == space && is_below && begins_with_name(text, it.name.bytes()) {
            return push_where(out, "declared below", bytes, it.span);
        }
    }
}

// Whether a text begins with a name and no longer one.
fn begins_with_name(text: &[u8], name: &[u8]) -> bool {
    if !text.starts_with(name) {
        return false;
    }
    match text.get(name.len()) {
        Some(byte) => !byte.is_ascii_alphanumeric() && *byte != b'_',
        None => true,
    }
}

fn push_where(out: &mut Message, text: &str, bytes: &[u8], span: Span) {
    out.put(text);
    out.put(": line ");
    out.number(line_of(bytes, span.first as usize) as u64);
    out.line("")
}
