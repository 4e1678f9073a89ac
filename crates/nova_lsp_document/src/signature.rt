//! The parameters of the function whose arguments are written.

use crate::document::Document;
use crate::json::push_comma;
use crate::sizes::header;
use nova_lsp_names::{Definition, Mark, Role};
use nv_lines::Message;

// A call that isn't ended: the token of its name, and how many arguments are.
#[derive(Clone, Copy)]
struct Call {
    token: usize,
    arguments: u64,
}

/// Appends the function of the innermost call around a byte, and which argument stands there.
pub fn push_signature(out: &mut Message, document: &Document, at: usize) {
    let Some(call) = call_around(document, document.names.tokens_before(at)) else {
        return out.put("null");
    };
    match function_of(document, call.token) {
        Some(it) => push_function(out, document, it, call.arguments),
        None => out.put("null"),
    }
}

// The innermost call that is begun before a token.
fn call_around(document: &Document, token: usize) -> Option<Call> {
    let mut arguments: u64 = 0;
    let mut closed: usize = 0;
    for n in (0..token).rev() {
        let mark = document.names.mark(n);
        if mark.closes() {
            closed = closed.saturating_add(1)
        } else if mark == Mark::Comma && closed == 0 {
            arguments = arguments.saturating_add(1)
        } else if mark.opens() {
            if closed == 0 {
                return call_at(n, mark, arguments);
            }
            closed = closed.saturating_sub(1)
        }
    }
    None
}

fn call_at(bracket: usize, mark: Mark, arguments: u64) -> Option<Call> {
    if mark != Mark::OpenSquare {
        return None;
    }
    Some(Call {
        token: bracket.checked_sub(1)?,
        arguments,
    })
}

fn function_of(document: &Document, token: usize) -> Option<Definition> {
    let it = document.names.at(token)?;
    let found = document.names.definition(it.definition?)?;
    let is_called = found.role == Role::Function || found.role == Role::Exception;
    if is_called { Some(found) } else { None }
}

fn push_function(out: &mut Message, document: &Document, it: Definition, argument: u64) {
    out.put("{\"signatures\":[{\"label\":");
    out.string(header(document, it));
    out.put(",\"parameters\":[");
    push_parameters(out, document, it.token.saturating_add(1));
    out.put("]}],\"activeSignature\":0,\"activeParameter\":");
    out.number(argument);
    out.put("}")
}

// Appends what stands between the commas of a bracket.
fn push_parameters(out: &mut Message, document: &Document, bracket: usize) {
    let mut is_first = true;
    let mut open: usize = 0;
    let mut first = bracket.saturating_add(1);
    for n in first..document.names.tokens.len() {
        let mark = document.names.mark(n);
        let is_end = open == 0 && mark.closes();
        if is_end || open == 0 && mark == Mark::Comma {
            if first < n {
                push_parameter(out, document, first, n.saturating_sub(1), &mut is_first);
            }
            first = n.saturating_add(1)
        }
        if is_end {
            return;
        }
        open = depth_after(open, mark)
    }
}

fn depth_after(open: usize, mark: Mark) -> usize {
    if mark.opens() {
        open.saturating_add(1)
    } else if mark.closes() {
        open.saturating_sub(1)
    } else {
        open
    }
}

fn push_parameter(
    out: &mut Message,
    document: &Document,
    first: usize,
    last: usize,
    is_first: &mut bool,
) {
    push_comma(out, is_first);
    out.put("{\"label\":");
    out.string(document.between(first, last));
    out.put("}")
}
