//! What each request is answered.

use crate::edits::push_formatting;
use crate::fixes::push_actions;
use crate::hover::push_hover;
use crate::method::Method;
use crate::rename::{Refusal, push_rename, push_renamed_range};
use crate::{Fault, NO_MEMORY};
use nova_lsp_document::{
    Document, Encoding, position_of, push_completion, push_definition, push_folds, push_highlights,
    push_hints, push_references, push_signature, push_symbols, text_at,
};
use nv_lines::Message;
use serde_json::Value;
use std::alloc::Global;

const NO_NAME: Fault = Fault {
    code: -32602,
    message: "a name is a letter or `_`, then letters, digits and `_`, and no keyword",
};

const UNKNOWN: Fault = Fault {
    code: -32803,
    message: "not all is known of what this name stands for",
};

const TAKEN: Fault = Fault {
    code: -32803,
    message: "with this name the source would be refused, or mean another thing",
};

/// Appends the result of a request about a document, or gives why there is none.
pub fn push_result(
    alloc: Global,
    out: &mut Message,
    document: &Document,
    method: Method,
    params: &Value,
    encoding: Encoding,
) -> Option<Fault> {
    let at = document.byte(position_of(params), encoding);
    match method {
        Method::Hover => push_hover(alloc, out, document, at, encoding),
        Method::Definition => push_definition(out, document, at, encoding),
        Method::References => push_references(out, document, at, has_itself(params), encoding),
        Method::DocumentHighlight => push_highlights(out, document, at, encoding),
        Method::DocumentSymbol => push_symbols(out, document, encoding),
        Method::Formatting => push_formatting(alloc, out, document, encoding),
        Method::FoldingRange => push_folds(out, document),
        Method::PrepareRename => push_renamed_range(out, document, at, encoding),
        Method::Rename => {
            let name = text_at(params, "/newName");
            return fault_of(push_rename(alloc, out, document, at, name, encoding));
        }
        Method::Completion => push_completion(alloc, out, document, at),
        Method::SignatureHelp => push_signature(out, document, at),
        Method::CodeAction => push_actions(out, document, params, encoding),
        Method::InlayHint => push_hints(out, document, encoding),
    }
    None
}

// Whether the definition is asked for, too.
fn has_itself(params: &Value) -> bool {
    match params
        .pointer("/context/includeDeclaration")
        .and_then(Value::as_bool)
    {
        Some(it) => it,
        None => true,
    }
}

fn fault_of(refusal: Option<Refusal>) -> Option<Fault> {
    match refusal? {
        Refusal::Unknown => Some(UNKNOWN),
        Refusal::NoName => Some(NO_NAME),
        Refusal::Taken => Some(TAKEN),
        Refusal::NoMemory => Some(NO_MEMORY),
    }
}
