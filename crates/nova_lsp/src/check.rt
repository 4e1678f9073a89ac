//! What is found in a source.

use diag_lint::push_warnings_as;
use diag_source::{Checked, Verdict};
use diag_text::finding::Form;
use nova_lsp_document::Document;
use nv_ast::Typed;
use nv_lines::Message;
use std::alloc::{AllocError, Global};
use std::mem::replace;

/// Checks the text, and gives what `nova check --json` prints of it.
pub fn check(alloc: Global, document: &mut Document) -> Result<Vec<u8>, AllocError> {
    let mut out = Message::new(alloc);
    let mut sizes = Message::new(alloc);
    let typed = typed_of(checked(alloc, &document.uri, &document.text, &mut out, &mut sizes));
    drop(replace(&mut document.typed, typed));
    if document.typed.is_some() {
        document.sizes = sizes.into_bytes()?;
    }
    out.into_bytes()
}

// The program, where it has no fault.
fn typed_of(verdict: Verdict) -> Option<Typed> {
    match verdict {
        Verdict::Fine(typed) => Some(typed),
        other => {
            drop(other);
            None
        }
    }
}

// Checks a text: appends what is found in it, and its sizes.
fn checked(
    alloc: Global,
    uri: &str,
    text: &[u8],
    out: &mut Message,
    sizes: &mut Message,
) -> Verdict {
    let it = Checked::new(alloc, uri, text);
    if !it.push_faults(alloc, out, Form::Json) {
        let _ = push_warnings_as(alloc, out, Form::Json, &it, "");
        it.push_sizes(alloc, sizes)
    }
    let Checked { verdict, .. } = it;
    verdict
}
