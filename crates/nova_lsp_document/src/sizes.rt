//! How a declaration is written, and what its sizes are.

use crate::document::Document;
use nova_lsp_names::{Definition, Role};

/// The text that declares a layout, an exception or a function, without a body.
pub fn header(document: &Document, it: Definition) -> &[u8] {
    if it.role != Role::Function {
        return document.between(it.token.saturating_sub(1), it.last.max(it.token));
    }
    let last = match document.names.partners.get(it.last) {
        Some(open) if *open > it.token => open.saturating_sub(1),
        _ => it.token,
    };
    document.between(it.token.saturating_sub(1), last)
}

/// What a line of the sizes says of this, where it is about it.
pub fn size_line<'s>(line: &'s [u8], word: &str, name: &[u8]) -> Option<&'s [u8]> {
    let rest = line.strip_prefix(word.as_bytes())?;
    rest.strip_prefix(name)?.strip_prefix(b"`: ")
}
