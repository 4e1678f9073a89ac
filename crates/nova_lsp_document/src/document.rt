//! A source that is open in the editor.

use crate::positions::{Encoding, Position, Starts, push_position};
use nova_lsp_names::Names;
use nv_ast::Typed;
use nv_lines::{Message, part};
use nv_text::{MOST_BYTES, TextError, tokens};
use std::alloc::{AllocError, Global};

/// A source that is open in the editor, and what is known of it. Where a text has a faulty token the names are those of the
/// last one that had none.
#[derive(Drop)]
pub struct Document {
    pub uri: String,
    pub version: Option<i64>,
    pub text: Vec<u8>,
    pub starts: Starts,
    pub names: Names,
    /// The program, where the text has no fault.
    pub typed: Option<Typed>,
    /// The sizes that `nova check --verbose` prints of the last text without a fault.
    pub sizes: Vec<u8>,
}

impl Document {
    /// An empty source.
    pub fn new(alloc: Global, uri: String) -> Document {
        Document {
            uri,
            version: None,
            text: Vec::new(alloc),
            starts: Starts::none(alloc),
            names: Names::none(alloc),
            typed: None,
            sizes: Vec::new(alloc),
        }
    }

    /// Puts bytes in the place of a stretch of the text.
    pub fn replace(
        &mut self,
        alloc: Global,
        from: usize,
        to: usize,
        with: &[u8],
    ) -> Result<(), AllocError> {
        let mut text = Vec::new(alloc);
        text.extend_from_slice(part(&self.text, 0, from))?;
        text.extend_from_slice(with)?;
        text.extend_from_slice(part(&self.text, to.max(from), self.text.len()))?;
        self.text = text;
        self.starts = Starts::of(alloc, &self.text)?;
        Ok(())
    }

    /// Finds the names of a text that was changed.
    pub fn read(&mut self, alloc: Global) -> Result<(), AllocError> {
        if self.text.len() > MOST_BYTES {
            return Ok(());
        }
        match tokens(alloc, &self.text) {
            Ok(found) => self.names = Names::of(alloc, found)?,
            Err(TextError::NoMemory) => return Err(AllocError),
            Err(_) => {}
        }
        Ok(())
    }

    /// The byte of a place of the protocol.
    pub fn byte(&self, place: Position, encoding: Encoding) -> usize {
        self.starts.byte(&self.text, place, encoding)
    }

    /// Appends a stretch of the text as a range of the protocol.
    pub fn push_range(&self, out: &mut Message, from: usize, to: usize, encoding: Encoding) {
        out.put("{\"start\":");
        push_position(out, self.starts.position(&self.text, from, encoding));
        out.put(",\"end\":");
        push_position(out, self.starts.position(&self.text, to, encoding));
        out.put("}")
    }

    /// Appends the range of a token.
    pub fn push_token_range(&self, out: &mut Message, token: usize, encoding: Encoding) {
        let first = self.names.first_of(token);
        self.push_range(out, first, self.names.after_of(token), encoding)
    }

    /// The text from the first byte of a token to the last one of another token.
    pub fn between(&self, from: usize, to: usize) -> &[u8] {
        part(
            &self.text,
            self.names.first_of(from),
            self.names.after_of(to),
        )
    }
}
