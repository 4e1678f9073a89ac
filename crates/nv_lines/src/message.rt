//! A text for people, as it grows.

use crate::write::push_decimal;
use std::alloc::{AllocError, Global};

/// A text that grows. Where memory runs out it stays as it is from then on, and `into_bytes` tells.
#[derive(Drop)]
pub struct Message {
    text: Vec<u8>,
    is_short: bool,
}

impl Message {
    /// No text yet.
    pub fn new(alloc: Global) -> Message {
        Message {
            text: Vec::new(alloc),
            is_short: false,
        }
    }

    /// The whole text.
    pub fn into_bytes(self) -> Result<Vec<u8>, AllocError> {
        if self.is_short {
            return Err(AllocError);
        }
        Ok(self.text)
    }

    /// Whether nothing is there yet.
    pub fn is_empty(&self) -> bool {
        self.text.is_empty()
    }

    /// Whether memory ran out.
    pub fn is_short(&self) -> bool {
        self.is_short
    }

    /// Memory ran out for what belongs to the text.
    pub fn fail(&mut self) {
        self.is_short = true;
    }

    /// Memory may have run out for what belongs to the text.
    pub fn fail_if(&mut self, is_short: bool) {
        self.is_short = self.is_short || is_short;
    }

    /// Adds to a list that the text is made from.
    pub fn keep<T: Copy + Drop>(&mut self, list: &mut Vec<T>, it: T) {
        if list.push(it).is_err() {
            self.is_short = true;
        }
    }

    /// Appends bytes.
    pub fn bytes(&mut self, bytes: &[u8]) {
        if !self.is_short {
            self.is_short = self.text.extend_from_slice(bytes).is_err();
        }
    }

    /// Appends another text.
    pub fn message_text(&mut self, other: &Message) {
        self.bytes(&other.text);
        self.fail_if(other.is_short)
    }

    /// Appends another text as a string of JSON, without the end of its last line.
    pub fn string_of(&mut self, other: &Message) {
        self.string(without_line_end(&other.text));
        self.fail_if(other.is_short)
    }

    /// Appends a text.
    pub fn put(&mut self, text: &str) {
        self.bytes(text.as_bytes())
    }

    /// Appends a line.
    pub fn line(&mut self, text: &str) {
        self.put(text);
        self.put("\n")
    }

    /// Appends a byte.
    pub fn byte(&mut self, byte: u8) {
        if !self.is_short {
            self.is_short = self.text.push(byte).is_err();
        }
    }

    /// Appends a number.
    pub fn number(&mut self, n: u64) {
        if !self.is_short {
            self.is_short = push_decimal(&mut self.text, n).is_err();
        }
    }

    /// Appends a number and what is counted.
    pub fn counted(&mut self, n: u64, what: &str) {
        self.number(n);
        self.put(" ");
        self.put(what);
        self.put(if n == 1 { "" } else { "s" })
    }

    /// Appends a piece of a source between backquotes, with `?` for what isn't printable.
    pub fn quoted(&mut self, piece: &[u8]) {
        self.byte(b'`');
        self.shown(piece);
        self.byte(b'`')
    }

    /// Appends a piece of a source, with `?` for what isn't printable.
    pub fn shown(&mut self, piece: &[u8]) {
        for byte in piece {
            self.byte(shown(*byte));
        }
    }
}

// The byte that stands for a byte of a source: a control character would change a terminal, so `?` stands for it.
fn shown(byte: u8) -> u8 {
    match byte {
        b'\t' => b'\t',
        0..=31 | 127 => b'?',
        _ => byte,
    }
}

/// The bytes from one place to another, as far as they are there.
pub fn part(bytes: &[u8], from: usize, to: usize) -> &[u8] {
    let to = to.min(bytes.len());
    let from = from.min(to);
    &bytes[from..to]
}

fn without_line_end(bytes: &[u8]) -> &[u8] {
    match bytes.last() {
        Some(byte) if *byte == b'\n' => part(bytes, 0, bytes.len().saturating_sub(1)),
        _ => bytes,
    }
}
