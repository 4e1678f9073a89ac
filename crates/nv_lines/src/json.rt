//! Texts as strings of JSON.

use crate::message::{Message, part};
use std::str::from_utf8;

impl Message {
    /// Appends bytes as a string of JSON. U+FFFD takes the place of each byte that belongs to no character.
    pub fn string(&mut self, bytes: &[u8]) {
        let mut next: usize = 0;
        self.byte(b'"');
        for (n, byte) in bytes.iter().enumerate() {
            if n >= next {
                let piece = character_at(bytes, n);
                self.character(*byte, piece);
                next = n.saturating_add(piece.len());
            }
        }
        self.byte(b'"')
    }

    // Appends a character that begins with a byte, or none where its bytes are no character.
    fn character(&mut self, byte: u8, piece: &[u8]) {
        match byte {
            b'"' => self.put("\\\""),
            b'\\' => self.put("\\\\"),
            b'\n' => self.put("\\n"),
            b'\t' => self.put("\\t"),
            0..=31 => self.control(byte),
            _ if piece.is_empty() => self.put("\\ufffd"),
            _ => self.bytes(piece),
        }
    }

    // Appends a control character, which is below 32.
    fn control(&mut self, byte: u8) {
        let digit = byte % 16;
        self.put(if byte < 16 { "\\u000" } else { "\\u001" });
        self.byte(if digit < 10 {
            b'0' + digit
        } else {
            b'a' + (digit - 10)
        })
    }
}

// The bytes of the character at a place, or none.
fn character_at(bytes: &[u8], at: usize) -> &[u8] {
    for length in 1..5 {
        let piece = part(bytes, at, at.saturating_add(length));
        if piece.len() == length && from_utf8(piece).is_ok() {
            return piece;
        }
    }
    &[]
}
