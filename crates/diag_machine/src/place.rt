//! A line of a text, and its pieces with their places.

use nv_ast::Span;
use nv_lines::{part, split_once};

/// A line of a text, without its line feed.
#[derive(Clone, Copy)]
pub struct Line<'a> {
    pub text: &'a [u8],
    /// The place of its first byte in the text.
    pub at: usize,
    /// Whether a line feed ends it.
    pub is_ended: bool,
}

/// Bytes of a line, from one place in it up to another.
#[derive(Clone, Copy)]
pub struct Mark {
    pub from: usize,
    pub after: usize,
}

impl Mark {
    /// From one place up to another.
    pub fn of(from: usize, after: usize) -> Mark {
        Mark { from, after }
    }
}

impl<'a> Line<'a> {
    /// The line of a number, which counts from 1. Behind the last line feed it is what is left, and then nothing.
    pub fn numbered(bytes: &'a [u8], number: u32) -> Line<'a> {
        let mut at = 0;
        for _ in 1..number {
            at = after_line(bytes, at);
        }
        let rest = part(bytes, at, bytes.len());
        match split_once(rest, b'\n') {
            Some((text, _)) => Line {
                text,
                at,
                is_ended: true,
            },
            None => Line {
                text: rest,
                at,
                is_ended: false,
            },
        }
    }

    /// Whether the text ends before the line.
    pub fn is_missing(&self) -> bool {
        self.text.is_empty() && !self.is_ended
    }

    /// The place behind its last byte.
    pub fn end(&self) -> Mark {
        Mark::of(self.text.len(), self.text.len())
    }

    /// The whole line.
    pub fn whole(&self) -> Mark {
        Mark::of(0, self.text.len())
    }

    /// The bytes of the text that are marked, as far as they are on the line.
    pub fn span(&self, mark: Mark) -> Span {
        let from = mark.from.min(self.text.len());
        let after = mark.after.min(self.text.len());
        Span {
            first: self.at.saturating_add(from).min(u32::MAX as usize) as u32,
            after: self.at.saturating_add(after).min(u32::MAX as usize) as u32,
        }
    }

    /// Its pieces.
    pub fn pieces(&self) -> Pieces<'a> {
        Pieces {
            line: self.text,
            from: 0,
            is_done: false,
        }
    }
}

// The place behind the line feed that follows a place.
fn after_line(bytes: &[u8], at: usize) -> usize {
    match split_once(part(bytes, at, bytes.len()), b'\n') {
        Some((line, _)) => at.saturating_add(line.len()).saturating_add(1),
        None => bytes.len(),
    }
}

/// What stands between two blanks of a line.
#[derive(Clone, Copy)]
pub struct Piece<'a> {
    pub text: &'a [u8],
    pub from: usize,
}

impl<'a> Piece<'a> {
    /// Its bytes in the line.
    pub fn mark(&self) -> Mark {
        Mark::of(self.from, self.from.saturating_add(self.text.len()))
    }
}

/// A reader of the pieces of a line.
#[derive(Clone, Copy)]
pub struct Pieces<'a> {
    line: &'a [u8],
    from: usize,
    is_done: bool,
}

impl<'a> Pieces<'a> {
    /// The next piece.
    pub fn next_piece(&mut self) -> Option<Piece<'a>> {
        if self.is_done {
            return None;
        }
        let from = self.from;
        let rest = part(self.line, from, self.line.len());
        match split_once(rest, b' ') {
            Some((text, _)) => {
                self.from = from.saturating_add(text.len()).saturating_add(1);
                Some(Piece { text, from })
            }
            None => {
                self.is_done = true;
                Some(Piece { text: rest, from })
            }
        }
    }

    /// How many pieces the line has at most.
    pub fn most(&self) -> usize {
        self.line.len().saturating_add(1)
    }

    /// The place behind the line's last byte.
    pub fn end(&self) -> Mark {
        Mark::of(self.line.len(), self.line.len())
    }
}
