//! Places in a text, as the protocol counts them and as bytes.

use nv_lines::{Message, part};
use std::alloc::{AllocError, Global};

/// In which units the protocol counts the places on a line.
#[derive(Clone, Copy, PartialEq, Eq)]
pub enum Encoding {
    Utf8,
    Utf16,
}

/// A line and a place on it, both counted from 0.
#[derive(Clone, Copy)]
pub struct Position {
    pub line: usize,
    pub character: usize,
}

/// Where the lines of a text begin.
#[derive(Drop)]
pub struct Starts {
    starts: Vec<usize>,
}

impl Starts {
    /// Those of an empty text.
    pub fn none(alloc: Global) -> Starts {
        Starts {
            starts: Vec::new(alloc),
        }
    }

    /// Those of a text.
    pub fn of(alloc: Global, text: &[u8]) -> Result<Starts, AllocError> {
        let mut starts = Vec::new(alloc);
        push_starts(&mut starts, text)?;
        Ok(Starts { starts })
    }

    /// How many ends of lines there are.
    pub fn count(&self) -> usize {
        self.starts.len()
    }

    /// The first byte of a line. After the last line it is the text's end or beyond.
    pub fn start(&self, line: usize) -> usize {
        let Some(n) = line.checked_sub(1) else {
            return 0;
        };
        match self.starts.get(n) {
            Some(it) => *it,
            None => usize::MAX,
        }
    }

    // The line that has a byte.
    fn line_of(&self, at: usize) -> usize {
        let mut low: usize = 0;
        let mut high = self.starts.len();
        for _ in 0..64 {
            if low >= high {
                return low;
            }
            let middle = low.midpoint(high);
            if self.start(middle.saturating_add(1)) <= at {
                low = middle.saturating_add(1)
            } else {
                high = middle
            }
        }
        low
    }

    /// The place of a byte.
    pub fn position(&self, text: &[u8], at: usize, encoding: Encoding) -> Position {
        let at = at.min(text.len());
        let line = self.line_of(at);
        let front = part(text, self.start(line), at);
        Position {
            line,
            character: units(front, encoding),
        }
    }

    /// The byte of a place. A place behind a line's end is that end.
    pub fn byte(&self, text: &[u8], place: Position, encoding: Encoding) -> usize {
        let from = self.start(place.line).min(text.len());
        let to = self.start(place.line.saturating_add(1)).min(text.len());
        let line = without_end(part(text, from, to));
        from.saturating_add(bytes_of(line, place.character, encoding))
    }
}

// Appends the places after the ends of lines.
fn push_starts(starts: &mut Vec<usize>, text: &[u8]) -> Result<(), AllocError> {
    for (n, byte) in text.iter().enumerate() {
        if *byte == b'\n' {
            starts.push(n.saturating_add(1))?;
        }
    }
    Ok(())
}

// A line without its end.
fn without_end(line: &[u8]) -> &[u8] {
    match line {
        [front @ .., b'\r', b'\n'] => front,
        [front @ .., b'\n'] => front,
        _ => line,
    }
}

// How many units bytes have.
fn units(bytes: &[u8], encoding: Encoding) -> usize {
    if encoding == Encoding::Utf8 {
        return bytes.len();
    }
    let mut count: usize = 0;
    for byte in bytes {
        count = count.saturating_add(units_of(*byte));
    }
    count
}

// How many units of UTF-16 a character has, given at its first byte in UTF-8, and 0 at its later bytes.
fn units_of(byte: u8) -> usize {
    match byte {
        0x80..=0xbf => 0,
        0xf0..=0xff => 2,
        _ => 1,
    }
}

// How many bytes of a line so many units are.
fn bytes_of(line: &[u8], character: usize, encoding: Encoding) -> usize {
    if encoding == Encoding::Utf8 {
        return character.min(line.len());
    }
    let mut count: usize = 0;
    for (n, byte) in line.iter().enumerate() {
        let next = units_of(*byte);
        if count >= character && next > 0 {
            return n;
        }
        count = count.saturating_add(next);
    }
    line.len()
}

/// Appends a place as an object of JSON.
pub fn push_position(out: &mut Message, place: Position) {
    out.put("{\"line\":");
    out.number(place.line as u64);
    out.put(",\"character\":");
    out.number(place.character as u64);
    out.put("}")
}
