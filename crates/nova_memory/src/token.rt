//! The tokens of a readable text.
ghost use Rattle.std.specs.Prelude.{◌≡◌, ◌≢◌, ◌<◌, ◌++◌, ◌↔◌, [], All, IsTrue, length, slice_index};
ghost use Rattle.nv_lines.specs.Line.{Lacks};
ghost use Rattle.nova_memory.specs.Tokens.{BeginsComment, IsApart, IsBlank, IsLineEnd};

use crate::error::{ReadableError, Reason};
use crate::told::told;
use nv_base::NoMemory;
use nv_lines::split_once;
use std::alloc::Global;

/// Bytes between blanks, or a text with its quotes.
#[derive(Clone, Copy)]
pub struct Token<'a> {
    pub text: &'a [u8],
    /// The place of its first byte.
    pub from: usize,
}

impl<'a> Token<'a> {
    /// It can't stand where it does.
    pub fn bad(&self, reason: Reason) -> ReadableError {
        let (first, after) = self.places();
        ReadableError::Bad(first, after, told(self.text, reason))
    }

    /// The place of its first byte, and the one behind its last.
    pub fn places(&self) -> (u32, u32) {
        let after = self.from.saturating_add(self.text.len());
        (place(self.from), place(after))
    }
}

fn place(at: usize) -> u32 {
    at.min(u32::MAX as usize) as u32
}

/// The tokens of a text in order.
pub fn tokens_of<'a>(alloc: Global, bytes: &'a [u8]) -> Result<Vec<Token<'a>>, NoMemory> {
    let mut tokens = Vec::new(alloc);
    let mut rest = bytes;
    while !rest.is_empty() {
        let front = front_of(rest);
        if let Some(text) = front.text {
            let from = bytes.len().saturating_sub(rest.len());
            tokens.push(Token { text, from })?;
        }
        rest = front.after;
    }
    Ok(tokens)
}

// What a text begins with: a token or else what parts tokens; and what follows.
#[derive(Clone, Copy)]
struct Front<'a> {
    text: Option<&'a [u8]>,
    after: &'a [u8],
}

fn front_of(rest: &[u8]) -> Front<'_>
    requires { rest.now ≢ [] }
    ensures shorter { length result.after.now < length rest.now }
{
    let [first, after @ ..] = rest else {
        return Front {
            text: None,
            after: rest,
        };
    };
    if is_blank(*first) {
        return Front { text: None, after };
    }
    if begins_comment(rest) {
        let (_, after) = comment_of(rest);
        return Front { text: None, after };
    }
    let (text, after) = if *first == b'"' {
        quoted_of(rest)
    } else {
        word_of(rest)
    };
    Front {
        text: Some(text),
        after,
    }
}

fn is_blank(byte: u8) -> bool
    ensures { IsTrue result ↔ IsBlank byte }
{
    matches!(byte, b' ' | b'\t' | b'\r' | b'\n')
}

fn begins_comment(rest: &[u8]) -> bool
    ensures { IsTrue result ↔ BeginsComment rest.now }
{
    matches!(rest, [b'#', ..] | [b'/', b'/', ..])
}

// The first line without its end, and what follows from that end on.
fn comment_of(rest: &[u8]) -> (&[u8], &[u8])
    ensures split { rest.now ≡ result.0.now ++ result.1.now }
    ensures line { Lacks 10 result.0.now }
    ensures end { IsLineEnd result.1.now }
{
    match split_once(rest, b'\n') {
        Some((line, _)) => rest.split_at(line.len()),
        None => (rest, &[]),
    }
}

// The bytes before the first blank, and what follows from that on.
fn word_of(rest: &[u8]) -> (&[u8], &[u8])
    ensures split { rest.now ≡ result.0.now ++ result.1.now }
    ensures word { All (λ c. IsBlank c → ⊥) result.0.now }
    ensures apart { IsApart result.1.now }
{
    for (at, byte) in rest.iter().enumerate() {
        if is_blank(*byte) {
            return rest.split_at(at);
        }
    }
    (rest, &[])
}

// Bytes from a quote on up to the next one, or else up to the line's end, and what follows.
fn quoted_of(rest: &[u8]) -> (&[u8], &[u8])
    requires { slice_index rest.now 0 ≡ 34 }
    ensures shorter { length result.1.now < length rest.now }
    ensures split { rest.now ≡ result.0.now ++ result.1.now }
{
    let (line, _) = comment_of(rest);
    let at = match split_once(&line[1..], b'"') {
        Some((inner, _)) => inner.len() + 2,
        None => line.len(),
    };
    rest.split_at(at)
}
