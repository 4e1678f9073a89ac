//! Lines of a text and parts of a line.

ghost use Rattle.std.specs.Prelude.{◌≡◌, ◌≢◌, ◌↔◌, ℕ, List, [], ◌∷◌, ◌++◌, IsTrue, IfSome, IfNone, MatchOption, MatchBool, ◌≤◌, ◌≤ℤ◌, ℤ, decimal};
ghost use Rattle.std.specs.Fmt.{signed_decimal};
ghost use Rattle.nv_lines.specs.Line.{Lacks, parts};

use crate::number::{read_decimal, read_signed};
use memchr::memchr;
use std::marker::Model;

/// What stands before and after the first byte that is `byte`; `None` where there is none.
pub fn split_once(bytes: &[u8], byte: u8) -> Option<(&[u8], &[u8])>
    ensures split { IfSome result (λ p. bytes.now ≡ p.0.now ++ byte ∷ p.1.now) }
    ensures first { IfSome result (λ p. Lacks byte p.0.now) }
    ensures none { IfNone result (Lacks byte bytes.now) }
{
    let at = memchr(byte, bytes)?;
    Some((&bytes[..at], &bytes[at + 1..]))
}

/// What follows `front`, where the bytes begin with it.
pub fn strip<'a>(bytes: &'a [u8], front: &[u8]) -> Option<&'a [u8]>
    ensures { MatchOption result ((rest : List ℕ) → bytes.now ≢ front.now ++ rest) (λ rest. bytes.now ≡ front.now ++ rest.now) }
{
    bytes.strip_prefix(front)
}

/// A reader of the lines of a text. Contracts see it as the bytes that are left.
#[derive(Drop)]
pub struct Lines<'a> {
    rest: &'a [u8],
}

impl<'a> Model for Lines<'a> {
    ghost Value = { List ℕ };

    ghost view = { λ lines. lines.rest.now };
}

impl<'a> Lines<'a> {
    /// A reader of the whole text.
    pub fn of(text: &'a [u8]) -> Lines<'a>
        ensures { result ≡ text.now }
    {
        Lines { rest: text }
    }

    /// The next line, without its LF. `None` where no LF is left: then the text is at its end, or its last line is
    /// not whole.
    pub fn next_line(&mut self) -> Option<&'a [u8]>
        ensures line { IfSome result (λ line. self.old ≡ line.now ++ 10 ∷ self.new) }
        ensures one { IfSome result (λ line. Lacks 10 line.now) }
        ensures none { IfNone result (Lacks 10 self.old) }
        ensures left { IfNone result (self.new ≡ self.old) }
    {
        let (line, rest) = split_once(self.rest, b'\n')?;
        self.rest = rest;
        Some(line)
    }

    /// Whether no byte is left.
    pub fn is_done(&self) -> bool
        ensures { IsTrue result ↔ (self.now ≡ []) }
    {
        self.rest.is_empty()
    }
}

/// A reader of the parts of a line. Contracts see it as the list of the parts that are left.
#[derive(Drop)]
pub struct Parts<'a> {
    rest: Option<&'a [u8]>,
}

impl<'a> Model for Parts<'a> {
    ghost use Rattle.std.specs.Prelude.{List, ℕ};
    ghost use Rattle.std.specs.Option.{option_copied};
    ghost use Rattle.nv_lines.specs.Left.{parts_left};

    ghost Value = { List (List ℕ) };

    ghost view = { λ reader. parts_left (option_copied reader.rest) };
}

impl<'a> Parts<'a> {
    /// A reader of all parts of a line.
    pub fn of(line: &'a [u8]) -> Parts<'a>
        ensures { result ≡ parts line.now }
    {
        Parts { rest: Some(line) }
    }

    /// The next part. A line has one part at least, which may be empty.
    pub fn next_part(&mut self) -> Option<&'a [u8]>
        ensures { MatchOption result ((self.old ≡ []) × (self.new ≡ [])) (λ part. self.old ≡ part.now ∷ self.new) }
    {
        let bytes = self.rest?;
        match split_once(bytes, b' ') {
            Some((part, rest)) => {
                self.rest = Some(rest);
                Some(part)
            }
            None => {
                self.rest = None;
                Some(bytes)
            }
        }
    }

    /// Whether no part is left.
    pub fn is_done(&self) -> bool
        ensures { IsTrue result ↔ (self.now ≡ []) }
    {
        self.rest.is_none()
    }

    /// Takes the next part, and says whether it is this name.
    pub fn next_is(&mut self, name: &[u8]) -> bool
        ensures { MatchBool result (self.old ≡ name.now ∷ self.new) ((ps : List (List ℕ)) → self.old ≢ name.now ∷ ps) }
    {
        match self.next_part() {
            Some(part) => part == name,
            None => false,
        }
    }

    /// Takes the next part, and gives the number of at most `most` of which it is the spelling.
    pub fn next_decimal(&mut self, most: u64) -> Option<u64>
        ensures { MatchOption result ((n : ℕ) (ps : List (List ℕ)) → n ≤ most → self.old ≢ decimal n ∷ ps) (λ n. (n ≤ most) × (self.old ≡ decimal n ∷ self.new)) }
    {
        read_decimal(self.next_part()?, most)
    }

    /// Takes the next part, and gives the number from `low` to `high` of which it is the spelling.
    pub fn next_signed(&mut self, low: i32, high: i32) -> Option<i32>
        ensures { MatchOption result ((z : ℤ) (ps : List (List ℕ)) → low ≤ℤ z → z ≤ℤ high → self.old ≢ signed_decimal z ∷ ps) (λ z. (low ≤ℤ z) × (z ≤ℤ high) × (self.old ≡ signed_decimal z ∷ self.new)) }
    {
        read_signed(self.next_part()?, low, high)
    }
}
