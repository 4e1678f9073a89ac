//! The lines before a content. One of them tells its length.
ghost use Rattle.std.specs.Prelude.{◌≡◌, ◌≤◌, ◌<◌, ◌+◌, ◌*◌, ◌^◌, ◌++◌, ℕ, List, [], ◌∷◌, OnOk, IfOk, IfErr, IfSome, IfNone, length};
ghost use Rattle.std.specs.Char.{digit_value};
ghost use Rattle.std.specs.Io.KnownBytes.{Consumes};
ghost use Rattle.nv_lines.specs.Line.{Lacks};
ghost use Rattle.nova_lsp.specs.Heads.{IsHead, is_blank, length_in, number_in};
ghost use Rattle.nova_lsp.specs.HeadLines.{IsKept, IsHeadless};
ghost use Rattle.nova_lsp.specs.Reading.{IsOver};

use crate::input::{Short, next_byte};
use arrayvec::ArrayVec;
use nv_lines::split_once;
use std::io::Read;

/// Reads a head, and gives the length that it tells.
pub fn next_head<R: Read>(input: &mut R) -> Result<Option<u64>, Short>
    ensures head { IfOk result (λ told. (head : List ℕ) × IsHead head told × Consumes (R.remaining input.old) (R.remaining input.new) head) }
    ensures none { IfErr result (λ e. (front : List ℕ) × Consumes (R.remaining input.old) (R.remaining input.new) front × IsHeadless front (R.remaining input.new) e) }
{
    let mut told = None;
    for _ in 0..u64::MAX {
        let mut line = Line::new();
        line.read(input)?;
        if line.is_blank() {
            return Ok(told);
        }
        told = line.told().or(told)
    }
    Err(Short::Failed)
}

// A line without its end, of which the front is kept, or that is longer.
#[derive(Drop)]
struct Line {
    front: ArrayVec<u8, 64>,
    is_long: bool,
}

impl Line {
    fn new() -> Line
        ensures { IsKept result [] }
    {
        Line {
            front: ArrayVec::new(),
            is_long: false,
        }
    }

    // Reads a line with its end.
    fn read<R: Read>(&mut self, input: &mut R) -> Result<(), Short>
        requires { IsKept self.old [] }
        ensures line { OnOk result ((line : List ℕ) × Lacks 10 line × IsKept self.new line × Consumes (R.remaining input.old) (R.remaining input.new) (line ++ 10 ∷ [])) }
        ensures over { IfErr result (λ e. (part : List ℕ) × Lacks 10 part × Consumes (R.remaining input.old) (R.remaining input.new) part × IsOver (R.remaining input.new) e) }
    {
        for _ in 0..u64::MAX {
            let byte = next_byte(input)?;
            if byte == b'\n' {
                return Ok(());
            }
            self.push(byte)
        }
        Err(Short::Failed)
    }

    fn push(&mut self, byte: u8)
        ensures { (line : List ℕ) → IsKept self.old line → IsKept self.new (line ++ byte ∷ []) }
    {
        if self.front.try_push(byte).is_err() {
            self.is_long = true;
        }
    }

    // Whether nothing stands on it.
    fn is_blank(&self) -> bool
        ensures { (line : List ℕ) → IsKept self.now line → result ≡ is_blank line }
    {
        !self.is_long && matches!(self.front.as_slice(), [] | [b'\r'])
    }

    // The length that it tells.
    fn told(&self) -> Option<u64>
        ensures { (line : List ℕ) → IsKept self.now line → result ≡ length_in line }
    {
        if self.is_long {
            None
        } else {
            length_in(self.front.as_slice())
        }
    }
}

// The length that a short line tells.
fn length_in(line: &[u8]) -> Option<u64>
    ensures { length line.now ≤ 64 → result ≡ length_in line.now }
{
    let (name, value) = split_once(line, b':')?;
    if !name.eq_ignore_ascii_case(b"content-length") {
        return None;
    }
    number_in(value.trim_ascii())
}

// The number that digits write.
fn number_in(digits: &[u8]) -> Option<u64>
    ensures { result ≡ number_in digits.now }
{
    if digits.is_empty() {
        return None;
    }
    let mut value = 0;
    for byte in digits {
        let digit = digit_of(*byte)?;
        value = with_digit(value, digit)?;
    }
    Some(value)
}

// The value of a decimal digit.
fn digit_of(byte: u8) -> Option<u64>
    ensures some { IfSome result (λ d. digit_value byte ≡ d) }
    ensures below { IfSome result (λ d. d < 10) }
    ensures none { IfNone result (10 ≤ digit_value byte) }
{
    match byte {
        b'0'..=b'9' => Some(u64::from(byte - b'0')),
        _ => None,
    }
}

// The number with one digit more.
fn with_digit(value: u64, digit: u64) -> Option<u64>
    ensures some { IfSome result (λ n. n ≡ value * 10 + digit) }
    ensures fits { IfSome result (λ n. n < 2 ^ 64) }
    ensures none { IfNone result (2 ^ 64 ≤ value * 10 + digit) }
{
    value.checked_mul(10)?.checked_add(digit)
}
