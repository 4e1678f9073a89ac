//! Decimal numbers, and what is wrong with their spelling.

use crate::place::{Mark, Piece};
use diag_text::finding::Finding;
use nv_lines::{part, read_decimal};

/// The greatest number of at most ten digits.
pub const TEN_DIGITS: u64 = 9_999_999_999;

/// Says why a piece is no decimal number of at most `most`, or nothing where it is one. `what` is what the number says.
pub fn number_slip(it: &mut Finding, piece: &Piece, what: &str, most: u64) -> Option<Mark> {
    if read_decimal(piece.text, most).is_some() {
        return None;
    }
    if let Some(value) = hexadecimal(piece.text) {
        it.title.quoted(piece.text);
        it.title.put(" is hexadecimal");
        push_plain(it);
        push_instead(it, value, most);
        return Some(piece.mark());
    }
    if let Some(value) = read_decimal(without_zeros(piece.text), u64::MAX) {
        push_range(it, piece, what, value, most);
        return Some(piece.mark());
    }
    if let Some(value) = read_decimal(without_sign(piece.text), most) {
        it.title.put("a sign stands behind ");
        it.title.put(what);
        push_instead(it, value, most);
        return Some(last_byte(piece));
    }
    it.title.put("expected ");
    it.title.put(what);
    it.title.put(", found ");
    it.title.quoted(piece.text);
    push_plain(it);
    Some(piece.mark())
}

fn push_plain(it: &mut Finding) {
    it.help.line("A decimal number stands here.")
}

// A number with zeros before it, or that is too large.
fn push_range(it: &mut Finding, piece: &Piece, what: &str, value: u64, most: u64) {
    if value > most {
        it.title.put(what);
        it.title.put(" is ");
        it.title.number(value);
        it.title.put(", and at most ");
        it.title.number(most);
        return;
    }
    it.title.quoted(piece.text);
    it.title.put(" begins with a zero");
    push_instead(it, value, most)
}

fn push_instead(it: &mut Finding, value: u64, most: u64) {
    if value <= most {
        it.help.put("Write `");
        it.help.number(value);
        it.help.line("`.")
    }
}

// The number behind `0x`.
fn hexadecimal(piece: &[u8]) -> Option<u64> {
    let digits = match (
        piece.strip_prefix(b"0x".as_slice()),
        piece.strip_prefix(b"0X".as_slice()),
    ) {
        (Some(digits), _) => digits,
        (None, Some(digits)) => digits,
        (None, None) => return None,
    };
    hex_value(digits)
}

/// The value of hexadecimal digits, 1 to 15 of them.
pub fn hex_value(digits: &[u8]) -> Option<u64> {
    if digits.is_empty() || digits.len() > 15 {
        return None;
    }
    let mut value: u64 = 0;
    for digit in digits {
        value = value
            .checked_mul(16)?
            .checked_add(u64::from(hex_digit(*digit)?))?;
    }
    Some(value)
}

/// The value of a hexadecimal digit of either case.
pub fn hex_digit(byte: u8) -> Option<u8> {
    match byte {
        b'0'..=b'9' => Some(byte - b'0'),
        b'a'..=b'f' => Some(byte - b'a' + 10),
        b'A'..=b'F' => Some(byte - b'A' + 10),
        _ => None,
    }
}

// The digits behind the zeros that a number begins with, the last digit among them.
fn without_zeros(piece: &[u8]) -> &[u8] {
    for (count, byte) in piece.iter().enumerate() {
        if *byte != b'0' {
            return part(piece, count, piece.len());
        }
    }
    part(piece, piece.len().saturating_sub(1), piece.len())
}

// What stands before a last sign, as in `10:`.
fn without_sign(piece: &[u8]) -> &[u8] {
    match piece.last() {
        Some(b':' | b',' | b';' | b'.') => part(piece, 0, piece.len().saturating_sub(1)),
        _ => &[],
    }
}

fn last_byte(piece: &Piece) -> Mark {
    let after = piece.from.saturating_add(piece.text.len());
    Mark::of(after.saturating_sub(1), after)
}
