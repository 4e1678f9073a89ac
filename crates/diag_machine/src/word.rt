//! Words of eight hexadecimal digits, and what is wrong with their spelling.

use crate::number::{hex_digit, hex_value};
use crate::place::{Mark, Piece};
use diag_text::finding::Finding;
use nv_lines::{Message, part, read_decimal, read_word};

/// Says why a piece is no word, or nothing where it is one.
pub fn word_slip(it: &mut Finding, piece: &Piece) -> Option<Mark> {
    if read_word(piece.text).is_some() {
        return None;
    }
    if piece.text.starts_with(b"0x") || piece.text.starts_with(b"0X") {
        push_prefix(it, piece);
        return Some(piece.mark());
    }
    if let Some(word) = address_word(piece.text) {
        it.title.quoted(piece.text);
        it.title.put(" is no word of eight hexadecimal digits");
        it.help.put("The address is the word `");
        push_hex(&mut it.help, word);
        it.help.line("`.");
        return Some(piece.mark());
    }
    if is_station(piece.text) {
        it.title.quoted(piece.text);
        it.title.put(" is no word of eight hexadecimal digits");
        it.help.line("An address of six bytes fills a word and the front of the next one.");
        return Some(piece.mark());
    }
    match first_other(piece.text) {
        Some(at) => Some(push_other(it, piece, at)),
        None => {
            push_length(it, piece);
            Some(piece.mark())
        }
    }
}

// A word with `0x`.
fn push_prefix(it: &mut Finding, piece: &Piece) {
    it.title.put("a word has no `0x`");
    let digits = part(piece.text, 2, piece.text.len());
    match hex_value(digits) {
        Some(value) if value <= u64::from(u32::MAX) => push_instead(it, value as u32),
        _ => it.help.line("A word is eight hexadecimal digits."),
    }
}

fn push_instead(it: &mut Finding, word: u32) {
    it.help.put("Write `");
    push_hex(&mut it.help, word);
    it.help.line("`.")
}

// Appends a word as eight digits.
fn push_hex(out: &mut Message, word: u32) {
    push_digit(out, word >> 28);
    push_digit(out, word >> 24);
    push_digit(out, word >> 20);
    push_digit(out, word >> 16);
    push_digit(out, word >> 12);
    push_digit(out, word >> 8);
    push_digit(out, word >> 4);
    push_digit(out, word)
}

// Appends the last digit of a number.
fn push_digit(out: &mut Message, n: u32) {
    out.byte(match (n % 16) as u8 {
        digit @ 0..=9 => b'0' + digit,
        digit => b'a' + (digit - 10),
    })
}

// A piece of hexadecimal digits, fewer or more than eight.
fn push_length(it: &mut Finding, piece: &Piece) {
    it.title.put("a word has 8 digits, and ");
    it.title.quoted(piece.text);
    it.title.put(" has ");
    it.title.number(piece.text.len() as u64);
    if piece.text.len() < 8 {
        if let Some(value) = hex_value(piece.text) {
            it.help.put("Words are hexadecimal, with zeros before a small number. ");
            push_instead(it, value.min(u64::from(u32::MAX)) as u32)
        }
        if piece.text.len() % 2 == 0 {
            it.help.line("Four bytes are one word: of `45 00 00 54` it is `45000054`.")
        }
    } else if piece.text.len() % 8 == 0 {
        it.help.line("A blank parts two words.")
    } else {
        it.help.line("Words are hexadecimal, of 32 bits.")
    }
}

// A byte that is no hexadecimal digit.
fn push_other(it: &mut Finding, piece: &Piece, at: usize) -> Mark {
    let sign = part(piece.text, at, at.saturating_add(1));
    it.title.quoted(sign);
    it.title.put(" is no hexadecimal digit");
    it.help.line(match sign {
        b"," | b";" => "One blank parts two words.",
        b"-" => "A word has no sign: -1 is `ffffffff`.",
        _ => "A word is eight hexadecimal digits, as `0000000a`.",
    });
    let from = piece.from.saturating_add(at);
    Mark::of(from, from.saturating_add(1))
}

// The first place of a byte that is no hexadecimal digit.
fn first_other(piece: &[u8]) -> Option<usize> {
    for (at, byte) in piece.iter().enumerate() {
        if hex_digit(*byte).is_none() {
            return Some(at);
        }
    }
    None
}

// The word of an address of four bytes, as `10.0.0.1`.
fn address_word(piece: &[u8]) -> Option<u32> {
    let mut rest = piece;
    let mut word: u32 = 0;
    for n in 0..4 {
        let (byte, after) = next_byte(rest, n == 3)?;
        word = word.checked_mul(256)?.checked_add(byte)?;
        rest = after;
    }
    Some(word)
}

// The number before the next dot, or the whole rest.
fn next_byte(rest: &[u8], is_last: bool) -> Option<(u32, &[u8])> {
    let (digits, after) = if is_last {
        (rest, rest)
    } else {
        nv_lines::split_once(rest, b'.')?
    };
    let byte = read_decimal(digits, 255)?;
    Some((byte.min(255) as u32, after))
}

// Whether it is an address of six bytes, as `02:00:5e:10:00:01`.
fn is_station(piece: &[u8]) -> bool {
    if piece.len() != 17 {
        return false;
    }
    for (at, byte) in piece.iter().enumerate() {
        let is_right = if at % 3 == 2 {
            *byte == b':' || *byte == b'-'
        } else {
            hex_digit(*byte).is_some()
        };
        if !is_right {
            return false;
        }
    }
    true
}
