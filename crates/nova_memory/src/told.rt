//! What a token tells of the reason that it can't stand where it does.

use crate::error::Reason;

/// The reason that a token tells, or the one that is known already.
pub fn told(text: &[u8], reason: Reason) -> Reason {
    match reason {
        Reason::Nowhere => told_begin(text),
        Reason::Number => told_number(text),
        Reason::Word => told_argument(text),
        Reason::Bytes | Reason::Odd => told_bytes(text, reason),
        other => other,
    }
}

// In place of the name of a memory.
fn told_begin(text: &[u8]) -> Reason {
    match text {
        b"arg" | b"Args" | b"ARGS" | b"arguments" | b"argv" => Reason::Arguments,
        b"ended" | b"raised" | b"fault" | b"going" => Reason::Outcome,
        b"fun" | b"layout" | b"exception" => Reason::Source,
        b"params" => Reason::Assembly,
        _ => told_sign(text, Reason::Nowhere),
    }
}

// In place of a size or an address.
fn told_number(text: &[u8]) -> Reason {
    match text {
        [b'0', b'0'..=b'9', ..] => Reason::Zero,
        [_, .., b','] => Reason::Comma,
        _ => Reason::Number,
    }
}

// In place of an argument.
fn told_argument(text: &[u8]) -> Reason {
    match told_sign(text, Reason::Word) {
        Reason::Word => {}
        other => return other,
    }
    match text {
        [b'0', b'x', digits @ ..] if digits.len() > 8 && is_hexadecimal(digits) => Reason::Above,
        [b'-', ..] => Reason::Negative,
        [b'1'..=b'9', ..] if is_decimal(text) => Reason::Above,
        [b'0', ..] if is_decimal(text) => Reason::Zero,
        _ if is_hexadecimal(text) => Reason::Prefix,
        _ if is_dotted(text) => Reason::Four,
        _ => Reason::Word,
    }
}

// In place of bytes.
fn told_bytes(text: &[u8], reason: Reason) -> Reason {
    if is_hexadecimal(text) {
        return reason;
    }
    match told_sign(text, Reason::Bytes) {
        Reason::Bytes => {}
        other => return other,
    }
    match text {
        [digits @ .., b':'] if is_hexadecimal(digits) => Reason::Offset,
        _ if has(text, b'.') && has(text, b'/') => Reason::Mask,
        _ if is_dotted(text) => Reason::Four,
        _ if has(text, b':') || has(text, b'-') => Reason::Address,
        _ => Reason::Bytes,
    }
}

// Signs that stand nowhere in such a text, and the names of memories.
fn told_sign(text: &[u8], reason: Reason) -> Reason {
    match text {
        [b'/', b'*', ..] | [b';', ..] | [b'%', ..] | [b'-', b'-', ..] => Reason::Comment,
        b":" | b"=" => Reason::Apart,
        [b'\'', ..] => Reason::Quote,
        [_, .., b','] | [_, .., b';'] => Reason::Comma,
        _ if begins_memory(text) => Reason::Memory,
        _ => reason,
    }
}

// Whether a text begins like the name of a memory.
fn begins_memory(text: &[u8]) -> bool {
    for name in [
        b"sram".as_slice(),
        b"sdram".as_slice(),
        b"scratch".as_slice(),
        b"dram".as_slice(),
    ] {
        if let Some(front) = text.get(..name.len()) {
            if front.eq_ignore_ascii_case(name) {
                return true;
            }
        }
    }
    false
}

// Whether all bytes are hexadecimal digits, and some are there.
fn is_hexadecimal(text: &[u8]) -> bool {
    !text.is_empty() && text.iter().all(|byte| byte.is_ascii_hexdigit())
}

fn is_decimal(text: &[u8]) -> bool {
    text.iter().all(|byte| byte.is_ascii_digit())
}

fn is_dotted(text: &[u8]) -> bool {
    text.iter()
        .all(|byte| byte.is_ascii_digit() || *byte == b'.')
}

fn has(text: &[u8], wanted: u8) -> bool {
    text.iter().any(|byte| *byte == wanted)
}
