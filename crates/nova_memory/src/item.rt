//! What one token spells: a number, bytes of a memory, or a word of the arguments.
ghost use Rattle.std.specs.Prelude.{◌≡◌, ◌↔◌, List, ℕ, IsTrue, IfSome};
ghost use Rattle.std.specs.Net.Addr.{octets_of};
ghost use Rattle.std.specs.Net.Grammar.{IsColonHex, IsDotted};
ghost use Rattle.nova_memory.specs.Items.{IsSign};

use crate::error::{ReadableError, Reason};
use crate::quoted::quoted_bytes;
use crate::token::Token;
use hex::{FromHex, FromHexError};
use nv_lines::{read_decimal, read_word, strip};
use std::alloc::Global;
use std::net::{Ipv4Addr, Ipv6Addr};

/// The number that is spelled in decimal, or in hexadecimal behind `0x`.
pub fn number(text: &[u8]) -> Option<u32> {
    match strip(text, b"0x") {
        Some(digits) => hexadecimal(digits),
        None => {
            let n = read_decimal(text, u64::from(u32::MAX))?;
            Some(n as u32)
        }
    }
}

// The number of 1 to 8 hexadecimal digits.
fn hexadecimal(digits: &[u8]) -> Option<u32> {
    if digits.is_empty() || digits.len() > 8 {
        return None;
    }
    let mut eight = [b'0'; 8];
    let zeros = 8 - digits.len();
    eight[zeros..].copy_from_slice(digits);
    read_word(&eight)
}

/// The same, behind which a colon may stand.
pub fn place(text: &[u8]) -> Option<u32> {
    match text {
        [front @ .., b':'] => number(front),
        _ => number(text),
    }
}

/// The bytes that a token spells.
pub fn bytes_of(alloc: Global, token: &Token) -> Result<Vec<u8>, ReadableError> {
    match token.text {
        [b'"', inner @ .., b'"'] => return quoted_bytes(alloc, token, inner),
        [b'"', ..] => return Err(token.bad(Reason::Open)),
        _ => {}
    }
    if let Some(bytes) = ipv4(token.text) {
        return Ok(Vec::from_array(alloc, bytes)?);
    }
    if let Some(bytes) = station(token.text) {
        return Ok(Vec::from_array(alloc, bytes)?);
    }
    if let Some(bytes) = ipv6(token.text) {
        return Ok(Vec::from_array(alloc, bytes)?);
    }
    pairs(alloc, token)
}

// The bytes of an address as `10.0.0.1`.
fn ipv4(text: &[u8]) -> Option<[u8; 4]>
    ensures { IfSome result (IsDotted text.now) }
{
    match Ipv4Addr::parse_ascii(text) {
        Ok(address) => Some(address.octets()),
        Err(_) => None,
    }
}

// The bytes of an address as `2001:db8::1`.
fn ipv6(text: &[u8]) -> Option<[u8; 16]>
    ensures { IfSome result (λ bytes. (segments : List ℕ) × IsColonHex text.now segments × (bytes ≡ octets_of segments)) }
{
    match Ipv6Addr::parse_ascii(text) {
        Ok(address) => Some(address.octets()),
        Err(_) => None,
    }
}

// The bytes of an address as `02:00:5e:10:00:01`, or with `-` between them.
fn station(text: &[u8]) -> Option<[u8; 6]> {
    let [a, b, s, c, d, t, e, f, u, g, h, v, i, j, w, k, l] = text else {
        return None;
    };
    if !(is_sign(*s) && is_sign(*t) && is_sign(*u) && is_sign(*v) && is_sign(*w)) {
        return None;
    }
    let digits = [*a, *b, *c, *d, *e, *f, *g, *h, *i, *j, *k, *l];
    <[u8; 6] as FromHex>::from_hex(digits).ok()
}

fn is_sign(byte: u8) -> bool
    ensures { IsTrue result ↔ IsSign byte }
{
    matches!(byte, b':' | b'-')
}

// The bytes of pairs of hexadecimal digits, before which `0x` may stand.
fn pairs(alloc: Global, token: &Token) -> Result<Vec<u8>, ReadableError> {
    let digits = match strip(token.text, b"0x") {
        Some(digits) => digits,
        None => token.text,
    };
    if digits.is_empty() {
        return Err(token.bad(Reason::Bytes));
    }
    match hex::decode(alloc, digits) {
        Ok(bytes) => Ok(bytes),
        Err(FromHexError::OutOfMemory) => Err(ReadableError::NoMemory),
        Err(FromHexError::OddLength) => Err(token.bad(Reason::Odd)),
        Err(_) => Err(token.bad(Reason::Bytes)),
    }
}

/// The word that a token of the arguments spells.
pub fn word_of(token: &Token) -> Result<u32, ReadableError> {
    if let Some(word) = read_word(token.text) {
        return Ok(word);
    }
    if let Some(word) = number(token.text) {
        return Ok(word);
    }
    match Ipv4Addr::parse_ascii(token.text) {
        Ok(address) => Ok(address.to_bits()),
        Err(_) => Err(token.bad(Reason::Word)),
    }
}
