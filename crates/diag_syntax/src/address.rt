//! Addresses of networks, which are no numbers of Nova.

use diag_text::finding::Finding;
use hex::FromHex;
use nv_ast::Span;
use nv_lines::{Message, part};
use std::alloc::Global;
use std::net::{Ipv4Addr, Ipv6Addr};

/// Says how the address at a place is written, if one is there. Gives whether it is.
pub fn explain_address(alloc: Global, it: &mut Finding, bytes: &[u8], at: usize) -> bool {
    let first = first_of_run(bytes, at);
    let after = end_of_run(bytes, at);
    let text = part(bytes, first, after);
    if is_in_word(bytes, first, after) || !has_digit(text) {
        return false;
    }
    let is_told = push_address(alloc, it, text);
    if is_told {
        it.span = Some(Span {
            first: first.min(u32::MAX as usize) as u32,
            after: after.min(u32::MAX as usize) as u32,
        });
    }
    is_told
}

// Whether a letter or a digit stands right before a stretch or after it.
fn is_in_word(bytes: &[u8], first: usize, after: usize) -> bool {
    let before = part(bytes, first.saturating_sub(1), first).first();
    let behind = bytes.get(after);
    is_of_word(before) || is_of_word(behind)
}

fn is_of_word(byte: Option<&u8>) -> bool {
    match byte {
        Some(byte) => byte.is_ascii_alphanumeric() || *byte == b'_',
        None => false,
    }
}

fn has_digit(text: &[u8]) -> bool {
    for byte in text {
        if byte.is_ascii_digit() {
            return true;
        }
    }
    false
}

// Where the bytes before a place begin that may stand in an address.
fn first_of_run(bytes: &[u8], at: usize) -> usize {
    let mut first = at.min(bytes.len());
    for byte in part(bytes, 0, at).iter().rev() {
        if !is_part(*byte) {
            return first;
        }
        first = first.saturating_sub(1);
    }
    first
}

// Where those from a place on end.
fn end_of_run(bytes: &[u8], at: usize) -> usize {
    let mut after = at.min(bytes.len());
    for byte in part(bytes, at, bytes.len()) {
        if !is_part(*byte) {
            return after;
        }
        after = after.saturating_add(1);
    }
    after
}

fn is_part(byte: u8) -> bool {
    byte.is_ascii_hexdigit() || byte == b':' || byte == b'.'
}

fn push_address(alloc: Global, it: &mut Finding, text: &[u8]) -> bool {
    if let Ok(address) = Ipv4Addr::parse_ascii(text) {
        push_short(alloc, it, address.to_bits());
        return true;
    }
    if let Some(bytes) = station(text) {
        push_station(alloc, it, bytes);
        return true;
    }
    match Ipv6Addr::parse_ascii(text) {
        Ok(address) => {
            push_long(alloc, it, address.octets());
            true
        }
        Err(_) => false,
    }
}

fn push_short(alloc: Global, it: &mut Finding, address: u32) {
    it.title.put("an address has no points");
    it.help.put("Write it as one number, ");
    push_word(alloc, &mut it.help, address);
    it.help.line(".")
}

fn push_station(alloc: Global, it: &mut Finding, bytes: [u8; 6]) {
    let [a, b, c, d, e, f] = bytes;
    it.title.put("a hardware address has no colons");
    it.help.put("It is two words, of 32 and of 16 bits: ");
    push_word(alloc, &mut it.help, word_of(a, b, c, d));
    it.help.put(" and ");
    push_word(alloc, &mut it.help, word_of(0, 0, e, f));
    it.help.line(".")
}

fn push_long(alloc: Global, it: &mut Finding, bytes: [u8; 16]) {
    let [a, b, c, d, e, f, g, h, i, j, k, l, m, n, o, p] = bytes;
    it.title.put("an address has no colons");
    it.help.put("It is four words: ");
    push_word(alloc, &mut it.help, word_of(a, b, c, d));
    it.help.put(", ");
    push_word(alloc, &mut it.help, word_of(e, f, g, h));
    it.help.put(", ");
    push_word(alloc, &mut it.help, word_of(i, j, k, l));
    it.help.put(" and ");
    push_word(alloc, &mut it.help, word_of(m, n, o, p));
    it.help.line(".")
}

// The bytes of an address as `02:00:5e:10:00:01`.
fn station(text: &[u8]) -> Option<[u8; 6]> {
    let [
        a,
        b,
        b':',
        c,
        d,
        b':',
        e,
        f,
        b':',
        g,
        h,
        b':',
        i,
        j,
        b':',
        k,
        l,
    ] = text
    else {
        return None;
    };
    let digits = [*a, *b, *c, *d, *e, *f, *g, *h, *i, *j, *k, *l];
    <[u8; 6] as FromHex>::from_hex(digits).ok()
}

fn word_of(a: u8, b: u8, c: u8, d: u8) -> u32 {
    u32::from_be_bytes([a, b, c, d])
}

fn push_word(alloc: Global, out: &mut Message, word: u32) {
    match format!(in alloc; "0x{word:08x}") {
        Ok(text) => out.quoted(text.as_bytes()),
        Err(_) => out.fail(),
    }
}
