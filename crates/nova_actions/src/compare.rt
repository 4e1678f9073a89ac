//! Two outcome texts, compared.

use nv_lines::{Message, part};

/// Appends an outcome text without the line that names an exception.
pub fn push_plain(out: &mut Message, text: &[u8]) {
    let mut rest = text;
    for _ in 0..text.len() {
        if rest.is_empty() {
            return;
        }
        let (line, after) = split_line(rest);
        if !line.starts_with(b"exception ") {
            out.bytes(line);
        }
        rest = after;
    }
}

// The first line with its end, and what comes after it.
fn split_line(text: &[u8]) -> (&[u8], &[u8]) {
    for (n, byte) in text.iter().enumerate() {
        if *byte == b'\n' {
            return text.split_at(n + 1);
        }
    }
    text.split_at(text.len())
}

/// Appends the first line in which two texts differ, as each of them has it.
pub fn push_difference(out: &mut Message, expected: &[u8], found: &[u8]) {
    let from = line_of_difference(expected, found);
    push_line(out, "    expected ", part(expected, from, expected.len()));
    push_line(out, "    found    ", part(found, from, found.len()))
}

// Where the first line begins in which two texts differ.
fn line_of_difference(a: &[u8], b: &[u8]) -> usize {
    let mut from = 0usize;
    for (n, (x, y)) in a.iter().zip(b.iter()).enumerate() {
        if *x != *y {
            return from;
        }
        if *x == b'\n' {
            from = n.saturating_add(1);
        }
    }
    from
}

fn push_line(out: &mut Message, before: &str, text: &[u8]) {
    out.put(before);
    let (line, _) = split_line(text);
    match line.last() {
        None => out.put("no line"),
        Some(byte) if *byte == b'\n' => out.quoted(part(line, 0, line.len().saturating_sub(1))),
        Some(_) => {
            out.quoted(line);
            out.put(", without a line feed")
        }
    }
    out.line("")
}
