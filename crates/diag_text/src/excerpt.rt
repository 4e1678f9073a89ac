//! The line of a source where a span begins, with carets under the span.

use nv_ast::Span;
use nv_lines::{Message, column_of, part};

// Before each line of a source.
const MARGIN: &str = "    ";

// The most bytes of a line before and after a fault's first byte.
const REACH: usize = 120;

/// Appends the line where a span begins, and a line with carets under the span, as far as it stands on that line.
/// Of a long line the part round the span's first byte. The carets stand between two texts that may colour them.
pub fn push_excerpt(out: &mut Message, bytes: &[u8], span: Span, colour: (&str, &str)) {
    let after = line_part_from(bytes, span);
    out.put(MARGIN);
    push_excerpt_line(out, bytes, span);
    out.put("\n");
    out.put(MARGIN);
    push_blank(out, line_part_before(bytes, span));
    let wide = span.after.saturating_sub(span.first) as usize;
    out.put(colour.0);
    push_carets(out, wide.min(after.len()).max(1));
    out.put(colour.1);
    out.put("\n")
}

/// Appends the line alone.
pub fn push_excerpt_line(out: &mut Message, bytes: &[u8], span: Span) {
    out.shown(line_part_before(bytes, span));
    out.shown(line_part_from(bytes, span))
}

// The bytes of the line before a span's first byte.
fn line_part_before(bytes: &[u8], span: Span) -> &[u8] {
    let at = span.first as usize;
    let column = column_of(bytes, at);
    let from = at.saturating_sub(column.saturating_sub(1).min(REACH));
    part(bytes, from, at)
}

// The bytes of the line from a span's first byte on.
fn line_part_from(bytes: &[u8], span: Span) -> &[u8] {
    let at = span.first as usize;
    before_line_end(part(bytes, at, at.saturating_add(REACH)))
}

// The bytes before the first end of a line.
fn before_line_end(bytes: &[u8]) -> &[u8] {
    for (n, byte) in bytes.iter().enumerate() {
        if *byte == b'\n' || *byte == b'\r' {
            return &bytes[..n];
        }
    }
    bytes
}

// Appends a blank that is as wide as a part of a line.
fn push_blank(out: &mut Message, bytes: &[u8]) {
    for byte in bytes {
        out.byte(if *byte == b'\t' { b'\t' } else { b' ' });
    }
}

fn push_carets(out: &mut Message, count: usize) {
    for _ in 0..count {
        out.byte(b'^');
    }
}
