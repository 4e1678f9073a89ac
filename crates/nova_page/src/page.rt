//! What comes before the texts of a page, its texts, and what comes behind them.

use crate::end::push_end;
use crate::frame::push_frame;
use crate::head::push_head;
use crate::script::push_script;
use crate::style::push_style;
use nv_lines::Message;

/// Appends what comes before the texts of a page.
pub fn push_page_head(out: &mut Message) {
    push_head(out);
    push_style(out);
    push_frame(out)
}

/// Appends a text with the name by which the script finds it. HTML leaves out the line end before it.
pub fn push_page_block(out: &mut Message, id: &str, text: &[u8]) {
    push_page_part(out, id, 0, text)
}

/// Appends a text of the run on the memory text with this number, which its name has at its end, but for 0.
pub fn push_page_part(out: &mut Message, id: &str, number: usize, text: &[u8]) {
    push_front(out, id, number);
    push_escaped(out, text);
    out.line("</pre>")
}

/// Appends a listing without the places in front of instructions, and with the first letters of a remark alone.
pub fn push_page_listing(out: &mut Message, id: &str, text: &[u8]) {
    push_front(out, id, 0);
    let mut part = Part::Front;
    let mut last = b' ';
    for byte in text {
        part = part_at(part, last, *byte);
        if is_kept(part, last, *byte) {
            push_byte(out, *byte);
        }
        last = *byte;
    }
    out.line("</pre>")
}

// Where a byte of a line of a listing stands.
#[derive(Clone, Copy, PartialEq, Eq)]
enum Part {
    Front,
    Words,
    Remark,
}

fn part_at(part: Part, last: u8, byte: u8) -> Part {
    match byte {
        b';' => Part::Remark,
        b' ' | b'0'..=b'9' if last == b'\n' => Part::Front,
        b' ' | b'0'..=b'9' => part,
        _ if last == b'\n' || part == Part::Front => Part::Words,
        _ => part,
    }
}

// In a remark the first letter of each word is kept, elsewhere one blank of several.
fn is_kept(part: Part, last: u8, byte: u8) -> bool {
    match part {
        Part::Front => false,
        Part::Words => byte != b' ' || last != b' ',
        Part::Remark => byte == b'\n' || byte != b' ' && (byte == b';' || last == b' '),
    }
}

/// Appends a single-use form without blanks, without the `v` of variables and the remarks behind lines, and with a `\` for each `<`.
pub fn push_page_form(out: &mut Message, id: &str, text: &[u8]) {
    push_front(out, id, 0);
    let mut is_remark = false;
    for byte in text {
        is_remark = *byte == b'#' || is_remark && *byte != b'\n';
        match *byte {
            _ if is_remark => {}
            b' ' | b'v' => {}
            b'<' => out.byte(b'\\'),
            other => push_byte(out, other),
        }
    }
    out.line("</pre>")
}

fn push_front(out: &mut Message, id: &str, number: usize) {
    out.put("<pre id=\"");
    out.put(id);
    if number > 0 {
        out.number(number as u64);
    }
    out.line("\">")
}

/// Appends the script that shows the texts of a page, and the end of the page.
pub fn push_page_end(out: &mut Message) {
    out.line("<script id=\"packed\" type=\"text/plain\">");
    push_script(out);
    push_end(out)
}

fn push_escaped(out: &mut Message, text: &[u8]) {
    for byte in text {
        push_byte(out, *byte);
    }
}

// Appends a byte so that HTML shows it as it is, with `?` for what isn't printable.
fn push_byte(out: &mut Message, byte: u8) {
    match byte {
        b'&' => out.put("&amp;"),
        b'<' => out.put("&lt;"),
        b'\n' => out.byte(b'\n'),
        b'\t' => out.byte(b'\t'),
        0..=31 | 127 => out.byte(b'?'),
        other => out.byte(other),
    }
}
