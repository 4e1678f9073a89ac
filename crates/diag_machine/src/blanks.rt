//! What no line of a text of lines may have: comments, blanks but one between two words, and other ends than a line feed.

use crate::place::{Line, Mark};
use diag_text::finding::Finding;
use nv_lines::part;

/// Says what is wrong with the blanks, the end or the bytes of a line. `what` is what the text is called.
pub fn blank_slip(it: &mut Finding, line: &Line, what: &str) -> Option<Mark> {
    if let Some(mark) = comment_slip(it, line, what) {
        return Some(mark);
    }
    if let Some(mark) = return_slip(it, line) {
        return Some(mark);
    }
    if line.text.is_empty() && line.is_ended {
        it.title.put("the line is blank");
        it.help.line("Leave it out.");
        return Some(line.whole());
    }
    if let Some(mark) = gap_slip(it, line) {
        return Some(mark);
    }
    byte_slip(it, line, what)
}

// What begins a comment in other languages.
const COMMENTS: [&[u8]; 6] = [b"#", b"//", b"/*", b";", b"--", b"<!--"];

// A comment, from its begin on.
fn comment_slip(it: &mut Finding, line: &Line, what: &str) -> Option<Mark> {
    let mut pieces = line.pieces();
    for _ in 0..pieces.most() {
        let Some(piece) = pieces.next_piece() else {
            break;
        };
        if begins_comment(piece.text) {
            it.title.put(what);
            it.title.put(" has no comments");
            it.help.line(if piece.from == 0 {
                "Leave the line out."
            } else {
                "End the line before it, without a blank."
            });
            return Some(Mark::of(piece.from, line.text.len()));
        }
    }
    None
}

fn begins_comment(piece: &[u8]) -> bool {
    for front in COMMENTS {
        if piece.starts_with(front) {
            return true;
        }
    }
    false
}

// A carriage return.
fn return_slip(it: &mut Finding, line: &Line) -> Option<Mark> {
    let at = place_of(line.text, b'\r')?;
    if at.saturating_add(1) == line.text.len() {
        it.title.put("the line ends with CR LF")
    } else {
        it.title.put("a carriage return stands in the line")
    }
    it.help.line(
        "Each line ends with a line feed alone. Save the text with the line ends of Unix, as `tr -d '\\r'` does.",
    );
    Some(Mark::of(at, at.saturating_add(1)))
}

// The first place of a byte.
fn place_of(bytes: &[u8], byte: u8) -> Option<usize> {
    for (at, it) in bytes.iter().enumerate() {
        if *it == byte {
            return Some(at);
        }
    }
    None
}

// A tab, or a blank that doesn't part two words.
fn gap_slip(it: &mut Finding, line: &Line) -> Option<Mark> {
    if let Some(at) = place_of(line.text, b'\t') {
        it.title.put("a tab stands in the line");
        it.help.line("One blank parts two words.");
        return Some(Mark::of(at, at.saturating_add(1)));
    }
    let mut pieces = line.pieces();
    for _ in 0..pieces.most() {
        let Some(piece) = pieces.next_piece() else {
            break;
        };
        if piece.text.is_empty() && !line.text.is_empty() {
            return Some(blanks_at(it, line, piece.from));
        }
    }
    None
}

// A blank too much, behind which no word begins or before which none ends.
fn blanks_at(it: &mut Finding, line: &Line, from: usize) -> Mark {
    let rest = part(line.text, from, line.text.len());
    let count = count_blanks(rest);
    if from == 0 {
        it.title.put("a blank begins the line");
        it.help.line("A line begins with its first word.");
        return Mark::of(0, count);
    }
    if count == rest.len() {
        it.title.put("a blank ends the line");
        it.help.line("Leave out the blank behind the last word.");
        return Mark::of(from.saturating_sub(1), line.text.len());
    }
    it.title.put("more than one blank parts two words");
    it.help.line("One blank parts two words.");
    Mark::of(from, from.saturating_add(count))
}

// How many blanks the bytes begin with.
fn count_blanks(bytes: &[u8]) -> usize {
    for (count, byte) in bytes.iter().enumerate() {
        if *byte != b' ' {
            return count;
        }
    }
    bytes.len()
}

// A byte that isn't a sign of ASCII.
fn byte_slip(it: &mut Finding, line: &Line, what: &str) -> Option<Mark> {
    for (at, byte) in line.text.iter().enumerate() {
        if !byte.is_ascii_graphic() && *byte != b' ' {
            it.title.put(what);
            it.title.put(" has no byte ");
            it.title.number(u64::from(*byte));
            it.help.line(
                "It has letters, digits and signs of ASCII, and blanks of ASCII between its words.",
            );
            return Some(Mark::of(at, at.saturating_add(1)));
        }
    }
    None
}

/// Says that the last line has no end.
pub fn end_slip(it: &mut Finding, line: &Line) -> Mark {
    it.title.put("the last line has no line feed");
    it.help
        .line("Each line ends with a line feed, the last one too.");
    line.end()
}
