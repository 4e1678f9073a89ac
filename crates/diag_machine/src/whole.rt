//! Texts of another sort in place of a memory text or an assembly text.

use crate::place::{Line, Mark};
use diag_text::finding::Finding;

/// What a memory text is called.
pub const MEMORY_TEXT: &str = "memory text";

/// A sort of text or file.
#[derive(Clone, Copy)]
pub enum Sort {
    Object,
    Outcome,
    Source,
    Assembly,
    Memory,
    Readable,
    Schedule,
    Dump,
    Capture,
}

impl Sort {
    fn name(self) -> &'static str {
        match self {
            Sort::Object => "an object",
            Sort::Outcome => "an outcome text",
            Sort::Source => "a source",
            Sort::Assembly => "an assembly text",
            Sort::Memory => "a memory text",
            Sort::Readable => "a readable memory text",
            Sort::Schedule => "a schedule",
            Sort::Dump => "a dump of bytes",
            Sort::Capture => "a capture file",
        }
    }

    // What helps where a memory text is wanted.
    fn advice(self) -> &'static str {
        match self {
            Sort::Outcome =>
                "Its lines from `memory` on are a memory text, with a line `args` behind the first of them.",
            Sort::Dump =>
                "A readable memory text, in a file `NAME.nmem`, may say bytes so, behind `sdram 0:` and without their offsets.",
            Sort::Readable => "The name of its file ends in `.nmem`.",
            Sort::Capture => "`nova replay` runs a program on the packets of a capture.",
            _ => "",
        }
    }
}

// What a capture file begins with: of pcap in both orders of bytes, and of pcapng.
const CAPTURES: [&[u8]; 3] = [
    &[212, 195, 178, 161],
    &[161, 178, 195, 212],
    &[10, 13, 13, 10],
];

/// The sort of a text by the first word of its first line.
pub fn sort_of(bytes: &[u8]) -> Option<Sort> {
    if bytes.starts_with(b"NVO") {
        return Some(Sort::Object);
    }
    if CAPTURES.iter().any(|front| bytes.starts_with(front)) {
        return Some(Sort::Capture);
    }
    let first = Line::numbered(bytes, 1).pieces().next_piece()?;
    match first.text {
        b"ended" | b"raised" | b"fault" | b"going" => Some(Sort::Outcome),
        b"fun" | b"layout" | b"exception" => Some(Sort::Source),
        b"params" => Some(Sort::Assembly),
        b"memory" => Some(Sort::Memory),
        b"contexts" => Some(Sort::Schedule),
        b"args" | b"sram" | b"sdram" | b"scratch" if has_block(bytes) => Some(Sort::Readable),
        text if is_offset(text) => Some(Sort::Dump),
        _ => None,
    }
}

// Whether a colon ends a word of one of the first lines of a text, as in `sdram 0:`.
fn has_block(bytes: &[u8]) -> bool {
    for number in 1..=4 {
        let mut pieces = Line::numbered(bytes, number).pieces();
        for _ in 0..pieces.most() {
            let Some(piece) = pieces.next_piece() else {
                break;
            };
            if piece.text.ends_with(b":") {
                return true;
            }
        }
    }
    false
}

// Whether a line of a dump of bytes begins so, as `0000` or `0x0000:`.
fn is_offset(text: &[u8]) -> bool {
    let digits = match text.strip_suffix(b":".as_slice()) {
        Some(digits) => digits,
        None => text,
    };
    digits.len() >= 4 && (digits.starts_with(b"000") || digits.starts_with(b"0x0"))
}

/// Says that the text is of another sort.
pub fn push_sort(it: &mut Finding, sort: Sort, wanted: &str, line: &Line) -> Mark {
    it.title.put("this is ");
    it.title.put(sort.name());
    it.title.put(", and no ");
    it.title.put(wanted);
    if wanted == MEMORY_TEXT && !sort.advice().is_empty() {
        it.help.line(sort.advice())
    }
    match line.pieces().next_piece() {
        Some(piece) => piece.mark(),
        None => line.whole(),
    }
}

/// Says that nothing is there, or that a byte order mark is.
pub fn empty_slip(it: &mut Finding, bytes: &[u8], form: &str) -> Option<Mark> {
    if bytes.is_empty() {
        it.title.put("the text is empty");
        it.help.line(form);
        return Some(Mark::of(0, 0));
    }
    if bytes.starts_with(&[239, 187, 191]) {
        it.title.put("the text begins with a byte order mark");
        it.help.line("Save it as UTF-8 without that mark.");
        return Some(Mark::of(0, 3));
    }
    None
}
