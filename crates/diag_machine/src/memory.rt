//! Why bytes are no memory text.

use crate::blanks::{blank_slip, end_slip};
use crate::nearest::push_meant;
use crate::number::{TEN_DIGITS, number_slip};
use crate::place::{Line, Mark, Piece, Pieces};
use crate::stretch::stretch_slip;
use crate::whole::{MEMORY_TEXT, Sort, empty_slip, push_sort, sort_of};
use crate::word::word_slip;
use diag_text::finding::{Code, Finding};
use nv_memtext::MemError;
use std::alloc::Global;

/// Says why `read_memory` refuses bytes, at the line that its fault names. `params` is the number of words that the code takes,
/// where it is known.
pub fn explain_memory(
    alloc: Global,
    it: &mut Finding,
    bytes: &[u8],
    params: Option<u8>,
    fault: MemError,
) {
    match fault {
        MemError::NoMemory => it.help.fail(),
        MemError::Bad(number) => {
            let line = Line::numbered(bytes, number);
            let mark = line_slip(alloc, it, bytes, params, number, &line);
            it.code = Code::Named("status 13");
            it.span = Some(line.span(mark))
        }
        MemError::TooLarge(size) => {
            let line = Line::numbered(bytes, 1);
            let mark = push_large(it, &line, size);
            it.code = Code::Named("status 8");
            it.span = Some(line.span(mark))
        }
    }
}

// The forms of the lines.
const FORM: &str = "A memory text begins with `memory SRAM SDRAM` and `args WORD ..`.";

const SIZES_FORM: &str =
    "Line 1 is `memory`, the number of words of SRAM and the number of quadwords of SDRAM.";

const ARGS_FORM: &str = "Line 2 is `args` and the words that `main` takes, or `args` alone.";

// What is wrong with the line of a number.
fn line_slip(
    alloc: Global,
    it: &mut Finding,
    bytes: &[u8],
    params: Option<u8>,
    number: u32,
    line: &Line,
) -> Mark {
    if number == 1 {
        if let Some(mark) = empty_slip(it, bytes, FORM) {
            return mark;
        }
        match sort_of(bytes) {
            None | Some(Sort::Memory) => {}
            Some(sort) => return push_sort(it, sort, MEMORY_TEXT, line),
        }
    }
    if line.is_missing() {
        it.title.put("the line `args` is missing");
        it.help.line(ARGS_FORM);
        return line.end();
    }
    if let Some(mark) = blank_slip(it, line, "a memory text") {
        return mark;
    }
    let found = match number {
        1 => sizes_slip(alloc, it, line),
        2 => args_slip(alloc, it, line, params),
        _ => stretch_slip(alloc, it, line, sizes_of(bytes)),
    };
    match found {
        Some(mark) => mark,
        None => rest_slip(it, line, number),
    }
}

// A line of which no word is wrong.
fn rest_slip(it: &mut Finding, line: &Line, number: u32) -> Mark {
    if !line.is_ended {
        return end_slip(it, line);
    }
    if number == 2 {
        it.title.put("the number of arguments isn't that of the words that `main` takes");
    } else {
        it.title
            .put("the line isn't the one that a memory text has here");
    }
    line.whole()
}

// The sizes of line 1.
fn sizes_of(bytes: &[u8]) -> (u64, u64) {
    let mut pieces = Line::numbered(bytes, 1).pieces();
    let _name = pieces.next_piece();
    let sram = next_size(&mut pieces);
    let sdram = next_size(&mut pieces);
    (sram, sdram)
}

fn next_size(pieces: &mut Pieces) -> u64 {
    match pieces.next_piece() {
        Some(piece) => match nv_lines::read_decimal(piece.text, TEN_DIGITS) {
            Some(size) => size,
            None => 0,
        },
        None => 0,
    }
}

// Line 1.
fn sizes_slip(alloc: Global, it: &mut Finding, line: &Line) -> Option<Mark> {
    let mut pieces = line.pieces();
    let name = pieces.next_piece()?;
    if name.text != b"memory".as_slice() {
        return Some(name_slip(alloc, it, &name, "memory", SIZES_FORM));
    }
    let sizes = [
        "the number of words of SRAM",
        "the number of quadwords of SDRAM",
    ];
    for size in sizes {
        let Some(piece) = pieces.next_piece() else {
            it.title.put(size);
            it.title.put(" is missing");
            it.help.line(SIZES_FORM);
            return Some(pieces.end());
        };
        if let Some(mark) = number_slip(it, &piece, size, 65_536) {
            return Some(mark);
        }
    }
    match pieces.next_piece() {
        Some(piece) => {
            it.title.quoted(piece.text);
            it.title.put(" stands behind the two sizes");
            it.help.line(SIZES_FORM);
            Some(Mark::of(piece.from, line.text.len()))
        }
        None => None,
    }
}

// Another word than the one that begins line 1 or 2.
fn name_slip(alloc: Global, it: &mut Finding, name: &Piece, wanted: &str, form: &str) -> Mark {
    match name.text {
        b"memory" => it.title.put("`memory` begins line 1 alone"),
        b"args" | b"sram" | b"sdram" | b"scratch" => {
            it.title.put("the line `");
            it.title.put(wanted);
            it.title.put("` is missing before this one")
        }
        _ => {
            it.title.put("expected `");
            it.title.put(wanted);
            it.title.put("`, found ");
            it.title.quoted(name.text);
            let known: &[&'static [u8]] = if wanted == "args" {
                &[b"args"]
            } else {
                &[b"memory"]
            };
            let _ = push_meant(alloc, it, name.text, known);
        }
    }
    it.help.line(form);
    name.mark()
}

// Line 2.
fn args_slip(alloc: Global, it: &mut Finding, line: &Line, params: Option<u8>) -> Option<Mark> {
    let mut pieces = line.pieces();
    let name = pieces.next_piece()?;
    if name.text != b"args".as_slice() {
        return Some(name_slip(alloc, it, &name, "args", ARGS_FORM));
    }
    let most = match params {
        Some(params) => u64::from(params),
        None => 8,
    };
    let mut surplus = None;
    let mut count: u64 = 0;
    for _ in 0..pieces.most() {
        let Some(piece) = pieces.next_piece() else {
            break;
        };
        if let Some(mark) = word_slip(it, &piece) {
            return Some(mark);
        }
        if count == most {
            surplus = Some(Mark::of(piece.from, line.text.len()));
        }
        count = count.saturating_add(1);
    }
    if count < most && params.is_some() {
        push_count(it, "`main` takes ", most, count);
        return Some(pieces.end());
    }
    if surplus.is_some() {
        let wanted = match params {
            Some(_) => "`main` takes ",
            None => "`main` takes at most ",
        };
        push_count(it, wanted, most, count);
    }
    surplus
}

fn push_count(it: &mut Finding, before: &str, wanted: u64, given: u64) {
    it.title.put(before);
    it.title.counted(wanted, "word");
    it.title.put(", and `args` gives ");
    it.title.number(given);
    it.help.line(ARGS_FORM)
}

// A size of line 1 that is too large.
fn push_large(it: &mut Finding, line: &Line, size: u64) -> Mark {
    it.title.put("a memory of size ");
    it.title.number(size);
    it.title.put(" is asked for, and at most 65536 is allowed");
    it.help.line("The size of SRAM counts words of 4 bytes, that of SDRAM quadwords of 8 bytes.");
    let mut pieces = line.pieces();
    for _ in 0..pieces.most() {
        let Some(piece) = pieces.next_piece() else {
            break;
        };
        if nv_lines::read_decimal(piece.text, TEN_DIGITS) == Some(size) {
            return piece.mark();
        }
    }
    line.whole()
}
