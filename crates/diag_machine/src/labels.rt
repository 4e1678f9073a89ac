//! Labels of an assembly text.

use crate::nearest::push_meant_among;
use crate::place::{Line, Mark};
use diag_text::finding::Finding;
use nv_lines::part;
use std::alloc::Global;
use uc_asm::is_name;

const NAME_FORM: &str =
    "The name of a label is a letter, then letters, digits and `_`, 64 bytes at most.";

/// Whether a line is meant to declare a label: its first piece ends with a colon.
pub fn is_label_line(line: &Line) -> bool {
    match line.pieces().next_piece() {
        Some(first) => first.text.ends_with(b":"),
        None => false,
    }
}

/// Says what is wrong with a line that declares a label.
pub fn label_line_slip(it: &mut Finding, line: &Line) -> Option<Mark> {
    let mut pieces = line.pieces();
    let first = pieces.next_piece()?;
    let name = part(first.text, 0, first.text.len().saturating_sub(1));
    if !is_name(name) {
        it.title.quoted(name);
        it.title.put(" can't be the name of a label");
        it.help.line(NAME_FORM);
        return Some(first.mark());
    }
    let surplus = pieces.next_piece()?;
    it.title.put("a label has a line of its own");
    it.help.line("End the line behind the colon.");
    Some(Mark::of(surplus.from, line.text.len()))
}

/// Says what is wrong with a label that is declared before, or with a target that isn't declared.
pub fn push_label(alloc: Global, it: &mut Finding, bytes: &[u8], line: &Line) -> Mark {
    if is_label_line(line) {
        return push_twice(it, bytes, line);
    }
    let mut pieces = line.pieces();
    let mut target = pieces.next_piece();
    for _ in 0..pieces.most() {
        let Some(piece) = pieces.next_piece() else {
            break;
        };
        target = Some(piece);
    }
    let Some(target) = target else {
        return line.whole();
    };
    it.title.put("no label ");
    it.title.quoted(target.text);
    it.title.put(" is declared");
    let known = declared(alloc, it, bytes);
    if !push_meant_among(alloc, it, target.text, &known) {
        it.help.line(
            "A label is declared by a line of its own, as `next:`. A place is `@` and a number.",
        )
    }
    drop(known);
    target.mark()
}

// A label that is declared before.
fn push_twice(it: &mut Finding, bytes: &[u8], line: &Line) -> Mark {
    it.title.put("the label ");
    it.title
        .quoted(part(line.text, 0, line.text.len().saturating_sub(1)));
    it.title.put(" is declared before");
    if let Some(number) = line_with(bytes, line.text) {
        it.help.put("Line ");
        it.help.number(u64::from(number));
        it.help.line(" declares it.");
    }
    line.whole()
}

// The most lines that are looked through.
const MOST_LINES: u32 = 1_000_000;

// The number of the first line that is this one.
fn line_with(bytes: &[u8], wanted: &[u8]) -> Option<u32> {
    let mut lines = nv_lines::Lines::of(bytes);
    for number in 1..MOST_LINES {
        if lines.next_line()? == wanted {
            return Some(number);
        }
    }
    None
}

// The names of the labels that a text declares.
fn declared<'a>(alloc: Global, it: &mut Finding, bytes: &'a [u8]) -> Vec<&'a [u8]> {
    let mut names: Vec<&[u8]> = Vec::new(alloc);
    let mut lines = nv_lines::Lines::of(bytes);
    while let Some(line) = lines.next_line() {
        if let Some(name) = line.strip_suffix(b":".as_slice()) {
            if is_name(name) {
                it.help.keep(&mut names, name);
            }
        }
    }
    names
}
