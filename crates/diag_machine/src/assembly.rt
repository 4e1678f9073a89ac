//! Why a text isn't assembled.

use crate::blanks::{blank_slip, end_slip};
use crate::instruction::instruction_slip;
use crate::labels::{is_label_line, label_line_slip, push_label};
use crate::nearest::push_meant;
use crate::number::number_slip;
use crate::place::{Line, Mark};
use crate::rules::push_rule;
use crate::whole::{Sort, empty_slip, push_sort, sort_of};
use diag_text::finding::{Code, Finding};
use std::alloc::Global;
use uc_asm::AsmError;

/// Says why `assemble` refuses a text, at the line that its fault names.
pub fn explain_assembly(alloc: Global, it: &mut Finding, bytes: &[u8], fault: AsmError) {
    match fault {
        AsmError::NoMemory => it.help.fail(),
        AsmError::Syntax(number) => {
            let line = Line::numbered(bytes, number);
            let mark = line_slip(alloc, it, bytes, number, &line);
            it.code = Code::Named("status 6");
            it.span = Some(line.span(mark))
        }
        AsmError::Label(number) => {
            let line = Line::numbered(bytes, number);
            let mark = push_label(alloc, it, bytes, &line);
            it.code = Code::Named("status 6");
            it.span = Some(line.span(mark))
        }
        AsmError::Unlawful(number, rule) => {
            let line = Line::numbered(bytes, number);
            let mark = push_rule(it, &line, rule);
            it.code = Code::Named("status 18");
            it.span = Some(line.span(mark))
        }
    }
}

// The forms of the lines.
const FORM: &str = "An assembly text begins with `params N`, and has an instruction at least.";

const PARAMS_FORM: &str = "Line 1 is `params` and the number of words that the code takes, 0 to 8.";

// What is wrong with the line of a number.
fn line_slip(alloc: Global, it: &mut Finding, bytes: &[u8], number: u32, line: &Line) -> Mark {
    if number == 1 {
        if let Some(mark) = empty_slip(it, bytes, FORM) {
            return mark;
        }
        match sort_of(bytes) {
            None | Some(Sort::Assembly) => {}
            Some(sort) => return push_sort(it, sort, "assembly text", line),
        }
    }
    if line.is_missing() {
        it.title.put("the text has no instruction");
        it.help
            .line("The last instruction is `halt` or `br ALWAYS`.");
        return line.end();
    }
    if let Some(mark) = blank_slip(it, line, "an assembly text") {
        return mark;
    }
    let found = if number == 1 {
        params_slip(alloc, it, line)
    } else if is_label_line(line) {
        label_line_slip(it, line)
    } else {
        instruction_slip(alloc, it, line)
    };
    match found {
        Some(mark) => mark,
        None if !line.is_ended => end_slip(it, line),
        None => {
            it.title
                .put("the line isn't one that an assembly text has here");
            line.whole()
        }
    }
}

// Line 1.
fn params_slip(alloc: Global, it: &mut Finding, line: &Line) -> Option<Mark> {
    let mut pieces = line.pieces();
    let name = pieces.next_piece()?;
    if name.text != b"params".as_slice() {
        it.title.put("expected `params`, found ");
        it.title.quoted(name.text);
        let _ = push_meant(alloc, it, name.text, &[b"params"]);
        it.help.line(PARAMS_FORM);
        return Some(name.mark());
    }
    let Some(count) = pieces.next_piece() else {
        it.title.put("the number of words is missing");
        it.help.line(PARAMS_FORM);
        return Some(pieces.end());
    };
    if let Some(mark) = number_slip(it, &count, "the number of words", 8) {
        return Some(mark);
    }
    let surplus = pieces.next_piece()?;
    it.title.quoted(surplus.text);
    it.title.put(" stands behind the number of words");
    it.help.line(PARAMS_FORM);
    Some(Mark::of(surplus.from, line.text.len()))
}
