//! Instructions that break a rule.

use crate::place::{Line, Mark, Piece};
use diag_text::finding::Finding;
use nv_lines::read_decimal;

/// Says which part of an instruction breaks a rule, and why.
pub fn push_rule(it: &mut Finding, line: &Line, rule: u8) -> Mark {
    match rule {
        1 => push_banks(it, line),
        2 => push_run(it, line),
        3 => push_pairs(it, line),
        4 => push_numbers(it, line),
        5 => {
            it.title.put("the target is outside the code");
            it.help.line(
                "Places count instructions from 0. The last is one less than their number.",
            );
            mark_of(line, 2)
        }
        6 => {
            it.title.put("more than 8 words are given");
            it.help
                .line("`halt K N` gives A0 to A(N - 1), and N is at most 8.");
            mark_of(line, 2)
        }
        7 => {
            it.title
                .put("the last instruction is neither `halt` nor `br ALWAYS`");
            it.help.line("A run would go on behind the end of the code. End it, as by `halt 0 0`.");
            line.whole()
        }
        _ => {
            it.title.put("the instruction breaks a rule");
            line.whole()
        }
    }
}

// The piece of a number, which counts from 0.
fn piece_of<'a>(line: &Line<'a>, number: u32) -> Piece<'a> {
    let mut pieces = line.pieces();
    for _ in 0..number {
        let _before = pieces.next_piece();
    }
    match pieces.next_piece() {
        Some(piece) => piece,
        None => Piece {
            text: &[],
            from: line.text.len(),
        },
    }
}

fn mark_of(line: &Line, number: u32) -> Mark {
    piece_of(line, number).mark()
}

fn value_of(line: &Line, number: u32) -> u64 {
    match read_decimal(piece_of(line, number).text, u64::MAX) {
        Some(value) => value,
        None => 0,
    }
}

// Two operands that one bank would have to give at once.
fn push_banks(it: &mut Finding, line: &Line) -> Mark {
    let x = piece_of(line, 3);
    let y = piece_of(line, 4);
    it.title.put("the operands ");
    it.title.quoted(x.text);
    it.title.put(" and ");
    it.title.quoted(y.text);
    it.title.put(" are of one bank");
    it.help.line(
        "One operand may be of A, one of B, and one of L or LD. Copy one of them first: `un B0 COPY A0`.",
    );
    Mark::of(x.from, y.mark().after)
}

// A run of registers that has none, or ends behind the last one.
fn push_run(it: &mut Finding, line: &Line) -> Mark {
    let first = value_of(line, 2);
    let count = value_of(line, 3);
    if count == 0 {
        it.title.put("no words are moved");
        it.help.line("N is at least 1, and R + N at most 8.");
    } else {
        it.title.put("the registers ");
        it.title.number(first);
        it.title.put(" to ");
        it.title
            .number(first.saturating_add(count).saturating_sub(1));
        it.title.put(" aren't all there");
        it.help.line("A bank of transfer registers has the numbers 0 to 7, so R + N is at most 8.");
    }
    Mark::of(piece_of(line, 2).from, mark_of(line, 3).after)
}

// An odd register or number of words at SDRAM.
fn push_pairs(it: &mut Finding, line: &Line) -> Mark {
    it.help.line("SDRAM moves quadwords of two words. R is 0, 2, 4 or 6, and N is 2, 4, 6 or 8.");
    if value_of(line, 3) % 2 == 1 {
        it.title.put("SDRAM takes an even number of words");
        return mark_of(line, 3);
    }
    it.title
        .put("at SDRAM the number of the transfer register is even");
    mark_of(line, 2)
}

// A number that has another range.
fn push_numbers(it: &mut Finding, line: &Line) -> Mark {
    match piece_of(line, 0).text {
        b"immed" => {
            it.title.put("the shift is neither 0 nor 8 nor 16");
            it.help
                .line("`immed DST V S` gives V shifted left by S places.");
            mark_of(line, 3)
        }
        b"un" => {
            it.title.put("a shift is by 1 to 31 places");
            it.help.line("By 0 places it is `COPY`.");
            mark_of(line, 3)
        }
        _ => {
            it.title.put("the offset is above 127");
            it.help
                .line("Add what is more to the register of the address.");
            mark_of(line, 5)
        }
    }
}
