//! Lines that give words to a memory.

use crate::nearest::push_meant;
use crate::number::number_slip;
use crate::place::{Line, Mark, Piece, Pieces};
use crate::word::word_slip;
use diag_text::finding::Finding;
use nv_base::Mem;
use nv_lines::read_decimal;
use std::alloc::Global;

const FORM: &str =
    "From line 3 on a line is `sram`, `sdram` or `scratch`, an address and 1 to 8 words.";

/// Says what is wrong with a line after the second. `sizes` are those of SRAM and SDRAM.
pub fn stretch_slip(
    alloc: Global,
    it: &mut Finding,
    line: &Line,
    sizes: (u64, u64),
) -> Option<Mark> {
    let mut pieces = line.pieces();
    let name = pieces.next_piece()?;
    let Some(mem) = Mem::of_name(name.text) else {
        return Some(name_slip(alloc, it, &name));
    };
    let Some(at) = pieces.next_piece() else {
        it.title.put("the address is missing");
        it.help.line(FORM);
        return Some(pieces.end());
    };
    if let Some(mark) = number_slip(it, &at, "the address", u64::MAX) {
        return Some(mark);
    }
    if let Some(mark) = words_slip(it, line, pieces) {
        return Some(mark);
    }
    let count = count_of(pieces);
    if matches!(mem, Mem::Sdram) && count % 2 == 1 {
        it.title.put("SDRAM takes an even number of words, and this line gives ");
        it.title.number(count);
        it.help.line("An address of SDRAM is that of a quadword, which has two words.");
        return Some(last_word(line, pieces));
    }
    inside_slip(it, &at, mem, count, sizes)
}

// Another word than the name of a memory.
fn name_slip(alloc: Global, it: &mut Finding, name: &Piece) -> Mark {
    let known: [&'static [u8]; 3] = [b"sdram", b"sram", b"scratch"];
    match name.text {
        b"memory" => it.title.put("`memory` begins line 1 alone"),
        b"args" => it.title.put("`args` begins line 2 alone"),
        b"ended" | b"raised" | b"fault" | b"going" | b"writes" | b"write" => {
            it.title.put("this line is of an outcome text")
        }
        _ => {
            it.title.put("no memory is called ");
            it.title.quoted(name.text);
            let _ = push_meant(alloc, it, name.text, &known);
        }
    }
    it.help.line(FORM);
    name.mark()
}

// The words behind the address, each by itself and their number.
fn words_slip(it: &mut Finding, line: &Line, pieces: Pieces) -> Option<Mark> {
    let mut pieces = pieces;
    let mut ninth = None;
    let mut count: u32 = 0;
    for _ in 0..pieces.most() {
        let Some(piece) = pieces.next_piece() else {
            break;
        };
        if let Some(mark) = word_slip(it, &piece) {
            return Some(mark);
        }
        if count == 8 {
            ninth = Some(Mark::of(piece.from, line.text.len()));
        }
        count = count.saturating_add(1);
    }
    if count == 0 {
        it.title.put("the words are missing");
        it.help.line(FORM);
        return Some(pieces.end());
    }
    if ninth.is_some() {
        it.title.put("a line gives at most 8 words, and this one ");
        it.title.number(u64::from(count));
        it.help
            .line("Give the further ones by a line of their own.");
    }
    ninth
}

// How many words are left.
fn count_of(pieces: Pieces) -> u64 {
    let mut pieces = pieces;
    let mut count: u64 = 0;
    for _ in 0..pieces.most() {
        if pieces.next_piece().is_none() {
            break;
        }
        count = count.saturating_add(1);
    }
    count
}

// The last word.
fn last_word(line: &Line, pieces: Pieces) -> Mark {
    let mut pieces = pieces;
    let mut mark = line.end();
    for _ in 0..pieces.most() {
        let Some(piece) = pieces.next_piece() else {
            break;
        };
        mark = piece.mark();
    }
    mark
}

// Words that don't lie inside their memory.
fn inside_slip(
    it: &mut Finding,
    at: &Piece,
    mem: Mem,
    count: u64,
    sizes: (u64, u64),
) -> Option<Mark> {
    let first = read_decimal(at.text, u64::MAX)?;
    let taken = match mem {
        Mem::Sdram => count / 2,
        Mem::Sram | Mem::Scratch => count,
    };
    let size = match mem {
        Mem::Sram => sizes.0,
        Mem::Sdram => sizes.1,
        Mem::Scratch => 512,
    };
    let after = first.saturating_add(taken);
    if after <= size {
        return None;
    }
    push_outside(it, mem, first, after.saturating_sub(1), size);
    Some(at.mark())
}

fn push_outside(it: &mut Finding, mem: Mem, first: u64, last: u64, size: u64) {
    let unit = match mem {
        Mem::Sdram => "quadword",
        Mem::Sram | Mem::Scratch => "word",
    };
    it.title.put("the line reaches up to ");
    it.title.put(unit);
    it.title.put(" ");
    it.title.number(last);
    it.title.put(", and ");
    it.title.shown(mem.name());
    it.title.put(" has ");
    it.title.counted(size, unit);
    if last > first {
        it.help.put("It begins at ");
        it.help.put(unit);
        it.help.put(" ");
        it.help.number(first);
        it.help.put(". ");
    }
    it.help.line(match mem {
        Mem::Scratch => "The first 512 words of scratch, 0 to 511, are the program's.",
        Mem::Sram => "Addresses count words from 0. Line 1 has the size.",
        Mem::Sdram => "Addresses count quadwords of two words from 0. Line 1 has the size.",
    })
}
