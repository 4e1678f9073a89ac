//! Lines of instructions.

use crate::nearest::push_meant;
use crate::operand::{Operand, operand_slip};
use crate::place::{Line, Mark, Piece, Pieces};
use diag_text::finding::Finding;
use std::alloc::Global;

// A kind of instruction: its form, and its operands in order.
#[derive(Clone, Copy)]
struct Kind {
    form: &'static str,
    operands: &'static [Operand],
}

const ALU: Kind = Kind {
    form: "The form is `alu DST OP X Y`.",
    operands: &[
        Operand::Target,
        Operand::Binary,
        Operand::Source,
        Operand::Source,
    ],
};

const UN: Kind = Kind {
    form: "The form is `un DST COPY X`, or NOT for COPY, or `SHL K`, `SHR K` or `ROL K`.",
    operands: &[Operand::Target, Operand::Unary, Operand::Source],
};

const SHIFT: Kind = Kind {
    form: "The form is `un DST SHL K X`, or SHR or ROL for SHL.",
    operands: &[
        Operand::Target,
        Operand::Unary,
        Operand::Places,
        Operand::Source,
    ],
};

const IMMED: Kind = Kind {
    form: "The form is `immed DST V S`: V shifted left by S, which is 0, 8 or 16.",
    operands: &[Operand::Target, Operand::Value, Operand::Shift],
};

const BRANCH: Kind = Kind {
    form: "The form is `br COND TARGET`: a label, or `@` and a place.",
    operands: &[Operand::Condition, Operand::Place],
};

const ACCESS: Kind = Kind {
    form: "The form is `read MEM R N X OFF`: N words, the transfer register R, the address X and an offset. `write` has it too.",
    operands: &[
        Operand::Memory,
        Operand::Register,
        Operand::Count,
        Operand::Address,
        Operand::Offset,
    ],
};

const HALT: Kind = Kind {
    form: "The form is `halt K N`: 0 or the number of an exception, and how many of A0 to A7 are given.",
    operands: &[Operand::Exception, Operand::Given],
};

const NAMES: [&[u8]; 7] = [b"alu", b"un", b"immed", b"br", b"read", b"write", b"halt"];

/// Says what is wrong with a line of an instruction.
pub fn instruction_slip(alloc: Global, it: &mut Finding, line: &Line) -> Option<Mark> {
    let mut pieces = line.pieces();
    let name = pieces.next_piece()?;
    let Some(kind) = kind_of(name.text, pieces) else {
        return Some(name_slip(alloc, it, &name));
    };
    for operand in kind.operands {
        let Some(piece) = pieces.next_piece() else {
            it.title.put(operand.name());
            it.title.put(" is missing");
            it.help.line(kind.form);
            return Some(pieces.end());
        };
        if let Some(mark) = operand_slip(alloc, it, *operand, &piece) {
            it.help.line(kind.form);
            return Some(mark);
        }
    }
    let surplus = pieces.next_piece()?;
    it.title.quoted(surplus.text);
    it.title.put(" stands behind the last operand");
    it.help.line(kind.form);
    Some(Mark::of(surplus.from, line.text.len()))
}

// The kind of an instruction by its name, and of `un` by its operation.
fn kind_of(name: &[u8], operands: Pieces) -> Option<Kind> {
    match name {
        b"alu" => Some(ALU),
        b"un" => Some(if is_shift(operands) { SHIFT } else { UN }),
        b"immed" => Some(IMMED),
        b"br" => Some(BRANCH),
        b"read" | b"write" => Some(ACCESS),
        b"halt" => Some(HALT),
        _ => None,
    }
}

// Whether the second operand shifts.
fn is_shift(operands: Pieces) -> bool {
    let mut operands = operands;
    let _target = operands.next_piece();
    match operands.next_piece() {
        Some(piece) => matches!(piece.text, b"SHL" | b"SHR" | b"ROL"),
        None => false,
    }
}

// Another word than the name of an instruction.
fn name_slip(alloc: Global, it: &mut Finding, name: &Piece) -> Mark {
    it.title.put("no instruction is called ");
    it.title.quoted(name.text);
    if name.text == b"params".as_slice() {
        it.help.line("`params` begins line 1 alone.");
    } else if !push_meant(alloc, it, name.text, &NAMES) {
        it.help.line(
            "There are `alu`, `un`, `immed`, `br`, `read`, `write` and `halt`. A label's line ends with a colon.",
        )
    }
    name.mark()
}
