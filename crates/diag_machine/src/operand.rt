//! Operands of instructions.

use crate::nearest::push_meant;
use crate::number::number_slip;
use crate::place::{Mark, Piece};
use diag_text::finding::Finding;
use nv_base::Mem;
use nv_lines::{part, read_decimal};
use std::alloc::Global;
use uc_asm::{condition_of, is_name};

/// What stands at a place of an instruction.
#[derive(Clone, Copy)]
pub enum Operand {
    Target,
    Source,
    Address,
    Binary,
    Unary,
    Condition,
    Memory,
    Place,
    Places,
    Value,
    Shift,
    Register,
    Count,
    Offset,
    Exception,
    Given,
}

impl Operand {
    /// What it is called.
    pub fn name(self) -> &'static str {
        match self {
            Operand::Target => "the register of the result",
            Operand::Source => "an operand",
            Operand::Address => "the register of the address",
            Operand::Binary | Operand::Unary => "the operation",
            Operand::Condition => "the condition",
            Operand::Memory => "the memory",
            Operand::Place => "the target",
            Operand::Places => "the number of places",
            Operand::Value => "the value",
            Operand::Shift => "the shift",
            Operand::Register => "the number of the transfer register",
            Operand::Count => "the number of words",
            Operand::Offset => "the offset",
            Operand::Exception => "the number of the exception",
            Operand::Given => "the number of results",
        }
    }

    // The greatest number that is read there, or nothing where it is no number.
    fn most(self) -> Option<u64> {
        match self {
            Operand::Value | Operand::Exception => Some(65_535),
            Operand::Places
            | Operand::Shift
            | Operand::Register
            | Operand::Count
            | Operand::Offset
            | Operand::Given => Some(255),
            _ => None,
        }
    }
}

/// Says why a piece can't be this operand, or nothing where it can.
pub fn operand_slip(
    alloc: Global,
    it: &mut Finding,
    operand: Operand,
    piece: &Piece,
) -> Option<Mark> {
    if let Some(most) = operand.most() {
        let mark = number_slip(it, piece, operand.name(), most)?;
        if matches!(operand, Operand::Value) && is_decimal(piece.text) {
            it.help.line("A word of more than 16 bits takes two `immed` and an `alu`.")
        }
        return Some(mark);
    }
    match operand {
        Operand::Target => register_slip(it, piece, operand, &TARGETS),
        Operand::Source => register_slip(it, piece, operand, &SOURCES),
        Operand::Address => register_slip(it, piece, operand, &ADDRESSES),
        Operand::Binary => known_slip(alloc, it, piece, operand, &BINARIES),
        Operand::Unary => known_slip(alloc, it, piece, operand, &UNARIES),
        Operand::Condition => known_slip(alloc, it, piece, operand, &CONDITIONS),
        Operand::Memory => known_slip(alloc, it, piece, operand, &MEMORIES),
        Operand::Place => place_slip(it, piece),
        _ => None,
    }
}

const BINARIES: [&[u8]; 5] = [b"ADD", b"SUB", b"AND", b"OR", b"XOR"];

const UNARIES: [&[u8]; 5] = [b"COPY", b"NOT", b"SHL", b"SHR", b"ROL"];

const CONDITIONS: [&[u8]; 5] = [b"ALWAYS", b"Z", b"NZ", b"C", b"NC"];

const MEMORIES: [&[u8]; 3] = [b"sram", b"sdram", b"scratch"];

fn is_decimal(text: &[u8]) -> bool {
    read_decimal(text, u64::MAX).is_some()
}

// A word that is none of the known ones.
fn known_slip(
    alloc: Global,
    it: &mut Finding,
    piece: &Piece,
    operand: Operand,
    known: &[&'static [u8]],
) -> Option<Mark> {
    for name in known {
        if piece.text == *name {
            return None;
        }
    }
    push_found(it, piece, operand);
    if piece.text == b"dram".as_slice() {
        it.help.line("Did you mean `sdram`?")
    } else if !push_meant(alloc, it, piece.text, known) {
        push_known(it, known)
    }
    Some(piece.mark())
}

fn push_found(it: &mut Finding, piece: &Piece, operand: Operand) {
    it.title.quoted(piece.text);
    it.title.put(" can't be ");
    it.title.put(operand.name())
}

fn push_known(it: &mut Finding, known: &[&'static [u8]]) {
    it.help.put("There are");
    let mut before = " ";
    for name in known {
        it.help.put(before);
        it.help.quoted(name);
        before = ", ";
    }
    it.help.line(".")
}

// A bank of registers, and how many it has.
#[derive(Clone, Copy)]
struct Bank {
    name: &'static [u8],
    count: u64,
}

const A: Bank = Bank {
    name: b"A",
    count: 16,
};

const B: Bank = Bank {
    name: b"B",
    count: 16,
};

const L: Bank = Bank {
    name: b"L",
    count: 8,
};

const LD: Bank = Bank {
    name: b"LD",
    count: 8,
};

const S: Bank = Bank {
    name: b"S",
    count: 8,
};

const SD: Bank = Bank {
    name: b"SD",
    count: 8,
};

const ALL: [Bank; 6] = [A, B, L, LD, S, SD];

const SOURCES: [Bank; 4] = [A, B, L, LD];

const TARGETS: [Bank; 4] = [A, B, S, SD];

const ADDRESSES: [Bank; 2] = [A, B];

// A word that is no register of these banks.
fn register_slip(
    it: &mut Finding,
    piece: &Piece,
    operand: Operand,
    banks: &[Bank],
) -> Option<Mark> {
    if matches!(operand, Operand::Target) && piece.text == b"none".as_slice() {
        return None;
    }
    for bank in banks {
        if is_register(piece.text, bank) {
            return None;
        }
    }
    push_found(it, piece, operand);
    push_register_help(it, piece, banks);
    Some(piece.mark())
}

fn is_register(text: &[u8], bank: &Bank) -> bool {
    match text.strip_prefix(bank.name) {
        Some(digits) => read_decimal(digits, bank.count.saturating_sub(1)).is_some(),
        None => false,
    }
}

// What helps: another case, a bank that can't stand here, or a number that a bank doesn't have.
fn push_register_help(it: &mut Finding, piece: &Piece, banks: &[Bank]) {
    if piece.text.ends_with(b",") {
        it.help.line("One blank parts two operands, and no comma.");
        return;
    }
    if piece.text.contains(&b'+') {
        it.help.line("An offset stands by itself, behind the register and a blank.");
        return;
    }
    let letters = letters_of(piece.text);
    for bank in ALL.iter() {
        if letters == bank.name && !is_register(piece.text, bank) {
            it.help.put("Registers of ");
            it.help.shown(bank.name);
            it.help.put(" have the numbers 0 to ");
            it.help.number(bank.count.saturating_sub(1));
            it.help.line(".");
            return;
        }
    }
    if piece.text.eq_ignore_ascii_case(b"none") || is_lower(letters) {
        it.help.line("Registers have capital letters, and `none` has small ones.");
        return;
    }
    it.help.put("Here registers of");
    let mut before = " ";
    for bank in banks {
        it.help.put(before);
        it.help.shown(bank.name);
        before = ", ";
    }
    it.help.line(" can stand.")
}

fn letters_of(text: &[u8]) -> &[u8] {
    for (at, byte) in text.iter().enumerate() {
        if byte.is_ascii_digit() {
            return part(text, 0, at);
        }
    }
    text
}

// Whether these are the letters of a bank in lower case.
fn is_lower(letters: &[u8]) -> bool {
    matches!(letters, b"a" | b"b" | b"l" | b"ld" | b"s" | b"sd")
}

// A target that is neither a name nor a place.
fn place_slip(it: &mut Finding, piece: &Piece) -> Option<Mark> {
    if is_name(piece.text) {
        return None;
    }
    if piece.text.starts_with(b"@") {
        let digits = Piece {
            text: part(piece.text, 1, piece.text.len()),
            from: piece.from.saturating_add(1),
        };
        return number_slip(it, &digits, "the place", 4_294_967_295);
    }
    push_found(it, piece, Operand::Place);
    if read_decimal(piece.text, u64::MAX).is_some() {
        it.help.line("A place is `@` and its number.")
    } else if piece.text.ends_with(b":") {
        it.help.line("A colon stands behind the label where it is declared alone.")
    }
    Some(piece.mark())
}
