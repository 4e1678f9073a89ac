// The parts of an instruction, from bytes that may stand in their places.
ghost use Rattle.std.specs.Prelude.{◌≡◌, ◌<◌, ◌≤◌, slice_index};
ghost use Rattle.uc_object.specs.Rows.{IsRow, IsSource, IsTarget, IsAddress, number_of_binary, number_of_unary, number_of_condition, number_of_memory, shift_count};
ghost use Rattle.uc_object.specs.Columns.{Allows, Fit, row_columns};
ghost use Rattle.uc_object.specs.declared.byte_set.Column.{Column};

use nv_base::{Bin, Mem};
use uc_isa::{Cond, Dst, Gpr, Instr, RegA, RegB, RegL, RegLD, RegS, RegSD, Src, UnOp};

// The instruction of a row.
pub fn instruction(row: [u8; 8]) -> Instr
    requires { Fit (row_columns (slice_index row 0) (slice_index row 1)) row }
    ensures { IsRow result row }
{
    let [kind, operation, b2, b3, b4, b5, b6, b7] = row;
    match kind {
        0 => Instr::Alu {
            dst: target(b2),
            op: binary(operation),
            x: source(b3),
            y: source(b4),
        },
        1 => Instr::Un {
            dst: target(b2),
            op: unary(operation, b4),
            x: source(b3),
        },
        2 => Instr::Immed {
            dst: target(b2),
            v: u16::from_le_bytes([b4, b5]),
            s: operation,
        },
        3 => Instr::Br {
            cond: condition(operation),
            target: u32::from_le_bytes([b4, b5, b6, b7]),
        },
        4 => Instr::Read {
            mem: memory(operation),
            r: b2,
            n: b3,
            x: address(b4),
            off: b5,
        },
        5 => Instr::Write {
            mem: memory(operation),
            r: b2,
            n: b3,
            x: address(b4),
            off: b5,
        },
        _ => Instr::Halt {
            k: u16::from_le_bytes([b2, b3]),
            n: operation,
        },
    }
}

fn source(byte: u8) -> Src
    requires { Allows Column.Source byte }
    ensures { IsSource result byte }
{
    match byte {
        0..=15 => Src::A(RegA { number: byte }),
        16..=31 => Src::B(RegB { number: byte - 16 }),
        32..=47 => Src::L(RegL { number: byte - 32 }),
        _ => Src::LD(RegLD { number: byte - 48 }),
    }
}

fn target(byte: u8) -> Dst
    requires { Allows Column.Target byte }
    ensures { IsTarget result byte }
{
    match byte {
        0..=15 => Dst::A(RegA { number: byte }),
        16..=31 => Dst::B(RegB { number: byte - 16 }),
        32..=71 => Dst::S(RegS { number: byte - 64 }),
        72..=87 => Dst::SD(RegSD { number: byte - 80 }),
        _ => Dst::Nowhere,
    }
}

fn address(byte: u8) -> Gpr
    requires { byte < 32 }
    ensures { IsAddress result byte }
{
    match byte {
        0..=15 => Gpr::A(RegA { number: byte }),
        _ => Gpr::B(RegB { number: byte - 16 }),
    }
}

fn binary(number: u8) -> Bin
    requires { number ≤ 4 }
    ensures { number_of_binary result ≡ number }
{
    match number {
        0 => Bin::Add,
        1 => Bin::Sub,
        2 => Bin::And,
        3 => Bin::Or,
        _ => Bin::Xor,
    }
}

fn unary(number: u8, count: u8) -> UnOp
    requires number { number ≤ 4 }
    requires no_count { number < 2 → count ≡ 0 }
    ensures number { number_of_unary result ≡ number }
    ensures count { shift_count result ≡ count }
{
    match number {
        0 => UnOp::Copy,
        1 => UnOp::Not,
        2 => UnOp::Shl(count),
        3 => UnOp::Shr(count),
        _ => UnOp::Rol(count),
    }
}

fn condition(number: u8) -> Cond
    requires { number ≤ 4 }
    ensures { number_of_condition result ≡ number }
{
    match number {
        0 => Cond::Always,
        1 => Cond::Z,
        2 => Cond::NZ,
        3 => Cond::C,
        _ => Cond::NC,
    }
}

fn memory(number: u8) -> Mem
    requires { number ≤ 2 }
    ensures { number_of_memory result ≡ number }
{
    match number {
        0 => Mem::Sram,
        1 => Mem::Sdram,
        _ => Mem::Scratch,
    }
}
