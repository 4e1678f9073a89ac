//! The instructions of the microengine.
use crate::{RegA, RegB, RegL, RegLD, RegS, RegSD};
use nv_base::{Bin, Mem};

/// Where an operand comes from.
#[derive(Clone, Copy)]
pub enum Src {
    A(RegA),
    B(RegB),
    L(RegL),
    LD(RegLD),
}

/// Where a result goes.
#[derive(Clone, Copy)]
pub enum Dst {
    A(RegA),
    B(RegB),
    S(RegS),
    SD(RegSD),
    /// The result is only tested, by the flags.
    Nowhere,
}

/// A register that can hold an address.
#[derive(Clone, Copy)]
pub enum Gpr {
    A(RegA),
    B(RegB),
}

/// An operation on one word; a shift or rotation holds its count.
#[derive(Clone, Copy)]
pub enum UnOp {
    Copy,
    Not,
    Shl(u8),
    Shr(u8),
    Rol(u8),
}

/// When a branch is taken: always, or by the flags zero and carry.
#[derive(Clone, Copy)]
pub enum Cond {
    Always,
    Z,
    NZ,
    C,
    NC,
}

/// One instruction. A memory instruction moves `n` words between its memory and the registers from number `r` on;
/// its address is the word of `x` plus `off`.
#[derive(Clone, Copy)]
pub enum Instr {
    Alu {
        dst: Dst,
        op: Bin,
        x: Src,
        y: Src,
    },
    Un {
        dst: Dst,
        op: UnOp,
        x: Src,
    },
    /// Puts `v` shifted left by `s`.
    Immed {
        dst: Dst,
        v: u16,
        s: u8,
    },
    Br {
        cond: Cond,
        target: u32,
    },
    Read {
        mem: Mem,
        r: u8,
        n: u8,
        x: Gpr,
        off: u8,
    },
    Write {
        mem: Mem,
        r: u8,
        n: u8,
        x: Gpr,
        off: u8,
    },
    /// Ends with the first `n` words of bank A: as a result where `k` is 0, else as exception `k`.
    Halt {
        k: u16,
        n: u8,
    },
}
