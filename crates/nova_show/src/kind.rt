//! What one instruction is for.
ghost use Rattle.std.specs.Prelude.{◌≡◌, nat_eq, if◌then◌else◌, false, true};
ghost use Rattle.uc_isa.specs.Moves.{weight, copy_weight, access_weight};
ghost use Rattle.uc_isa.specs.declared.instruction.Instr.{Instr};
ghost use Rattle.nova_show.specs.Kinds.{kind, kind_by, kind_weight};

use nv_base::Mem;
use uc_isa::{Dst, Gpr, Instr, Src, UnOp};

// The register through which copies cost nothing, and the one that holds where the slots begin.
const FREE: u8 = 15;

const SLOTS: u8 = 15;

/// What an instruction is for.
#[derive(Clone, Copy, PartialEq, Eq)]
pub enum Kind {
    /// A copy within a bank, or by way of A15, which costs nothing.
    Within,
    /// A copy from one bank to another.
    Between,
    /// A number of the code.
    Literal,
    /// An access to a slot of scratch in which a value is kept.
    Spill,
    Other,
}

/// What an instruction is for. Its kind says what it costs.
pub fn kind_of(i: &Instr) -> Kind
    ensures kind { result ≡ kind i.now }
    ensures cost { weight i.now ≡ kind_weight result }
{
    match i {
        Instr::Un { dst, op, x } => operation_kind(dst, op, x),
        Instr::Immed { dst: _, v: _, s: _ } => Kind::Literal,
        Instr::Read {
            mem,
            r: _,
            n: _,
            x,
            off: _,
        } => access_kind(*mem, x),
        Instr::Write {
            mem,
            r: _,
            n: _,
            x,
            off: _,
        } => access_kind(*mem, x),
        Instr::Alu {
            dst: _,
            op: _,
            x: _,
            y: _,
        } => Kind::Other,
        Instr::Br { cond: _, target: _ } => Kind::Other,
        Instr::Halt { k: _, n: _ } => Kind::Other,
    }
}

// An operation on one word.
fn operation_kind(dst: &Dst, op: &UnOp, x: &Src) -> Kind
    ensures kind { result ≡ kind (Instr.Un dst.now op.now x.now) }
    ensures cost { weight (Instr.Un dst.now op.now x.now) ≡ kind_weight result }
{
    match op {
        UnOp::Copy => copy_kind(dst, x),
        UnOp::Not | UnOp::Shl(_) | UnOp::Shr(_) | UnOp::Rol(_) => Kind::Other,
    }
}

// A copy.
fn copy_kind(dst: &Dst, x: &Src) -> Kind
    ensures kind { result ≡ kind (Instr.Un dst.now UnOp.Copy x.now) }
    ensures cost { copy_weight dst.now x.now ≡ kind_weight result }
{
    match dst {
        Dst::Nowhere => Kind::Other,
        Dst::A(to) => match x {
            Src::A(_) => Kind::Within,
            Src::B(_) | Src::L(_) | Src::LD(_) => copy_by(to.number),
        },
        Dst::B(_) => match x {
            Src::A(from) => copy_by(from.number),
            Src::B(_) => Kind::Within,
            Src::L(_) | Src::LD(_) => Kind::Between,
        },
        Dst::S(_) | Dst::SD(_) => match x {
            Src::A(from) => copy_by(from.number),
            Src::B(_) | Src::L(_) | Src::LD(_) => Kind::Between,
        },
    }
}

// A copy between two banks, of which one is A, with this register there.
fn copy_by(number: u8) -> Kind
    ensures kind { result ≡ kind_by true (if nat_eq number 15 then 0 else 1) }
    ensures cost { (if nat_eq number 15 then 0 else 1) ≡ kind_weight result }
{
    if number == FREE {
        Kind::Within
    } else {
        Kind::Between
    }
}

// An access to a memory at an address in a register.
fn access_kind(mem: Mem, x: &Gpr) -> Kind
    ensures kind { result ≡ kind_by false (access_weight mem x.now) }
    ensures cost { access_weight mem x.now ≡ kind_weight result }
{
    match mem {
        Mem::Scratch => match x {
            Gpr::A(_) => Kind::Other,
            Gpr::B(r) => {
                if r.number == SLOTS {
                    Kind::Spill
                } else {
                    Kind::Other
                }
            }
        },
        Mem::Sram | Mem::Sdram => Kind::Other,
    }
}
