//! Code whose branches name points: places of points come last.

ghost use Rattle.std.specs.Prelude.{◌≡◌, ◌++◌, [], ◌∷◌, map, All, OnOk};
ghost use Rattle.uc_isa.specs.declared.instruction.Instr.TheVariants as instr;
ghost use Rattle.uc_isa.specs.declared.instruction.UnOp.TheVariants as operation;
ghost use Rattle.ucode_emit.specs.Pieces as pieces;
ghost use Rattle.ucode_emit.specs.inner.Machine.{IsReadable, IsWritable};
ghost use Rattle.ucode_emit.specs.inner.DraftItems.{draft, CanMove};

use crate::moves::Move;
use crate::registers::{source, target};
use nv_base::{Mem, NoMemory};
use place_plan::Place;
use std::alloc::Global;
use std::marker::Model;
use uc_isa::{Dst, Gpr, Instr, RegB, Src, UnOp};

/// Instructions, where the target of a branch is a point in place of a place. Contracts see it as their
/// list.
#[derive(Drop)]
pub struct Draft {
    list: Vec<Instr>,
}

impl Model for Draft {
    ghost use Rattle.std.specs.Prelude.{List};
    ghost use Rattle.uc_isa.specs.declared.instruction.Instr.{Instr};

    ghost Value = { List Instr };

    ghost view = { λ d. d.list.items };
}

impl Draft {
    /// No instructions yet.
    pub fn new(alloc: Global) -> Draft
        ensures { result ≡ [] }
    {
        Draft {
            list: Vec::new(alloc),
        }
    }

    /// The instructions.
    pub fn list(&self) -> &[Instr]
        ensures { result.now ≡ self.now }
    {
        &self.list
    }

    /// One instruction more.
    pub fn push(&mut self, i: Instr) -> Result<(), NoMemory>
        ensures { OnOk result (self.new ≡ self.old ++ i ∷ []) }
    {
        // The check has to be told of each type that an instruction may hold.
        let _dst: Option<Dst> = None;
        let _gpr: Option<Gpr> = None;
        let _src: Option<Src> = None;
        let _op: Option<UnOp> = None;
        self.list.push(i)?;
        Ok(())
    }
}

// A move between registers.
fn copy(from: Place, at: Place) -> Instr
    requires readable { IsReadable from }
    requires writable { IsWritable at }
    ensures { result ≡ instr.Un (pieces.target at) operation.Copy (pieces.source from) }
{
    Instr::Un {
        dst: target(at),
        op: UnOp::Copy,
        x: source(from),
    }
}

/// One move by one instruction: slots are words of scratch from the spill base on.
fn move_instr(from: Place, at: Place) -> Instr
    requires { CanMove from at }
    ensures { result ≡ pieces.move_instr from at }
{
    match (from, at) {
        (Place::Slot(k), Place::L(r)) => Instr::Read {
            mem: Mem::Scratch,
            r,
            n: 1,
            x: Gpr::B(RegB { number: 15 }),
            off: k,
        },
        (Place::S(r), Place::Slot(k)) => Instr::Write {
            mem: Mem::Scratch,
            r,
            n: 1,
            x: Gpr::B(RegB { number: 15 }),
            off: k,
        },
        (from, at) => copy(from, at),
    }
}

// Adds the instruction of a move.
fn push_move(code: &mut Draft, from: Place, at: Place) -> Result<(), NoMemory>
    requires { CanMove from at }
    ensures { OnOk result (code.new ≡ code.old ++ pieces.move_instr from at ∷ []) }
{
    code.push(move_instr(from, at))
}

/// Adds the instructions of moves.
pub fn push_moves(code: &mut Draft, moves: &[Move]) -> Result<(), NoMemory>
    requires { All (λ m. CanMove m.0 m.1) moves.now }
    ensures { OnOk result (code.new ≡ code.old ++ map draft (pieces.moved moves.now)) }
{
    for m in moves {
        push_move(code, m.0, m.1)?;
    }
    Ok(())
}
