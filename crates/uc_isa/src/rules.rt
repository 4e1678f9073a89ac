//! The rules of lawful code, told of one instruction and of all.
ghost use Rattle.std.specs.Prelude.{◌≡◌, ◌+◌, ◌<◌, ◌≤◌, ◌↔◌, ℕ, length, slice_get, Some, None, IsTrue, IsNone, IfNone, IfSome};
ghost use Rattle.uc_isa.specs.Lawful.{AreApart, IsRun, IsPaired, IsShift, IsLast, Rule1, Rule2, Rule3, Rule4, Rule5, Rule6, Rule7, IsLawful, IsLawfulAt, IsLawfulPlace, Breaks, IsLeastBroken, IsFirstBroken};

use crate::{Code, Cond, Instr, Src, UnOp};
use nv_base::Mem;

fn are_apart(x: &Src, y: &Src) -> bool
    ensures { IsTrue result ↔ AreApart x.now y.now }
{
    match (x, y) {
        (Src::A(_), Src::A(_)) | (Src::B(_), Src::B(_)) => false,
        (Src::L(_) | Src::LD(_), Src::L(_) | Src::LD(_)) => false,
        _ => true,
    }
}

fn is_run(r: u8, n: u8) -> bool
    ensures { IsTrue result ↔ IsRun r n }
{
    1 <= n && r as u32 + n as u32 <= 8
}

fn is_paired(mem: Mem, r: u8, n: u8) -> bool
    ensures { IsTrue result ↔ IsPaired mem r n }
{
    match mem {
        Mem::Sdram => r % 2 == 0 && n % 2 == 0,
        Mem::Sram | Mem::Scratch => true,
    }
}

fn is_shift(op: &UnOp) -> bool
    ensures { IsTrue result ↔ IsShift op.now }
{
    match op {
        UnOp::Copy | UnOp::Not => true,
        UnOp::Shl(k) | UnOp::Shr(k) | UnOp::Rol(k) => 1 <= *k && *k <= 31,
    }
}

impl Instr {
    fn has_operands_apart(&self) -> bool
        ensures { IsTrue result ↔ Rule1 self.now }
    {
        match self {
            Instr::Alu { x, y, .. } => are_apart(x, y),
            _ => true,
        }
    }

    fn has_run(&self) -> bool
        ensures { IsTrue result ↔ Rule2 self.now }
    {
        match self {
            Instr::Read { r, n, .. } | Instr::Write { r, n, .. } => is_run(*r, *n),
            _ => true,
        }
    }

    fn has_pairs(&self) -> bool
        ensures { IsTrue result ↔ Rule3 self.now }
    {
        match self {
            Instr::Read { mem, r, n, .. } | Instr::Write { mem, r, n, .. } => is_paired(
                *mem, *r, *n,
            ),
            _ => true,
        }
    }

    fn has_numbers(&self) -> bool
        ensures { IsTrue result ↔ Rule4 self.now }
    {
        match self {
            Instr::Un { op, .. } => is_shift(op),
            Instr::Immed { s, .. } => matches!(*s, 0 | 8 | 16),
            Instr::Read { off, .. } | Instr::Write { off, .. } => *off <= 127,
            _ => true,
        }
    }

    fn has_target(&self, len: usize) -> bool
        ensures { IsTrue result ↔ Rule5 len self.now }
    {
        match self {
            Instr::Br { target, .. } => (*target as usize) < len,
            _ => true,
        }
    }

    fn has_few_words(&self) -> bool
        ensures { IsTrue result ↔ Rule6 self.now }
    {
        match self {
            Instr::Halt { n, .. } => *n <= 8,
            _ => true,
        }
    }

    fn is_last(&self) -> bool
        ensures { IsTrue result ↔ IsLast self.now }
    {
        matches!(
            self,
            Instr::Halt { .. }
                | Instr::Br {
                    cond: Cond::Always,
                    ..
                }
        )
    }
}

// The least rule that an instruction breaks at a place.
fn broken_by(i: &Instr, c: &Code, place: u32) -> Option<u8>
    ensures lawful { IfNone result (IsLawfulAt c.now.list place i.now) }
    ensures broken { IfSome result (Breaks c.now.list place i.now) }
    ensures least { IfSome result (λ rule. (lesser : ℕ) → lesser < rule → ¬ Breaks c.now.list place i.now lesser) }
{
    let len = c.list().len();
    if !i.has_operands_apart() {
        Some(1)
    } else if !i.has_run() {
        Some(2)
    } else if !i.has_pairs() {
        Some(3)
    } else if !i.has_numbers() {
        Some(4)
    } else if !i.has_target(len) {
        Some(5)
    } else if !i.has_few_words() {
        Some(6)
    } else if place as usize + 1 == len && !i.is_last() {
        Some(7)
    } else {
        None
    }
}

/// The least of the seven rules that the instruction at this place breaks.
pub fn broken(c: &Code, place: u32) -> Option<u8>
    requires inside { place < length c.now.list }
    ensures lawful { IfNone result (IsLawfulPlace c.now.list place) }
    ensures lawful_only { IsLawfulPlace c.now.list place → IsNone result }
    ensures least { IfSome result (IsLeastBroken c.now.list place) }
{
    broken_by(c.at(place), c, place)
}

/// The first place whose instruction isn't lawful, with the least rule that it breaks.
pub fn lint(c: &Code) -> Option<(u32, u8)>
    ensures lawful { IfNone result (IsLawful c.now.list) }
    ensures lawful_only { IsLawful c.now.list → IsNone result }
    ensures first { IfSome result (λ found. IsFirstBroken c.now.list found.0 found.1) }
{
    for place in 0..c.list().len() as u32 {
        if let Some(rule) = broken(c, place) {
            return Some((place, rule));
        }
    }
    None
}
