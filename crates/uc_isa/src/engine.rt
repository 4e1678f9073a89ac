//! The state of the microengine, and what one instruction does to it.
ghost use Rattle.std.specs.Prelude.{◌≡◌, ◌+◌, ◌^◌, ◌<◌, ◌≤◌, List, ℕ, length, take, drop, Some, None};
ghost use Rattle.nv_base.specs.Memories.{fetched, stored};
ghost use Rattle.nv_base.specs.Words.{bin_word};
ghost use Rattle.nv_base.specs.declared.term.Access.{Access};
ghost use Rattle.uc_isa.specs.Engine.{start};
ghost use Rattle.uc_isa.specs.Lawful.{IsRun, IsPaired, IsShift, Rule2, Rule3, Rule4, Rule6, IsLawful};
ghost use Rattle.uc_isa.specs.Step.{IsNext, EndsRun, operand, address, with_result, with_flags, filled, with_read, write_registers, bin_carry, un_word, holds, branched, after_read, after_write, effect, step};

use crate::{Code, Cond, Dst, Gpr, Instr, Src, UnOp};
use nv_base::{Access, Bin, Mem, Packet, Words, Write, word};

/// The words of the six banks, the flags zero and carry, and the place of the next instruction.
#[derive(Drop, PartialEq, Eq)]
pub struct Engine {
    pub a: [u32; 16],
    pub b: [u32; 16],
    pub l: [u32; 8],
    pub s: [u32; 8],
    pub ld: [u32; 8],
    pub sd: [u32; 8],
    pub z: bool,
    pub c: bool,
    pub place: u32,
}

/// What a step was.
#[derive(Drop, PartialEq, Eq)]
pub enum Stepped {
    Went,
    Wrote(Write),
    /// The run is over: with a result where the number is 0, else with that exception.
    Halted(u16, Words),
    /// The run is over: an access from this address on reached past the memory.
    Fault(Mem, u64),
}

// The word and the carry of an operation on two words.
fn combined(op: &Bin, x: u32, y: u32) -> (u32, bool)
    ensures word { result.0 ≡ bin_word op.now x y }
    ensures carry { result.1 ≡ bin_carry op.now x y }
{
    match op {
        Bin::Add => (word::add(x, y), x as u64 + y as u64 >= 4_294_967_296),
        Bin::Sub => (word::sub(x, y), y <= x),
        Bin::And => (word::and(x, y), false),
        Bin::Or => (word::or(x, y), false),
        Bin::Xor => (word::xor(x, y), false),
    }
}

// The word of an operation on one word.
fn changed(op: &UnOp, x: u32) -> u32
    requires { IsShift op.now }
    ensures { result ≡ un_word op.now x }
{
    match op {
        UnOp::Copy => x,
        UnOp::Not => word::not(x),
        UnOp::Shl(k) => word::shl(x, *k),
        UnOp::Shr(k) => word::shr(x, *k),
        UnOp::Rol(k) => word::rol(x, *k),
    }
}

// Brings n words of a memory into a bank from register r on; at `Bad` nothing changes.
fn fill(bank: &mut [u32], mem: Mem, r: usize, n: usize, at: u64, p: &Packet) -> Access
    requires eight { length bank.old ≡ 8 }
    requires run { IsRun r n }
    requires pairs { IsPaired mem r n }
    ensures done { result ≡ Access.Done → (ws : List ℕ) × (fetched mem at n p.now ≡ Some ws) × (bank.new ≡ filled bank.old r ws) }
    ensures bad { result ≡ Access.Bad → (fetched mem at n p.now ≡ None) × (bank.new ≡ bank.old) }
{
    p.read(mem, at, &mut bank[r..r + n])
}

impl Engine {
    /// The engine before its first step. `base` is the first scratch word that the code may use for itself.
    pub fn start(args: &[u32], base: u32) -> Engine
        requires { length args.now ≤ 8 }
        ensures { result ≡ start args.now base }
    {
        let mut a = [0; 16];
        a[..args.len()].copy_from_slice(args);
        let mut b = [0; 16];
        b[15] = base;
        Engine {
            a,
            b,
            l: [0; 8],
            s: [0; 8],
            ld: [0; 8],
            sd: [0; 8],
            z: false,
            c: false,
            place: 0,
        }
    }

    fn operand(&self, x: &Src) -> u32
        ensures { result ≡ operand x.now self.now }
    {
        match x {
            Src::A(r) => self.a[r.number as usize],
            Src::B(r) => self.b[r.number as usize],
            Src::L(r) => self.l[r.number as usize],
            Src::LD(r) => self.ld[r.number as usize],
        }
    }

    fn address(&self, x: &Gpr) -> u32
        ensures { result ≡ address x.now self.now }
    {
        match x {
            Gpr::A(r) => self.a[r.number as usize],
            Gpr::B(r) => self.b[r.number as usize],
        }
    }

    // Puts a word into a target.
    fn put(&mut self, dst: &Dst, v: u32)
        ensures { self.new ≡ with_result dst.now v self.old }
    {
        match dst {
            Dst::A(r) => self.a[r.number as usize] = v,
            Dst::B(r) => self.b[r.number as usize] = v,
            Dst::S(r) => self.s[r.number as usize] = v,
            Dst::SD(r) => self.sd[r.number as usize] = v,
            Dst::Nowhere => {}
        }
    }

    // Puts a result into a target, and its flags.
    fn put_result(&mut self, dst: &Dst, v: u32, carry: bool)
        ensures { self.new ≡ with_flags v carry (with_result dst.now v self.old) }
    {
        self.put(dst, v);
        self.z = v == 0;
        self.c = carry;
    }

    fn holds(&self, cond: &Cond) -> bool
        ensures { result ≡ holds cond.now self.now }
    {
        match cond {
            Cond::Always => true,
            Cond::Z => self.z,
            Cond::NZ => !self.z,
            Cond::C => self.c,
            Cond::NC => !self.c,
        }
    }

    // Brings words into the read registers of a memory; at `Bad` nothing changes.
    fn fetch(&mut self, mem: Mem, r: usize, n: usize, at: u64, p: &Packet) -> Access
        requires run { IsRun r n }
        requires pairs { IsPaired mem r n }
        ensures done { result ≡ Access.Done → (ws : List ℕ) × (fetched mem at n p.now ≡ Some ws) × (self.new ≡ with_read mem r ws self.old) }
        ensures bad { result ≡ Access.Bad → (fetched mem at n p.now ≡ None) × (self.new ≡ self.old) }
    {
        match mem {
            Mem::Sdram => fill(&mut self.ld, mem, r, n, at, p),
            Mem::Sram | Mem::Scratch => fill(&mut self.l, mem, r, n, at, p),
        }
    }

    fn read(&mut self, mem: Mem, r: usize, n: usize, at: u64, p: &Packet) -> Stepped
        requires run { IsRun r n }
        requires pairs { IsPaired mem r n }
        requires room { self.old.place + 1 < 2 ^ 32 }
        ensures { IsNext (after_read mem r at (fetched mem at n p.now) self.old p.now) result self.new p.now }
    {
        match self.fetch(mem, r, n, at, p) {
            Access::Done => {
                self.place += 1;
                Stepped::Went
            }
            Access::Bad => Stepped::Fault(mem, at),
        }
    }

    fn write_registers(&self, mem: Mem) -> &[u32]
        ensures words { result.now ≡ write_registers mem self.now }
        ensures eight { length result.now ≡ 8 }
    {
        match mem {
            Mem::Sdram => &self.sd,
            Mem::Sram | Mem::Scratch => &self.s,
        }
    }

    fn write(&mut self, mem: Mem, r: usize, n: usize, at: u64, p: &mut Packet) -> Stepped
        requires run { IsRun r n }
        requires pairs { IsPaired mem r n }
        requires room { self.old.place + 1 < 2 ^ 32 }
        ensures { let ws = take n (drop r (write_registers mem self.old)) in
            IsNext (after_write mem at ws (stored mem at ws p.old) self.old p.old) result self.new p.new }
    {
        let words = &self.write_registers(mem)[r..r + n];
        match p.write(mem, at, words) {
            Access::Done => {
                let event = Write {
                    mem,
                    at: at as u32,
                    words: Words::of(words),
                };
                self.place += 1;
                Stepped::Wrote(event)
            }
            Access::Bad => Stepped::Fault(mem, at),
        }
    }

    // Goes to the branch's target where it is taken, else on.
    fn branch(&mut self, cond: &Cond, target: u32)
        requires { self.old.place + 1 < 2 ^ 32 }
        ensures { self.new ≡ branched (holds cond.now self.old) target self.old }
    {
        self.place = if self.holds(cond) {
            target
        } else {
            self.place + 1
        };
    }

    // Performs one instruction.
    fn perform(&mut self, i: &Instr, p: &mut Packet) -> Stepped
        requires run { Rule2 i.now }
        requires pairs { Rule3 i.now }
        requires numbers { Rule4 i.now }
        requires halt { Rule6 i.now }
        requires room { self.old.place + 1 < 2 ^ 32 }
        ensures { IsNext (effect i.now self.old p.old) result self.new p.new }
    {
        match i {
            Instr::Alu { dst, op, x, y } => {
                let (v, carry) = combined(op, self.operand(x), self.operand(y));
                self.put_result(dst, v, carry);
                self.place += 1;
                Stepped::Went
            }
            Instr::Un { dst, op, x } => {
                let v = changed(op, self.operand(x));
                self.put_result(dst, v, false);
                self.place += 1;
                Stepped::Went
            }
            Instr::Immed { dst, v, s } => {
                self.put(dst, word::shl(*v as u32, *s));
                self.place += 1;
                Stepped::Went
            }
            Instr::Br { cond, target } => {
                self.branch(cond, *target);
                Stepped::Went
            }
            Instr::Read { mem, r, n, x, off } => {
                let at = self.address(x) as u64 + *off as u64;
                self.read(*mem, *r as usize, *n as usize, at, p)
            }
            Instr::Write { mem, r, n, x, off } => {
                let at = self.address(x) as u64 + *off as u64;
                self.write(*mem, *r as usize, *n as usize, at, p)
            }
            Instr::Halt { k, n } => Stepped::Halted(*k, Words::of(&self.a[..*n as usize])),
        }
    }
}

/// Performs the instruction at the engine's place. A halt and a fault change neither the engine nor the packet,
/// so the same step can be taken again.
pub fn step(c: &Code, e: &mut Engine, p: &mut Packet) -> Stepped
    requires lawful { IsLawful c.now.list }
    requires inside { e.old.place < length c.now.list }
    ensures stepped { result ≡ (step c.now.list e.old p.old).stepped }
    ensures engine { e.new ≡ (step c.now.list e.old p.old).engine }
    ensures packet { p.new ≡ (step c.now.list e.old p.old).packet }
    ensures unchanged { EndsRun result → (e.new ≡ e.old) × (p.new ≡ p.old) }
    ensures inside { e.new.place < length c.now.list }
{
    e.perform(c.at(e.place), p)
}
