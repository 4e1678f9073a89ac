//! Operands and addresses in the registers that their words came from.

ghost use Rattle.std.specs.Prelude.{◌≡◌, ◌↔◌, true, IfSome};
ghost use Rattle.uc_isa.specs.Lawful.{AreApart};
ghost use Rattle.uc_isa.specs.declared.instruction.Instr.TheVariants.{Alu, Un};
ghost use Rattle.uc_isa.specs.declared.instruction.Src.{Src};
ghost use Rattle.uc_isa.specs.declared.instruction.Src.TheVariants as src;
ghost use Rattle.uc_isa.specs.Program.{IsFormed};
ghost use Rattle.uc_peep_facts.specs.Facts.{IsNamed, known};
ghost use Rattle.uc_peep_facts.specs.declared.fact.Part.TheVariants.{Target};
ghost use Rattle.uc_peep_facts.specs.Elsewhere.{GoesAs, ReadsAs};
ghost use Rattle.uc_peep_facts.specs.inner.Operands.{Fits, HoldsSame, HoldsSameAt, HoldsWord, IsHolder, IsOther, IsReread, IsSource, IsWordAt, IsWordOf};

use crate::equal::is_same_operand;
use crate::fact::{Fact, Facts, Part};
use crate::flow::{is_copy, operand_of};
use crate::paid::copy_weight;
use nv_base::Bin;
use uc_isa::{Dst, Gpr, Instr, Src, UnOp};

// Whether it is B15, which holds the address of the first slot.
fn is_base(x: &Src) -> bool
    ensures { result ≡ true ↔ x.now ≡ src.B 15 }
{
    match x {
        Src::B(r) => r.number == 15,
        _ => false,
    }
}

// Whether two operands can be those of one operation.
fn are_apart(x: &Src, y: &Src) -> bool
    ensures { result ≡ true → AreApart x.now y.now }
{
    !matches!(
        (x, y),
        (Src::A(_), Src::A(_))
            | (Src::B(_), Src::B(_))
            | (Src::L(_) | Src::LD(_), Src::L(_) | Src::LD(_))
    )
}

// Whether the target is the operand's register.
fn is_named(d: &Dst, x: &Src) -> bool
    ensures { result ≡ true → IsNamed d.now x.now }
{
    match operand_of(d) {
        Some(y) => is_same_operand(&y, x),
        None => false,
    }
}

// Whether the fact speaks of the target.
fn is_of_target(f: &Fact) -> bool
    ensures { result ≡ true → f.now.part ≡ Target }
{
    matches!(f.part, Part::Target)
}

// The operand that the fact's copy came from, if this one is its target.
fn source_by(x: &Src, f: &Fact) -> Option<Src>
    ensures { IfSome result (IsSource f.now x.now) }
{
    if let Instr::Un { dst, op, x: from } = &f.instr {
        if is_of_target(f) && is_copy(op) && is_named(dst, x) && !is_base(from) {
            return Some(*from);
        }
    }
    None
}

// The literal that a fact says the operand holds.
fn literal_by(x: &Src, f: &Fact) -> Option<(u16, u8)>
    ensures { IfSome result (λ l. IsWordOf f.now x.now l.0 l.1) }
{
    if let Instr::Immed { dst, v, s } = &f.instr {
        if is_of_target(f) && is_named(dst, x) {
            return Some((*v, *s));
        }
    }
    None
}

// The literal that the operand is known to hold.
fn literal_of(x: &Src, facts: &Facts) -> Option<(u16, u8)>
    ensures { IfSome result (λ l. HoldsWord (known facts.now) x.now l.0 l.1) }
{
    for k in 0..32 {
        if let Some(f) = facts.get(k) {
            if let Some(l) = literal_by(x, &f) {
                return Some(l);
            }
        }
    }
    None
}

// The operand that a fact says holds the literal.
fn holder_by(v: u16, s: u8, f: &Fact) -> Option<Src>
    ensures { IfSome result (λ y. IsHolder f.now y v s) }
{
    if let Instr::Immed { dst, v: w, s: n } = &f.instr {
        if is_of_target(f) && *w == v && *n == s {
            if let Some(y) = operand_of(dst) {
                if !is_base(&y) {
                    return Some(y);
                }
            }
        }
    }
    None
}

// The first operand that is known to hold the literal.
fn holder_of(v: u16, s: u8, facts: &Facts) -> Option<Src>
    ensures { IfSome result (λ y. IsWordAt (known facts.now) y v s) }
{
    for k in 0..32 {
        if let Some(f) = facts.get(k) {
            if let Some(y) = holder_by(v, s, &f) {
                return Some(y);
            }
        }
    }
    None
}

// An operand that holds the same literal.
fn same_literal(x: &Src, facts: &Facts) -> Option<Src>
    ensures { IfSome result (IsOther (known facts.now) x.now) }
{
    match literal_of(x, facts) {
        Some((v, s)) => holder_of(v, s, facts),
        None => None,
    }
}

// The operand that the fact of this number says this one was copied from.
fn source_of(x: &Src, facts: &Facts, k: usize) -> Option<Src>
    ensures { IfSome result (IsOther (known facts.now) x.now) }
{
    match facts.get(k) {
        Some(f) => source_by(x, &f),
        None => None,
    }
}

// What may be asked of an operand that is put in the place of another one.
#[derive(Clone, Copy)]
pub(crate) enum Use {
    Before(Src),
    After(Src),
    CopiedTo(Dst, Src),
    Any,
    Address,
}

// Whether an operand is as it may be.
fn fits(u: &Use, y: &Src) -> bool
    ensures { result ≡ true → Fits u.now y.now }
{
    match u {
        Use::Before(z) => are_apart(y, z),
        Use::After(z) => are_apart(z, y),
        Use::CopiedTo(d, x) => copy_weight(d, y) <= copy_weight(d, x),
        Use::Any => true,
        Use::Address => matches!(y, Src::A(_) | Src::B(_)),
    }
}

// What is asked of the operand of an operation on one word: a copy that may not be heavier may not weigh more.
fn unary_use(d: &Dst, op: &UnOp, x: &Src, heavy: bool) -> Use
    ensures { Fits result x.now }
{
    if is_copy(op) && !heavy {
        return Use::CopiedTo(*d, *x);
    }
    Use::Any
}

// Whether an operation only compares.
fn is_comparison(d: &Dst, op: &Bin) -> bool {
    matches!(d, Dst::Nowhere) && matches!(op, Bin::Sub)
}

// The operand that is read in the place of this one. An operand that is compared isn't read from another literal's
// register: where it is a zero of its own, both may be left out later.
fn operand_for(x: &Src, u: &Use, facts: &Facts, is_compared: bool) -> Src
    requires { Fits u.now x.now }
    ensures same { HoldsSame (known facts.now) x.now result }
    ensures reads { ReadsAs x.now result }
    ensures fits { Fits u.now result }
{
    for k in 0..32 {
        if let Some(y) = source_of(x, facts, k) {
            if fits(u, &y) {
                return y;
            }
        }
    }
    if is_compared {
        return *x;
    }
    match same_literal(x, facts) {
        Some(y) if fits(u, &y) => y,
        _ => *x,
    }
}

// The register that an address is read from in the place of this one.
fn address_for(x: &Gpr, facts: &Facts) -> Gpr
    ensures same { HoldsSameAt (known facts.now) x.now result }
    ensures goes { GoesAs x.now result }
{
    let from = match x {
        Gpr::A(r) => Src::A(*r),
        Gpr::B(r) => Src::B(*r),
    };
    if is_base(&from) {
        return *x;
    }
    match operand_for(&from, &Use::Address, facts, false) {
        Src::A(r) => Gpr::A(r),
        Src::B(r) => Gpr::B(r),
        _ => *x,
    }
}

// What an operation reads in the place of its first operand, before this second one.
fn first_operand(x: &Src, y: &Src, facts: &Facts, is_compared: bool) -> Src
    requires { AreApart x.now y.now }
    ensures same { HoldsSame (known facts.now) x.now result }
    ensures reads { ReadsAs x.now result }
    ensures apart { AreApart result y.now }
{
    let u = Use::Before(*y);
    operand_for(x, &u, facts, is_compared)
}

// What an operation reads in the place of its second operand, after this first one.
fn second_operand(x: &Src, y: &Src, facts: &Facts, is_compared: bool) -> Src
    requires { AreApart x.now y.now }
    ensures same { HoldsSame (known facts.now) y.now result }
    ensures reads { ReadsAs y.now result }
    ensures apart { AreApart x.now result }
{
    let u = Use::After(*x);
    operand_for(y, &u, facts, is_compared)
}

// An operation on two words that reads elsewhere.
fn reread_alu(d: &Dst, op: &Bin, x: &Src, y: &Src, facts: &Facts) -> Instr
    requires { IsFormed (Alu d.now op.now x.now y.now) }
    ensures { IsReread (known facts.now) (Alu d.now op.now x.now y.now) result }
{
    let is_compared = is_comparison(d, op);
    let first = first_operand(x, y, facts, is_compared);
    let second = second_operand(&first, y, facts, is_compared);
    Instr::Alu {
        dst: *d,
        op: *op,
        x: first,
        y: second,
    }
}

// An operation on one word that reads elsewhere.
fn reread_un(d: &Dst, op: &UnOp, x: &Src, facts: &Facts, heavy: bool) -> Instr
    requires { IsFormed (Un d.now op.now x.now) }
    ensures { IsReread (known facts.now) (Un d.now op.now x.now) result }
{
    let u = unary_use(d, op, x, heavy);
    let from = operand_for(x, &u, facts, false);
    Instr::Un {
        dst: *d,
        op: *op,
        x: from,
    }
}

/// The instruction with its operands and its address in the registers that they came from. A copy weighs more only where it
/// may be heavy.
pub(crate) fn reread(i: &Instr, facts: &Facts, heavy: bool) -> Instr
    requires { IsFormed i.now }
    ensures { IsReread (known facts.now) i.now result }
{
    match i {
        Instr::Alu { dst, op, x, y } => reread_alu(dst, op, x, y, facts),
        Instr::Un { dst, op, x } => reread_un(dst, op, x, facts, heavy),
        Instr::Read { mem, r, n, x, off } => {
            let from = address_for(x, facts);
            Instr::Read {
                mem: *mem,
                r: *r,
                n: *n,
                x: from,
                off: *off,
            }
        }
        Instr::Write { mem, r, n, x, off } => {
            let from = address_for(x, facts);
            Instr::Write {
                mem: *mem,
                r: *r,
                n: *n,
                x: from,
                off: *off,
            }
        }
        _ => *i,
    }
}
