//! The facts after an instruction.

ghost use Rattle.std.specs.Prelude.{◌≡◌, true, false, IfSome, IfNone};
ghost use Rattle.uc_isa.specs.declared.instruction.Dst.{Dst};
ghost use Rattle.uc_isa.specs.declared.instruction.Instr.TheVariants.{Un};
ghost use Rattle.uc_isa.specs.declared.instruction.UnOp.TheVariants.{Copy};
ghost use Rattle.uc_isa.specs.Program.{IsFormed};
ghost use Rattle.uc_isa.specs.Resources.{IsResource, Resource, is_flag, reads, writes};
ghost use Rattle.uc_isa.specs.StraightCode.{IsStraight};
ghost use Rattle.uc_peep.specs.Sets.{has};
ghost use Rattle.uc_peep_facts.specs.Facts.{Gives, IsApart, IsNamed, IsOneOf, IsResult, SetsFlags, is_part, known, with_target};

use crate::equal::is_same_operand;
use crate::fact::{Fact, Facts, Part};
use uc_isa::{Dst, Instr, RegA, RegB, Src, UnOp};
use uc_peep::{LiveSet, written_by};

// Whether the instruction is straight, and nothing that it reads is in the set.
fn reads_apart(i: &Instr, set: &LiveSet) -> bool
    ensures straight { result ≡ true → IsStraight i.now }
    ensures apart { result ≡ true → (s : Resource) → IsResource s → reads i.now s ≡ true → has set.now s ≡ false }
{
    match i {
        Instr::Alu { x, y, .. } => !set.has_src(*x) && !set.has_src(*y),
        Instr::Un { x, .. } => !set.has_src(*x),
        Instr::Immed { .. } => true,
        _ => false,
    }
}

// Whether the target of a straight instruction isn't in the set.
fn target_apart(i: &Instr, set: &LiveSet) -> bool
    ensures { result ≡ true → (s : Resource) → IsResource s → writes i.now s ≡ true → is_flag s ≡ false → has set.now s ≡ false }
{
    match i {
        Instr::Alu { dst, .. } => !set.has_dst(*dst),
        Instr::Un { dst, .. } => !set.has_dst(*dst),
        Instr::Immed { dst, .. } => !set.has_dst(*dst),
        _ => false,
    }
}

// Whether this part of what a straight instruction writes isn't in the set.
fn part_apart(f: &Fact, set: &LiveSet) -> bool
    ensures { result ≡ true → (s : Resource) → IsResource s → writes f.now.instr s ≡ true → is_part f.now.part s ≡ true → has set.now s ≡ false }
{
    let (zero, carry) = set.flags();
    match f.part {
        Part::Target => target_apart(&f.instr, set),
        Part::Zero => !zero,
        Part::Flags => !zero && !carry,
    }
}

// Whether an instruction that writes this set leaves a fact as it is.
fn is_apart(f: &Fact, set: &LiveSet) -> bool
    ensures { result ≡ true → IsApart f.now set.now }
{
    reads_apart(&f.instr, set) && part_apart(f, set)
}

// The operand that a target can be.
pub(crate) fn operand_of(d: &Dst) -> Option<Src>
    ensures { IfSome result (λ x. IsNamed d.now x) }
{
    match d {
        Dst::A(r) => Some(Src::A(RegA { number: r.number })),
        Dst::B(r) => Some(Src::B(RegB { number: r.number })),
        _ => None,
    }
}

// A straight instruction with another target.
pub(crate) fn with_target(i: &Instr, d: &Dst) -> Instr
    ensures { result ≡ with_target d.now i.now }
{
    match i {
        Instr::Alu { op, x, y, .. } => Instr::Alu {
            dst: *d,
            op: *op,
            x: *x,
            y: *y,
        },
        Instr::Un { op, x, .. } => Instr::Un {
            dst: *d,
            op: *op,
            x: *x,
        },
        Instr::Immed { v, s, .. } => Instr::Immed {
            dst: *d,
            v: *v,
            s: *s,
        },
        _ => *i,
    }
}

// The target of an instruction that sets the flags.
pub(crate) fn flagged_target(i: &Instr) -> Option<Dst>
    ensures some { IfSome result (λ d. SetsFlags i.now d) }
    ensures none { IfNone result ((d : Dst) → ¬ SetsFlags i.now d) }
{
    match i {
        Instr::Alu { dst, .. } => Some(*dst),
        Instr::Un { dst, .. } => Some(*dst),
        _ => None,
    }
}

// The register in which a fact's instruction has its result, where that can be an operand.
fn result_of(f: &Fact) -> Option<Src>
    ensures { IfSome result (IsResult f.now) }
{
    match (f.part, f.instr) {
        (Part::Target, Instr::Alu { dst, .. }) => operand_of(&dst),
        (Part::Target, Instr::Un { dst, .. }) => operand_of(&dst),
        (Part::Target, Instr::Immed { dst, .. }) => operand_of(&dst),
        _ => None,
    }
}

// The facts that are left where this set is written.
fn keep_left(i: &Instr, before: &Facts, set: &LiveSet, after: &mut Facts)
    requires formed { IsFormed i.now }
    requires written { (s : Resource) → IsResource s → has set.now s ≡ writes i.now s }
    requires so_far { Gives i.now (known before.now) (known after.old) }
    ensures { Gives i.now (known before.now) (known after.new) }
{
    for k in 0..32 {
        if let Some(f) = before.get(k) {
            if is_apart(&f, set) {
                after.push(f);
            }
        }
    }
}

// After a copy its target holds what the operand was known to hold.
fn copy_one(d: &Dst, x: &Src, before: &Facts, set: &LiveSet, f: &Fact, after: &mut Facts)
    requires written { (s : Resource) → IsResource s → has set.now s ≡ writes (Un d.now Copy x.now) s }
    requires noted { IsOneOf f.now (known before.now) }
    requires so_far { Gives (Un d.now Copy x.now) (known before.now) (known after.old) }
    ensures { Gives (Un d.now Copy x.now) (known before.now) (known after.new) }
{
    if let Some(y) = result_of(f) {
        if is_same_operand(&y, x) && reads_apart(&f.instr, set) {
            after.push(Fact {
                instr: with_target(&f.instr, d),
                part: Part::Target,
            });
        }
    }
}

// What a copy gives.
fn add_copied(d: &Dst, x: &Src, before: &Facts, set: &LiveSet, after: &mut Facts)
    requires written { (s : Resource) → IsResource s → has set.now s ≡ writes (Un d.now Copy x.now) s }
    requires so_far { Gives (Un d.now Copy x.now) (known before.now) (known after.old) }
    ensures { Gives (Un d.now Copy x.now) (known before.now) (known after.new) }
{
    for k in 0..32 {
        if let Some(f) = before.get(k) {
            copy_one(d, x, before, set, &f, after);
        }
    }
}

// An instruction that leaves its operands would do the same again.
fn add_own(i: &Instr, before: &Facts, set: &LiveSet, after: &mut Facts)
    requires formed { IsFormed i.now }
    requires written { (s : Resource) → IsResource s → has set.now s ≡ writes i.now s }
    requires so_far { Gives i.now (known before.now) (known after.old) }
    ensures { Gives i.now (known before.now) (known after.new) }
{
    if !reads_apart(i, set) {
        return;
    }
    after.push(Fact {
        instr: with_target(i, &Dst::Nowhere),
        part: Part::Flags,
    });
    after.push(Fact {
        instr: *i,
        part: Part::Target,
    });
}

// The flag zero tells whether the result is zero.
fn add_tested(i: &Instr, before: &Facts, after: &mut Facts)
    requires formed { IsFormed i.now }
    requires so_far { Gives i.now (known before.now) (known after.old) }
    ensures { Gives i.now (known before.now) (known after.new) }
{
    if let Some(d) = flagged_target(i) {
        if let Some(x) = operand_of(&d) {
            after.push(Fact {
                instr: Instr::Un {
                    dst: Dst::Nowhere,
                    op: UnOp::Copy,
                    x,
                },
                part: Part::Zero,
            });
        }
    }
}

pub(crate) fn is_copy(op: &UnOp) -> bool
    ensures { result ≡ true → op.now ≡ Copy }
{
    matches!(op, UnOp::Copy)
}

/// The facts that stand after an instruction where these stand before it.
pub(crate) fn facts_after(i: &Instr, before: &Facts) -> Facts
    requires { IsFormed i.now }
    ensures { Gives i.now (known before.now) (known result) }
{
    let set = written_by(i);
    let mut after = Facts::none();
    keep_left(i, before, &set, &mut after);
    if let Instr::Un { dst, op, x } = i {
        if is_copy(op) {
            add_copied(dst, x, before, &set, &mut after);
        }
    }
    add_tested(i, before, &mut after);
    add_own(i, before, &set, &mut after);
    after
}
