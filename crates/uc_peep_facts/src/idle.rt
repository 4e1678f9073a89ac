//! Instructions that change nothing that is live.

ghost use Rattle.std.specs.Prelude.{◌≡◌, true};
ghost use Rattle.uc_isa.specs.declared.instruction.Dst.TheVariants.{Nowhere};
ghost use Rattle.uc_isa.specs.Program.{IsFormed};
ghost use Rattle.uc_peep_facts.specs.Facts.{FlagsStand, IsIdle, IsOneOf, TargetStands, known, with_target};

use crate::equal::is_same_fact;
use crate::fact::{Fact, Facts, Part};
use crate::flow::with_target;
use uc_isa::{Dst, Instr};
use uc_peep::LiveSet;

// Whether a fact is among these.
pub(crate) fn is_known(f: &Fact, facts: &Facts) -> bool
    ensures { result ≡ true → IsOneOf f.now (known facts.now) }
{
    for k in 0..32 {
        if let Some(g) = facts.get(k) {
            if is_same_fact(&g, f) {
                return true;
            }
        }
    }
    false
}

// Whether the instruction would put into its target what that holds, or what isn't live.
fn target_stands(d: &Dst, i: &Instr, facts: &Facts, live: &LiveSet) -> bool
    ensures { result ≡ true → TargetStands d.now i.now (known facts.now) live.now }
{
    if !live.has_dst(*d) {
        return true;
    }
    let f = Fact {
        instr: *i,
        part: Part::Target,
    };
    is_known(&f, facts)
}

// Whether this part of the flags that the instruction sets is known to stand.
fn part_stands(i: &Instr, part: Part, facts: &Facts) -> bool
    ensures { result ≡ true → IsOneOf (record { instr = with_target Nowhere i.now; part = part }) (known facts.now) }
{
    let f = Fact {
        instr: with_target(i, &Dst::Nowhere),
        part,
    };
    is_known(&f, facts)
}

// Whether the instruction would leave those flags that are live.
fn flags_stand(i: &Instr, facts: &Facts, live: &LiveSet) -> bool
    ensures { result ≡ true → FlagsStand i.now (known facts.now) live.now }
{
    let (zero, carry) = live.flags();
    if !zero && !carry {
        return true;
    }
    if part_stands(i, Part::Flags, facts) {
        return true;
    }
    !carry && part_stands(i, Part::Zero, facts)
}

/// Whether an instruction is straight, and changes nothing that is live after it.
pub(crate) fn is_idle(i: &Instr, facts: &Facts, live: &LiveSet) -> bool
    requires { IsFormed i.now }
    ensures { result ≡ true → IsIdle (known facts.now) live.now i.now }
{
    match i {
        Instr::Alu { dst, .. } => {
            target_stands(dst, i, facts, live) && flags_stand(i, facts, live)
        }
        Instr::Un { dst, .. } => target_stands(dst, i, facts, live) && flags_stand(i, facts, live),
        Instr::Immed { dst, .. } => target_stands(dst, i, facts, live),
        _ => false,
    }
}
