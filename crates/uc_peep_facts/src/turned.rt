//! Branches over a jump, found and turned in a draft of code.

ghost use Rattle.std.specs.Prelude.{◌≡◌, ◌+◌, ◌<◌, ℕ, true, false, IfSome, IfNone, length, slice_set};
ghost use Rattle.uc_isa.specs.declared.instruction.Cond.{Cond};
ghost use Rattle.uc_isa.specs.declared.instruction.Cond.TheVariants.{Always};
ghost use Rattle.uc_isa.specs.declared.instruction.Instr.TheVariants.{Br};
ghost use Rattle.uc_isa.specs.Program.{IsProgram};
ghost use Rattle.uc_peep.specs.Kept.{is_gone};
ghost use Rattle.uc_peep.specs.Window.{filler};
ghost use Rattle.uc_peep_facts.specs.Turned as spec;
ghost use Rattle.uc_peep_facts.specs.inner.Pairs.{AreTurnedTo, IsBranch, IsOver};

use uc_isa::{Cond, Instr};

// The condition that holds exactly where this one doesn't.
fn opposite(c: &Cond) -> Cond
    ensures { result ≡ spec.opposite c.now }
{
    match c {
        Cond::Always => Cond::Always,
        Cond::Z => Cond::NZ,
        Cond::NZ => Cond::Z,
        Cond::C => Cond::NC,
        Cond::NC => Cond::C,
    }
}

fn asks(c: &Cond) -> bool
    ensures { result ≡ spec.asks c.now }
{
    !matches!(c, Cond::Always)
}

// The condition of a branch that asks a flag and goes to the place after next.
fn condition_at(code: &[Instr], x: usize) -> Option<Cond>
    requires { x < length code.now }
    ensures some { IfSome result (λ c. (spec.asks c ≡ true) × IsBranch code.now x c (x + 2)) }
    ensures none { IfNone result ((c : Cond) → spec.asks c ≡ true → ¬ IsBranch code.now x c (x + 2)) }
{
    match &code[x] {
        Instr::Br { cond, target } if asks(cond) && *target as usize == x + 2 => Some(*cond),
        _ => None,
    }
}

// Where the jump at a place goes.
fn jump_at(code: &[Instr], x: usize) -> Option<u32>
    requires { x < length code.now }
    ensures some { IfSome result (λ y. IsBranch code.now x Always y) }
    ensures none { IfNone result ((y : ℕ) → ¬ IsBranch code.now x Always y) }
{
    match &code[x] {
        Instr::Br {
            cond: Cond::Always,
            target,
        } => Some(*target),
        _ => None,
    }
}

// The condition of the branch at a place, and where the jump behind it goes, where the one branch on the opposite condition may
// stand for both.
fn over_at(code: &[Instr], entered: &[bool], started: &[bool], x: usize) -> Option<(Cond, u32)>
    requires lawful { IsProgram code.now }
    requires entered { length entered.now ≡ length code.now }
    requires started { length started.now ≡ length code.now }
    requires inside { x < length code.now }
    ensures some { IfSome result (λ t. IsOver code.now entered.now started.now x t.0 t.1) }
    ensures none { IfNone result ((c : Cond) (y : ℕ) → ¬ IsOver code.now entered.now started.now x c y) }
{
    if x + 2 >= code.len() || entered[x + 1] || started[x + 1] || started[x + 2] {
        return None;
    }
    match (condition_at(code, x), jump_at(code, x + 1)) {
        (Some(c), Some(y)) => Some((c, y)),
        _ => None,
    }
}

// Puts the branch on the opposite condition at a place, and a filler behind it.
fn put(draft: &mut [Instr], gone: &mut [bool], x: usize, c: &Cond, to: u32)
    requires inside { x + 1 < length draft.old }
    requires size { length gone.old ≡ length draft.old }
    requires small { length draft.old < 2147483648 }
    ensures draft { draft.new ≡ slice_set (slice_set draft.old x (Br (spec.opposite c.now) to)) (x + 1) (filler (x + 1)) }
    ensures gone { gone.new ≡ slice_set gone.old (x + 1) true }
{
    let y = x + 1;
    draft[x] = Instr::Br {
        cond: opposite(c),
        target: to,
    };
    draft[y] = Instr::Br {
        cond: Cond::Always,
        target: y as u32 + 1,
    };
    gone[y] = true;
}

/// Turns each branch over a jump, marks the jumps as gone, and says whether there was one.
pub(crate) fn turn_all(
    code: &[Instr],
    entered: &[bool],
    started: &[bool],
    draft: &mut [Instr],
    gone: &mut [bool],
) -> bool
    requires lawful { IsProgram code.now }
    requires small { length code.now < 2147483648 }
    requires entered { length entered.now ≡ length code.now }
    requires started { length started.now ≡ length code.now }
    requires size_gone { length gone.old ≡ length code.now }
    requires draft { draft.old ≡ code.now }
    requires gone { (x : ℕ) → is_gone gone.old x ≡ false }
    ensures { AreTurnedTo code.now entered.now started.now draft.new gone.new result (length code.now) }
{
    let mut some = false;
    for x in 0..code.len() {
        if let Some((c, to)) = over_at(code, entered, started, x) {
            put(draft, gone, x, &c, to);
            some = true;
        }
    }
    some
}
