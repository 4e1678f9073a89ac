//! The conditions of branches.
ghost use Rattle.std.specs.Prelude.{◌≡◌, ◌≢◌, MatchOption};
ghost use Rattle.uc_asm.specs.Words.{condition_name};
ghost use Rattle.uc_isa.specs.declared.instruction.Cond.{Cond};

use uc_isa::Cond;

/// The condition of this name.
pub fn condition_of(name: &[u8]) -> Option<Cond>
    ensures { MatchOption result ((cond : Cond) → name.now ≢ condition_name cond) (λ cond. name.now ≡ condition_name cond) }
{
    match name {
        b"ALWAYS" => Some(Cond::Always),
        b"Z" => Some(Cond::Z),
        b"NZ" => Some(Cond::NZ),
        b"C" => Some(Cond::C),
        b"NC" => Some(Cond::NC),
        _ => None,
    }
}
