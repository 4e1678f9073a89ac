//! What holds of all assembly texts.
ghost use Rattle.std.specs.Prelude.{◌≡◌, ◌<◌, ◌^◌, ◌⊎◌, ℕ, All, List, Ok, length};
ghost use Rattle.uc_isa.specs.Code.{CodeView, IsCode};
ghost use Rattle.uc_isa.specs.Lawful.{IsLawful};
ghost use Rattle.uc_asm.specs.Answer.{Answers, IsTrueError};
ghost use Rattle.uc_asm.specs.Labels.{IsCodeOf};
ghost use Rattle.uc_asm.specs.Text.{listing};
ghost use Rattle.uc_asm.specs.Words.{InRange};
ghost use Rattle.uc_asm.specs.Worked.{MovingListing, RaisingListing, SumListing};
ghost use Rattle.uc_asm.specs.declared.error.AsmError.{AsmError};

use crate::{AsmError, assemble, print};
use std::alloc::Global;
use uc_isa::Code;

/// A text has one answer, memory exhaustion apart: one code, or one error.
pub fn one_answer()
    ensures code { (bytes : List ℕ) (c d : CodeView) → IsCodeOf bytes c → IsCodeOf bytes d → c ≡ d }
    ensures no_error { (bytes : List ℕ) (c : CodeView) (e : AsmError) → IsCodeOf bytes c → IsTrueError bytes e → e ≡ AsmError.NoMemory }
    ensures error { (bytes : List ℕ) (e f : AsmError) → IsTrueError bytes e → IsTrueError bytes f → (e ≡ f) ⊎ (e ≡ AsmError.NoMemory) ⊎ (f ≡ AsmError.NoMemory) }
{}

/// The listing of a lawful code is a text of it.
pub fn listing_is_text()
    ensures { (c : CodeView) → IsCode c → All InRange c.list → IsLawful c.list → IsCodeOf (listing c) c }
{}

/// What was printed of a lawful code assembles to it.
pub fn assemble_printed(alloc: Global, code: &Code) -> Result<Code, AsmError>
    requires lawful { IsLawful code.now.list }
    requires short { length (listing code.now) < 2 ^ 32 }
    ensures { Answers result (Ok code.now) }
{
    assemble(alloc, &print(alloc, code)?)
}

/// The listings of two short codes, and of an object with a label.
#[tactic(auto, using(crate::proofs::Worked::sum_listing, crate::proofs::Worked::moving_listing, crate::proofs::Worked::raising_listing))]
pub fn short_listings()
    ensures sum { SumListing }
    ensures moves { MovingListing }
    ensures raising { RaisingListing }
{}
