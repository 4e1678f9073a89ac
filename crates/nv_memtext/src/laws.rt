//! What the definitions give of short texts.
ghost use Rattle.nv_memtext.specs.Worked.{NamedOutcome, ShortOutcome, ShortText};

/// A memory text of five lines, and the texts of two outcomes.
#[tactic(auto, using(crate::proofs::Worked::short_text, crate::proofs::Worked::short_outcome, crate::proofs::Worked::named_outcome))]
pub fn short_texts()
    ensures memory { ShortText }
    ensures outcome { ShortOutcome }
    ensures named { NamedOutcome }
{}
