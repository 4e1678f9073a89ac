//! Short texts that a person writes.
ghost use Rattle.laws_commands.specs.Texts.{BadMemories, Lines, ShortSchedule};

/// On which line a byte stands.
#[tactic(auto, using(crate::proofs::ShortTexts::lines_by_feeds))]
pub fn lines_by_feeds()
    ensures { Lines }
{}

/// A schedule of two contexts, and one that goes wrong at once.
#[tactic(auto, using(crate::proofs::ShortTexts::short_schedule))]
pub fn short_schedule()
    ensures { ShortSchedule }
{}

/// A memory text with a size that is too large, and one that goes wrong at once.
#[tactic(auto, using(crate::proofs::ShortTexts::bad_memories))]
pub fn bad_memories()
    ensures { BadMemories }
{}
