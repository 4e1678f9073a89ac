//! Short codes.
ghost use Rattle.laws_commands.specs.ExamplesMachine.{ContextsTakeTurns, LiveAroundTest, RulesAnswer, SlotsByBase, TaggedObject};

/// Two contexts of one code take turns.
#[tactic(auto, using(crate::proofs::ShortCode::contexts_take_turns))]
pub fn contexts_take_turns()
    ensures { ContextsTakeTurns }
{}

/// What an object of version 2 has beside its code.
#[tactic(auto, using(crate::proofs::ShortCode::tagged_object))]
pub fn tagged_object()
    ensures { TaggedObject }
{}

/// How many slots a code needs.
#[tactic(auto, using(crate::proofs::ShortCode::slots_by_base))]
pub fn slots_by_base()
    ensures { SlotsByBase }
{}

/// What is live around a test, and what the rules for needless instructions answer.
#[tactic(auto, using(crate::proofs::ShortCode::live_around_test, crate::proofs::ShortCode::rules_answer))]
pub fn needless_instructions()
    ensures live { LiveAroundTest }
    ensures rules { RulesAnswer }
{}
