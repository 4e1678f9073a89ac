//! Answers that the inputs decide.
ghost use Rattle.laws_commands.specs.Answers.{DecidedAnswers, OneAnswer};

/// What must be refused is refused, and what is printed alone is made without a file.
#[tactic(auto, using(crate::proofs::AnswersProved::decided_answers))]
pub fn decided_answers()
    ensures { DecidedAnswers }
{}

/// No contents have two answers.
#[tactic(auto, using(crate::proofs::AnswersProved::one_answer))]
pub fn one_answer()
    ensures { OneAnswer }
{}
