//! What a compilation says.
ghost use Rattle.laws_commands.specs.Sentences.{SaysAgreement, SaysMoves, SaysReport};

/// The object's code does what the source does.
pub fn code_does_what_the_source_does()
    ensures { SaysAgreement }
{}

/// The report is true, on the banks of a form of the source; and what `optimal` says.
pub fn report_is_true()
    ensures { SaysReport }
{}

/// The code's moves cost no more than the report's vector.
pub fn moves_cost_no_more()
    ensures { SaysMoves }
{}
