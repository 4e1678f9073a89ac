//! Reports on banks.
ghost use Rattle.laws_commands.specs.Reports.{OneCheck, OneFormsReportsAgree, VerdictLines};

/// Reports on the banks of one form agree on the least cost, and on whether there is a vector.
#[tactic(auto, using(crate::proofs::ReportsProved::reports_agree))]
pub fn reports_agree()
    ensures { OneFormsReportsAgree }
{}

/// What `check` prints, and that it answers in one way.
#[tactic(auto, using(crate::proofs::ReportsProved::verdict_lines, crate::proofs::ReportsProved::one_check))]
pub fn one_check()
    ensures lines { VerdictLines }
    ensures one { OneCheck }
{}
