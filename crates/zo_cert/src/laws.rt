//! What a proof proves, bounds of small programs, and that a report is read back from its text and its truth rests on its
//! contents.

ghost use Rattle.std.specs.Prelude.{◌≡◌};
ghost use Rattle.zo_model.specs.Program.{IsValid};
ghost use Rattle.zo_model.specs.declared.program.ZeroOne.{ZeroOne};
ghost use Rattle.zo_cert_tree.specs.Certificate.{Holds, Proves, Tree};
ghost use Rattle.zo_cert.specs.Contents.{report_contents};
ghost use Rattle.zo_cert.specs.Laws.{ClashOfOneRow, CoverBound, CoverBoundBelowOne, CoverBoundBelowZero, ShortCoverBound};
ghost use Rattle.zo_cert.specs.Report.{IsTrueReport, IsValidReport};
ghost use Rattle.zo_cert.specs.ReportAnswer.{AnswersReport};
ghost use Rattle.zo_cert_tree.specs.declared.cert.Claim.{Claim};
ghost use Rattle.zo_cert.specs.declared.report.Report.{Report};

use crate::report::Report;
use crate::report_reader::read_report;
use crate::report_text::print_report;
use std::alloc::Global;
use zo_model::ZoError;

/// What a tree proves of a valid program holds of every 0-1 vector that meets its rows.
pub fn proof_holds()
    ensures { (z : ZeroOne) (t : Tree) (claim : Claim) → IsValid z → Proves z t claim → Holds z claim }
{}

/// The bounds of five leaves.
#[tactic(auto, using(crate::proofs::Worked::cover_bound, crate::proofs::Worked::short_cover_bound, crate::proofs::Worked::cover_bound_below_zero, crate::proofs::Worked::cover_bound_below_one, crate::proofs::Worked::clash_of_one_row))]
pub fn leaf_bounds()
    ensures whole { CoverBound }
    ensures short { ShortCoverBound }
    ensures below_zero { CoverBoundBelowZero }
    ensures below_one { CoverBoundBelowOne }
    ensures clash { ClashOfOneRow }
{}

/// Whether a report is true rests on its contents.
pub fn truth_is_of_contents()
    ensures { (a b : Report) → report_contents a ≡ report_contents b → IsTrueReport a → IsTrueReport b }
{}

/// The report that is read from the text of a report: the same, where memory suffices. A text of 2^32 bytes or more isn't
/// read, as if there were no memory for it.
pub fn read_back(alloc: Global, r: &Report) -> Result<Report, ZoError>
    requires { IsValidReport r.now }
    ensures { AnswersReport result (report_contents r.now) }
{
    let text = print_report(alloc, r)?;
    if text.len() >= 1 << 32 {
        return Err(ZoError::NoMemory);
    }
    read_report(alloc, &text)
}
