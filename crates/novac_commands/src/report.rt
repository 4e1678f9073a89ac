//! The command `check`.
ghost use Rattle.std.specs.Prelude.{◌≡◌, ◌⊎◌, ◌≤◌, length, IfOk, IfErr, OnOk};
ghost use Rattle.zo_cert.specs.Report.{IsValidReport, IsTrueReport};
ghost use Rattle.nova_back.specs.Causes.{report_cost};
ghost use Rattle.novac_commands.specs.Checking.{CheckRefuses, IsChecked, IsReportOf, Shown, verdict_text};
ghost use Rattle.novac_words.specs.Limits.{report_limit};
ghost use Rattle.novac_words.specs.Lines.{IsUncaused};
ghost use Rattle.novac_words.specs.declared.refusal.Refusal.{Refusal};
ghost use Rattle.novac_words.specs.declared.status.Status.{Status};

use novac_words::{Refusal, Reply, Status, counted_line, line};
use nv_base::NoMemory;
use std::alloc::Global;
use zo_cert::{Report, Verdict, Work, ZoError, check_report, read_report};
use zo_model::cost;

/// Checks the report that the bytes are the text of, by itself.
pub fn check_bytes<'a>(alloc: Global, bytes: &[u8]) -> Result<Reply, Refusal<'a>>
    requires { length bytes.now ≤ report_limit }
    ensures ended { IfOk result (λ r. IsChecked bytes.now r.status r.text.items) }
    ensures refused { IfErr result (λ e. IsUncaused e ⊎ CheckRefuses bytes.now e) }
    ensures end { IfOk result (λ r. r.status ≡ Status.Done) }
{
    let report = report_of(alloc, bytes)?;
    check_truth(alloc, &report)?;
    let text = verdict_line(alloc, &report)?;
    Ok(Reply {
        status: Status::Done,
        text,
    })
}

// The report that the bytes are the text of.
fn report_of<'a>(alloc: Global, bytes: &[u8]) -> Result<Report, Refusal<'a>>
    requires { length bytes.now ≤ report_limit }
    ensures report { IfOk result (λ r. IsReportOf bytes.now r) }
    ensures refused { IfErr result (λ e. IsUncaused e ⊎ CheckRefuses bytes.now e) }
{
    match read_report(alloc, bytes) {
        Ok(report) => Ok(report),
        Err(ZoError::NoMemory) => Err(Refusal::NoMemory),
        Err(ZoError::Bad(n)) => Err(Refusal::BadReport(n)),
    }
}

// Refuses a report that isn't true.
fn check_truth<'a>(alloc: Global, report: &Report) -> Result<(), Refusal<'a>>
    requires { IsValidReport report.now }
    ensures is_true { OnOk result (IsTrueReport report.now) }
    ensures shown { OnOk result (Shown report.now.verdict report.now) }
    ensures refused { IfErr result (λ e. IsUncaused e ⊎ ((e ≡ Refusal.FalseReport) × ¬ IsTrueReport report.now)) }
{
    let mut work = match Work::new(alloc, &report.z) {
        Ok(work) => work,
        Err(_) => return Err(Refusal::NoMemory),
    };
    if check_report(report, &mut work) {
        Ok(())
    } else {
        Err(Refusal::FalseReport)
    }
}

// The line of a report's verdict.
fn verdict_line(alloc: Global, report: &Report) -> Result<Vec<u8>, NoMemory>
    requires { IsValidReport report.now }
    ensures { IfOk result (λ text. text.items ≡ verdict_text report.now.verdict (report_cost report.now)) }
{
    match report.verdict {
        Verdict::Optimal => counted_line(alloc, b"optimal ", cost(&report.z, &report.x)),
        Verdict::Feasible => counted_line(alloc, b"feasible ", cost(&report.z, &report.x)),
        Verdict::Infeasible => line(alloc, b"infeasible"),
        Verdict::Spent => line(alloc, b"spent"),
    }
}
