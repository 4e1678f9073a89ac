//! The report of an answer.

ghost use Rattle.std.specs.Prelude.{◌≡◌, ◌<◌, ◌≤◌, ◌^◌, All, IfOk, false, length, replicate};
ghost use Rattle.zo_model.specs.Program.{IsValid};
ghost use Rattle.zo_cert_tree.specs.Certificate.{IsShaped, IsTreeWith};
ghost use Rattle.zo_cert_tree.specs.Node.{IsNode};
ghost use Rattle.zo_cert.specs.Report.{IsTrueReport, IsValidReport};
ghost use Rattle.zo_solve.specs.Reported.{IsReportOf};
ghost use Rattle.zo_solve.specs.Solved.{IsCutOff, IsProved, OfVector, tree_of};
ghost use Rattle.zo_solve_dive.specs.Vector.{IsVector};

use crate::search::Solved;
use std::alloc::{AllocError, Global};
use zo_cert::{Report, Verdict};
use zo_model::{Assignment, NoMemory, ZeroOne};

/// The vector of N columns that is all 0.
fn zeros(alloc: Global, columns: usize) -> Result<Assignment, AllocError>
    ensures { IfOk result (λ x. x.on.items ≡ replicate columns false) }
{
    Ok(Assignment {
        on: vec![in alloc; false; columns]?,
    })
}

/// The report of an answer of `solve` to this program and budget: it is valid and true.
///
/// Where the answer has no vector, that of the report is all 0.
pub fn report_of(
    alloc: Global,
    z: ZeroOne,
    solved: Solved,
    slots: u32,
    budget: u32,
) -> Result<Report, NoMemory>
    requires valid { IsValid z }
    requires slots { slots ≤ 128 }
    requires some { 1 ≤ budget }
    requires budget { budget ≤ 1000000 }
    requires vector { OfVector (IsVector z) solved }
    requires proved { IsProved z solved }
    requires cut_off { IsCutOff budget solved }
    requires shaped { IsTreeWith (IsShaped z) (tree_of solved) }
    requires few_nodes { length (tree_of solved).nodes.items < 2 ^ 32 }
    requires within_limits { All IsNode (tree_of solved).nodes.items }
    ensures valid { IfOk result IsValidReport }
    ensures holds { IfOk result IsTrueReport }
    ensures says { IfOk result (IsReportOf z solved slots budget) }
{
    let columns = z.costs.len();
    match solved {
        Solved::Optimal(x, tree) => Ok(Report {
            slots,
            budget,
            z,
            verdict: Verdict::Optimal,
            x,
            tree,
        }),
        Solved::Feasible(x, tree) => Ok(Report {
            slots,
            budget,
            z,
            verdict: Verdict::Feasible,
            x,
            tree,
        }),
        Solved::Infeasible(tree) => {
            let x = zeros(alloc, columns)?;
            Ok(Report {
                slots,
                budget,
                z,
                verdict: Verdict::Infeasible,
                x,
                tree,
            })
        }
        Solved::Spent(tree) => {
            let x = zeros(alloc, columns)?;
            Ok(Report {
                slots,
                budget,
                z,
                verdict: Verdict::Spent,
                x,
                tree,
            })
        }
    }
}
