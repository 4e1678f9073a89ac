//! The text of a report: slots, budget, the program, the verdict, the columns that are 1 where it has a cost, and the tree.

ghost use Rattle.std.specs.Prelude.{◌≡◌, ◌++◌, ◌∷◌, [], map, length, decimal, IfOk, OnOk};
ghost use Rattle.std.specs.List.{flat_map};
ghost use Rattle.nv_lines.specs.Line.{text_of};
ghost use Rattle.zo_model.specs.Program.{IsValid, columns, cost_of, vector};
ghost use Rattle.zo_cert_tree.specs.Node.{node_contents, node_line};
ghost use Rattle.zo_cert.specs.Contents.{report_contents};
ghost use Rattle.zo_cert.specs.Report.{IsValidReport};
ghost use Rattle.zo_cert.specs.ReportFault.{IsReport};
ghost use Rattle.zo_cert.specs.ReportText.{ones_from, x_line, verdict_lines, report_text};

use crate::fits::nodes_fit;
use crate::report::{Report, Verdict};
use nv_lines::{push_counted, push_decimal};
use std::alloc::{AllocError, Global};
use zo_cert_tree::CertNode;
use zo_cert_tree::node_text::push_node;
use zo_model::{NoMemory, cost, push_program};

/// Writes a line for each node.
fn push_nodes(out: &mut Vec<u8>, nodes: &[CertNode]) -> Result<(), AllocError>
    ensures { OnOk result (out.new.items ≡ out.old.items ++ text_of (map node_line (map node_contents nodes.now))) }
{
    for node in nodes {
        push_node(out, node)?;
    }
    Ok(())
}

/// Writes the column, after a space, where it is 1.
fn push_one(out: &mut Vec<u8>, column: usize, on: bool) -> Result<(), AllocError>
    ensures { OnOk result (out.new.items ≡ out.old.items ++ flat_map (λ j. 32 ∷ decimal j) (ones_from column (on ∷ []))) }
{
    if !on {
        return Ok(());
    }
    out.push(b' ')?;
    push_decimal(out, column as u64)?;
    Ok(())
}

/// Writes the line of the columns that are 1.
fn push_ones(out: &mut Vec<u8>, on: &[bool]) -> Result<(), AllocError>
    ensures { OnOk result (out.new.items ≡ out.old.items ++ (x_line on.now ++ 10 ∷ [])) }
{
    out.extend_from_slice(b"x")?;
    for column in 0..on.len() {
        push_one(out, column, on[column])?;
    }
    out.push(b'\n')?;
    Ok(())
}

/// Writes a verdict of this text with the cost, and the columns that are 1.
fn push_costed(out: &mut Vec<u8>, text: &[u8], r: &Report) -> Result<(), AllocError>
    requires program { IsValid r.now.z }
    requires columns { length r.now.x.on.items ≡ columns r.now.z }
    ensures { OnOk result (out.new.items ≡ out.old.items ++ ((text.now ++ (decimal (cost_of r.now.z (vector r.now.x.on.items)) ++ 10 ∷ [])) ++ (x_line r.now.x.on.items ++ 10 ∷ []))) }
{
    push_counted(out, text, cost(&r.z, &r.x))?;
    push_ones(out, &r.x.on)?;
    Ok(())
}

/// Writes the verdict, and the columns that are 1 where it has a cost.
fn push_verdict(out: &mut Vec<u8>, r: &Report) -> Result<(), AllocError>
    requires program { IsValid r.now.z }
    requires columns { length r.now.x.on.items ≡ columns r.now.z }
    ensures { OnOk result (out.new.items ≡ out.old.items ++ text_of (verdict_lines r.now.verdict r.now.z.costs.items r.now.x.on.items)) }
{
    match r.verdict {
        Verdict::Optimal => push_costed(out, b"verdict optimal ", r),
        Verdict::Feasible => push_costed(out, b"verdict feasible ", r),
        Verdict::Infeasible => out.extend_from_slice(b"verdict infeasible\n"),
        Verdict::Spent => out.extend_from_slice(b"verdict spent\n"),
    }
}

/// The lines of a report.
fn report_bytes(alloc: Global, r: &Report) -> Result<Vec<u8>, AllocError>
    requires { IsValidReport r.now }
    ensures { IfOk result (λ text. text.items ≡ report_text (report_contents r.now)) }
{
    let mut out = Vec::new(alloc);
    out.extend_from_slice(b"novareport 1\n")?;
    push_counted(&mut out, b"slots ", u64::from(r.slots))?;
    push_counted(&mut out, b"budget ", u64::from(r.budget))?;
    push_program(&mut out, &r.z)?;
    push_verdict(&mut out, r)?;
    push_counted(&mut out, b"tree ", r.tree.nodes.len() as u64)?;
    push_nodes(&mut out, &r.tree.nodes)?;
    Ok(out)
}

/// The text of a report.
pub fn print_report(alloc: Global, r: &Report) -> Result<Vec<u8>, NoMemory>
    requires { IsValidReport r.now }
    ensures text { IfOk result (λ text. text.items ≡ report_text (report_contents r.now)) }
    ensures report { IsReport (report_contents r.now) }
{
    nodes_fit(&r.tree.nodes);
    Ok(report_bytes(alloc, r)?)
}
