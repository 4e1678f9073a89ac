// Whole programs.

ghost use Rattle.std.specs.Prelude.{◌≡◌, ◌≤◌, true, All, IfOk, map};
ghost use Rattle.nv_base.specs.Meanings.{AreEqual};
ghost use Rattle.nv_base.specs.Measures.{IsAtMost};
ghost use Rattle.cps_ir.specs.Bulk.{code_bulk};
ghost use Rattle.cps_ir.specs.Callless.{only_jumps};
ghost use Rattle.cps_ir.specs.Meaning.{cps_meaning, params_in};
ghost use Rattle.cps_ir.specs.View.{fun_view};
ghost use Rattle.cps_ir.specs.Wide.{wide};
ghost use Rattle.flow_ir.specs.Bulk.{bulk as flow_bulk};
ghost use Rattle.flow_ir.specs.Meaning.{flow_meaning, flow_params};
ghost use Rattle.flow_ir.specs.View.{label_view};
ghost use Rattle.flow_ir.specs.Wide.{wide as flow_wide};
ghost use Rattle.flow_ir.specs.Reachable.{AreReachable};
ghost use Rattle.cps_close.specs.inner.Closed.{IsClosed};

use crate::collect::labels_in;
use crate::table::table_of;
use crate::trees::labels_of;
use cps_ir::{Cps, CpsFun};
use flow_ir::{Flow, Label, pruned};
use nv_base::NoMemory;
use std::alloc::Global;

/// The flow of a program's main function, where no function calls, returns or throws: label 0 is the
/// function, and each label after it has its own parameters and then the variables of round it that it
/// uses or hands on. Labels that label 0 doesn't lead to are left out. More labels than 32 bits can number count as memory exhaustion.
pub fn close(alloc: Global, c: Cps) -> Result<Flow, NoMemory>
    requires { All (λ f. only_jumps f.body ≡ true) (map fun_view c.funs.items) }
    ensures parameters { IfOk result (λ f. flow_params (map label_view f.labels.items) ≡ params_in (map fun_view c.funs.items) c.main) }
    ensures equal { IfOk result (λ f. AreEqual (params_in (map fun_view c.funs.items) c.main) (cps_meaning (map fun_view c.funs.items) c.main) (flow_meaning (map label_view f.labels.items))) }
    ensures wide { IfOk result (λ f. flow_wide (map label_view f.labels.items) ≤ wide (map fun_view c.funs.items) c.main) }
    ensures led { IfOk result (λ f. AreReachable (map label_view f.labels.items)) }
    ensures bulk { IfOk result (λ f. IsAtMost (flow_bulk (map label_view f.labels.items)) (code_bulk (map fun_view c.funs.items) c.main)) }
{
    let f = &c.funs[c.main as usize];
    let all = closed(alloc, f)?;
    let labels = pruned(alloc, &all)?;
    Ok(Flow { labels })
}

// The labels of a function's flow.
fn closed(alloc: Global, f: &CpsFun) -> Result<Vec<Label>, NoMemory>
    ensures { IfOk result (λ v. IsClosed (fun_view f.now) (map label_view v.items)) }
{
    let conts = labels_in(alloc, &f.body)?;
    let table = table_of(alloc, &conts)?;
    labels_of(alloc, f, &conts, &table)
}
