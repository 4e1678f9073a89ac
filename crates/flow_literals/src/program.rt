// Whole flows.

ghost use Rattle.std.specs.Prelude.{◌≡◌, IfOk, map};
ghost use Rattle.nv_base.specs.Meanings.{AreEqual};
ghost use Rattle.flow_ir.specs.Meaning.{flow_meaning, flow_params};
ghost use Rattle.flow_ir.specs.View.{label_view};
ghost use Rattle.flow_literals.specs.Turns.{AreHeld};

use crate::hoisting::all_hoisted;
use crate::rows::rows;
use flow_ir::Flow;
use nv_base::NoMemory;
use std::alloc::Global;

/// The flow in which labels of loops take literals as parameters. Its outcomes within each number of jumps are equal. A
/// label that jumps to itself takes so many literals, or has so many parameters then, or loads no literal in each turn.
/// Memory exhaustion is also the answer where it would need 2^32 labels or variables.
pub fn hoist_literals(
    alloc: Global,
    f: &Flow,
    literals: usize,
    params: usize,
) -> Result<Flow, NoMemory>
    ensures params { IfOk result (λ g. flow_params (map label_view g.labels.items) ≡ flow_params (map label_view f.now.labels.items)) }
    ensures equal { IfOk result (λ g. AreEqual (flow_params (map label_view f.now.labels.items)) (flow_meaning (map label_view f.now.labels.items)) (flow_meaning (map label_view g.labels.items))) }
    ensures held { IfOk result (λ g. AreHeld literals params (map label_view f.now.labels.items) (map label_view g.labels.items)) }
{
    let table = rows(alloc, literals, params, &f.labels)?;
    let labels = all_hoisted(alloc, &f.labels, &table)?;
    Ok(Flow { labels })
}
