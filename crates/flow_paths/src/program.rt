// Whole flows.

ghost use Rattle.std.specs.Prelude.{◌≡◌, [], All, IfOk, map};
ghost use Rattle.nv_base.specs.Meanings.{AreEqual};
ghost use Rattle.flow_ir.specs.Meaning.{flow_meaning, flow_params};
ghost use Rattle.flow_ir.specs.View.{label_view};
ghost use Rattle.flow_paths.specs.Decided.{NoneDecided};

use crate::trees::all_walked;
use flow_ir::Flow;
use nv_base::NoMemory;
use std::alloc::Global;

/// The flow in which each `If` that the tests, accesses and definitions above it in its label decide is one of its arms.
/// What is known are bounds of words, by the nearest 256 facts. Its outcomes within each number of jumps are equal.
pub fn decide_choices(alloc: Global, f: &Flow) -> Result<Flow, NoMemory>
    ensures params { IfOk result (λ g. flow_params (map label_view g.labels.items) ≡ flow_params (map label_view f.now.labels.items)) }
    ensures equal { IfOk result (λ g. AreEqual (flow_params (map label_view f.now.labels.items)) (flow_meaning (map label_view f.now.labels.items)) (flow_meaning (map label_view g.labels.items))) }
    ensures decided { IfOk result (λ g. All (λ l. NoneDecided [] l.body) (map label_view g.labels.items)) }
{
    let labels = all_walked(alloc, &f.labels)?;
    Ok(Flow { labels })
}
