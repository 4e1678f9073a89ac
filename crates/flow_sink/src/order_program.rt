// Whole flows.

ghost use Rattle.std.specs.Prelude.{◌≡◌, IfOk, map};
ghost use Rattle.nv_base.specs.Meanings.{AreEqual};
ghost use Rattle.flow_ir.specs.Meaning.{flow_meaning, flow_params};
ghost use Rattle.flow_ir.specs.View.{label_view};
ghost use Rattle.flow_sink.specs.Ordered.{AreOrdered};

use crate::ordering::all_ordered;
use flow_ir::Flow;
use nv_base::NoMemory;
use std::alloc::Global;

/// The flow in which, in each label of at most 1,024 nodes, definitions of words that jumps to the label itself hand on stand behind the
/// others of their run that don't use them, and those of words that choices compare with 0 last. So a loop's next value
/// may take the register of the old one, and the operation before a test sets its flags. Its outcomes within each number
/// of jumps are equal.
pub fn order_lets(alloc: Global, f: Flow) -> Result<Flow, NoMemory>
    ensures params { IfOk result (λ g. flow_params (map label_view g.labels.items) ≡ flow_params (map label_view f.labels.items)) }
    ensures equal { IfOk result (λ g. AreEqual (flow_params (map label_view f.labels.items)) (flow_meaning (map label_view f.labels.items)) (flow_meaning (map label_view g.labels.items))) }
    ensures ordered { IfOk result (λ g. AreOrdered 0 (map label_view g.labels.items)) }
{
    let labels = all_ordered(alloc, f.labels)?;
    Ok(Flow { labels })
}
