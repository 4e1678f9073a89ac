// Whole flows.

ghost use Rattle.std.specs.Prelude.{◌≡◌, IfOk, map};
ghost use Rattle.nv_base.specs.Meanings.{AreEqual};
ghost use Rattle.flow_ir.specs.Meaning.{flow_meaning, flow_params};
ghost use Rattle.flow_ir.specs.View.{label_view};
ghost use Rattle.flow_sink.specs.Sunk.{AreSunk};

use crate::sinking::all_sunk;
use flow_ir::Flow;
use nv_base::NoMemory;
use std::alloc::Global;

/// The flow in which a definition that one arm alone of the choice below it uses stands at the head of that arm, as
/// deep as that goes, in each label of at most 1,024 nodes. Its outcomes within each number of jumps are equal.
pub fn sink_lets(alloc: Global, f: Flow) -> Result<Flow, NoMemory>
    ensures params { IfOk result (λ g. flow_params (map label_view g.labels.items) ≡ flow_params (map label_view f.labels.items)) }
    ensures equal { IfOk result (λ g. AreEqual (flow_params (map label_view f.labels.items)) (flow_meaning (map label_view f.labels.items)) (flow_meaning (map label_view g.labels.items))) }
    ensures sunk { IfOk result (λ g. AreSunk (map label_view g.labels.items)) }
{
    let labels = all_sunk(alloc, f.labels)?;
    Ok(Flow { labels })
}
