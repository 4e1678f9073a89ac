// Whole flows.

ghost use Rattle.std.specs.Prelude.{◌≡◌, [], All, IfOk, map};
ghost use Rattle.nv_base.specs.Meanings.{AreEqual};
ghost use Rattle.flow_ir.specs.Meaning.{flow_meaning, flow_params};
ghost use Rattle.flow_ir.specs.View.{label_view};
ghost use Rattle.flow_sink.specs.Values.{NoneAgain};

use crate::trees::all_shared;
use flow_ir::Flow;
use nv_base::NoMemory;
use std::alloc::Global;

/// The flow in which a primitive that is one of the nearest 256 above it on its path is the variable of that one. Its
/// outcomes within each number of jumps are equal.
pub fn share_values(alloc: Global, f: &Flow) -> Result<Flow, NoMemory>
    ensures params { IfOk result (λ g. flow_params (map label_view g.labels.items) ≡ flow_params (map label_view f.now.labels.items)) }
    ensures equal { IfOk result (λ g. AreEqual (flow_params (map label_view f.now.labels.items)) (flow_meaning (map label_view f.now.labels.items)) (flow_meaning (map label_view g.labels.items))) }
    ensures shared { IfOk result (λ g. All (λ l. NoneAgain [] l.body) (map label_view g.labels.items)) }
{
    let labels = all_shared(alloc, &f.labels)?;
    Ok(Flow { labels })
}
