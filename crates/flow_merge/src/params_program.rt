// Whole flows.

ghost use Rattle.std.specs.Prelude.{◌≡◌, ◌≤◌, IfOk, map};
ghost use Rattle.nv_base.specs.Meanings.{AreEqual};
ghost use Rattle.nv_base.specs.Measures.{IsAtMost};
ghost use Rattle.flow_ir.specs.Bulk.{bulk};
ghost use Rattle.flow_ir.specs.Meaning.{flow_meaning, flow_params};
ghost use Rattle.flow_ir.specs.View.{label_view};
ghost use Rattle.flow_ir.specs.Wide.{wide};
ghost use Rattle.flow_ir.specs.Reachable.{AreReachable};
ghost use Rattle.flow_merge.specs.Contracted.{AreMerged};
ghost use Rattle.flow_merge.specs.Wanted.{AllWanted};

use crate::analysis::{Ranking, unwanted};
use crate::params_checks::are_ranked;
use crate::pruning::{all_pruned, keeps_first};
use flow_ir::Flow;
use nv_base::NoMemory;
use std::alloc::Global;

// The flow without the parameters that an analysis says.
fn without_gone(alloc: Global, f: &Flow, table: &[Vec<u32>]) -> Result<Flow, NoMemory>
    ensures params { IfOk result (λ g. flow_params (map label_view g.labels.items) ≡ flow_params (map label_view f.now.labels.items)) }
    ensures equal { IfOk result (λ g. AreEqual (flow_params (map label_view f.now.labels.items)) (flow_meaning (map label_view f.now.labels.items)) (flow_meaning (map label_view g.labels.items))) }
    ensures contracted { IfOk result (λ g. AreMerged (map label_view f.now.labels.items) → AreMerged (map label_view g.labels.items)) }
    ensures led { IfOk result (λ g. AreReachable (map label_view f.now.labels.items) → AreReachable (map label_view g.labels.items)) }
    ensures wide { IfOk result (λ g. wide (map label_view g.labels.items) ≤ wide (map label_view f.now.labels.items)) }
    ensures bulk { IfOk result (λ g. IsAtMost (bulk (map label_view g.labels.items)) (bulk (map label_view f.now.labels.items))) }
{
    if !keeps_first(table) {
        return Err(NoMemory);
    }
    let labels = all_pruned(alloc, &f.labels, table)?;
    Ok(Flow { labels })
}

/// The flow without the parameters of labels but 0 that nothing wants. Its outcomes within each number of jumps are
/// equal, and it is neither wider nor larger. It stays contracted, and where label 0 led to each label, it still does. A
/// parameter is wanted where a node other than a jump uses it, or where a jump hands it on for a wanted one. Memory
/// exhaustion is also the answer where it has 2^32 labels.
pub fn prune(alloc: Global, f: &Flow) -> Result<Flow, NoMemory>
    ensures params { IfOk result (λ g. flow_params (map label_view g.labels.items) ≡ flow_params (map label_view f.now.labels.items)) }
    ensures equal { IfOk result (λ g. AreEqual (flow_params (map label_view f.now.labels.items)) (flow_meaning (map label_view f.now.labels.items)) (flow_meaning (map label_view g.labels.items))) }
    ensures wanted { IfOk result (λ g. AllWanted (map label_view g.labels.items)) }
    ensures contracted { IfOk result (λ g. AreMerged (map label_view f.now.labels.items) → AreMerged (map label_view g.labels.items)) }
    ensures led { IfOk result (λ g. AreReachable (map label_view f.now.labels.items) → AreReachable (map label_view g.labels.items)) }
    ensures wide { IfOk result (λ g. wide (map label_view g.labels.items) ≤ wide (map label_view f.now.labels.items)) }
    ensures bulk { IfOk result (λ g. IsAtMost (bulk (map label_view g.labels.items)) (bulk (map label_view f.now.labels.items))) }
{
    let table = unwanted(alloc, &f.labels)?;
    let g = without_gone(alloc, f, &table)?;
    let ranking = Ranking::new(alloc, &g.labels)?;
    // What is left is wanted, so this test, which takes less to prove, never fails.
    if are_ranked(&ranking.ranks, &g.labels) {
        Ok(g)
    } else {
        Err(NoMemory)
    }
}
