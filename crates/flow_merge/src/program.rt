// Whole flows.

ghost use Rattle.std.specs.Prelude.{◌≤◌, IfOk, map};
ghost use Rattle.nv_base.specs.Meanings.{KeepsOutcomes};
ghost use Rattle.nv_base.specs.Measures.{IsAtMost};
ghost use Rattle.flow_ir.specs.Bulk.{bulk};
ghost use Rattle.flow_ir.specs.Meaning.{flow_meaning, flow_params};
ghost use Rattle.flow_ir.specs.View.{label_view};
ghost use Rattle.flow_ir.specs.Wide.{wide};
ghost use Rattle.flow_ir.specs.Reachable.{AreReachable};
ghost use Rattle.flow_merge.specs.Contracted.{AreMerged};

use crate::checks::are_merged;
use crate::copying::all_copied;
use crate::joins::plan_of_joins;
use crate::plan::Plan;
use crate::sizes::{is_within, sizes_of};
use flow_ir::{Flow, drop_unreached};
use nv_base::NoMemory;
use std::alloc::Global;

// The flow in which labels stand in the place of jumps to them, without these labels and those that nothing
// leads to.
fn merge_once(alloc: Global, f: &Flow) -> Result<Flow, NoMemory>
    ensures kept { IfOk result (λ g. KeepsOutcomes (flow_params (map label_view f.now.labels.items)) (flow_params (map label_view g.labels.items)) (flow_meaning (map label_view f.now.labels.items)) (flow_meaning (map label_view g.labels.items))) }
    ensures wide { IfOk result (λ g. wide (map label_view g.labels.items) ≤ wide (map label_view f.now.labels.items)) }
{
    let plan = Plan::new(alloc, &f.labels)?;
    copied_by(alloc, f, &plan)
}

// The flow copied by a plan.
fn copied_by(alloc: Global, f: &Flow, plan: &Plan) -> Result<Flow, NoMemory>
    ensures kept { IfOk result (λ g. KeepsOutcomes (flow_params (map label_view f.now.labels.items)) (flow_params (map label_view g.labels.items)) (flow_meaning (map label_view f.now.labels.items)) (flow_meaning (map label_view g.labels.items))) }
    ensures wide { IfOk result (λ g. wide (map label_view g.labels.items) ≤ wide (map label_view f.now.labels.items)) }
{
    let labels = all_copied(alloc, &f.labels, plan)?;
    Ok(Flow { labels })
}

/// The flow with short labels in the place of each jump to them, and with labels that begin with a choice in the place
/// of the jumps whose words decide it. It has the same outcomes and isn't wider, but may be larger.
pub fn copy_joins(alloc: Global, f: &Flow) -> Result<Flow, NoMemory>
    ensures kept { IfOk result (λ g. KeepsOutcomes (flow_params (map label_view f.now.labels.items)) (flow_params (map label_view g.labels.items)) (flow_meaning (map label_view f.now.labels.items)) (flow_meaning (map label_view g.labels.items))) }
    ensures wide { IfOk result (λ g. wide (map label_view g.labels.items) ≤ wide (map label_view f.now.labels.items)) }
{
    let plan = plan_of_joins(alloc, &f.labels)?;
    copied_by(alloc, f, &plan)
}

// The same, without the labels that label 0 doesn't lead to once choices between literals are made.
fn merge_round(alloc: Global, f: &Flow) -> Result<Flow, NoMemory>
    ensures kept { IfOk result (λ g. KeepsOutcomes (flow_params (map label_view f.now.labels.items)) (flow_params (map label_view g.labels.items)) (flow_meaning (map label_view f.now.labels.items)) (flow_meaning (map label_view g.labels.items))) }
    ensures led { IfOk result (λ g. AreReachable (map label_view g.labels.items)) }
    ensures wide { IfOk result (λ g. wide (map label_view g.labels.items) ≤ wide (map label_view f.now.labels.items)) }
{
    let g = merge_once(alloc, f)?;
    drop_unreached(alloc, &g)
}

// Rounds until the flow is contracted. Each that isn't the last leaves fewer labels or fewer choices, so there are
// enough; that the flow is contracted is tested, which takes less to prove. So memory exhaustion doesn't come of this.
fn merge_all(alloc: Global, f: &Flow, rounds: usize) -> Result<Flow, NoMemory>
    ensures kept { IfOk result (λ g. KeepsOutcomes (flow_params (map label_view f.now.labels.items)) (flow_params (map label_view g.labels.items)) (flow_meaning (map label_view f.now.labels.items)) (flow_meaning (map label_view g.labels.items))) }
    ensures contracted { IfOk result (λ g. AreMerged (map label_view g.labels.items)) }
    ensures led { IfOk result (λ g. AreReachable (map label_view g.labels.items)) }
    ensures wide { IfOk result (λ g. wide (map label_view g.labels.items) ≤ wide (map label_view f.now.labels.items)) }
{
    let mut g = merge_round(alloc, f)?;
    'rounds: for _ in 0..=rounds {
        if are_merged(alloc, &g.labels)? {
            return Ok(g);
        }
        g = merge_round(alloc, &g)?;
    }
    Err(NoMemory)
}

/// The flow contracted, which has its outcomes and is neither wider nor larger. A label to which one jump leads
/// is put in the jump's place, and a label that is nothing but an end in the place of each jump to it; an `If`
/// over two literals is one of its arms. So to each label but 0 at least two jumps lead. Label 0 leads to each label.
/// Memory exhaustion is also the answer where it has 2^32 labels.
pub fn merge_labels(alloc: Global, f: &Flow) -> Result<Flow, NoMemory>
    ensures kept { IfOk result (λ g. KeepsOutcomes (flow_params (map label_view f.now.labels.items)) (flow_params (map label_view g.labels.items)) (flow_meaning (map label_view f.now.labels.items)) (flow_meaning (map label_view g.labels.items))) }
    ensures contracted { IfOk result (λ g. AreMerged (map label_view g.labels.items)) }
    ensures led { IfOk result (λ g. AreReachable (map label_view g.labels.items)) }
    ensures wide { IfOk result (λ g. wide (map label_view g.labels.items) ≤ wide (map label_view f.now.labels.items)) }
    ensures bulk { IfOk result (λ g. IsAtMost (bulk (map label_view g.labels.items)) (bulk (map label_view f.now.labels.items))) }
{
    let most = sizes_of(&f.labels)?;
    let g = merge_all(alloc, f, most.rounds())?;
    let sizes = sizes_of(&g.labels)?;
    // No code is doubled, so this test, which takes less to prove, never fails.
    if is_within(&sizes, &most) {
        Ok(g)
    } else {
        Err(NoMemory)
    }
}
