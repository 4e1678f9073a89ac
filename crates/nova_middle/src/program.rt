// Whole programs.

ghost use Rattle.std.specs.Prelude.{◌≡◌, ◌≤◌, All, IfOk, map};
ghost use Rattle.nv_base.specs.Meanings.{KeepsOutcomes};
ghost use Rattle.nv_base.specs.Measures.{IsAtMost};
ghost use Rattle.flat_ir.specs.Bulk.{bulk as flat_bulk};
ghost use Rattle.flat_ir.specs.Meaning.{flat_meaning};
ghost use Rattle.flat_ir.specs.Reached.{params_in as flat_params};
ghost use Rattle.flat_ir.specs.Wide.{wide as flat_wide};
ghost use Rattle.flow_ir.specs.Bulk.{bulk};
ghost use Rattle.flow_ir.specs.Meaning.{flow_meaning, flow_params};
ghost use Rattle.flow_ir.specs.View.{label_view};
ghost use Rattle.flow_ir.specs.Wide.{wide};
ghost use Rattle.flow_ir.specs.Reachable.{AreReachable};
ghost use Rattle.cps_rules.specs.Simplified.{AreTidy};
ghost use Rattle.flow_merge.specs.Contracted.{AreMerged};
ghost use Rattle.flow_merge.specs.Wanted.{AllWanted};
ghost use Rattle.nova_middle.specs.Rules.{IsAtRest};

use crate::rules::simplified;
use crate::simple::are_simple;
use cps_close::close;
use cps_inline::inline;
use cps_lower::lower;
use flat_ir::FlatProgram;
use flow_ir::{Flow, Tree};
use flow_merge::{merge_labels, prune};
use nv_base::NoMemory;
use std::alloc::Global;

/// The first flow of a flat program: in continuation form, in one function, and in labels without free variables.
pub fn first_flow(alloc: Global, f: &FlatProgram) -> Result<Flow, NoMemory>
    ensures kept { IfOk result (λ g. KeepsOutcomes (flat_params f.now.funs.items f.now.main) (flow_params (map label_view g.labels.items)) (flat_meaning f.now.funs.items f.now.main) (flow_meaning (map label_view g.labels.items))) }
    ensures wide { IfOk result (λ g. wide (map label_view g.labels.items) ≤ flat_wide f.now.funs.items f.now.main) }
    ensures bulk { IfOk result (λ g. IsAtMost (bulk (map label_view g.labels.items)) (flat_bulk f.now.funs.items f.now.main)) }
{
    let lowered = lower(alloc, f)?;
    let inlined = inline(alloc, lowered)?;
    close(alloc, inlined)
}

/// The flow of a flat program, which has its outcomes and is neither wider nor larger: in continuation form, in
/// one function, in labels without free variables, contracted, and simplified by the rules. Label 0 leads to each
/// label. To each label but 0 at least two jumps lead, and each of its parameters is wanted; no `If` compares two
/// literals. No `Let` is left that a rule answers, that is just another operand, or whose variable nothing uses. Memory
/// exhaustion is also the answer where a form would need 2^32 labels or variables.
pub fn to_flow(alloc: Global, f: &FlatProgram) -> Result<Flow, NoMemory>
    ensures kept { IfOk result (λ g. KeepsOutcomes (flat_params f.now.funs.items f.now.main) (flow_params (map label_view g.labels.items)) (flat_meaning f.now.funs.items f.now.main) (flow_meaning (map label_view g.labels.items))) }
    ensures contracted { IfOk result (λ g. AreMerged (map label_view g.labels.items)) }
    ensures led { IfOk result (λ g. AreReachable (map label_view g.labels.items)) }
    ensures wanted { IfOk result (λ g. AllWanted (map label_view g.labels.items)) }
    ensures rules { IfOk result (λ g. All IsAtRest (map label_view g.labels.items)) }
    ensures tidy { IfOk result (λ g. AreTidy (map label_view g.labels.items)) }
    ensures wide { IfOk result (λ g. wide (map label_view g.labels.items) ≤ flat_wide f.now.funs.items f.now.main) }
    ensures bulk { IfOk result (λ g. IsAtMost (bulk (map label_view g.labels.items)) (flat_bulk f.now.funs.items f.now.main)) }
{
    let first = first_flow(alloc, f)?;
    reduce(alloc, &first)
}

// The flow contracted, and without the parameters that nothing wants.
fn contract_and_prune(alloc: Global, f: &Flow) -> Result<Flow, NoMemory>
    ensures kept { IfOk result (λ g. KeepsOutcomes (flow_params (map label_view f.now.labels.items)) (flow_params (map label_view g.labels.items)) (flow_meaning (map label_view f.now.labels.items)) (flow_meaning (map label_view g.labels.items))) }
    ensures contracted { IfOk result (λ g. AreMerged (map label_view g.labels.items)) }
    ensures led { IfOk result (λ g. AreReachable (map label_view g.labels.items)) }
    ensures wanted { IfOk result (λ g. AllWanted (map label_view g.labels.items)) }
    ensures wide { IfOk result (λ g. wide (map label_view g.labels.items) ≤ wide (map label_view f.now.labels.items)) }
    ensures bulk { IfOk result (λ g. IsAtMost (bulk (map label_view g.labels.items)) (bulk (map label_view f.now.labels.items))) }
{
    let contracted = merge_labels(alloc, f)?;
    prune(alloc, &contracted)
}

/// Rounds of this and simplification, until simplification would leave the flow as it is. Each that isn't the last
/// leaves fewer nodes, so there are enough, and memory exhaustion doesn't come of this.
pub fn reduce(alloc: Global, f: &Flow) -> Result<Flow, NoMemory>
    ensures kept { IfOk result (λ g. KeepsOutcomes (flow_params (map label_view f.now.labels.items)) (flow_params (map label_view g.labels.items)) (flow_meaning (map label_view f.now.labels.items)) (flow_meaning (map label_view g.labels.items))) }
    ensures contracted { IfOk result (λ g. AreMerged (map label_view g.labels.items)) }
    ensures led { IfOk result (λ g. AreReachable (map label_view g.labels.items)) }
    ensures wanted { IfOk result (λ g. AllWanted (map label_view g.labels.items)) }
    ensures rules { IfOk result (λ g. All IsAtRest (map label_view g.labels.items)) }
    ensures tidy { IfOk result (λ g. AreTidy (map label_view g.labels.items)) }
    ensures wide { IfOk result (λ g. wide (map label_view g.labels.items) ≤ wide (map label_view f.now.labels.items)) }
    ensures bulk { IfOk result (λ g. IsAtMost (bulk (map label_view g.labels.items)) (bulk (map label_view f.now.labels.items))) }
{
    let mut g = contract_and_prune(alloc, f)?;
    'rounds: for _ in 0..=nodes_of(f) {
        if are_simple(&g.labels) {
            return Ok(g);
        }
        let simple = simplified(alloc, g)?;
        g = contract_and_prune(alloc, &simple)?;
    }
    Err(NoMemory)
}

// How many nodes there are.
fn nodes_of(f: &Flow) -> u64 {
    let mut n: u64 = 0;
    for l in &f.labels {
        n = n.saturating_add(count_nodes(&l.body));
    }
    n
}

// The same of a tree.
fn count_nodes(t: &Tree) -> u64 {
    let mut n: u64 = 0;
    let mut cur = t;
    'spine: loop {
        n = n.saturating_add(1);
        match cur {
            Tree::Let(_, _, rest) => cur = rest,
            Tree::Read(_, _, _, rest) => cur = rest,
            Tree::Write(_, _, _, rest) => cur = rest,
            Tree::If(_, _, _, first, second) => {
                n = n.saturating_add(count_nodes(first));
                cur = second;
            }
            Tree::Jump(_, _) => return n,
            Tree::Halt(_, _) => return n,
        }
    }
}
