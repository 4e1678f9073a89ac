// Passes that improve the code of a flow, which keep outcomes and no measure.

ghost use Rattle.std.specs.Prelude.{◌≡◌, IfOk, map};
ghost use Rattle.nv_base.specs.Meanings.{AreEqual, KeepsOutcomes};
ghost use Rattle.flow_ir.specs.Meaning.{flow_meaning, flow_params};
ghost use Rattle.flow_ir.specs.View.{label_view};
ghost use Rattle.nova_middle.specs.Reduced.{AreReduced};

use crate::program::reduce;
use crate::rules::simplified;
use flow_ir::Flow;
use flow_literals::hoist_literals;
use flow_merge::copy_joins;
use flow_paths::decide_choices;
use flow_sink::{order_lets, share_values, sink_lets};
use flow_words::simpler_words;
use nv_base::NoMemory;
use std::alloc::Global;

// The flow with values shared, once and then simplified.
fn shared_once(alloc: Global, f: &Flow) -> Result<Flow, NoMemory>
    ensures params { IfOk result (λ g. flow_params (map label_view g.labels.items) ≡ flow_params (map label_view f.now.labels.items)) }
    ensures equal { IfOk result (λ g. AreEqual (flow_params (map label_view f.now.labels.items)) (flow_meaning (map label_view f.now.labels.items)) (flow_meaning (map label_view g.labels.items))) }
{
    let shared = share_values(alloc, f)?;
    simplified(alloc, shared)
}

// The same in a few rounds: primitives are the same once their operands are.
fn all_shared(alloc: Global, f: &Flow) -> Result<Flow, NoMemory>
    ensures params { IfOk result (λ g. flow_params (map label_view g.labels.items) ≡ flow_params (map label_view f.now.labels.items)) }
    ensures equal { IfOk result (λ g. AreEqual (flow_params (map label_view f.now.labels.items)) (flow_meaning (map label_view f.now.labels.items)) (flow_meaning (map label_view g.labels.items))) }
{
    let mut g = shared_once(alloc, f)?;
    'rounds: for _ in 0..3 {
        g = shared_once(alloc, &g)?;
    }
    Ok(g)
}

// The flow with simpler operations on words, and then with values shared.
fn shared_words(alloc: Global, f: &Flow) -> Result<Flow, NoMemory>
    ensures params { IfOk result (λ g. flow_params (map label_view g.labels.items) ≡ flow_params (map label_view f.now.labels.items)) }
    ensures equal { IfOk result (λ g. AreEqual (flow_params (map label_view f.now.labels.items)) (flow_meaning (map label_view f.now.labels.items)) (flow_meaning (map label_view g.labels.items))) }
{
    let simple = simpler_words(alloc, f)?;
    all_shared(alloc, &simple)
}

// The flow with copies of short joins, and without the choices that are decided then.
fn decided_joins(alloc: Global, f: &Flow) -> Result<Flow, NoMemory>
    ensures kept { IfOk result (λ g. KeepsOutcomes (flow_params (map label_view f.now.labels.items)) (flow_params (map label_view g.labels.items)) (flow_meaning (map label_view f.now.labels.items)) (flow_meaning (map label_view g.labels.items))) }
{
    let copied = copy_joins(alloc, f)?;
    decide_choices(alloc, &copied)
}

// One round: each pass once, and what the others then find to do.
fn improved_once(alloc: Global, f: &Flow) -> Result<Flow, NoMemory>
    ensures kept { IfOk result (λ g. KeepsOutcomes (flow_params (map label_view f.now.labels.items)) (flow_params (map label_view g.labels.items)) (flow_meaning (map label_view f.now.labels.items)) (flow_meaning (map label_view g.labels.items))) }
    ensures reduced { IfOk result (λ g. AreReduced (map label_view g.labels.items)) }
{
    let simple = shared_words(alloc, f)?;
    let sunk = sink_lets(alloc, simple)?;
    let ordered = order_lets(alloc, sunk)?;
    let decided = decided_joins(alloc, &ordered)?;
    reduce(alloc, &decided)
}

/// The flow improved, in a fixed number of rounds.
pub fn improved(alloc: Global, f: &Flow) -> Result<Flow, NoMemory>
    ensures kept { IfOk result (λ g. KeepsOutcomes (flow_params (map label_view f.now.labels.items)) (flow_params (map label_view g.labels.items)) (flow_meaning (map label_view f.now.labels.items)) (flow_meaning (map label_view g.labels.items))) }
    ensures reduced { IfOk result (λ g. AreReduced (map label_view g.labels.items)) }
{
    let mut g = improved_once(alloc, f)?;
    'rounds: for _ in 0..2 {
        g = improved_once(alloc, &g)?;
    }
    Ok(g)
}

// How many literals a label of a loop may take, and how many parameters it may have then.
const MOST_LITERALS: usize = 4;

const MOST_PARAMS: usize = 20;

/// The flow whose loops take literals as parameters.
pub fn hoisted(alloc: Global, f: &Flow) -> Result<Flow, NoMemory>
    ensures kept { IfOk result (λ g. KeepsOutcomes (flow_params (map label_view f.now.labels.items)) (flow_params (map label_view g.labels.items)) (flow_meaning (map label_view f.now.labels.items)) (flow_meaning (map label_view g.labels.items))) }
    ensures reduced { IfOk result (λ g. AreReduced (map label_view g.labels.items)) }
{
    let h = hoist_literals(alloc, f, MOST_LITERALS, MOST_PARAMS)?;
    reduce(alloc, &h)
}
