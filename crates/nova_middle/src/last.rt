// The last flow, of which the single-use form is made: the improved one where that keeps within the program's bounds.

ghost use Rattle.std.specs.Prelude.{◌≡◌, ◌≤◌, ◌⊎◌, true, All, IfOk, map};
ghost use Rattle.nv_base.specs.Meanings.{KeepsOutcomes};
ghost use Rattle.flat_ir.specs.Bulk.{bulk as flat_bulk};
ghost use Rattle.flat_ir.specs.Meaning.{flat_meaning};
ghost use Rattle.flat_ir.specs.Reached.{params_in as flat_params};
ghost use Rattle.flat_ir.specs.Wide.{wide as flat_wide};
ghost use Rattle.flow_ir.specs.Bulk.{bulk};
ghost use Rattle.flow_ir.specs.Meaning.{flow_meaning, flow_params};
ghost use Rattle.flow_ir.specs.View.{label_view};
ghost use Rattle.flow_ir.specs.Wide.{wide};
ghost use Rattle.nova_middle.specs.Reduced.{AreReduced, IsMadeOfReduced};
ghost use Rattle.nova_middle.specs.inner.Lasts.{IsMade};
ghost use Rattle.ssu_ir.specs.Meaning.{ssu_meaning, ssu_params};
ghost use Rattle.ssu_ir.specs.Measures.{peak, size, code_bound};
ghost use Rattle.ssu_ir.specs.Single.{single};
ghost use Rattle.ssu_ir.specs.View.{labels_view};
ghost use Rattle.ssu_make.specs.Bounds.{size_bound, length_bound};

use crate::bounds::{Bounds, bounds_of, is_within};
use crate::improve::{hoisted, improved};
use crate::program::{first_flow, reduce};
use flat_ir::FlatProgram;
use flow_ir::Flow;
use nv_base::NoMemory;
use ssu_ir::Ssu;
use ssu_make::make;
use std::alloc::Global;

/// A flow, and the single-use form that is made of it.
#[derive(Drop)]
pub struct Last {
    pub flow: Flow,
    pub form: Ssu,
}

// A flow with its form.
fn made(alloc: Global, flow: Flow) -> Result<Last, NoMemory>
    requires { AreReduced (map label_view flow.labels.items) }
    ensures flow { IfOk result (λ l. map label_view l.flow.labels.items ≡ map label_view flow.labels.items) }
    ensures made { IfOk result IsMade }
    ensures peak { IfOk result (λ l. peak (labels_view l.form) ≤ wide (map label_view flow.labels.items)) }
    ensures size { IfOk result (λ l. size (labels_view l.form) ≤ size_bound (wide (map label_view flow.labels.items)) (bulk (map label_view flow.labels.items))) }
    ensures code { IfOk result (λ l. code_bound (labels_view l.form) ≤ length_bound (wide (map label_view flow.labels.items)) (bulk (map label_view flow.labels.items))) }
{
    let form = make(alloc, &flow)?;
    Ok(Last { flow, form })
}

// The second of two flows with its form where that is within bounds, else the first, whose form is.
fn chosen(alloc: Global, b: &Bounds, flow: Flow, better: Flow) -> Result<Last, NoMemory>
    requires reduced { AreReduced (map label_view flow.labels.items) }
    requires better { AreReduced (map label_view better.labels.items) }
    requires peak { wide (map label_view flow.labels.items) ≤ b.now.peak }
    requires size { size_bound (wide (map label_view flow.labels.items)) (bulk (map label_view flow.labels.items)) ≤ b.now.size }
    requires code { length_bound (wide (map label_view flow.labels.items)) (bulk (map label_view flow.labels.items)) ≤ b.now.length }
    ensures flow { IfOk result (λ l. (map label_view l.flow.labels.items ≡ map label_view flow.labels.items) ⊎ (map label_view l.flow.labels.items ≡ map label_view better.labels.items)) }
    ensures made { IfOk result IsMade }
    ensures peak { IfOk result (λ l. peak (labels_view l.form) ≤ b.now.peak) }
    ensures size { IfOk result (λ l. size (labels_view l.form) ≤ b.now.size) }
    ensures code { IfOk result (λ l. code_bound (labels_view l.form) ≤ b.now.length) }
{
    let second = made(alloc, better)?;
    if is_within(alloc, b, &second.form)? {
        Ok(second)
    } else {
        made(alloc, flow)
    }
}

// The second flow with literals as parameters, where its form is within bounds; else the chosen one of both.
fn with_literals(alloc: Global, b: &Bounds, flow: Flow, better: Flow) -> Result<Last, NoMemory>
    requires reduced { AreReduced (map label_view flow.labels.items) }
    requires better { AreReduced (map label_view better.labels.items) }
    requires kept { KeepsOutcomes (flow_params (map label_view flow.labels.items)) (flow_params (map label_view better.labels.items)) (flow_meaning (map label_view flow.labels.items)) (flow_meaning (map label_view better.labels.items)) }
    requires peak { wide (map label_view flow.labels.items) ≤ b.now.peak }
    requires size { size_bound (wide (map label_view flow.labels.items)) (bulk (map label_view flow.labels.items)) ≤ b.now.size }
    requires code { length_bound (wide (map label_view flow.labels.items)) (bulk (map label_view flow.labels.items)) ≤ b.now.length }
    ensures kept { IfOk result (λ l. KeepsOutcomes (flow_params (map label_view flow.labels.items)) (flow_params (map label_view l.flow.labels.items)) (flow_meaning (map label_view flow.labels.items)) (flow_meaning (map label_view l.flow.labels.items))) }
    ensures made { IfOk result IsMade }
    ensures peak { IfOk result (λ l. peak (labels_view l.form) ≤ b.now.peak) }
    ensures size { IfOk result (λ l. size (labels_view l.form) ≤ b.now.size) }
    ensures code { IfOk result (λ l. code_bound (labels_view l.form) ≤ b.now.length) }
{
    let held = hoisted(alloc, &better)?;
    let third = made(alloc, held)?;
    if is_within(alloc, b, &third.form)? {
        Ok(third)
    } else {
        chosen(alloc, b, flow, better)
    }
}

// The last flow of a flat program, with its form.
fn finish(alloc: Global, f: &FlatProgram) -> Result<Last, NoMemory>
    ensures kept { IfOk result (λ l. KeepsOutcomes (flat_params f.now.funs.items f.now.main) (flow_params (map label_view l.flow.labels.items)) (flat_meaning f.now.funs.items f.now.main) (flow_meaning (map label_view l.flow.labels.items))) }
    ensures made { IfOk result IsMade }
    ensures peak { IfOk result (λ l. peak (labels_view l.form) ≤ flat_wide f.now.funs.items f.now.main) }
    ensures size { IfOk result (λ l. size (labels_view l.form) ≤ size_bound (flat_wide f.now.funs.items f.now.main) (flat_bulk f.now.funs.items f.now.main)) }
    ensures code { IfOk result (λ l. code_bound (labels_view l.form) ≤ length_bound (flat_wide f.now.funs.items f.now.main) (flat_bulk f.now.funs.items f.now.main)) }
{
    let first = first_flow(alloc, f)?;
    let bounds = bounds_of(alloc, &first)?;
    let flow = reduce(alloc, &first)?;
    let better = improved(alloc, &flow)?;
    with_literals(alloc, &bounds, flow, better)
}

/// The flow of which `middle` makes the single-use form, which has the program's outcomes: that of `to_flow`
/// improved and with literals as parameters of loops, or improved alone, where the form is still within the program's
/// bounds, or else that of `to_flow`. The passes have nothing left to do in it.
pub fn last_flow(alloc: Global, f: &FlatProgram) -> Result<Flow, NoMemory>
    ensures kept { IfOk result (λ g. KeepsOutcomes (flat_params f.now.funs.items f.now.main) (flow_params (map label_view g.labels.items)) (flat_meaning f.now.funs.items f.now.main) (flow_meaning (map label_view g.labels.items))) }
    ensures reduced { IfOk result (λ g. AreReduced (map label_view g.labels.items)) }
{
    let l = finish(alloc, f)?;
    Ok(l.flow)
}

/// The single-use form of a flat program, which has its outcomes. It is made of a flow in which the passes have
/// nothing left to do, node by node. It holds no more values at once than the program is wide, and its size and the
/// length of its code are bounded by the program's width and bulk. Memory exhaustion is also the answer where a form
/// would need 2^32 labels or variables.
pub fn middle(alloc: Global, f: &FlatProgram) -> Result<Ssu, NoMemory>
    ensures kept { IfOk result (λ s. KeepsOutcomes (flat_params f.now.funs.items f.now.main) (ssu_params (labels_view s)) (flat_meaning f.now.funs.items f.now.main) (ssu_meaning (labels_view s))) }
    ensures made { IfOk result (λ s. IsMadeOfReduced (labels_view s)) }
    ensures single { IfOk result (λ s. single (labels_view s) ≡ true) }
    ensures peak { IfOk result (λ s. peak (labels_view s) ≤ flat_wide f.now.funs.items f.now.main) }
    ensures size { IfOk result (λ s. size (labels_view s) ≤ size_bound (flat_wide f.now.funs.items f.now.main) (flat_bulk f.now.funs.items f.now.main)) }
    ensures code { IfOk result (λ s. code_bound (labels_view s) ≤ length_bound (flat_wide f.now.funs.items f.now.main) (flat_bulk f.now.funs.items f.now.main)) }
{
    let l = finish(alloc, f)?;
    Ok(l.form)
}
