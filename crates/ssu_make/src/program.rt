// Whole flows.

ghost use Rattle.std.specs.Prelude.{◌≡◌, ◌≤◌, true, [], map, IfOk};
ghost use Rattle.nv_base.specs.Meanings.{AreEqual};
ghost use Rattle.flow_ir.specs.Bulk.{bulk};
ghost use Rattle.flow_ir.specs.Meaning.{flow_meaning, flow_params};
ghost use Rattle.flow_ir.specs.View.{label_view};
ghost use Rattle.flow_ir.specs.Wide.{wide};
ghost use Rattle.ssu_ir.specs.Build.{Holds};
ghost use Rattle.ssu_ir.specs.Meaning.{ssu_meaning, ssu_params};
ghost use Rattle.ssu_ir.specs.Measures.{peak, size, code_bound};
ghost use Rattle.ssu_ir.specs.Single.{single};
ghost use Rattle.ssu_ir.specs.View.{labels_view};
ghost use Rattle.ssu_make.specs.Bounds.{size_bound, length_bound};
ghost use Rattle.ssu_make.specs.Made.{AllMade};
ghost use Rattle.ssu_make.specs.Used.{all_lets_used};
ghost use Rattle.ssu_make.specs.inner.Making.{HasRoots, LabelMade, LabelsMade};

use crate::bases::{lay_out, survey};
use crate::naming::values;
use crate::nodes::clones;
use crate::tree::make_tree;
use flow_ir::{Flow, Label};
use nv_base::NoMemory;
use ssu_ir::{Ssu, SsuBuild, SsuLabel};
use std::alloc::Global;

/// The single-use form of a flow: its labels in order, and in each the nodes of its tree, in order, with literals before
/// the node that uses them, and clones after the node that defines a value of several uses, those of parameters first in
/// their label. A copy of an operand is an `Or` with the literal 0. It has no other nodes. Memory exhaustion is also the
/// answer where 2^32 names or nodes would be needed.
pub fn make(alloc: Global, f: &Flow) -> Result<Ssu, NoMemory>
    requires { all_lets_used (map label_view f.now.labels.items) ≡ true }
    ensures made { IfOk result (λ s. AllMade 0 (map label_view f.now.labels.items) (labels_view s)) }
    ensures params { IfOk result (λ s. flow_params (map label_view f.now.labels.items) ≡ ssu_params (labels_view s)) }
    ensures equal { IfOk result (λ s. AreEqual (flow_params (map label_view f.now.labels.items)) (flow_meaning (map label_view f.now.labels.items)) (ssu_meaning (labels_view s))) }
    ensures single { IfOk result (λ s. single (labels_view s) ≡ true) }
    ensures peak { IfOk result (λ s. peak (labels_view s) ≤ wide (map label_view f.now.labels.items)) }
    ensures size { IfOk result (λ s. size (labels_view s) ≤ size_bound (wide (map label_view f.now.labels.items)) (bulk (map label_view f.now.labels.items))) }
    ensures code { IfOk result (λ s. code_bound (labels_view s) ≤ length_bound (wide (map label_view f.now.labels.items)) (bulk (map label_view f.now.labels.items))) }
{
    let mut build = SsuBuild::new(alloc);
    let labels = make_labels(alloc, &mut build, &f.labels)?;
    Ok(build.finish(labels))
}

fn make_labels(
    alloc: Global,
    build: &mut SsuBuild,
    labels: &[Label],
) -> Result<Vec<SsuLabel>, NoMemory>
    requires { Holds build.old [] }
    ensures { IfOk result (λ v. LabelsMade (map label_view labels.now) v.items build.new) }
{
    let mut fresh = 0;
    let mut v = Vec::new(alloc);
    for l in labels {
        v.push(make_label(alloc, build, l, &mut fresh)?)?;
    }
    Ok(v)
}

// The same numbers.
fn numbers(alloc: Global, xs: &[u32]) -> Result<Vec<u32>, NoMemory>
    ensures { IfOk result (λ v. v.items ≡ xs.now) }
{
    Ok(xs.to_vec(alloc)?)
}

// A label whose names begin at `fresh`.
fn make_label(
    alloc: Global,
    build: &mut SsuBuild,
    l: &Label,
    fresh: &mut u32,
) -> Result<SsuLabel, NoMemory>
    requires { HasRoots build.old }
    ensures { IfOk result (λ s. LabelMade (label_view l.now) s fresh.old fresh.new build.old build.new) }
{
    let mut variables = numbers(alloc, &l.params)?;
    let counts = survey(alloc, &l.body, &mut variables)?;
    let bases = lay_out(alloc, &counts, &variables, fresh)?;
    let part = make_tree(alloc, build, &bases, fresh, &l.body)?;
    let params = values(alloc, &bases, &part.counts, &l.params)?;
    let body = clones(alloc, build, &bases, &part.counts, &l.params, part.root)?;
    Ok(SsuLabel { params, body })
}
