// Whole flows.

ghost use Rattle.std.specs.Prelude.{◌≡◌, ◌≤◌, true, IfOk, map};
ghost use Rattle.nv_base.specs.Meanings.{AreEqual};
ghost use Rattle.nv_base.specs.Measures.{IsAtMost};
ghost use Rattle.flow_ir.specs.Bulk.{bulk};
ghost use Rattle.flow_ir.specs.Formed.{is_label};
ghost use Rattle.flow_ir.specs.Meaning.{flow_meaning, flow_params};
ghost use Rattle.flow_ir.specs.View.{label_view};
ghost use Rattle.flow_ir.specs.Wide.{wide};
ghost use Rattle.flow_ir.specs.inner.Scoped.{IsScopedLabel};
ghost use Rattle.cps_rules.specs.Simplified.{AreSimplified, AreTidy};
ghost use Rattle.cps_rules.specs.inner.Way.{Counted, IsLabelDone, AreDone};
ghost use Rattle.std.specs.List.{list_all};

use crate::fold::simplify_tree;
use crate::marks::Marks;
use crate::rewrite::Rewrite;
use flow_ir::names::{name_all, numbers};
use flow_ir::{Flow, Label};
use nv_base::{Atom, NoMemory};
use std::alloc::Global;

/// The flow with operands in the place of the variables that are the same as these, with the rule's answers,
/// and without the definitions that nothing uses. Its outcomes within each number of jumps are equal, its
/// accesses are kept, and it is neither wider nor larger. Memory exhaustion is also the answer where it has 2^32
/// labels.
pub fn simplify<R: Rewrite>(alloc: Global, f: Flow, r: &R) -> Result<Flow, NoMemory>
    requires ready { R.ready r.now }
    ensures params { IfOk result (λ g. flow_params (map label_view g.labels.items) ≡ flow_params (map label_view f.labels.items)) }
    ensures equal { IfOk result (λ g. AreEqual (flow_params (map label_view f.labels.items)) (flow_meaning (map label_view f.labels.items)) (flow_meaning (map label_view g.labels.items))) }
    ensures simplified { IfOk result (λ g. AreSimplified (R.answers r.now) (map label_view f.labels.items) (map label_view g.labels.items)) }
    ensures tidy { IfOk result (λ g. AreTidy (map label_view g.labels.items)) }
    ensures wide { IfOk result (λ g. wide (map label_view g.labels.items) ≤ wide (map label_view f.labels.items)) }
    ensures bulk { IfOk result (λ g. IsAtMost (bulk (map label_view g.labels.items)) (bulk (map label_view f.labels.items))) }
{
    let labels = simplify_all(alloc, r, &f.labels)?;
    Ok(Flow { labels })
}

// All labels.
fn simplify_all<R: Rewrite>(alloc: Global, r: &R, labels: &[Label]) -> Result<Vec<Label>, NoMemory>
    requires ready { R.ready r.now }
    requires formed { list_all (is_label (map label_view labels.now)) (map label_view labels.now) ≡ true }
    ensures { IfOk result (λ v. AreDone (Counted (R.answers r.now)) (map label_view labels.now) (map label_view v.items)) }
{
    let mut names = Vec::new(alloc);
    let mut marks = Marks::new(alloc);
    let mut done = Vec::new(alloc);
    for l in labels {
        done.push(simplify_label(alloc, r, l, &mut names, &mut marks)?)?;
    }
    Ok(done)
}

// One label. What the table of names has of other labels doesn't matter.
fn simplify_label<R: Rewrite>(
    alloc: Global,
    r: &R,
    l: &Label,
    names: &mut Vec<Atom>,
    marks: &mut Marks,
) -> Result<Label, NoMemory>
    requires ready { R.ready r.now }
    requires formed { IsScopedLabel (label_view l.now) }
    ensures { IfOk result (λ m. IsLabelDone (Counted (R.answers r.now)) (label_view l.now) (label_view m)) }
{
    name_all(names, &l.params)?;
    marks.clear()?;
    let body = simplify_tree(alloc, r, &l.body, names, marks)?;
    let params = numbers(alloc, &l.params)?;
    Ok(Label { params, body })
}
