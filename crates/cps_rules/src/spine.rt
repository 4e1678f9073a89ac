// The way back: steps before what follows them, without the definitions that nothing uses.

ghost use Rattle.std.specs.Prelude.{◌≡◌, IfOk, OnOk};
ghost use Rattle.flow_ir.specs.View.{tree_view};
ghost use Rattle.flow_ir.specs.Wide.{uses};
ghost use Rattle.cps_rules.specs.inner.Marked.{is_marked};
ghost use Rattle.cps_rules.specs.inner.Marks.{Adds};
ghost use Rattle.cps_rules.specs.inner.Way.{kept_step, kept_all, step_uses, AreFirsts, Covers};

use crate::marks::Marks;
use flow_ir::{Step, Tree};
use nv_base::NoMemory;
use std::alloc::Global;

/// The tree of these steps and then `last`, without each `Let` whose variable isn't marked and that nothing
/// after it uses. What the first parts of steps and `last` use is marked, and so is then all that the tree uses.
pub fn joined(
    alloc: Global,
    marks: &mut Marks,
    mut steps: Vec<Step>,
    last: Tree,
) -> Result<Tree, NoMemory>
    requires firsts { AreFirsts (is_marked marks.old) steps.items }
    requires last { Covers (is_marked marks.old) (uses (tree_view last)) }
    ensures tree { IfOk result (λ t. tree_view t ≡ kept_all (is_marked marks.old) steps.items (tree_view last)) }
    ensures marks { IfOk result (λ t. Adds (uses (tree_view t)) (is_marked marks.old) (is_marked marks.new)) }
{
    let mut t = last;
    while let Some(s) = steps.pop() {
        t = placed(alloc, marks, s, t)?;
    }
    Ok(t)
}

// One step before a tree, or the tree alone, with the marks of what the step uses.
fn placed(alloc: Global, marks: &mut Marks, s: Step, t: Tree) -> Result<Tree, NoMemory>
    ensures tree { IfOk result (λ u. tree_view u ≡ kept_step (is_marked marks.old) s (tree_view t)) }
    ensures marks { OnOk result (Adds (step_uses (is_marked marks.old) s) (is_marked marks.old) (is_marked marks.new)) }
{
    match s {
        Step::Let(x, p) => {
            if marks.has(x) {
                marks.add_prim(p)?;
                Ok(Tree::Let(x, p, Box::new(alloc, t)?))
            } else {
                Ok(t)
            }
        }
        Step::Read(m, xs, a) => {
            marks.add(a)?;
            Ok(Tree::Read(m, xs, a, Box::new(alloc, t)?))
        }
        Step::Write(m, a, bs) => {
            marks.add(a)?;
            marks.add_all(&bs)?;
            Ok(Tree::Write(m, a, bs, Box::new(alloc, t)?))
        }
        Step::If(c, a, b, first) => {
            marks.add(a)?;
            marks.add(b)?;
            let first = Box::new(alloc, first)?;
            Ok(Tree::If(c, a, b, first, Box::new(alloc, t)?))
        }
    }
}
