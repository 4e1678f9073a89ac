// Trees and labels.

ghost use Rattle.std.specs.Prelude.{◌≡◌, List, [], ◌∷◌, ◌++◌, IfOk, OnOk, map};
ghost use Rattle.flow_ir.specs.Spine.{put_all};
ghost use Rattle.flow_ir.specs.declared.spine.Step.TheVariants as step;
ghost use Rattle.flow_ir.specs.View.{tree_view, label_view};
ghost use Rattle.flow_sink.specs.inner.Above as inner;
ghost use Rattle.flow_sink.specs.declared.known.Known.{Known};
ghost use Rattle.flow_sink.specs.inner.Above.{entries};

use crate::known::{Known, answer};
use flow_ir::names::numbers;
use flow_ir::{Label, Step, Tree, joined, push_step, short_atoms, short_numbers};
use nv_base::{Atom, NoMemory, Prim};
use std::alloc::Global;

// What was found, or memory exhaustion, after letting go of what is held.
macro_rules! read {
    ($found:expr $(, $held:expr)*) => {
        match $found {
            Ok(found) => found,
            Err(failure) => {
                $(drop($held);)*
                return Err(failure);
            }
        }
    };
}

// A `Let` with its answer, whose own primitive stands above from now on.
fn share_let(
    above: &mut Vec<Known>,
    steps: &mut Vec<Step>,
    x: u32,
    prim: Prim,
) -> Result<(), NoMemory>
    ensures step { OnOk result (steps.new.items ≡ steps.old.items ++ step.Let x (inner.answer (entries above.old.items) prim) ∷ []) }
    ensures above { OnOk result ((k : Known) × (above.new.items ≡ above.old.items ++ k ∷ []) × (k.prim ≡ prim) × (k.variable ≡ x)) }
{
    push_step(steps, Step::Let(x, answer(above, prim)))?;
    above.push(Known { prim, variable: x })?;
    Ok(())
}

// The same operands.
fn atoms(alloc: Global, xs: &[Atom]) -> Result<Vec<Atom>, NoMemory>
    ensures { IfOk result (λ v. v.items ≡ xs.now) }
{
    Ok(xs.to_vec(alloc)?)
}

// A tree, where these primitives stand above.
#[cycle(sharing)]
fn shared(alloc: Global, t: &Tree, above: &mut Vec<Known>) -> Result<Tree, NoMemory>
    ensures tree { IfOk result (λ u. tree_view u ≡ inner.shared (entries above.old.items) (tree_view t.now)) }
    ensures above { OnOk result (above.new.items ≡ above.old.items) }
{
    let mark = above.len();
    let mut steps = Vec::new(alloc);
    let end = read!(shared_steps(alloc, t, above, &mut steps), steps);
    above.truncate(mark);
    joined(alloc, steps, end)
}

// Adds the steps of such a tree, and answers with its end.
#[cycle(sharing)]
fn shared_steps(
    alloc: Global,
    t: &Tree,
    above: &mut Vec<Known>,
    steps: &mut Vec<Step>,
) -> Result<Tree, NoMemory>
    ensures tree { IfOk result (λ u. put_all steps.new.items (tree_view u) ≡ put_all steps.old.items (inner.shared (entries above.old.items) (tree_view t.now))) }
    ensures above { OnOk result ((more : List Known) × (above.new.items ≡ above.old.items ++ more)) }
{
    let mut cur = t;
    'spine: loop {
        match cur {
            Tree::Let(x, p, rest) => {
                share_let(above, steps, *x, *p)?;
                cur = rest;
            }
            Tree::Read(m, xs, a, rest) => {
                push_step(steps, Step::Read(*m, short_numbers(alloc, xs)?, *a))?;
                cur = rest;
            }
            Tree::Write(m, a, bs, rest) => {
                push_step(steps, Step::Write(*m, *a, short_atoms(alloc, bs)?))?;
                cur = rest;
            }
            Tree::If(c, a, b, first, second) => {
                let u = shared(alloc, first, above)?;
                push_step(steps, Step::If(*c, *a, *b, u))?;
                cur = second;
            }
            Tree::Jump(l, bs) => return Ok(Tree::Jump(*l, atoms(alloc, bs)?)),
            Tree::Halt(e, bs) => return Ok(Tree::Halt(*e, short_atoms(alloc, bs)?)),
        }
    }
}

// A label, above whose tree nothing stands.
fn label_shared(alloc: Global, l: &Label) -> Result<Label, NoMemory>
    ensures { IfOk result (λ m. label_view m ≡ inner.label_shared (label_view l.now)) }
{
    let mut above = Vec::new(alloc);
    let params = numbers(alloc, &l.params)?;
    let body = shared(alloc, &l.body, &mut above)?;
    Ok(Label { params, body })
}

/// All labels.
pub fn all_shared(alloc: Global, labels: &[Label]) -> Result<Vec<Label>, NoMemory>
    ensures { IfOk result (λ v. map label_view v.items ≡ map inner.label_shared (map label_view labels.now)) }
{
    let mut v = Vec::new(alloc);
    for l in labels {
        v.push(label_shared(alloc, l)?)?;
    }
    Ok(v)
}
