// Trees and labels.

ghost use Rattle.std.specs.Prelude.{◌≡◌, List, [], ◌++◌, IfOk, OnOk, map};
ghost use Rattle.flow_ir.specs.Spine.{put_all};
ghost use Rattle.flow_ir.specs.View.{tree_view, label_view};
ghost use Rattle.flow_paths.specs.Decided.{told};
ghost use Rattle.flow_paths.specs.inner.Walked as inner;
ghost use Rattle.flow_paths.specs.declared.facts.Fact.{Fact};

use crate::facts::{Fact, access, decided, define, tell};
use flow_ir::names::numbers;
use flow_ir::{Label, Step, Tree, joined, push_step, short_atoms, short_numbers};
use nv_base::{Atom, Cmp, NoMemory};
use std::alloc::Global;

// What was found, or memory exhaustion, after letting go of what is held.
macro_rules! read {
    ($found:expr $(, $held:expr)*) => {
        match $found {
            Ok(found) => found,
            Err(failure) => {
                $(drop($held);)*
                return Err(failure);
            }
        }
    };
}

// The same operands.
fn atoms(alloc: Global, xs: &[Atom]) -> Result<Vec<Atom>, NoMemory>
    ensures { IfOk result (λ v. v.items ≡ xs.now) }
{
    Ok(xs.to_vec(alloc)?)
}

// A tree where a comparison holds and these facts stand above it.
#[cycle(walking)]
fn arm(
    alloc: Global,
    c: Cmp,
    a: Atom,
    b: Atom,
    t: &Tree,
    above: &mut Vec<Fact>,
) -> Result<Tree, NoMemory>
    ensures tree { IfOk result (λ u. tree_view u ≡ inner.walked (above.old.items ++ told above.old.items c a b) (tree_view t.now)) }
    ensures above { OnOk result (above.new.items ≡ above.old.items) }
{
    let mark = above.len();
    tell(above, c, a, b)?;
    let mut steps = Vec::new(alloc);
    let end = read!(walked_steps(alloc, t, above, &mut steps), steps);
    above.truncate(mark);
    joined(alloc, steps, end)
}

// Adds the steps of a tree below these facts, and answers with its end.
#[cycle(walking)]
fn walked_steps(
    alloc: Global,
    t: &Tree,
    above: &mut Vec<Fact>,
    steps: &mut Vec<Step>,
) -> Result<Tree, NoMemory>
    ensures tree { IfOk result (λ u. put_all steps.new.items (tree_view u) ≡ put_all steps.old.items (inner.walked above.old.items (tree_view t.now))) }
    ensures above { OnOk result ((more : List Fact) × (above.new.items ≡ above.old.items ++ more)) }
{
    let mut cur = t;
    'spine: loop {
        match cur {
            Tree::Let(x, p, rest) => {
                push_step(steps, Step::Let(*x, *p))?;
                define(above, *x, *p)?;
                cur = rest;
            }
            Tree::Read(m, xs, a, rest) => {
                push_step(steps, Step::Read(*m, short_numbers(alloc, xs)?, *a))?;
                access(above, *a)?;
                cur = rest;
            }
            Tree::Write(m, a, bs, rest) => {
                push_step(steps, Step::Write(*m, *a, short_atoms(alloc, bs)?))?;
                access(above, *a)?;
                cur = rest;
            }
            Tree::If(c, a, b, first, second) => match decided(above, *c, *a, *b) {
                Some(true) => cur = first,
                Some(false) => cur = second,
                None => {
                    let u = arm(alloc, *c, *a, *b, first, above)?;
                    push_step(steps, Step::If(*c, *a, *b, u))?;
                    tell(above, c.negated(), *a, *b)?;
                    cur = second;
                }
            },
            Tree::Jump(l, bs) => return Ok(Tree::Jump(*l, atoms(alloc, bs)?)),
            Tree::Halt(e, bs) => return Ok(Tree::Halt(*e, short_atoms(alloc, bs)?)),
        }
    }
}

// A label, above whose tree nothing is known.
fn label_walked(alloc: Global, l: &Label) -> Result<Label, NoMemory>
    ensures { IfOk result (λ m. label_view m ≡ inner.label_walked (label_view l.now)) }
{
    let params = numbers(alloc, &l.params)?;
    let mut above = Vec::new(alloc);
    let mut steps = Vec::new(alloc);
    let end = walked_steps(alloc, &l.body, &mut above, &mut steps)?;
    let body = joined(alloc, steps, end)?;
    Ok(Label { params, body })
}

/// All labels.
pub fn all_walked(alloc: Global, labels: &[Label]) -> Result<Vec<Label>, NoMemory>
    ensures { IfOk result (λ v. map label_view v.items ≡ map inner.label_walked (map label_view labels.now)) }
{
    let mut v = Vec::new(alloc);
    for l in labels {
        v.push(label_walked(alloc, l)?)?;
    }
    Ok(v)
}
