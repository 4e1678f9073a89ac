// The way down: each variable that is the same as an operand is replaced by that, and a rule is asked about each
// primitive.

ghost use Rattle.std.specs.Prelude.{◌≡◌, OnOk, IfOk};
ghost use Rattle.flow_ir.specs.View.{tree_view};
ghost use Rattle.nv_base.specs.Words.{HasPrimCount};
ghost use Rattle.cps_rules.specs.inner.Marked.{is_marked};
ghost use Rattle.flow_ir.specs.Substitution.{look};
ghost use Rattle.cps_rules.specs.inner.Way.{Counted, IsFolded, IsScoped, IsDone};

use crate::marks::Marks;
use crate::rewrite::{Rewrite, answer};
use crate::spine::joined;
use flow_ir::names::{name, name_all, renamed, renamed_all, renamed_args, renamed_prim};
use flow_ir::{Step, Tree};
use nv_base::{Atom, NoMemory, Prim, Vars};
use std::alloc::Global;

// A `Let`: another name for its variable, or a step and the variable itself.
fn fold_let<R: Rewrite>(
    r: &R,
    x: u32,
    p: Prim,
    names: &mut Vec<Atom>,
    steps: &mut Vec<Step>,
) -> Result<(), NoMemory>
    requires ready { R.ready r.now }
    requires count { HasPrimCount p }
    ensures { OnOk result (IsFolded (Counted (R.answers r.now)) x p (look names.old.items) (look names.new.items) steps.old.items steps.new.items) }
{
    let q = answer(r, renamed_prim(names, p));
    match q {
        Prim::Same(a) => name(names, x, a),
        _ => {
            steps.push(Step::Let(x, q))?;
            name(names, x, Atom::Var(x))
        }
    }
}

// The same variables in a short list.
fn short_numbers(alloc: Global, xs: &[u32]) -> Result<Vars, NoMemory>
    ensures { IfOk result (λ v. v.items ≡ xs.now) }
{
    Ok(Vars::from_slice(alloc, xs)?)
}

/// A tree with names in place, simplified, with the marks of what it uses.
pub fn simplify_tree<R: Rewrite>(
    alloc: Global,
    r: &R,
    t: &Tree,
    names: &mut Vec<Atom>,
    marks: &mut Marks,
) -> Result<Tree, NoMemory>
    requires ready { R.ready r.now }
    requires scoped { IsScoped (look names.old.items) (is_marked marks.old) (tree_view t.now) }
    ensures { IfOk result (λ u. IsDone (Counted (R.answers r.now)) (tree_view t.now) (look names.old.items) (look names.new.items) (is_marked marks.old) (is_marked marks.new) (tree_view u)) }
{
    let mut steps = Vec::new(alloc);
    let mut cur = t;
    'spine: loop {
        match cur {
            Tree::Let(x, p, rest) => {
                fold_let(r, *x, *p, names, &mut steps)?;
                cur = rest;
            }
            Tree::Read(m, xs, a, rest) => {
                steps.push(Step::Read(*m, short_numbers(alloc, xs)?, renamed(names, *a)))?;
                name_all(names, xs)?;
                cur = rest;
            }
            Tree::Write(m, a, bs, rest) => {
                let words = renamed_args(alloc, names, bs)?;
                steps.push(Step::Write(*m, renamed(names, *a), words))?;
                cur = rest;
            }
            Tree::If(c, a, b, first, second) => {
                let x = renamed(names, *a);
                let y = renamed(names, *b);
                let u = simplify_tree(alloc, r, first, names, marks)?;
                steps.push(Step::If(*c, x, y, u))?;
                cur = second;
            }
            Tree::Jump(l, bs) => {
                let words = renamed_all(alloc, names, bs)?;
                marks.add_all(&words)?;
                return joined(alloc, marks, steps, Tree::Jump(*l, words));
            }
            Tree::Halt(e, bs) => {
                let words = renamed_args(alloc, names, bs)?;
                marks.add_all(&words)?;
                return joined(alloc, marks, steps, Tree::Halt(*e, words));
            }
        }
    }
}
