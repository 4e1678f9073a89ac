// Trees and labels of the flow.

ghost use Rattle.std.specs.Prelude.{◌≡◌, ◌++◌, [], Some, IfOk, map};
ghost use Rattle.cps_ir.specs.View.{term_view, label_view, fun_view};
ghost use Rattle.flow_ir.specs.Tree as flow;
ghost use Rattle.flow_ir.specs.Spine.{put_all};
ghost use Rattle.flow_ir.specs.View.{tree_view, label_view as flow_label};
ghost use Rattle.cps_close.specs.inner.Closed as inner;
ghost use Rattle.cps_close.specs.inner.View.{table_view};

use crate::table::Table;
use crate::uses::push_all;
use cps_ir::{Cont, CpsFun, Term};
use flow_ir::{Label, Step, Tree, joined, push_step, short_atoms, short_numbers};
use nv_base::{Atom, NoMemory};
use std::alloc::Global;

// What was found, or memory exhaustion, after letting go of what is held.
macro_rules! read {
    ($found:expr $(, $held:expr)*) => {
        match $found {
            Ok(found) => found,
            Err(failure) => {
                $(drop($held);)*
                return Err(failure);
            }
        }
    };
}

// Operands, and then variables.
fn operands(alloc: Global, xs: &[Atom], needed: &[u32]) -> Result<Vec<Atom>, NoMemory>
    ensures { IfOk result (λ v. v.items ≡ xs.now ++ inner.operands needed.now) }
{
    let mut v = Vec::new(alloc);
    for a in xs {
        v.push(*a)?;
    }
    with_variables(v, needed)
}

// With variables after them.
fn with_variables(mut v: Vec<Atom>, needed: &[u32]) -> Result<Vec<Atom>, NoMemory>
    ensures { IfOk result (λ u. u.items ≡ v.items ++ inner.operands needed.now) }
{
    for x in needed {
        v.push(Atom::Var(*x))?;
    }
    Ok(v)
}

// The jump to a label.
fn jump(alloc: Global, l: u32, bs: &[Atom], table: &Table) -> Result<Tree, NoMemory>
    ensures { IfOk result (λ u. tree_view u ≡ flow.Jump (inner.number (table_view table.now) l) (bs.now ++ inner.operands (inner.needed (table_view table.now) l))) }
{
    let number = table.number(l)?;
    Ok(Tree::Jump(number, operands(alloc, bs, table.needed(l))?))
}

/// The tree of a term.
#[cycle(trees)]
pub fn tree_of(alloc: Global, t: &Term, table: &Table) -> Result<Tree, NoMemory>
    ensures { IfOk result (λ u. tree_view u ≡ inner.tree_of (table_view table.now) (term_view t.now)) }
{
    let mut steps = Vec::new(alloc);
    let end = read!(tree_steps(alloc, t, table, &mut steps), steps);
    joined(alloc, steps, end)
}

// Adds the steps of a term's tree, and answers with its end.
#[cycle(trees)]
fn tree_steps(
    alloc: Global,
    t: &Term,
    table: &Table,
    steps: &mut Vec<Step>,
) -> Result<Tree, NoMemory>
    ensures { IfOk result (λ u. put_all steps.new.items (tree_view u) ≡ put_all steps.old.items (inner.tree_of (table_view table.now) (term_view t.now))) }
{
    let mut cur = t;
    'spine: loop {
        match cur {
            Term::Let(x, p, rest) => {
                push_step(steps, Step::Let(*x, *p))?;
                cur = rest;
            }
            Term::Read(m, xs, a, rest) => {
                push_step(steps, Step::Read(*m, short_numbers(alloc, xs)?, *a))?;
                cur = rest;
            }
            Term::Write(m, a, bs, rest) => {
                push_step(steps, Step::Write(*m, *a, short_atoms(alloc, bs)?))?;
                cur = rest;
            }
            Term::If(c, a, b, first, second) => {
                let u = tree_of(alloc, first, table)?;
                push_step(steps, Step::If(*c, *a, *b, u))?;
                cur = second;
            }
            Term::Fix(_, rest) => cur = rest,
            Term::Call(_, _, _, _) => {
                let end = ended(alloc)?;
                return Ok(end);
            }
            Term::Return(_) => {
                let end = ended(alloc)?;
                return Ok(end);
            }
            Term::Throw(_, _) => {
                let end = ended(alloc)?;
                return Ok(end);
            }
            Term::Jump(l, bs) => {
                let end = jump(alloc, *l, bs, table)?;
                return Ok(end);
            }
            Term::Halt(e, bs) => return Ok(Tree::Halt(*e, short_atoms(alloc, bs)?)),
        }
    }
}

// What stands for an end that no closed function has.
fn ended(alloc: Global) -> Result<Tree, NoMemory>
    ensures { IfOk result (λ u. tree_view u ≡ flow.Halt 0 []) }
{
    Ok(Tree::Halt(0, short_atoms(alloc, &[])?))
}

// A label with these after its own parameters.
fn label(alloc: Global, params: &[u32], needed: &[u32], body: Tree) -> Result<Label, NoMemory>
    ensures params { IfOk result (λ l. l.params.items ≡ params.now ++ needed.now) }
    ensures body { IfOk result (λ l. tree_view l.body ≡ tree_view body) }
{
    let mut all = Vec::new(alloc);
    read!(push_all(&mut all, params), body);
    read!(push_all(&mut all, needed), body);
    Ok(Label { params: all, body })
}

// The label of the flow for the one at an index.
fn label_of(alloc: Global, c: &Cont, i: usize, table: &Table) -> Result<Label, NoMemory>
    ensures { IfOk result (λ l. flow_label l ≡ inner.with_wanted (table_view table.now) (label_view c.now) (inner.needed_there (table_view table.now).lists (Some i))) }
{
    let body = tree_of(alloc, &c.body, table)?;
    label(alloc, &c.params, table.needed_at(i), body)
}

/// The labels of the flow: where the function begins, and those of its labels.
pub fn labels_of(
    alloc: Global,
    f: &CpsFun,
    conts: &[&Cont],
    table: &Table,
) -> Result<Vec<Label>, NoMemory>
    requires { map (λ c. label_view c.now) conts.now ≡ inner.labels_in (term_view f.now.body) }
    ensures { IfOk result (λ v. map flow_label v.items ≡ inner.closed (table_view table.now) (fun_view f.now)) }
{
    let mut labels = Vec::new(alloc);
    let body = tree_of(alloc, &f.body, table)?;
    labels.push(label(alloc, &f.params, &[], body)?)?;
    for i in 0..conts.len() {
        labels.push(label_of(alloc, conts[i], i, table)?)?;
    }
    Ok(labels)
}
