// Labels that nothing leads to: copies of functions that a call doesn't reach, and what stands after an
// end. They are left out, and the others are numbered anew.

ghost use Rattle.std.specs.Prelude.{◌≡◌, ◌<◌, ◌≤◌, ℕ, suc, true, false, ◌||◌, if◌then◌else◌, IfOk, OnOk, All, Some, length, map, slice_get, slice_index_or};
ghost use Rattle.nv_base.specs.Meanings.{AreEqual};
ghost use Rattle.nv_base.specs.Measures.{IsAtMost};
ghost use Rattle.flow_ir.specs.Bulk.{bulk};
ghost use Rattle.flow_ir.specs.Meaning.{flow_meaning, flow_params};
ghost use Rattle.flow_ir.specs.Spine.{put_all};
ghost use Rattle.flow_ir.specs.View.{tree_view, label_view};
ghost use Rattle.flow_ir.specs.Tree.{Label as LabelTree};
ghost use Rattle.flow_ir.specs.Wide.{wide};
ghost use Rattle.flow_ir.specs.Reachable.{AreReachable, GoesTo};
ghost use Rattle.flow_ir.specs.inner.Pruned as inner;
ghost use Rattle.flow_ir.specs.inner.Pruned.{IsPruned};

use crate::flow::{Flow, Label, Tree};
use crate::spine::{Step, joined, push_step, short_atoms, short_numbers};
use nv_base::{Atom, NoMemory};
use std::alloc::Global;

// What was found, or memory exhaustion, after letting go of what is held.
macro_rules! read {
    ($found:expr $(, $held:expr)*) => {
        match $found {
            Ok(found) => found,
            Err(failure) => {
                $(drop($held);)*
                return Err(failure);
            }
        }
    };
}

/// The labels that the first one leads to, in the same order.
pub fn pruned(alloc: Global, labels: &[Label]) -> Result<Vec<Label>, NoMemory>
    ensures { IfOk result (λ v. inner.IsPruned (map label_view labels.now) (map label_view v.items)) }
{
    let out = left_out(alloc, labels)?;
    let to = numbers(alloc, &out, labels.len())?;
    left(alloc, labels, &out, &to)
}

/// The flow without the labels that label 0 doesn't lead to; the others stay as they are, but for their numbers. It takes as many
/// words, its outcomes within each number of jumps are equal, and it is neither wider nor larger.
pub fn drop_unreached(alloc: Global, f: &Flow) -> Result<Flow, NoMemory>
    ensures params { IfOk result (λ g. flow_params (map label_view g.labels.items) ≡ flow_params (map label_view f.now.labels.items)) }
    ensures equal { IfOk result (λ g. AreEqual (flow_params (map label_view f.now.labels.items)) (flow_meaning (map label_view f.now.labels.items)) (flow_meaning (map label_view g.labels.items))) }
    ensures wide { IfOk result (λ g. wide (map label_view g.labels.items) ≤ wide (map label_view f.now.labels.items)) }
    ensures led { IfOk result (λ g. AreReachable (map label_view g.labels.items)) }
    ensures left { IfOk result (λ g. IsPruned (map label_view f.now.labels.items) (map label_view g.labels.items)) }
    ensures bulk { IfOk result (λ g. IsAtMost (bulk (map label_view g.labels.items)) (bulk (map label_view f.now.labels.items))) }
{
    let labels = pruned(alloc, &f.labels)?;
    Ok(Flow { labels })
}

// Which labels are left out. It is tested that no other one goes on to them, which takes less to prove than that the turns are enough;
// so the one other answer, memory exhaustion, doesn't come of this test.
fn left_out(alloc: Global, labels: &[Label]) -> Result<Vec<bool>, NoMemory>
    ensures first { IfOk result (λ out. inner.is_out out.items 0 ≡ false) }
    ensures closed { IfOk result (λ out. inner.all_go_on out.items 0 (map label_view labels.now) ≡ true) }
    ensures led { IfOk result (λ out. inner.AreLed (map label_view labels.now) out.items) }
{
    let out = unreached(alloc, labels)?;
    if !is_out(&out, 0) && all_go_on(&out, labels) {
        Ok(out)
    } else {
        Err(NoMemory)
    }
}

// Whether a label is left out.
fn is_out(out: &[bool], l: usize) -> bool
    ensures { result ≡ inner.is_out out.now l }
{
    match out.get(l) {
        Some(b) => *b,
        None => false,
    }
}

// Whether no label that a tree goes on to is left out.
fn goes_on(out: &[bool], t: &Tree) -> bool
    ensures { result ≡ inner.goes_on out.now (tree_view t.now) }
{
    let mut cur = t;
    'spine: loop {
        match cur {
            Tree::Let(_, _, rest) => cur = rest,
            Tree::Read(_, _, _, rest) => cur = rest,
            Tree::Write(_, _, _, rest) => cur = rest,
            Tree::If(_, _, _, first, second) => {
                if !goes_on(out, first) {
                    return false;
                }
                cur = second;
            }
            Tree::Jump(l, _) => return !is_out(out, *l as usize),
            Tree::Halt(_, _) => return true,
        }
    }
}

// The same for a label, if it is there.
fn label_goes_on(out: &[bool], i: usize, l: &Label) -> bool
    ensures { result ≡ (inner.is_out out.now i || inner.goes_on out.now (label_view l.now).body) }
{
    is_out(out, i) || goes_on(out, &l.body)
}

// The same for all labels.
fn all_go_on(out: &[bool], labels: &[Label]) -> bool
    ensures { result ≡ inner.all_go_on out.now 0 (map label_view labels.now) }
{
    for (i, l) in labels.iter().enumerate() {
        if !label_goes_on(out, i, l) {
            return false;
        }
    }
    true
}

// Each label left out.
fn all_out(alloc: Global, labels: &[Label]) -> Result<Vec<bool>, NoMemory>
    ensures count { IfOk result (λ out. length out.items ≡ length labels.now) }
    ensures out { IfOk result (λ out. All (λ b. b ≡ true) out.items) }
{
    Ok(vec![in alloc; true; labels.len()]?)
}

// The labels that the first one doesn't lead to. Each other one is visited once, so there are at most as
// many turns as labels.
fn unreached(alloc: Global, labels: &[Label]) -> Result<Vec<bool>, NoMemory>
    ensures { IfOk result (λ out. inner.AreLed (map label_view labels.now) out.items) }
{
    let mut out = all_out(alloc, labels)?;
    let mut pending = Vec::new(alloc);
    note(0, &mut out, &mut pending)?;
    for _ in labels {
        if let Some(l) = pending.pop() {
            visit(l, labels, &mut out, &mut pending)?;
        }
    }
    Ok(out)
}

// A label that is reached.
fn note(l: u32, out: &mut Vec<bool>, pending: &mut Vec<u32>) -> Result<(), NoMemory>
    ensures { OnOk result (inner.Noted (λ i. i ≡ l) out.old.items out.new.items pending.old.items pending.new.items) }
{
    let at = l as usize;
    if at < out.len() && out[at] {
        out[at] = false;
        pending.push(l)?;
    }
    Ok(())
}

// Those that it goes on to.
fn visit(
    l: u32,
    labels: &[Label],
    out: &mut Vec<bool>,
    pending: &mut Vec<u32>,
) -> Result<(), NoMemory>
    ensures { OnOk result (inner.Noted (λ i. (from : LabelTree) × (slice_get (map label_view labels.now) l ≡ Some from) × GoesTo from.body i) out.old.items out.new.items pending.old.items pending.new.items) }
{
    match labels.get(l as usize) {
        Some(l) => note_all(&l.body, out, pending),
        None => Ok(()),
    }
}

// Those that a tree goes on to.
fn note_all(t: &Tree, out: &mut Vec<bool>, pending: &mut Vec<u32>) -> Result<(), NoMemory>
    ensures { OnOk result (inner.Noted (GoesTo (tree_view t.now)) out.old.items out.new.items pending.old.items pending.new.items) }
{
    let mut cur = t;
    'spine: loop {
        match cur {
            Tree::Let(_, _, rest) => cur = rest,
            Tree::Read(_, _, _, rest) => cur = rest,
            Tree::Write(_, _, _, rest) => cur = rest,
            Tree::If(_, _, _, first, second) => {
                note_all(first, out, pending)?;
                cur = second;
            }
            Tree::Jump(l, _) => return note(*l, out, pending),
            Tree::Halt(_, _) => return Ok(()),
        }
    }
}

// The number after a label.
fn behind(n: u32, is_out: bool) -> Result<u32, NoMemory>
    ensures { IfOk result (λ m. m ≡ (if is_out then n else suc n)) }
{
    if is_out {
        return Ok(n);
    }
    match n.checked_add(1) {
        Some(m) => Ok(m),
        None => Err(NoMemory),
    }
}

// The new numbers of so many labels.
fn numbers(alloc: Global, out: &[bool], count: usize) -> Result<Vec<u32>, NoMemory>
    ensures { IfOk result (λ v. (i : ℕ) → i < count → slice_index_or v.items i 0 ≡ inner.rank out.now i) }
{
    let mut to = Vec::new(alloc);
    let mut next: u32 = 0;
    for i in 0..count {
        to.push(next)?;
        next = behind(next, is_out(out, i))?;
    }
    Ok(to)
}

// The new number of a label.
fn number(to: &[u32], l: u32) -> u32
    ensures { result ≡ slice_index_or to.now l 0 }
{
    match to.get(l as usize) {
        Some(n) => *n,
        None => 0,
    }
}

// The same operands.
fn atoms(alloc: Global, xs: &[Atom]) -> Result<Vec<Atom>, NoMemory>
    ensures { IfOk result (λ v. v.items ≡ xs.now) }
{
    Ok(xs.to_vec(alloc)?)
}

// A tree that goes on to the new numbers.
#[cycle(renumbering)]
fn renumbered(alloc: Global, t: &Tree, to: &[u32]) -> Result<Tree, NoMemory>
    ensures { IfOk result (λ u. tree_view u ≡ inner.renumbered (λ l. slice_index_or to.now l 0) (tree_view t.now)) }
{
    let mut steps = Vec::new(alloc);
    let end = read!(renumbered_steps(alloc, t, to, &mut steps), steps);
    joined(alloc, steps, end)
}

// Adds the steps of such a tree, and answers with its end.
#[cycle(renumbering)]
fn renumbered_steps(
    alloc: Global,
    t: &Tree,
    to: &[u32],
    steps: &mut Vec<Step>,
) -> Result<Tree, NoMemory>
    ensures { IfOk result (λ u. put_all steps.new.items (tree_view u) ≡ put_all steps.old.items (inner.renumbered (λ l. slice_index_or to.now l 0) (tree_view t.now))) }
{
    let mut cur = t;
    'spine: loop {
        match cur {
            Tree::Let(x, p, rest) => {
                push_step(steps, Step::Let(*x, *p))?;
                cur = rest;
            }
            Tree::Read(m, xs, a, rest) => {
                push_step(steps, Step::Read(*m, short_numbers(alloc, xs)?, *a))?;
                cur = rest;
            }
            Tree::Write(m, a, bs, rest) => {
                push_step(steps, Step::Write(*m, *a, short_atoms(alloc, bs)?))?;
                cur = rest;
            }
            Tree::If(c, a, b, first, second) => {
                let u = renumbered(alloc, first, to)?;
                push_step(steps, Step::If(*c, *a, *b, u))?;
                cur = second;
            }
            Tree::Jump(l, bs) => return Ok(Tree::Jump(number(to, *l), atoms(alloc, bs)?)),
            Tree::Halt(e, bs) => return Ok(Tree::Halt(*e, short_atoms(alloc, bs)?)),
        }
    }
}

// A label with its parameters, that goes on to the new numbers.
fn relabelled(alloc: Global, l: &Label, to: &[u32]) -> Result<Label, NoMemory>
    ensures { IfOk result (λ m. label_view m ≡ inner.relabelled (λ i. slice_index_or to.now i 0) (label_view l.now)) }
{
    let params = l.params.to_vec(alloc)?;
    let body = renumbered(alloc, &l.body, to)?;
    Ok(Label { params, body })
}

// What is left of the labels.
fn left(alloc: Global, labels: &[Label], out: &[bool], to: &[u32]) -> Result<Vec<Label>, NoMemory>
    ensures { IfOk result (λ v. map label_view v.items ≡ inner.left out.now (λ l. slice_index_or to.now l 0) 0 (map label_view labels.now)) }
{
    let mut v = Vec::new(alloc);
    for (i, l) in labels.iter().enumerate() {
        if !is_out(out, i) {
            v.push(relabelled(alloc, l, to)?)?;
        }
    }
    Ok(v)
}
