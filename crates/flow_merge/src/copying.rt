// Copies of trees, in which labels stand in the place of jumps to them.

ghost use Rattle.std.specs.Prelude.{◌≡◌, ◌<◌, true, Some, MatchOption, ⊤, OnOk, IfOk, length, map, slice_get};
ghost use Rattle.flow_ir.specs.Substitution.{look};
ghost use Rattle.flow_ir.specs.View.{tree_view, label_view};
ghost use Rattle.flow_merge.specs.inner.Copied as inner;
ghost use Rattle.flow_merge.specs.inner.Numbered.{numbering};
ghost use Rattle.flow_merge.specs.inner.Copied.{Copied, IsCopied, AreCopied};

use crate::heads::decides;
use crate::names::{restore, set, set_numbers, set_operands, take};
use crate::plan::{Plan, is_heavier};
use flow_ir::names::{renamed, renamed_all, renamed_args, renamed_prim};
use flow_ir::{Label, Step, Tree, join};
use nv_base::{Atom, Cmp, NoMemory, Vars};
use std::alloc::Global;

// Whether a comparison holds, where both words are known.
fn folded(c: Cmp, a: Atom, b: Atom) -> Option<bool>
    ensures { result ≡ inner.folded c a b }
{
    match (a, b) {
        (Atom::Lit(v), Atom::Lit(w)) => Some(c.holds(v, w)),
        _ => None,
    }
}

// The label that is to stand in the place of a jump with these words, and its rank, where the jump stands in a label
// of this rank.
fn inside<'a>(
    labels: &'a [Label],
    plan: &Plan,
    rank: u32,
    l: u32,
    words: &[Atom],
) -> Option<(&'a Label, u32)>
    ensures { MatchOption result ⊤ (λ r. (slice_get labels.now l ≡ Some r.0.now) × (r.1 < rank)) }
{
    let own = plan.rank(l);
    if own == 0 || rank <= own {
        return None;
    }
    match labels.get(l as usize) {
        Some(m) => {
            if plan.is_choosy(l) && !decides(m, words) {
                return None;
            }
            Some((m, own))
        }
        None => None,
    }
}

// The number of the label that a jump goes on to. A plan lets each of these stay; where one didn't, the answer
// would be memory exhaustion.
fn target(labels: &[Label], plan: &Plan, l: u32) -> Result<u32, NoMemory>
    ensures { IfOk result (λ k. (l < length labels.now) × ((numbering plan.now).stays l ≡ true) × (k ≡ (numbering plan.now).to l)) }
{
    let i = l as usize;
    if i < labels.len() && plan.stays(i) {
        Ok(plan.to(i))
    } else {
        Err(NoMemory)
    }
}

// The copy of a tree that stands in a label of this rank: each jump to a label that the plan puts in its place
// has a lower one. Of two arms the one with less code comes first, which keeps trees flat on their left.
#[inline(never)]
fn copied(
    alloc: Global,
    labels: &[Label],
    plan: &Plan,
    from: u32,
    t: &Tree,
    names: &mut Vec<Atom>,
    fresh: &mut u32,
) -> Result<Tree, NoMemory>
    ensures names { OnOk result (look names.new.items ≡ look names.old.items) }
    ensures tree { IfOk result (λ u. Copied (map label_view labels.now) (numbering plan.now) (look names.old.items) fresh.old (tree_view t.now) (tree_view u) fresh.new) }
{
    let mut saved = Vec::new(alloc);
    let mut steps = Vec::new(alloc);
    let mut rank = from;
    let mut cur = t;
    'spine: loop {
        match cur {
            Tree::Let(x, p, rest) => {
                let q = renamed_prim(names, *p);
                let y = take(fresh)?;
                set(names, &mut saved, *x, Atom::Var(y))?;
                steps.push(Step::Let(y, q))?;
                cur = rest;
            }
            Tree::Read(m, xs, a, rest) => {
                let at = renamed(names, *a);
                let ys = set_numbers(alloc, names, &mut saved, xs, fresh)?;
                steps.push(Step::Read(*m, Vars::from_slice(alloc, &ys)?, at))?;
                cur = rest;
            }
            Tree::Write(m, a, bs, rest) => {
                let words = renamed_args(alloc, names, bs)?;
                steps.push(Step::Write(*m, renamed(names, *a), words))?;
                cur = rest;
            }
            Tree::If(c, a, b, first, second) => {
                let x = renamed(names, *a);
                let y = renamed(names, *b);
                match folded(*c, x, y) {
                    Some(true) => cur = first,
                    Some(false) => cur = second,
                    None => {
                        if is_heavier(first, second, plan, rank) {
                            let u = copied(alloc, labels, plan, rank, second, names, fresh)?;
                            steps.push(Step::If(c.negated(), x, y, u))?;
                            cur = first;
                        } else {
                            let u = copied(alloc, labels, plan, rank, first, names, fresh)?;
                            steps.push(Step::If(*c, x, y, u))?;
                            cur = second;
                        }
                    }
                }
            }
            Tree::Jump(l, bs) => {
                let words = renamed_all(alloc, names, bs)?;
                match inside(labels, plan, rank, *l, &words) {
                    Some((m, own)) => {
                        set_operands(names, &mut saved, &m.params, &words)?;
                        rank = own;
                        cur = &m.body;
                    }
                    None => {
                        let to = target(labels, plan, *l)?;
                        restore(names, saved)?;
                        return Ok(join(alloc, steps, Tree::Jump(to, words))?);
                    }
                }
            }
            Tree::Halt(e, bs) => {
                let words = renamed_args(alloc, names, bs)?;
                restore(names, saved)?;
                return Ok(join(alloc, steps, Tree::Halt(*e, words))?);
            }
        }
    }
}

// A copy of a label, whose variables have the numbers from 0 on.
fn label_copied(
    alloc: Global,
    labels: &[Label],
    plan: &Plan,
    l: &Label,
    names: &mut Vec<Atom>,
) -> Result<Label, NoMemory>
    ensures { IfOk result (λ m. IsCopied (map label_view labels.now) (numbering plan.now) (label_view l.now) (label_view m)) }
{
    let mut fresh = 0;
    let mut saved = Vec::new(alloc);
    let params = set_numbers(alloc, names, &mut saved, &l.params, &mut fresh)?;
    let body = copied(alloc, labels, plan, u32::MAX, &l.body, names, &mut fresh)?;
    restore(names, saved)?;
    Ok(Label { params, body })
}

/// The labels that stay, copied.
pub fn all_copied(alloc: Global, labels: &[Label], plan: &Plan) -> Result<Vec<Label>, NoMemory>
    ensures { IfOk result (λ v. AreCopied (map label_view labels.now) (numbering plan.now) 0 0 (map label_view labels.now) (map label_view v.items)) }
{
    let mut names = Vec::new(alloc);
    let mut v = Vec::new(alloc);
    for (i, l) in labels.iter().enumerate() {
        if plan.stays(i) {
            if plan.to(i) as usize != v.len() {
                return Err(NoMemory);
            }
            v.push(label_copied(alloc, labels, plan, l, &mut names)?)?;
        }
    }
    Ok(v)
}
