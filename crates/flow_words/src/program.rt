// Whole flows.

ghost use Rattle.std.specs.Prelude.{◌≡◌, [], IfOk, map};
ghost use Rattle.nv_base.specs.Meanings.{AreEqual};
ghost use Rattle.flow_ir.specs.Meaning.{flow_meaning, flow_params};
ghost use Rattle.flow_ir.specs.View.{label_view};
ghost use Rattle.flow_words.specs.Bits.{IsNeeded};
ghost use Rattle.flow_words.specs.Needed.{AreNeeded};
ghost use Rattle.flow_words.specs.Sums.{IsFolded, AreFolded};
ghost use Rattle.flow_words.specs.inner.Ruled.{rule};
ghost use Rattle.flow_words.specs.inner.Reduced.{IsReduced, AreReduced};

use crate::uses::uses_of;
use crate::walk::{Rules, State, enter_all, reduced};
use flow_ir::names::numbers;
use flow_ir::{Flow, Label, Tree};
use nv_base::NoMemory;
use std::alloc::Global;

// The first number above this one and a variable.
fn above(n: u32, x: u32) -> u32 {
    if x < n { n } else { x.saturating_add(1) }
}

// The same for variables.
fn above_all(n: u32, xs: &[u32]) -> u32 {
    let mut most = n;
    for x in xs {
        most = above(most, *x);
    }
    most
}

// The same for those that a tree defines.
fn above_tree(n: u32, t: &Tree) -> u32 {
    let mut most = n;
    let mut cur = t;
    'spine: loop {
        match cur {
            Tree::Let(x, _, rest) => {
                most = above(most, *x);
                cur = rest;
            }
            Tree::Read(_, xs, _, rest) => {
                most = above_all(most, xs);
                cur = rest;
            }
            Tree::Write(_, _, _, rest) => cur = rest,
            Tree::If(_, _, _, first, second) => {
                most = above_tree(most, first);
                cur = second;
            }
            Tree::Jump(_, _) => return most,
            Tree::Halt(_, _) => return most,
        }
    }
}

// The start of a walk over a label.
fn start(alloc: Global, l: &Label) -> State
    ensures fresh { result.fresh ≡ result.base }
    ensures table { result.table.items ≡ [] }
{
    let base = above_tree(above_all(0, &l.params), &l.body);
    State {
        table: Vec::new(alloc),
        base,
        fresh: base,
        sound: true,
    }
}

// A label. That each variable stands once, above its use and below the first one more is tested, which takes less
// to prove than that it is so; so the answer isn't memory exhaustion by this.
fn label_reduced(alloc: Global, rules: &Rules, l: &Label) -> Result<Label, NoMemory>
    ensures { IfOk result (λ m. IsReduced (rule rules.now) (label_view l.now) (label_view m)) }
{
    let mut state = start(alloc, l);
    let mut saved = Vec::new(alloc);
    enter_all(&mut state, &mut saved, &l.params)?;
    let params = numbers(alloc, &l.params)?;
    let body = reduced(alloc, rules, &l.body, &mut state)?;
    if state.sound {
        Ok(Label { params, body })
    } else {
        Err(NoMemory)
    }
}

fn label_folded(alloc: Global, l: &Label) -> Result<Label, NoMemory>
    ensures { IfOk result (λ m. IsReduced IsFolded (label_view l.now) (label_view m)) }
{
    label_reduced(alloc, &Rules::Sums, l)
}

fn label_sliced(alloc: Global, l: &Label) -> Result<Label, NoMemory>
    ensures { IfOk result (λ m. IsReduced IsNeeded (label_view l.now) (label_view m)) }
{
    let rules = Rules::Slices(uses_of(alloc, l)?);
    label_reduced(alloc, &rules, l)
}

// All labels.
fn all_folded(alloc: Global, labels: &[Label]) -> Result<Vec<Label>, NoMemory>
    ensures { IfOk result (λ v. AreReduced IsFolded (map label_view labels.now) (map label_view v.items)) }
{
    let mut v = Vec::new(alloc);
    for l in labels {
        v.push(label_folded(alloc, l)?)?;
    }
    Ok(v)
}

// All labels.
fn all_sliced(alloc: Global, labels: &[Label]) -> Result<Vec<Label>, NoMemory>
    ensures { IfOk result (λ v. AreReduced IsNeeded (map label_view labels.now) (map label_view v.items)) }
{
    let mut v = Vec::new(alloc);
    for l in labels {
        v.push(label_sliced(alloc, l)?)?;
    }
    Ok(v)
}

/// The flow in which the sum of the halves of a sum of halves is made in three operations: the word and its halves
/// exchanged are added, and the sum is shifted. Its outcomes within each number of jumps are equal.
pub fn fold_sums(alloc: Global, f: &Flow) -> Result<Flow, NoMemory>
    ensures params { IfOk result (λ g. flow_params (map label_view g.labels.items) ≡ flow_params (map label_view f.now.labels.items)) }
    ensures equal { IfOk result (λ g. AreEqual (flow_params (map label_view f.now.labels.items)) (flow_meaning (map label_view f.now.labels.items)) (flow_meaning (map label_view g.labels.items))) }
    ensures folded { IfOk result (λ g. AreFolded (map label_view g.labels.items)) }
{
    let labels = all_folded(alloc, &f.labels)?;
    Ok(Flow { labels })
}

/// The flow in which words that are made of bits of variables are made of these in fewer operations, where the bits in
/// view tell so. Its outcomes within each number of jumps are equal. No operation is left that has the bits of one of its
/// own operands.
pub fn slice_words(alloc: Global, f: &Flow) -> Result<Flow, NoMemory>
    ensures params { IfOk result (λ g. flow_params (map label_view g.labels.items) ≡ flow_params (map label_view f.now.labels.items)) }
    ensures equal { IfOk result (λ g. AreEqual (flow_params (map label_view f.now.labels.items)) (flow_meaning (map label_view f.now.labels.items)) (flow_meaning (map label_view g.labels.items))) }
    ensures needed { IfOk result (λ g. AreNeeded (map label_view g.labels.items)) }
{
    let labels = all_sliced(alloc, &f.labels)?;
    Ok(Flow { labels })
}

/// Both, one after the other.
pub fn simpler_words(alloc: Global, f: &Flow) -> Result<Flow, NoMemory>
    ensures params { IfOk result (λ g. flow_params (map label_view g.labels.items) ≡ flow_params (map label_view f.now.labels.items)) }
    ensures equal { IfOk result (λ g. AreEqual (flow_params (map label_view f.now.labels.items)) (flow_meaning (map label_view f.now.labels.items)) (flow_meaning (map label_view g.labels.items))) }
    ensures needed { IfOk result (λ g. AreNeeded (map label_view g.labels.items)) }
{
    let folded = fold_sums(alloc, f)?;
    let sliced = slice_words(alloc, &folded)?;
    Ok(sliced)
}
