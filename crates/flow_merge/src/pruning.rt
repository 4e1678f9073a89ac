// Labels without their parameters that go.

ghost use Rattle.std.specs.Prelude.{◌≡◌, ◌↔◌, true, [], IfOk, map, slice_get};
ghost use Rattle.nv_base.specs.Sets.{is_in, without};
ghost use Rattle.flow_ir.specs.View.{tree_view, label_view};
ghost use Rattle.flow_ir.specs.Wide.{uses};
ghost use Rattle.flow_merge.specs.inner.Pruned as inner;
ghost use Rattle.flow_merge.specs.inner.Pruned.{gone_of, params_in, Clear, IsPruned, ArePruned};

use flow_ir::uses::mentions;
use flow_ir::{Label, Step, Tree, join};
use nv_base::{Args, Atom, NoMemory, Vars};
use std::alloc::Global;

// The parameters of a label that go.
fn gone(table: &[Vec<u32>], l: u32) -> Result<&[u32], NoMemory>
    ensures { IfOk result (λ r. r.now ≡ gone_of table.now l) }
{
    match table.get(l as usize) {
        Some(row) => Ok(row.as_slice()),
        None => Err(NoMemory),
    }
}

// The parameters of a label.
fn params(labels: &[Label], l: u32) -> Result<&[u32], NoMemory>
    ensures { IfOk result (λ r. r.now ≡ params_in (slice_get (map label_view labels.now) l)) }
{
    match labels.get(l as usize) {
        Some(m) => Ok(m.params.as_slice()),
        None => Err(NoMemory),
    }
}

// Whether a parameter is among these.
fn is_gone(gone: &[u32], p: u32) -> bool
    ensures { result ≡ is_in p gone.now }
{
    gone.contains(&p)
}

/// Whether the parameters of label 0 stay.
pub fn keeps_first(table: &[Vec<u32>]) -> bool
    ensures { result ≡ true ↔ gone_of table.now 0 ≡ [] }
{
    match table.get(0) {
        Some(row) => row.is_empty(),
        None => true,
    }
}

// The words for those of the parameters that stay.
fn kept_words(
    alloc: Global,
    gone: &[u32],
    params: &[u32],
    words: &[Atom],
) -> Result<Vec<Atom>, NoMemory>
    ensures { IfOk result (λ v. v.items ≡ inner.kept_words gone.now params.now words.now) }
{
    let mut v = Vec::new(alloc);
    for (i, p) in params.iter().enumerate() {
        if i < words.len() && !is_gone(gone, *p) {
            v.push(words[i])?;
        }
    }
    Ok(v)
}

// The parameters that stay.
fn kept_params(alloc: Global, gone: &[u32], params: &[u32]) -> Result<Vec<u32>, NoMemory>
    ensures { IfOk result (λ v. v.items ≡ without params.now gone.now) }
{
    let mut v = Vec::new(alloc);
    for p in params {
        if !is_gone(gone, *p) {
            v.push(*p)?;
        }
    }
    Ok(v)
}

// A tree whose jumps hand on the words for the parameters that stay.
#[inline(never)]
fn pruned(alloc: Global, labels: &[Label], table: &[Vec<u32>], t: &Tree) -> Result<Tree, NoMemory>
    ensures { IfOk result (λ u. tree_view u ≡ inner.pruned (map label_view labels.now) (gone_of table.now) (tree_view t.now)) }
{
    let mut steps = Vec::new(alloc);
    let mut cur = t;
    'spine: loop {
        match cur {
            Tree::Let(x, p, rest) => {
                steps.push(Step::Let(*x, *p))?;
                cur = rest;
            }
            Tree::Read(m, xs, a, rest) => {
                steps.push(Step::Read(*m, Vars::from_slice(alloc, xs)?, *a))?;
                cur = rest;
            }
            Tree::Write(m, a, bs, rest) => {
                steps.push(Step::Write(*m, *a, Args::from_slice(alloc, bs)?))?;
                cur = rest;
            }
            Tree::If(c, a, b, first, second) => {
                let u = pruned(alloc, labels, table, first)?;
                steps.push(Step::If(*c, *a, *b, u))?;
                cur = second;
            }
            Tree::Jump(l, bs) => {
                let row = gone(table, *l)?;
                let words = kept_words(alloc, row, params(labels, *l)?, bs)?;
                return Ok(join(alloc, steps, Tree::Jump(*l, words))?);
            }
            Tree::Halt(e, bs) => {
                let words = Args::from_slice(alloc, bs)?;
                return Ok(join(alloc, steps, Tree::Halt(*e, words))?);
            }
        }
    }
}

// Whether a tree uses none of these.
fn is_clear(gone: &[u32], t: &Tree) -> bool
    ensures { result ≡ true → Clear gone.now (uses (tree_view t.now)) }
{
    for x in gone {
        if mentions(*x, t) {
            return false;
        }
    }
    true
}

// A label without its parameters that go. The analysis lets none of these be used; where one were, the answer would
// be memory exhaustion.
fn label_pruned(
    alloc: Global,
    labels: &[Label],
    table: &[Vec<u32>],
    i: u32,
    l: &Label,
) -> Result<Label, NoMemory>
    ensures { IfOk result (λ m. IsPruned (map label_view labels.now) (gone_of table.now) i (label_view l.now) (label_view m)) }
{
    let own = gone(table, i)?;
    let body = pruned(alloc, labels, table, &l.body)?;
    if !is_clear(own, &body) {
        return Err(NoMemory);
    }
    let params = kept_params(alloc, own, &l.params)?;
    Ok(Label { params, body })
}

/// All labels without their parameters that go.
pub fn all_pruned(
    alloc: Global,
    labels: &[Label],
    table: &[Vec<u32>],
) -> Result<Vec<Label>, NoMemory>
    ensures { IfOk result (λ v. ArePruned (map label_view labels.now) (gone_of table.now) 0 (map label_view labels.now) (map label_view v.items)) }
{
    let mut v = Vec::new(alloc);
    let mut i: u32 = 0;
    for l in labels {
        v.push(label_pruned(alloc, labels, table, i, l)?)?;
        match i.checked_add(1) {
            Some(next) => i = next,
            None => return Err(NoMemory),
        }
    }
    Ok(v)
}
