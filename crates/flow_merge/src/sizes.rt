// How much code there is.

ghost use Rattle.std.specs.Prelude.{◌≡◌, ◌+◌, ◌↔◌, true, IfOk, map, min};
ghost use Rattle.nv_base.specs.Measures.{IsAtMost, a_node, a_jump, a_label, both};
ghost use Rattle.flow_ir.specs.Bulk.{tree_bulk, bulk};
ghost use Rattle.flow_ir.specs.View.{tree_view, label_view};
ghost use Rattle.flow_merge.specs.inner.Sizes.{bulk_of};

use flow_ir::{Label, Tree};
use nv_base::NoMemory;

/// Labels, jumps, other nodes, and the words that these define and use.
#[derive(Clone, Copy)]
pub struct Sizes {
    pub labels: usize,
    pub jumps: usize,
    pub nodes: usize,
    pub defined: usize,
    pub used: usize,
}

impl Sizes {
    /// More rounds than it takes to contract what has these sizes.
    pub fn rounds(&self) -> usize
        ensures { result ≡ min ((bulk_of self.now).labels + (bulk_of self.now).nodes) usize.MAX }
    {
        self.labels.saturating_add(self.nodes)
    }
}

// The sum of two numbers.
fn sum(a: usize, b: usize) -> Result<usize, NoMemory>
    ensures { IfOk result (λ n. n ≡ a + b) }
{
    match a.checked_add(b) {
        Some(n) => Ok(n),
        None => Err(NoMemory),
    }
}

// A node more.
fn with_node(s: Sizes, defined: usize, used: usize) -> Result<Sizes, NoMemory>
    ensures { IfOk result (λ t. bulk_of t ≡ both (bulk_of s) (a_node defined used)) }
{
    Ok(Sizes {
        labels: s.labels,
        jumps: s.jumps,
        nodes: sum(s.nodes, 1)?,
        defined: sum(s.defined, defined)?,
        used: sum(s.used, used)?,
    })
}

// A jump or an end more.
fn with_jump(s: Sizes) -> Result<Sizes, NoMemory>
    ensures { IfOk result (λ t. bulk_of t ≡ both (bulk_of s) a_jump) }
{
    Ok(Sizes {
        labels: s.labels,
        jumps: sum(s.jumps, 1)?,
        nodes: s.nodes,
        defined: s.defined,
        used: s.used,
    })
}

// A label more.
fn with_label(s: Sizes) -> Result<Sizes, NoMemory>
    ensures { IfOk result (λ t. bulk_of t ≡ both (bulk_of s) a_label) }
{
    Ok(Sizes {
        labels: sum(s.labels, 1)?,
        jumps: s.jumps,
        nodes: s.nodes,
        defined: s.defined,
        used: s.used,
    })
}

// With a tree.
fn with_tree(s: Sizes, t: &Tree) -> Result<Sizes, NoMemory>
    ensures { IfOk result (λ v. bulk_of v ≡ both (bulk_of s) (tree_bulk (tree_view t.now))) }
{
    let mut now = s;
    let mut cur = t;
    'spine: loop {
        match cur {
            Tree::Let(_, _, rest) => {
                now = with_node(now, 1, 2)?;
                cur = rest;
            }
            Tree::Read(_, xs, _, rest) => {
                now = with_node(now, xs.len(), 1)?;
                cur = rest;
            }
            Tree::Write(_, _, bs, rest) => {
                now = with_node(now, 0, sum(1, bs.len())?)?;
                cur = rest;
            }
            Tree::If(_, _, _, first, second) => {
                now = with_tree(with_node(now, 0, 2)?, first)?;
                cur = second;
            }
            Tree::Jump(_, _) => return with_jump(now),
            Tree::Halt(_, _) => return with_jump(now),
        }
    }
}

/// The sizes of labels.
pub fn sizes_of(labels: &[Label]) -> Result<Sizes, NoMemory>
    ensures { IfOk result (λ s. bulk_of s ≡ bulk (map label_view labels.now)) }
{
    let mut now = Sizes {
        labels: 0,
        jumps: 0,
        nodes: 0,
        defined: 0,
        used: 0,
    };
    for l in labels {
        now = with_tree(with_label(now)?, &l.body)?;
    }
    Ok(now)
}

/// Whether no size has grown.
pub fn is_within(a: &Sizes, b: &Sizes) -> bool
    ensures { result ≡ true ↔ IsAtMost (bulk_of a.now) (bulk_of b.now) }
{
    a.labels <= b.labels
        && a.jumps <= b.jumps
        && a.nodes <= b.nodes
        && a.defined <= b.defined
        && a.used <= b.used
}
