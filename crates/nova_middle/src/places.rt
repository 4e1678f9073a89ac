// Widths of trees, labels and flows.

ghost use Rattle.std.specs.Prelude.{◌≡◌, ◌∷◌, IfOk, map};
ghost use Rattle.flow_ir.specs.View.{tree_view, label_view};
ghost use Rattle.flow_ir.specs.Wide as spec;
ghost use Rattle.nova_middle.specs.inner.Parts.{IsPart, IsRest, IsSpineOf};

use crate::parts::{Part, end_part, if_part, let_part, read_part, sum, write_part};
use crate::rows::Row;
use flow_ir::{Label, Tree};
use nv_base::{Atom, NoMemory};
use std::alloc::Global;

// The nodes from a tree's first one on, always to a second arm, down to an end, which comes last.
fn spine<'a>(alloc: Global, t: &'a Tree) -> Result<Vec<&'a Tree>, NoMemory>
    ensures { IfOk result (λ v. IsSpineOf v.items t.now) }
{
    let mut nodes = Vec::new(alloc);
    let mut cur = t;
    'spine: loop {
        nodes.push(cur)?;
        match cur {
            Tree::Let(_, _, rest) => cur = rest,
            Tree::Read(_, _, _, rest) => cur = rest,
            Tree::Write(_, _, _, rest) => cur = rest,
            Tree::If(_, _, _, _, second) => cur = second,
            Tree::Jump(_, _) => return Ok(nodes),
            Tree::Halt(_, _) => return Ok(nodes),
        }
    }
}

// The address and then the words.
fn write_operands(alloc: Global, a: Atom, bs: &[Atom]) -> Result<Vec<Atom>, NoMemory>
    ensures { IfOk result (λ v. v.items ≡ a ∷ bs.now) }
{
    let mut list = vec![in alloc; a]?;
    list.extend_from_slice(bs)?;
    Ok(list)
}

// What is known of no tree.
fn nothing(alloc: Global) -> Part {
    Part {
        live: Row::new(alloc),
        width: 0,
    }
}

// A node, by what follows it.
#[cycle(widths)]
fn node_part(alloc: Global, t: &Tree, rest: Part) -> Result<Part, NoMemory>
    requires { IsRest (tree_view t.now) rest }
    ensures { IfOk result (λ p. IsPart p (tree_view t.now)) }
{
    match t {
        Tree::Let(x, p, _) => let_part(alloc, *x, *p, rest),
        Tree::Read(_, xs, a, _) => read_part(alloc, xs, *a, rest),
        Tree::Write(_, a, bs, _) => write_part(&write_operands(alloc, *a, bs)?, rest),
        Tree::If(_, a, b, first, _) => {
            let arm = tree_part(alloc, first)?;
            if_part(*a, *b, arm, rest)
        }
        Tree::Jump(_, bs) => end_part(alloc, bs),
        Tree::Halt(_, bs) => end_part(alloc, bs),
    }
}

// A tree, from its end up.
#[cycle(widths)]
fn tree_part(alloc: Global, t: &Tree) -> Result<Part, NoMemory>
    ensures { IfOk result (λ p. IsPart p (tree_view t.now)) }
{
    let mut nodes = spine(alloc, t)?;
    let mut part = nothing(alloc);
    'walk: while let Some(s) = nodes.pop() {
        part = node_part(alloc, s, part)?;
    }
    Ok(part)
}

// A label, which begins with all its parameters.
fn label_width(alloc: Global, l: &Label) -> Result<usize, NoMemory>
    ensures { IfOk result (λ n. n ≡ spec.label_wide (label_view l.now)) }
{
    let part = tree_part(alloc, &l.body)?;
    Ok(sum(l.params.len(), 1)?.max(part.width))
}

/// How many words these labels want at once.
pub fn wide(alloc: Global, labels: &[Label]) -> Result<usize, NoMemory>
    ensures { IfOk result (λ n. n ≡ spec.wide (map label_view labels.now)) }
{
    let mut most = 0;
    for l in labels {
        most = label_width(alloc, l)?.max(most);
    }
    Ok(most)
}
