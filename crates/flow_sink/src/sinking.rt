// Trees whose definitions sink, in place. The recursion is along all nodes of a tree, of which there are few.

ghost use Rattle.std.specs.Prelude.{◌≡◌, OnOk, IfOk, map};
ghost use Rattle.flow_ir.specs.Tree as pure;
ghost use Rattle.flow_ir.specs.View.{tree_view, label_view};
ghost use Rattle.flow_sink.specs.inner.Sinking as inner;

use crate::choices::{left, sinks};
use flow_ir::uses::mentions;
use flow_ir::{Label, Tree};
use nv_base::{Args, NoMemory, Prim};
use std::alloc::Global;
use std::mem;

// How many nodes a label has at most in which definitions sink.
const MOST: u32 = 1024;

// A tree whose place something else takes.
fn taken(alloc: Global, t: &mut Tree) -> Tree
    ensures { result ≡ t.old }
{
    mem::replace(t, Tree::Halt(0, Args::new(alloc)))
}

/// A definition before a tree.
pub fn put(alloc: Global, x: u32, p: Prim, t: &mut Tree) -> Result<(), NoMemory>
    ensures { OnOk result (tree_view t.new ≡ pure.Let x p (tree_view t.old)) }
{
    let rest = Box::new(alloc, taken(alloc, t))?;
    *t = Tree::Let(x, p, rest);
    Ok(())
}

// A definition at the head of the arm that uses it, or of an arm of that, as deep as it sinks.
fn lower(alloc: Global, x: u32, p: Prim, t: &mut Tree) -> Result<(), NoMemory>
    ensures { OnOk result (tree_view t.new ≡ inner.lowered x p (tree_view t.old)) }
{
    match t {
        Tree::Let(_, _, rest) => lower(alloc, x, p, rest),
        Tree::Read(_, _, _, rest) => lower(alloc, x, p, rest),
        Tree::Write(_, _, _, rest) => lower(alloc, x, p, rest),
        Tree::If(_, _, _, first, second) => {
            if mentions(x, first) {
                if sinks(x, first) {
                    lower(alloc, x, p, first)
                } else {
                    put(alloc, x, p, first)
                }
            } else if sinks(x, second) {
                lower(alloc, x, p, second)
            } else {
                put(alloc, x, p, second)
            }
        }
        Tree::Jump(_, _) => put(alloc, x, p, t),
        Tree::Halt(_, _) => put(alloc, x, p, t),
    }
}

/// A tree without the definition at its head.
pub fn unlink(alloc: Global, t: &mut Tree)
    ensures { tree_view t.new ≡ inner.behind (tree_view t.old) }
{
    if let Tree::Let(_, _, rest) = t {
        let below = taken(alloc, rest);
        *t = below;
    }
}

// All definitions of a tree sink.
fn sink_tree(alloc: Global, t: &mut Tree) -> Result<(), NoMemory>
    ensures { OnOk result (tree_view t.new ≡ inner.sunk (tree_view t.old)) }
{
    match t {
        Tree::Let(x, p, rest) => {
            sink_tree(alloc, rest)?;
            if sinks(*x, rest) {
                lower(alloc, *x, *p, rest)?;
                unlink(alloc, t);
            }
            Ok(())
        }
        Tree::Read(_, _, _, rest) => sink_tree(alloc, rest),
        Tree::Write(_, _, _, rest) => sink_tree(alloc, rest),
        Tree::If(_, _, _, first, second) => {
            sink_tree(alloc, first)?;
            sink_tree(alloc, second)
        }
        Tree::Jump(_, _) => Ok(()),
        Tree::Halt(_, _) => Ok(()),
    }
}

// A label, where it isn't too long.
fn sunk(alloc: Global, l: Label) -> Result<Label, NoMemory>
    ensures { IfOk result (λ m. label_view m ≡ inner.label_sunk (label_view l)) }
{
    let params = l.params;
    let mut body = l.body;
    if left(MOST, &body).is_some() {
        sink_tree(alloc, &mut body)?;
    }
    Ok(Label { params, body })
}

/// All labels.
pub fn all_sunk(alloc: Global, labels: Vec<Label>) -> Result<Vec<Label>, NoMemory>
    ensures { IfOk result (λ v. map label_view v.items ≡ map inner.label_sunk (map label_view labels.items)) }
{
    let mut v = Vec::new(alloc);
    for l in labels {
        v.push(sunk(alloc, l)?)?;
    }
    Ok(v)
}
