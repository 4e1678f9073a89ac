// Trees whose definitions stand in order, in place. The recursion is along all nodes of a tree, of which there are few.

ghost use Rattle.std.specs.Prelude.{◌≡◌, suc, OnOk, IfOk, map};
ghost use Rattle.flow_ir.specs.View.{tree_view, label_view};
ghost use Rattle.flow_sink.specs.inner.Ordering as inner;

use crate::choices::left;
use crate::ranks::{add_handed, add_tested, waits};
use crate::sinking::{put, unlink};
use flow_ir::{Label, Tree};
use nv_base::{NoMemory, Prim};
use std::alloc::Global;

// How many nodes a label has at most whose definitions are put in order.
const MOST: u32 = 1024;

// A definition before a tree, behind those that stand less late and don't use it.
fn late(
    alloc: Global,
    tested: &[u32],
    handed: &[u32],
    x: u32,
    p: Prim,
    t: &mut Tree,
) -> Result<(), NoMemory>
    ensures { OnOk result (tree_view t.new ≡ inner.late tested.now handed.now x p (tree_view t.old)) }
{
    if waits(tested, handed, x, t) {
        if let Tree::Let(_, _, rest) = t {
            return late(alloc, tested, handed, x, p, rest);
        }
    }
    put(alloc, x, p, t)
}

// All definitions of a tree.
fn order_tree(alloc: Global, tested: &[u32], handed: &[u32], t: &mut Tree) -> Result<(), NoMemory>
    ensures { OnOk result (tree_view t.new ≡ inner.ordered tested.now handed.now (tree_view t.old)) }
{
    match t {
        Tree::Let(x, p, rest) => {
            order_tree(alloc, tested, handed, rest)?;
            if waits(tested, handed, *x, rest) {
                late(alloc, tested, handed, *x, *p, rest)?;
                unlink(alloc, t);
            }
            Ok(())
        }
        Tree::Read(_, _, _, rest) => order_tree(alloc, tested, handed, rest),
        Tree::Write(_, _, _, rest) => order_tree(alloc, tested, handed, rest),
        Tree::If(_, _, _, first, second) => {
            order_tree(alloc, tested, handed, first)?;
            order_tree(alloc, tested, handed, second)
        }
        Tree::Jump(_, _) => Ok(()),
        Tree::Halt(_, _) => Ok(()),
    }
}

// A tree by its own tests and its jumps to its label.
fn order_body(alloc: Global, own: u32, t: &mut Tree) -> Result<(), NoMemory>
    ensures { OnOk result (tree_view t.new ≡ inner.in_order own (tree_view t.old)) }
{
    let mut tested = Vec::new(alloc);
    let mut handed = Vec::new(alloc);
    add_tested(t, &mut tested)?;
    add_handed(own, t, &mut handed)?;
    order_tree(alloc, &tested, &handed, t)
}

// A label, where it isn't too long.
fn label_ordered(alloc: Global, own: u32, l: Label) -> Result<Label, NoMemory>
    ensures { IfOk result (λ m. label_view m ≡ inner.label_ordered own (label_view l)) }
{
    let params = l.params;
    let mut body = l.body;
    if left(MOST, &body).is_some() {
        order_body(alloc, own, &mut body)?;
    }
    Ok(Label { params, body })
}

// The next number.
fn next(n: u32) -> Result<u32, NoMemory>
    ensures { IfOk result (λ m. m ≡ suc n) }
{
    match n.checked_add(1) {
        Some(m) => Ok(m),
        None => Err(NoMemory),
    }
}

/// All labels.
pub fn all_ordered(alloc: Global, labels: Vec<Label>) -> Result<Vec<Label>, NoMemory>
    ensures { IfOk result (λ v. map label_view v.items ≡ inner.labels_ordered 0 (map label_view labels.items)) }
{
    let mut v = Vec::new(alloc);
    let mut own: u32 = 0;
    for l in labels {
        v.push(label_ordered(alloc, own, l)?)?;
        own = next(own)?;
    }
    Ok(v)
}
