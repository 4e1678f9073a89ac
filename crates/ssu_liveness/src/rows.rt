//! The live values at each point.

ghost use Rattle.std.specs.Prelude.{◌≡◌, ℕ, nat_eq, true, ◌<◌, ◌++◌, ◌∷◌, [], List, map, length, IfOk, OnOk};
ghost use Rattle.std.specs.HashMap.{get};
ghost use Rattle.std.specs.List.{AllZip};
ghost use Rattle.nv_base.specs.Sets.{is_in, without};
ghost use Rattle.ssu_ir.specs.Measures as measures;
ghost use Rattle.ssu_ir.specs.Points.{points};
ghost use Rattle.ssu_ir.specs.Single.{single};
ghost use Rattle.ssu_ir.specs.Slots.{node_of, bare, preorder};
ghost use Rattle.ssu_ir.specs.Tree.{node_uses};
ghost use Rattle.ssu_ir.specs.View.{labels_view};
ghost use Rattle.ssu_ir.specs.Work.{nums, tops};
ghost use Rattle.ssu_ir.proofs.Trees.{arity};
ghost use Rattle.ssu_liveness.specs.LiveRows.{IsRow, items_of};
ghost use Rattle.ssu_liveness.specs.inner.Live.{add_all, value_by, behind, row_over, tree_rows, on_stack, label_tree, labels_rows, longest, Takes};

use crate::copies::{Copies, copies_of, value_of};
use crate::row::{add, add_each, remove_each};
use nv_base::NoMemory;
use ssu_ir::{NodeId, Ssu, SsuNode, walk};
use std::alloc::Global;

/// The values of these names too.
fn add_values(row: &mut Vec<u32>, xs: &[u32], copies: &Copies) -> Result<(), NoMemory>
    ensures { OnOk result (row.new.items ≡ add_all (map (value_by (get nat_eq copies.now)) xs.now) row.old.items) }
{
    for x in xs {
        add(row, value_of(copies, *x))?;
    }
    Ok(())
}

/// The values that a node uses too.
fn add_uses(row: &mut Vec<u32>, n: &SsuNode, copies: &Copies) -> Result<(), NoMemory>
    ensures { OnOk result (row.new.items ≡ add_all (map (value_by (get nat_eq copies.now)) (node_uses (node_of n.now))) row.old.items) }
{
    match n {
        SsuNode::Lit(_, _, _) => Ok(()),
        SsuNode::Una(_, _, y, _) => add_values(row, &[*y], copies),
        SsuNode::Bin(_, _, y, z, _) => add_values(row, &[*y, *z], copies),
        SsuNode::Clone(_, _, _) => Ok(()),
        SsuNode::Read(_, _, y, _) => add_values(row, &[*y], copies),
        SsuNode::Write(_, y, xs, _) => {
            add_values(row, &[*y], copies)?;
            add_values(row, xs, copies)
        }
        SsuNode::If(_, x, y, _, _) => add_values(row, &[*x, *y], copies),
        SsuNode::Jump(_, xs) => add_values(row, xs, copies),
        SsuNode::Halt(_, xs) => add_values(row, xs, copies),
    }
}

/// The same row.
fn copied(alloc: Global, row: &[u32]) -> Result<Vec<u32>, NoMemory>
    ensures { IfOk result (λ v. v.items ≡ row.now) }
{
    Ok(row.to_vec(alloc)?)
}

/// The top of a stack of rows.
fn take_row(alloc: Global, rows: &mut Vec<Vec<u32>>) -> Vec<u32>
    ensures { Takes rows.old.items rows.new.items (λ rs. rs ≡ result.items ∷ []) 1 }
{
    match rows.pop() {
        Some(row) => row,
        None => Vec::new(alloc),
    }
}

/// What is held after a node that it doesn't define, by the rows of the nodes that follow directly.
fn after_node(alloc: Global, n: &SsuNode, rows: &mut Vec<Vec<u32>>) -> Result<Vec<u32>, NoMemory>
    ensures { IfOk result (λ row. Takes rows.old.items rows.new.items (λ rs. row.items ≡ behind (node_of n.now) rs) (arity (node_of n.now))) }
{
    match n {
        SsuNode::Lit(x, _, _) | SsuNode::Una(x, _, _, _) | SsuNode::Bin(x, _, _, _, _) => {
            remove_each(alloc, &take_row(alloc, rows), &[*x])
        }
        SsuNode::Read(_, xs, _, _) => remove_each(alloc, &take_row(alloc, rows), xs),
        SsuNode::Clone(_, _, _) => Ok(take_row(alloc, rows)),
        SsuNode::Write(_, _, _, _) => Ok(take_row(alloc, rows)),
        SsuNode::If(_, _, _, _, _) => {
            let mut first = take_row(alloc, rows);
            add_each(&mut first, &take_row(alloc, rows))?;
            Ok(first)
        }
        SsuNode::Jump(_, _) | SsuNode::Halt(_, _) => Ok(Vec::new(alloc)),
    }
}

/// The row of a node, by those of the nodes that follow directly, which are taken from the stack.
fn row_of(
    alloc: Global,
    n: &SsuNode,
    copies: &Copies,
    rows: &mut Vec<Vec<u32>>,
) -> Result<Vec<u32>, NoMemory>
    ensures { IfOk result (λ row. Takes rows.old.items rows.new.items (λ rs. row.items ≡ row_over (value_by (get nat_eq copies.now)) (node_of n.now) rs) (arity (node_of n.now))) }
{
    let mut row = after_node(alloc, n, rows)?;
    add_uses(&mut row, n, copies)?;
    Ok(row)
}

/// The numbers of a label's nodes in preorder.
pub fn label_order(alloc: Global, s: &Ssu, k: usize) -> Result<Vec<NodeId>, NoMemory>
    requires { k < length s.now.labels.items }
    ensures { IfOk result (λ v. nums v.items ≡ preorder (label_tree s.now k)) }
{
    let mut order = Vec::new(alloc);
    let mut work = Vec::new(alloc);
    work.push(s.labels[k].body)?;
    'walk: while let Some(id) = work.pop() {
        order.push(id)?;
        walk::push_successors(&mut work, s.node(id))?;
    }
    Ok(order)
}

/// The rows of a label's nodes in preorder, as a stack whose top is the first.
fn label_rows(alloc: Global, s: &Ssu, copies: &Copies, k: usize) -> Result<Vec<Vec<u32>>, NoMemory>
    requires { k < length s.now.labels.items }
    ensures { IfOk result (λ v. on_stack v.items ≡ tree_rows (value_by (get nat_eq copies.now)) (bare (label_tree s.now k))) }
{
    let mut order = label_order(alloc, s, k)?;
    let mut roots = Vec::new(alloc);
    let mut rows = Vec::new(alloc);
    'walk: while let Some(id) = order.pop() {
        let row = row_of(alloc, s.node(id), copies, &mut roots)?;
        rows.push(copied(alloc, &row)?)?;
        roots.push(row)?;
    }
    Ok(rows)
}

/// Puts the rows of a stack behind others, its top first.
fn unstack(rows: &mut Vec<Vec<u32>>, stack: Vec<Vec<u32>>) -> Result<(), NoMemory>
    ensures { OnOk result (items_of rows.new.items ≡ items_of rows.old.items ++ on_stack stack.items) }
{
    let mut left = stack;
    'walk: while let Some(row) = left.pop() {
        rows.push(row)?;
    }
    Ok(())
}

/// The rows of all points, where these are the clones.
pub fn all_rows(alloc: Global, s: &Ssu, copies: &Copies) -> Result<Vec<Vec<u32>>, NoMemory>
    ensures { IfOk result (λ v. items_of v.items ≡ labels_rows (value_by (get nat_eq copies.now)) (labels_view s.now)) }
{
    let mut rows = Vec::new(alloc);
    for k in 0..s.labels.len() {
        rows.push(copied(alloc, &s.labels[k].params)?)?;
        let stack = label_rows(alloc, s, copies, k)?;
        unstack(&mut rows, stack)?;
    }
    Ok(rows)
}

/// One row a point: the live values there, without an order.
pub fn held(alloc: Global, s: &Ssu) -> Result<Vec<Vec<u32>>, NoMemory>
    requires { single (labels_view s.now) ≡ true }
    ensures { IfOk result (λ v. AllZip IsRow (items_of v.items) (points (labels_view s.now))) }
{
    let copies = copies_of(alloc, s)?;
    all_rows(alloc, s, &copies)
}

/// The greatest number of live values at a point.
pub fn peak(alloc: Global, s: &Ssu) -> Result<u32, NoMemory>
    requires { single (labels_view s.now) ≡ true }
    ensures { IfOk result (λ n. n ≡ measures.peak (labels_view s.now)) }
{
    let rows = held(alloc, s)?;
    match u32::try_from(longest_row(&rows)) {
        Ok(n) => Ok(n),
        Err(_) => Err(NoMemory),
    }
}

/// The length of the longest row.
pub fn longest_row(rows: &[Vec<u32>]) -> usize
    ensures { result ≡ longest (items_of rows.now) }
{
    let mut most = 0;
    for row in rows {
        most = row.len().max(most);
    }
    most
}
