//! One node of the search.

ghost use Rattle.std.specs.Prelude.{◌≡◌, ◌≢◌, [], Some, None, IfOk, length, slice_get};
ghost use Rattle.zo_model.specs.Program.{IsValid, columns};
ghost use Rattle.zo_cert_tree.specs.Certificate.{IsLeaf};
ghost use Rattle.zo_cert_tree.specs.inner.Leaf.{IsClear};
ghost use Rattle.zo_cert_tree.specs.inner.Path.{current};
ghost use Rattle.zo_cert_tree.specs.Searched.{IsOpen};
ghost use Rattle.zo_cert_tree.specs.declared.cert.CertNode.TheVariants as certs;
ghost use Rattle.zo_solve_dive.specs.Pick.{Answers, CanPick};
ghost use Rattle.zo_solve_dive.specs.inner.Better.{IsBest, IsWeaker};
ghost use Rattle.zo_solve_branch.specs.inner.Node.{IsClashOf, IsGood, IsPlainBound, Puts, Steps};

use crate::leaf::leaf_of;
use crate::order::Order;
use std::alloc::{AllocError, Global};
use zo_cert_tree::path::Path;
use zo_cert_tree::{CertNode, Fixed};
use zo_model::ZeroOne;
use zo_solve_dive::{Best, Pick, Sums, costs_as_much};

/// Puts a leaf after the other nodes, and leaves its place.
fn put(node: CertNode, path: &mut Path, nodes: &mut Vec<CertNode>) -> Result<(), AllocError>
    requires more { path.old.fixings ≢ [] }
    requires leaf { IsLeaf node }
    ensures { IfOk result (λ _. Puts node path.old path.new nodes.old.items nodes.new.items) }
{
    nodes.push(node)?;
    path.leave();
    Ok(())
}

/// Puts a branch after the other nodes, and goes into its arms.
fn put_branch(column: u32, path: &mut Path, nodes: &mut Vec<CertNode>) -> Result<(), AllocError>
    requires more { path.old.fixings ≢ [] }
    requires free { slice_get (current path.old.fixings) column ≡ Some None }
    ensures { IfOk result (λ _. Puts (certs.Branch column) path.old path.new nodes.old.items nodes.new.items) }
{
    nodes.push(CertNode::Branch(column))?;
    path.enter(column);
    Ok(())
}

/// A leaf that no row closes: it costs as much as the best vector.
pub fn met_leaf(alloc: Global) -> CertNode
    ensures { IsPlainBound result }
{
    CertNode::Bound(1, Vec::new(alloc))
}

/// A leaf that one row closes, which is out of reach.
fn clash_leaf(alloc: Global, row: u32) -> Result<CertNode, AllocError>
    ensures { IfOk result (λ n. IsClashOf row n) }
{
    let mut rows = Vec::new(alloc);
    rows.push((row, 1))?;
    Ok(CertNode::Clash(rows))
}

/// One node more, where the node is neither met nor out of reach. How many branches may still come.
fn step_open<F: Fn(&ZeroOne, &Fixed) -> u32>(
    alloc: Global,
    z: &ZeroOne,
    pick: &Pick<F>,
    left: u32,
    best: &Best,
    order: &Order,
    weights: &mut [i128],
    path: &mut Path,
    nodes: &mut Vec<CertNode>,
) -> Result<u32, AllocError>
    requires valid { IsValid z.now }
    requires can_pick { CanPick (F.pre pick.now.choose) (F.post pick.now.choose) }
    requires path { path.old.costs ≡ z.now.costs.items }
    requires more { path.old.fixings ≢ [] }
    requires clear { IsClear (columns z.now) weights.old }
    requires best { IsBest z.now best.now }
    requires open_ { IsOpen z.now (current path.old.fixings) }
    ensures clear { IsClear (columns z.now) weights.new }
    ensures costs { IfOk result (λ _. path.new.costs ≡ path.old.costs) }
    ensures steps { IfOk result (λ rest. Steps (IsGood z.now best.now.start (Answers (F.post pick.now.choose) z.now) best.now.claim) path.old.fixings path.new.fixings nodes.old.items nodes.new.items left rest) }
{
    if costs_as_much(&best.claim, path.spent()) {
        put(met_leaf(alloc), path, nodes)?;
        return Ok(left);
    }
    if let Some(node) = leaf_of(alloc, z, &best.claim, path, weights, order)? {
        put(node, path, nodes)?;
        return Ok(left);
    }
    if left == 0 {
        put(CertNode::Left, path, nodes)?;
        return Ok(0);
    }
    let column = pick.column(z, path.fixed());
    put_branch(column, path, nodes)?;
    Ok(left - 1)
}

/// One node more, with the best vector as it is. How many branches may still come.
fn step_on<F: Fn(&ZeroOne, &Fixed) -> u32>(
    alloc: Global,
    z: &ZeroOne,
    pick: &Pick<F>,
    left: u32,
    best: &mut Best,
    sums: &mut Sums,
    order: &Order,
    weights: &mut [i128],
    path: &mut Path,
    nodes: &mut Vec<CertNode>,
) -> Result<u32, AllocError>
    requires valid { IsValid z.now }
    requires can_pick { CanPick (F.pre pick.now.choose) (F.post pick.now.choose) }
    requires path { path.old.costs ≡ z.now.costs.items }
    requires more { path.old.fixings ≢ [] }
    requires clear { IsClear (columns z.now) weights.old }
    requires best { IsBest z.now best.old }
    requires program { sums.old.program ≡ z.now }
    requires places { length sums.old.fixed ≡ columns z.now }
    ensures clear { IsClear (columns z.now) weights.new }
    ensures costs { IfOk result (λ _. path.new.costs ≡ path.old.costs) }
    ensures program { sums.new.program ≡ z.now }
    ensures places { length sums.new.fixed ≡ columns z.now }
    ensures best { IfOk result (λ _. IsBest z.now best.new) }
    ensures start { IfOk result (λ _. best.new.start ≡ best.old.start) }
    ensures weaker { IfOk result (λ _. IsWeaker best.old.claim best.new.claim) }
    ensures steps { IfOk result (λ rest. Steps (IsGood z.now best.new.start (Answers (F.post pick.now.choose) z.now) best.new.claim) path.old.fixings path.new.fixings nodes.old.items nodes.new.items left rest) }
{
    sums.follow(&path.fixed().at);
    if sums.is_met() {
        best.improve(alloc, z, &path.fixed().at, path.spent())?;
        put(met_leaf(alloc), path, nodes)?;
        return Ok(left);
    }
    if let Some(row) = sums.out_of_reach() {
        put(clash_leaf(alloc, row)?, path, nodes)?;
        return Ok(left);
    }
    step_open(alloc, z, pick, left, best, order, weights, path, nodes)
}

/// One node more. How many branches may still come.
pub fn step<F: Fn(&ZeroOne, &Fixed) -> u32>(
    alloc: Global,
    z: &ZeroOne,
    pick: &Pick<F>,
    left: u32,
    best: &mut Best,
    sums: &mut Sums,
    order: &Order,
    weights: &mut [i128],
    path: &mut Path,
    nodes: &mut Vec<CertNode>,
) -> Result<u32, AllocError>
    requires valid { IsValid z.now }
    requires can_pick { CanPick (F.pre pick.now.choose) (F.post pick.now.choose) }
    requires path { path.old.costs ≡ z.now.costs.items }
    requires more { path.old.fixings ≢ [] }
    requires clear { IsClear (columns z.now) weights.old }
    requires best { IsBest z.now best.old }
    requires program { sums.old.program ≡ z.now }
    requires places { length sums.old.fixed ≡ columns z.now }
    ensures clear { IsClear (columns z.now) weights.new }
    ensures costs { IfOk result (λ _. path.new.costs ≡ path.old.costs) }
    ensures program { sums.new.program ≡ z.now }
    ensures places { length sums.new.fixed ≡ columns z.now }
    ensures best { IfOk result (λ _. IsBest z.now best.new) }
    ensures start { IfOk result (λ _. best.new.start ≡ best.old.start) }
    ensures weaker { IfOk result (λ _. IsWeaker best.old.claim best.new.claim) }
    ensures steps { IfOk result (λ rest. Steps (IsGood z.now best.new.start (Answers (F.post pick.now.choose) z.now) best.new.claim) path.old.fixings path.new.fixings nodes.old.items nodes.new.items left rest) }
{
    order.improve(alloc, z, best)?;
    step_on(
        alloc, z, pick, left, best, sums, order, weights, path, nodes,
    )
}
