//! Whether a certificate proves a claim.

ghost use Rattle.std.specs.Prelude.{◌≡◌, ◌<◌, ◌^◌, IfOk, IfSome, IsSome, IsTrue, ◌↔◌, length};
ghost use Rattle.zo_model.specs.Program.{IsValid, columns};
ghost use Rattle.zo_cert_tree.specs.Certificate.{ClosesLeaf, Holds, IsShaped, IsTreeWith, OfLeaf, Proves, branches};
ghost use Rattle.zo_cert_tree.specs.inner.Leaf.{IsClear};
ghost use Rattle.zo_cert_tree.specs.inner.Walk.{MayCome, Walks, after};

use crate::cert::{Cert, CertNode, Claim};
use crate::closing::closes;
use crate::path::Path;
use crate::shape::walk_shape;
use std::alloc::Global;
use std::marker::Model;
use zo_model::{NoMemory, ZeroOne};

/// Room for the checks of certificates of one program. Contracts see the costs of its columns.
#[derive(Drop)]
pub struct Work {
    path: Path,
    weights: Vec<i128>,
}

impl Model for Work {
    ghost use Rattle.std.specs.Prelude.{ℕ, List, length};
    ghost use Rattle.zo_cert_tree.specs.inner.Leaf.{IsClear};

    ghost Value = { List ℕ };

    ghost view = { λ w. w.path.costs };

    ghost invariant = { λ w. IsClear (length w.path.costs) w.weights.items };
}

impl Work {
    /// Room for the columns of `z`.
    pub fn new(alloc: Global, z: &ZeroOne) -> Result<Work, NoMemory>
        requires valid { IsValid z.now }
        ensures { IfOk result (λ w. w ≡ z.now.costs.items) }
    {
        let path = Path::new(alloc, z)?;
        let weights = vec![in alloc; 0; z.costs.len()]?;
        Ok(Work { path, weights })
    }
}

/// Takes the next node where it may come: a branch on an unfixed column, or a leaf that closes the claim.
fn take(z: &ZeroOne, claim: &Claim, path: &mut Path, weights: &mut [i128], node: &CertNode) -> bool
    requires valid { IsValid z.now }
    requires path { path.old.costs ≡ z.now.costs.items }
    requires clear { IsClear (columns z.now) weights.old }
    ensures may { IsTrue result ↔ MayCome (OfLeaf (ClosesLeaf z.now claim.now)) path.old.fixings node.now }
    ensures costs { path.new.costs ≡ path.old.costs }
    ensures next { IsTrue result → path.new ≡ record path.old { fixings = after path.old.fixings node.now } }
    ensures clear { IsClear (columns z.now) weights.new }
{
    if !path.is_open() {
        return false;
    }
    match node {
        CertNode::Branch(j) => path.enter(*j),
        CertNode::Bound(..) | CertNode::Clash(..) | CertNode::Left => {
            if !closes(z, claim, path, weights, node) {
                return false;
            }
            path.leave();
            true
        }
    }
}

/// Whether the nodes are those of the subtrees that wait, to the last.
fn walk(
    z: &ZeroOne,
    claim: &Claim,
    path: &mut Path,
    weights: &mut [i128],
    nodes: &[CertNode],
) -> bool
    requires valid { IsValid z.now }
    requires path { path.old.costs ≡ z.now.costs.items }
    requires clear { IsClear (columns z.now) weights.old }
    ensures costs { path.new.costs ≡ path.old.costs }
    ensures clear { IsClear (columns z.now) weights.new }
    ensures walks { IsTrue result ↔ Walks (OfLeaf (ClosesLeaf z.now claim.now)) path.old.fixings nodes.now }
{
    for node in nodes {
        if !take(z, claim, path, weights, node) {
            return false;
        }
    }
    path.is_done()
}

/// Whether the certificate is a tree that proves the claim.
pub fn check(z: &ZeroOne, c: &Cert, claim: &Claim, w: &mut Work) -> bool
    requires valid { IsValid z.now }
    requires work { w.old ≡ z.now.costs.items }
    ensures work { w.new ≡ w.old }
    ensures exact { IsTrue result ↔ IsTreeWith (λ t. Proves z.now t claim.now) c.now }
    ensures holds { IsTrue result → Holds z.now claim.now }
{
    w.path.restart();
    walk(z, claim, &mut w.path, &mut w.weights, &c.nodes)
}

/// The number of `Branch` nodes, where the certificate is a whole tree that branches on unfixed columns and whose leaves
/// name rows that rise and are there.
pub fn shaped(z: &ZeroOne, c: &Cert, w: &mut Work) -> Option<u32>
    requires valid { IsValid z.now }
    requires work { w.old ≡ z.now.costs.items }
    requires few { length c.now.nodes.items < 2 ^ 32 }
    ensures work { w.new ≡ w.old }
    ensures exact { IsSome result ↔ IsTreeWith (IsShaped z.now) c.now }
    ensures count { IfSome result (λ n. n ≡ branches c.now.nodes.items) }
{
    w.path.restart();
    walk_shape(z, &mut w.path, &c.nodes)
}
