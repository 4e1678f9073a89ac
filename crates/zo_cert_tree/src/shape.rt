//! The walk through a tree of branches that asks only for its shape.

ghost use Rattle.std.specs.Prelude.{◌≡◌, ◌<◌, ◌^◌, [], ◌∷◌, IfSome, IsSome, IsTrue, ◌↔◌, length};
ghost use Rattle.zo_cert_tree.specs.Certificate.{IsWellNamed, branches};
ghost use Rattle.zo_cert_tree.specs.inner.Walk.{MayCome, Walks, after};

use crate::cert::CertNode;
use crate::leaf::is_well_named;
use crate::path::Path;
use zo_model::ZeroOne;

/// Takes the next node where it may come: a branch on an unfixed column, or a leaf whose rows rise and are there.
fn take_shape(z: &ZeroOne, path: &mut Path, node: &CertNode) -> bool
    ensures may { IsTrue result ↔ MayCome (IsWellNamed z.now) path.old.fixings node.now }
    ensures costs { path.new.costs ≡ path.old.costs }
    ensures next { IsTrue result → path.new ≡ record path.old { fixings = after path.old.fixings node.now } }
{
    if !path.is_open() {
        return false;
    }
    match node {
        CertNode::Branch(j) => path.enter(*j),
        CertNode::Bound(..) | CertNode::Clash(..) | CertNode::Left => {
            if !is_well_named(z, node) {
                return false;
            }
            path.leave();
            true
        }
    }
}

/// 1 for a branch, else 0.
fn branches_of(node: &CertNode) -> u32
    ensures { result ≡ branches (node.now ∷ []) }
{
    match node {
        CertNode::Branch(_) => 1,
        CertNode::Bound(..) | CertNode::Clash(..) | CertNode::Left => 0,
    }
}

/// How many nodes branch, where the nodes are those of the subtrees that wait, to the last.
pub fn walk_shape(z: &ZeroOne, path: &mut Path, nodes: &[CertNode]) -> Option<u32>
    requires few { length nodes.now < 2 ^ 32 }
    ensures costs { path.new.costs ≡ path.old.costs }
    ensures walks { IsSome result ↔ Walks (IsWellNamed z.now) path.old.fixings nodes.now }
    ensures count { IfSome result (λ n. n ≡ branches nodes.now) }
{
    let mut count: u32 = 0;
    for node in nodes {
        if !take_shape(z, path, node) {
            return None;
        }
        count += branches_of(node);
    }
    if path.is_done() { Some(count) } else { None }
}
