//! A lower bound on the cost of every vector, with its proof.

ghost use Rattle.std.specs.Prelude.{◌≡◌, ◌≢◌, [], IfOk, IfSome};
ghost use Rattle.zo_model.specs.Program.{IsValid, columns};
ghost use Rattle.zo_cert_tree.specs.Certificate.{ClosesLeaf, IsTreeWith, Proves, unfixed};
ghost use Rattle.zo_cert_tree.specs.declared.cert.Claim.TheVariants.{Least};
ghost use Rattle.zo_cert_tree.specs.inner.Leaf.{IsClear};
ghost use Rattle.zo_cert_tree.specs.inner.Path.{begun, current};

use std::alloc::Global;
use zo_cert_tree::leaf::{leaf_bound, names_rows};
use zo_cert_tree::path::Path;
use zo_cert_tree::{Cert, CertNode, Claim, closes};
use zo_model::{NoMemory, ZeroOne};
use zo_solve_branch::Order;
use zo_solve_branch::node::met_leaf;

/// A cost that no vector is below, and the proof of that: a leaf at the root.
#[derive(Drop)]
pub struct Bounded {
    pub least: u64,
    pub cert: Cert,
}

/// The quotient, rounded up; 0 where it is negative.
fn ceiling(a: i128, d: u32) -> u64 {
    let d = i128::from(d);
    let quotient = a.max(0).wrapping_add(d).wrapping_sub(1).checked_div(d);
    u64::try_from(quotient.unwrap_or(0)).unwrap_or(0)
}

/// The greatest cost that a bound proves.
fn proved_cost(z: &ZeroOne, path: &Path, weights: &mut [i128], node: &CertNode) -> u64
    requires valid { IsValid z.now }
    requires path { path.now.costs ≡ z.now.costs.items }
    requires more { path.now.fixings ≢ [] }
    requires clear { IsClear (columns z.now) weights.old }
    ensures { IsClear (columns z.now) weights.new }
{
    if let CertNode::Bound(d, multipliers) = node {
        if names_rows(z, multipliers) {
            return ceiling(leaf_bound(z, *d, multipliers, path, weights), *d);
        }
    }
    0
}

/// The node with the cost that it proves, where it proves one.
fn closed_for(
    z: &ZeroOne,
    path: &Path,
    weights: &mut [i128],
    node: CertNode,
) -> Option<(u64, CertNode)>
    requires valid { IsValid z.now }
    requires path { path.now.costs ≡ z.now.costs.items }
    requires more { path.now.fixings ≢ [] }
    requires clear { IsClear (columns z.now) weights.old }
    ensures { IfSome result (λ p. ClosesLeaf z.now (Least p.0) (current path.now.fixings) p.1) }
{
    let least = proved_cost(z, path, weights, &node);
    if closes(z, &Claim::Least(least), path, weights, &node) {
        return Some((least, node));
    }
    None
}

/// The leaf with the cost that it proves at the root; one without rows, which proves 0, where it proves none.
fn root_bound(
    alloc: Global,
    z: &ZeroOne,
    path: &Path,
    weights: &mut [i128],
    leaf: Option<CertNode>,
) -> (u64, CertNode)
    requires valid { IsValid z.now }
    requires path { path.now ≡ begun z.now.costs.items }
    requires clear { IsClear (columns z.now) weights.old }
    ensures { ClosesLeaf z.now (Least result.0) (unfixed z.now) result.1 }
{
    if let Some(node) = leaf {
        if let Some(proved) = closed_for(z, path, weights, node) {
            return proved;
        }
    }
    (0, met_leaf(alloc))
}

/// A cost that no vector is below, by the multipliers of an order's rounds, with its proof.
///
/// Nothing says how near it is to the least cost.
pub fn lower_bound(alloc: Global, z: &ZeroOne, order: &Order) -> Result<Bounded, NoMemory>
    requires valid { IsValid z.now }
    ensures { IfOk result (λ b. IsTreeWith (λ t. Proves z.now t (Least b.least)) b.cert) }
{
    let mut weights = vec![in alloc; 0i128; z.costs.len()]?;
    let path = Path::new(alloc, z)?;
    let leaf = order.root_leaf(alloc)?;
    let (least, node) = root_bound(alloc, z, &path, &mut weights, leaf);
    let mut nodes = Vec::new(alloc);
    nodes.push(node)?;
    Ok(Bounded {
        least,
        cert: Cert { nodes },
    })
}
