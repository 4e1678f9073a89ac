//! Whether a leaf closes a claim.

ghost use Rattle.std.specs.Prelude.{◌≡◌, ◌≢◌, [], IsTrue, ◌↔◌};
ghost use Rattle.zo_model.specs.Program.{IsValid, columns};
ghost use Rattle.zo_cert_tree.specs.Certificate.{ClosesLeaf};
ghost use Rattle.zo_cert_tree.specs.inner.Leaf.{IsClear};
ghost use Rattle.zo_cert_tree.specs.inner.Path.{current};

use crate::cert::{CertNode, Claim};
use crate::leaf::{leaf_bound, names_rows, target};
use crate::path::Path;
use zo_model::ZeroOne;

/// Whether the node is a leaf that closes the claim where the walk stands.
///
/// The weights are room for the columns of the program, all 0 before and after.
pub fn closes(
    z: &ZeroOne,
    claim: &Claim,
    path: &Path,
    weights: &mut [i128],
    node: &CertNode,
) -> bool
    requires valid { IsValid z.now }
    requires path { path.now.costs ≡ z.now.costs.items }
    requires more { path.now.fixings ≢ [] }
    requires clear { IsClear (columns z.now) weights.old }
    ensures exact { IsTrue result ↔ ClosesLeaf z.now claim.now (current path.now.fixings) node.now }
    ensures clear { IsClear (columns z.now) weights.new }
{
    match node {
        CertNode::Bound(d, multipliers) => match claim {
            Claim::Least(t) => {
                if !names_rows(z, multipliers) {
                    return false;
                }
                target(*d, *t) < leaf_bound(z, *d, multipliers, path, weights)
            }
            Claim::Nothing => false,
        },
        CertNode::Clash(multipliers) => {
            if !names_rows(z, multipliers) {
                return false;
            }
            0 < leaf_bound(z, 0, multipliers, path, weights)
        }
        CertNode::Branch(_) | CertNode::Left => false,
    }
}
