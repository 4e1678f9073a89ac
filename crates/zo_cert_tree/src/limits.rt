//! The limits of a node in a text, and whether one is left open.

ghost use Rattle.std.specs.Prelude.{IsTrue, ◌↔◌};
ghost use Rattle.zo_cert_tree.specs.Certificate.{HasLeft};
ghost use Rattle.zo_cert_tree.specs.Node.{AreMultipliers, IsNode};

use crate::cert::CertNode;
use crate::leaf::rise;

/// The columns and rows that a report names are below this.
const NAME_LIMIT: u32 = 1 << 26;

/// Whether the rows rise, each with a multiplier of 1 at least.
fn are_multipliers(multipliers: &[(u32, u32)]) -> bool
    ensures { IsTrue result ↔ AreMultipliers multipliers.now }
{
    rise(NAME_LIMIT as usize, multipliers) && multipliers.iter().all(|m| m.1 >= 1)
}

/// Whether the node's numbers keep their limits.
pub fn is_node(node: &CertNode) -> bool
    ensures { IsTrue result ↔ IsNode node.now }
{
    match node {
        CertNode::Branch(j) => *j < NAME_LIMIT,
        CertNode::Bound(d, multipliers) => *d >= 1 && are_multipliers(multipliers),
        CertNode::Clash(multipliers) => are_multipliers(multipliers),
        CertNode::Left => true,
    }
}

/// Whether some node is left open.
pub fn has_left(nodes: &[CertNode]) -> bool
    ensures { IsTrue result ↔ HasLeft nodes.now }
{
    for node in nodes {
        if let CertNode::Left = node {
            return true;
        }
    }
    false
}
