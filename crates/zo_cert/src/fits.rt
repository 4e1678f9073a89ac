//! The numbers of a valid report keep the limits of its text: those that no test of it asks for are limits of their types.

ghost use Rattle.std.specs.Prelude.{◌<◌, ◌^◌, All, map};
ghost use Rattle.zo_cert_tree.specs.Node.{node_contents, IsNode, IsNodeText};

use zo_cert_tree::CertNode;

/// A number keeps the limit of its type.
fn fits(number: u32)
    ensures { number < 2 ^ 32 }
{}

/// Multipliers keep the limit of their type.
fn multipliers_fit(multipliers: &[(u32, u32)])
    ensures { All (λ m. m.1 < 2 ^ 32) multipliers.now }
{
    for multiplier in multipliers {
        fits(multiplier.1);
    }
}

/// The numbers of a node keep the limits of its text.
fn node_fits(node: &CertNode)
    requires { IsNode node.now }
    ensures { IsNodeText (node_contents node.now) }
{
    match node {
        CertNode::Bound(denominator, multipliers) => {
            fits(*denominator);
            multipliers_fit(multipliers);
        }
        CertNode::Clash(multipliers) => multipliers_fit(multipliers),
        CertNode::Branch(_) | CertNode::Left => {}
    }
}

/// The same of all nodes.
pub fn nodes_fit(nodes: &[CertNode])
    requires { All IsNode nodes.now }
    ensures { All IsNodeText (map node_contents nodes.now) }
{
    for node in nodes {
        node_fits(node);
    }
}
