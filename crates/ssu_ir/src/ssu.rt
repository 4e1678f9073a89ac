// Labels over a slab of nodes.

ghost use Rattle.std.specs.Prelude.{◌≡◌, Some, IsSome};
ghost use Rattle.ssu_ir.specs.Slots.{Formed, bodies, slot};

use crate::node::{NodeId, SsuLabel, SsuNode};
use slab::Slab;

/// Labels over their nodes. A run starts at label 0, with the arguments as its parameters. Each
/// number names a node that is there, and each node is reached from the labels' bodies in exactly
/// one way.
#[derive(Drop)]
pub struct Ssu {
    pub labels: Vec<SsuLabel>,
    pub nodes: Slab<SsuNode>,
    pub ghost formed: { Formed nodes.slots (bodies labels.items) },
}

impl Ssu {
    /// The node of a number.
    pub fn node(&self, id: NodeId) -> &SsuNode
        requires { IsSome (slot self.now.nodes.slots id.0) }
        ensures { slot self.now.nodes.slots id.0 ≡ Some result.now }
    {
        &self.nodes[id.0]
    }
}
