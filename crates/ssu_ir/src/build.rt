// Labels built from their last nodes up.

ghost use Rattle.std.specs.Prelude.{◌≡◌, [], IfOk, OnErr};
ghost use Rattle.ssu_ir.specs.Build.{Holds, CanTake, CanFinish, Grown, Finished, nodes_in};

use crate::node::{NodeId, SsuLabel, SsuNode};
use crate::ssu::Ssu;
use nv_base::NoMemory;
use slab::Slab;
use std::alloc::Global;

/// Nodes that are being put together. A root is a node that isn't after any other yet.
#[derive(Drop)]
pub struct SsuBuild {
    nodes: Slab<SsuNode>,
}

impl SsuBuild {
    /// No nodes.
    pub fn new(alloc: Global) -> SsuBuild
        ensures { Holds result [] }
    {
        SsuBuild {
            nodes: Slab::new(alloc),
        }
    }

    /// One more node before different roots, which are then no roots any more.
    pub fn add(&mut self, n: SsuNode) -> Result<NodeId, NoMemory>
        requires { CanTake self.old n }
        ensures grown { IfOk result (λ id. Grown self.old self.new n id.0) }
        ensures unchanged { OnErr result (nodes_in self.new ≡ nodes_in self.old) }
    {
        match self.nodes.insert(n) {
            Ok(key) => Ok(NodeId(key)),
            Err(_failed) => Err(NoMemory),
        }
    }

    /// The whole of these labels, whose bodies are the roots.
    pub fn finish(self, labels: Vec<SsuLabel>) -> Ssu
        requires { CanFinish self labels.items }
        ensures labels { result.labels ≡ labels }
        ensures trees { Finished self labels.items result }
    {
        Ssu {
            labels,
            nodes: self.nodes,
        }
    }
}
