//! Points one by one.

ghost use Rattle.std.specs.Prelude.{◌≡◌, ℕ, ◌++◌, map, All, IfOk, OnOk};
ghost use Rattle.ssu_ir.specs.Points.{points, place_values};
ghost use Rattle.ssu_ir.specs.Slots.{node_of};
ghost use Rattle.ssu_ir.specs.Tree.{node_values};
ghost use Rattle.ssu_ir.specs.View.{labels_view};
ghost use Rattle.ssu_ir.specs.Work.{nums};
ghost use Rattle.ssu_liveness.specs.inner.PointIds.{IsPointId, kind_of_point, node_places};

use crate::rows::label_order;
use nv_base::NoMemory;
use ssu_ir::{NodeId, Ssu, SsuNode};
use std::alloc::Global;

/// A point: the entry of a label, or a node.
#[derive(Clone, Copy)]
pub enum PointId {
    Entry(usize),
    Node(NodeId),
}

/// Nodes behind other points.
fn push_nodes(point_ids: &mut Vec<PointId>, s: &Ssu, order: &[NodeId]) -> Result<(), NoMemory>
    ensures { OnOk result (map (kind_of_point s.now) point_ids.new.items ≡ map (kind_of_point s.now) point_ids.old.items ++ node_places s.now.nodes.slots (nums order.now)) }
{
    for id in order {
        point_ids.push(PointId::Node(*id))?;
    }
    Ok(())
}

/// All points in order.
pub fn point_ids_of(alloc: Global, s: &Ssu) -> Result<Vec<PointId>, NoMemory>
    ensures { IfOk result (λ v. map (kind_of_point s.now) v.items ≡ map (λ p. p.place) (points (labels_view s.now))) }
{
    let mut point_ids = Vec::new(alloc);
    for k in 0..s.labels.len() {
        point_ids.push(PointId::Entry(k))?;
        let order = label_order(alloc, s, k)?;
        push_nodes(&mut point_ids, s, &order)?;
    }
    Ok(point_ids)
}
