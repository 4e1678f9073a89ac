//! The parts of the placement that has every value in a slot, point by point.

ghost use Rattle.std.specs.Prelude.{◌≡◌, ℕ, nat_eq, map, All, Some, unwrap_or, IfOk, OnOk};
ghost use Rattle.std.specs.HashMap.{get};
ghost use Rattle.ssu_ir.specs.Points.{Entry, At};
ghost use Rattle.ssu_ir.specs.Slots.{node_of};
ghost use Rattle.ssu_ir.specs.View.{labels_view};
ghost use Rattle.place_plan.specs.inner.Parts.{IsShort, Adds, AreGathered};
ghost use Rattle.ssu_liveness.specs.inner.PointIds.{kind_of_point};

use crate::parts_homes::{node_homes, slot_homes};
use crate::parts_passes::{entry_pass, node_first, node_pass};
use crate::parts_serves::node_serves;
use crate::place::{First, Home, Pass, Serve};
use crate::used::Used;
use nv_base::NoMemory;
use ssu_ir::{Ssu, SsuNode};
use ssu_liveness::{Copies, PointId, Slots};
use std::alloc::Global;

/// What the placement is made from: the numbers of the slots, the values of clones, and which values are used.
#[derive(Drop)]
pub struct SpillInputs {
    pub slots: Slots,
    pub copies: Copies,
    pub used: Used,
}

/// The placement's parts, homes in the order of the points.
#[derive(Drop)]
pub struct Parts {
    pub homes: Vec<Home>,
    pub firsts: Vec<First>,
    pub serves: Vec<Serve>,
    pub passes: Vec<Pass>,
}

/// The parts of an entry.
fn spill_entry(
    alloc: Global,
    parts: &mut Parts,
    given: &SpillInputs,
    point: u32,
    params: &[u32],
) -> Result<(), NoMemory>
    ensures { OnOk result ((s : Ssu) (l : ℕ) → Adds (labels_view s) given.now point (Entry l params.now) parts.old parts.new) }
{
    slot_homes(alloc, &mut parts.homes, given, params)?;
    parts.passes.push(entry_pass(given, point, params))?;
    Ok(())
}

/// The parts of a node.
fn spill_node(
    alloc: Global,
    parts: &mut Parts,
    s: &Ssu,
    given: &SpillInputs,
    point: u32,
    n: &SsuNode,
) -> Result<(), NoMemory>
    requires { IsShort (At (node_of n.now)) }
    ensures { OnOk result (Adds (labels_view s.now) given.now point (At (node_of n.now)) parts.old parts.new) }
{
    node_homes(alloc, &mut parts.homes, given, n)?;
    node_first(&mut parts.firsts, point, n)?;
    node_serves(&mut parts.serves, s, given, point, n)?;
    parts.passes.push(node_pass(given, point, n))?;
    Ok(())
}

/// The parts of a point.
fn spill_point(
    alloc: Global,
    parts: &mut Parts,
    s: &Ssu,
    given: &SpillInputs,
    point: u32,
    point_id: PointId,
) -> Result<(), NoMemory>
    requires { IsShort (kind_of_point s.now point_id) }
    ensures { OnOk result (Adds (labels_view s.now) given.now point (kind_of_point s.now point_id) parts.old parts.new) }
{
    match point_id {
        PointId::Entry(l) => match s.labels.get(l) {
            Some(label) => spill_entry(alloc, parts, given, point, &label.params),
            None => spill_entry(alloc, parts, given, point, &[]),
        },
        PointId::Node(id) => match s.nodes.get(id.0) {
            Some(n) => spill_node(alloc, parts, s, given, point, n),
            None => spill_entry(alloc, parts, given, point, &[]),
        },
    }
}

/// The number of a point or of a place, as it is kept.
pub fn point_number(k: usize) -> Result<u32, NoMemory>
    ensures { IfOk result (λ n. n ≡ k) }
{
    match u32::try_from(k) {
        Ok(n) => Ok(n),
        Err(_) => Err(NoMemory),
    }
}

/// The parts of all points.
pub fn spill_points(
    alloc: Global,
    s: &Ssu,
    given: &SpillInputs,
    point_ids: &[PointId],
) -> Result<Parts, NoMemory>
    requires { All IsShort (map (kind_of_point s.now) point_ids.now) }
    ensures { IfOk result (λ parts. AreGathered (labels_view s.now) given.now (map (kind_of_point s.now) point_ids.now) parts) }
{
    let mut parts = Parts {
        homes: Vec::new(alloc),
        firsts: Vec::new(alloc),
        serves: Vec::new(alloc),
        passes: Vec::new(alloc),
    };
    for k in 0..point_ids.len() {
        let point = point_number(k)?;
        spill_point(alloc, &mut parts, s, given, point, point_ids[k])?;
    }
    Ok(parts)
}
