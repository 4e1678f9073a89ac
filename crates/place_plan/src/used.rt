//! Which values are used.

ghost use Rattle.std.specs.Prelude.{◌≡◌, ◌||◌, ℕ, nat_eq, map, IfOk, OnOk};
ghost use Rattle.std.specs.HashMap.{get};
ghost use Rattle.std.specs.HashSet as set;
ghost use Rattle.nv_base.specs.Sets.{is_in};
ghost use Rattle.ssu_ir.specs.Slots.{node_of};
ghost use Rattle.ssu_ir.specs.Tree.{node_uses};
ghost use Rattle.ssu_liveness.specs.inner.Live.{value_by};
ghost use Rattle.place_plan.specs.inner.Parts.{gather, place_names, used_at};
ghost use Rattle.ssu_liveness.specs.inner.PointIds.{kind_of_point};

use nv_base::NoMemory;
use ssu_ir::{Ssu, SsuNode};
use ssu_liveness::{Copies, PointId, value_of};
use std::alloc::Global;
use std::collections::HashSet;

/// The values that are used.
pub type Used = HashSet<u32>;

/// The values of these names too.
fn note_names(used: &mut Used, copies: &Copies, xs: &[u32]) -> Result<(), NoMemory>
    ensures { OnOk result ((z : ℕ) → set.contains nat_eq used.new z ≡ (is_in z (map (value_by (get nat_eq copies.now)) xs.now) || set.contains nat_eq used.old z)) }
{
    for x in xs {
        used.insert(value_of(copies, *x))?;
    }
    Ok(())
}

/// The values that a node uses too.
fn note_node(used: &mut Used, copies: &Copies, n: &SsuNode) -> Result<(), NoMemory>
    ensures { OnOk result ((z : ℕ) → set.contains nat_eq used.new z ≡ (is_in z (map (value_by (get nat_eq copies.now)) (node_uses (node_of n.now))) || set.contains nat_eq used.old z)) }
{
    match n {
        SsuNode::Lit(_, _, _) => Ok(()),
        SsuNode::Una(_, _, y, _) => note_names(used, copies, &[*y]),
        SsuNode::Bin(_, _, y, z, _) => note_names(used, copies, &[*y, *z]),
        SsuNode::Clone(_, _, _) => Ok(()),
        SsuNode::Read(_, _, y, _) => note_names(used, copies, &[*y]),
        SsuNode::Write(_, y, xs, _) => {
            note_names(used, copies, &[*y])?;
            note_names(used, copies, xs)
        }
        SsuNode::If(_, x, y, _, _) => note_names(used, copies, &[*x, *y]),
        SsuNode::Jump(_, xs) => note_names(used, copies, xs),
        SsuNode::Halt(_, xs) => note_names(used, copies, xs),
    }
}

/// The values that a point uses too.
fn add_uses_at(used: &mut Used, copies: &Copies, s: &Ssu, point_id: PointId) -> Result<(), NoMemory>
    ensures { OnOk result ((z : ℕ) → set.contains nat_eq used.new z ≡ (is_in z (map (value_by (get nat_eq copies.now)) (place_names (kind_of_point s.now point_id))) || set.contains nat_eq used.old z)) }
{
    match point_id {
        PointId::Entry(_) => Ok(()),
        PointId::Node(id) => match s.nodes.get(id.0) {
            Some(n) => note_node(used, copies, n),
            None => Ok(()),
        },
    }
}

/// The values that are used at these points.
pub fn used_values(
    alloc: Global,
    s: &Ssu,
    copies: &Copies,
    point_ids: &[PointId],
) -> Result<Used, NoMemory>
    ensures { IfOk result (λ u. (z : ℕ) → set.contains nat_eq u z ≡ is_in z (gather (used_at (value_by (get nat_eq copies.now))) 0 (map (kind_of_point s.now) point_ids.now))) }
{
    let mut used = HashSet::new(alloc);
    for k in 0..point_ids.len() {
        add_uses_at(&mut used, copies, s, point_ids[k])?;
    }
    Ok(used)
}
