//! How many points lie below each point, and at which point each value is defined.

ghost use Rattle.std.specs.Prelude.{◌≡◌, ◌<◌, ◌+◌, ◌^◌, ℕ, nat_eq, Some, None, length, map, slice_index_or, if◌then◌else◌, IfOk, OnOk};
ghost use Rattle.std.specs.HashMap.{get};
ghost use Rattle.ssu_ir.specs.Points.{points};
ghost use Rattle.ssu_ir.specs.Slots.{node_of};
ghost use Rattle.ssu_ir.specs.View.{labels_view};
ghost use Rattle.ssu_liveness.specs.inner.PointIds.{kind_of_point};
ghost use Rattle.bank_prog_form.specs.inner.Adds.{either};
ghost use Rattle.bank_prog_form.specs.inner.Form.{at_node, value_view};
ghost use Rattle.bank_prog_rows.specs.inner.Waiting as waits;

use bank_prog_form::form::Value;
use nv_base::NoMemory;
use ssu_ir::{Ssu, SsuNode};
use ssu_liveness::PointId;
use std::alloc::Global;
use std::collections::HashMap;

/// Of each value the point that defines it.
pub type Defined = HashMap<u32, u32>;

/// How many nodes follow a node directly.
fn node_arms(n: &SsuNode) -> u32
    ensures { result ≡ waits.arms (at_node (node_of n.now)) }
{
    match n {
        SsuNode::Lit(_, _, _) => 1,
        SsuNode::Una(_, _, _, _) => 1,
        SsuNode::Bin(_, _, _, _, _) => 1,
        SsuNode::Clone(_, _, _) => 1,
        SsuNode::Read(_, _, _, _) => 1,
        SsuNode::Write(_, _, _, _) => 1,
        SsuNode::If(_, _, _, _, _) => 2,
        SsuNode::Jump(_, _) => 0,
        SsuNode::Halt(_, _) => 0,
    }
}

/// How many nodes follow a point directly.
fn point_arms(s: &Ssu, point_id: PointId) -> u32
    ensures { result ≡ waits.arms (kind_of_point s.now point_id) }
{
    match point_id {
        PointId::Entry(_) => 1,
        PointId::Node(id) => match s.nodes.get(id.0) {
            Some(n) => node_arms(n),
            None => 0,
        },
    }
}

/// The number of a place, or 0 past the last.
pub fn item(below: &[u32], k: usize) -> u32
    ensures { result ≡ slice_index_or below.now k 0 }
{
    match below.get(k) {
        Some(b) => *b,
        None => 0,
    }
}

/// The sum, where it fits.
fn sum(a: u32, b: u32) -> Result<u32, NoMemory>
    ensures { IfOk result (λ c. c ≡ a + b) }
{
    match a.checked_add(b) {
        Some(c) => Ok(c),
        None => Err(NoMemory),
    }
}

/// How many points lie below one where two nodes follow, by those of the points after it.
fn below_fork(below: &[u32], k: usize) -> Result<u32, NoMemory>
    requires { k < length below.now }
    ensures { IfOk result (λ b. b ≡ waits.below_at 2 (waits.read_from below.now) k) }
{
    let first = item(below, k + 1);
    match (k + 2).checked_add(first as usize) {
        Some(second) => sum(2, sum(first, item(below, second))?),
        None => Err(NoMemory),
    }
}

/// How many points lie below one where N nodes follow.
fn below_for(below: &[u32], k: usize, arms: u32) -> Result<u32, NoMemory>
    requires { k < length below.now }
    ensures { IfOk result (λ b. b ≡ waits.below_at arms (waits.read_from below.now) k) }
{
    match arms {
        0 => Ok(0),
        1 => sum(1, item(below, k + 1)),
        _ => below_fork(below, k),
    }
}

/// How many points lie below each.
pub fn counts_below(alloc: Global, s: &Ssu, point_ids: &[PointId]) -> Result<Vec<u32>, NoMemory>
    requires { map (kind_of_point s.now) point_ids.now ≡ map (λ p. p.place) (points (labels_view s.now)) }
    ensures { IfOk result (λ v. v.items ≡ map (λ p. p.below) (points (labels_view s.now))) }
{
    let mut below = vec![in alloc; 0; point_ids.len()]?;
    let mut k = point_ids.len();
    while k > 0 {
        k -= 1;
        let b = below_for(&below, k, point_arms(s, point_ids[k]))?;
        below[k] = b;
    }
    Ok(below)
}

/// The point of a value, where the variable has none already.
fn note_point(defined: &mut Defined, v: Value) -> Result<(), NoMemory>
    ensures { OnOk result ((x : ℕ) → get nat_eq defined.new x ≡ either (get nat_eq defined.old x) (if nat_eq v.var x then Some v.point else None)) }
{
    if defined.get(&v.var).is_none() {
        defined.insert(v.var, v.point)?;
    }
    Ok(())
}

/// The points of these values.
pub fn defined_at(alloc: Global, values: &[Value]) -> Result<Defined, NoMemory>
    ensures { IfOk result (λ m. (x : ℕ) → get nat_eq m x ≡ waits.point_in (map value_view values.now) x) }
{
    let mut defined = HashMap::new(alloc);
    for v in values {
        note_point(&mut defined, *v)?;
    }
    Ok(defined)
}
