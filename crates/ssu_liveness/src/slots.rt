//! Slots for values: no two that are live at a point have the same.

ghost use Rattle.std.specs.Prelude.{◌≡◌, ◌≢◌, ◌≤◌, ◌<◌, ◌+◌, ◌^◌, ℕ, nat_eq, true, false, None, Some, count_by, map, drop, length, slice_set, slice_index_or, IfOk, OnOk, if◌then◌else◌};
ghost use Rattle.std.specs.HashMap.{get};
ghost use Rattle.nv_base.specs.Sets.{is_in, all_different};
ghost use Rattle.ssu_ir.specs.Slots.{node_of};
ghost use Rattle.ssu_ir.specs.Tree.{node_values};
ghost use Rattle.ssu_liveness.specs.LiveRows.{items_of};
ghost use Rattle.ssu_liveness.specs.inner.Numbers as inner;
ghost use Rattle.ssu_liveness.specs.inner.Numbers.{has_number, Numbered, AreNumbered, group_row, groups, values_among};
ghost use Rattle.ssu_ir.specs.Points.{place_values};
ghost use Rattle.ssu_liveness.specs.inner.PointIds.{kind_of_point};

use crate::point_ids::PointId;
use crate::row::is_in_row;
use nv_base::NoMemory;
use ssu_ir::{Ssu, SsuNode};
use std::alloc::Global;
use std::collections::HashMap;

/// Of each value that has a slot its number.
pub type Slots = HashMap<u32, u32>;

/// The slot of a value, where it has one.
fn slot_of(slots: &Slots, x: u32) -> Option<u32>
    ensures { result ≡ get nat_eq slots.now x }
{
    slots.get(&x).copied()
}

/// Gives a value its slot.
fn give(slots: &mut Slots, x: u32, n: u32) -> Result<(), NoMemory>
    ensures { OnOk result ((z : ℕ) → get nat_eq slots.new z ≡ (if nat_eq z x then Some n else get nat_eq slots.old z)) }
{
    slots.insert(x, n)?;
    Ok(())
}

/// Marks a number, if there is a mark for it.
fn mark(marks: &mut Vec<bool>, n: u32)
    ensures { marks.new.items ≡ slice_set marks.old.items n true }
{
    let i = n as usize;
    if i < marks.len() {
        marks[i] = true;
    }
}

/// As many marks as there are values in the row, on at each number that one of them has.
fn taken(alloc: Global, slots: &Slots, row: &[u32]) -> Result<Vec<bool>, NoMemory>
    ensures count { IfOk result (λ v. length v.items ≡ length row.now) }
    ensures few { IfOk result (λ v. count_by (λ b. b) v.items ≤ count_by (has_number (get nat_eq slots.now)) row.now) }
    ensures on { IfOk result (λ v. (y n : ℕ) → is_in y row.now ≡ true → get nat_eq slots.now y ≡ Some n → n < length row.now → slice_index_or v.items n false ≡ true) }
{
    let mut marks = vec![in alloc; false; row.len()]?;
    for y in row {
        if let Some(n) = slot_of(slots, *y) {
            mark(&mut marks, n);
        }
    }
    Ok(marks)
}

/// The place of the first mark that is off, else the number of marks.
fn first_off(marks: &[bool]) -> usize
    ensures within { result ≤ length marks.now }
    ensures before { (k : ℕ) → k < result → slice_index_or marks.now k false ≡ true }
    ensures off { result < length marks.now → slice_index_or marks.now result false ≡ false }
{
    for (i, m) in marks.iter().enumerate() {
        if !*m {
            return i;
        }
    }
    marks.len()
}

/// The least number that no value of a row has, where one of them has none.
fn next_slot(alloc: Global, slots: &Slots, row: &[u32], x: u32) -> Result<u32, NoMemory>
    requires there { is_in x row.now ≡ true }
    requires none { get nat_eq slots.now x ≡ None }
    ensures free { IfOk result (λ n. (y : ℕ) → is_in y row.now ≡ true → get nat_eq slots.now y ≢ Some n) }
    ensures below { IfOk result (λ n. n < length row.now) }
{
    let marks = taken(alloc, slots, row)?;
    match u32::try_from(first_off(&marks)) {
        Ok(n) => Ok(n),
        Err(_) => Err(NoMemory),
    }
}

/// Slots for those of these values that are in the row, each another than those of the row's other values.
fn give_slots(alloc: Global, slots: &mut Slots, values: &[u32], row: &[u32]) -> Result<(), NoMemory>
    requires once { all_different values.now ≡ true }
    requires fresh { (z : ℕ) → is_in z values.now ≡ true → get nat_eq slots.old z ≡ None }
    ensures { OnOk result (Numbered (get nat_eq slots.old) values.now row.now (get nat_eq slots.new)) }
{
    for x in values {
        if is_in_row(row, *x) {
            let n = next_slot(alloc, slots, row, *x)?;
            give(slots, *x, n)?;
        }
    }
    Ok(())
}

/// The row of a place, or none past the last.
fn row_at(rows: &[Vec<u32>], k: usize) -> &[u32]
    ensures { result.now ≡ inner.row_at (items_of (drop k rows.now)) }
{
    match rows.get(k) {
        Some(row) => row,
        None => &[],
    }
}

/// Slots for the values that a node defines.
fn node_slots(alloc: Global, slots: &mut Slots, n: &SsuNode, row: &[u32]) -> Result<(), NoMemory>
    requires once { all_different (node_values (node_of n.now)) ≡ true }
    requires fresh { (z : ℕ) → is_in z (node_values (node_of n.now)) ≡ true → get nat_eq slots.old z ≡ None }
    ensures { OnOk result (Numbered (get nat_eq slots.old) (node_values (node_of n.now)) row.now (get nat_eq slots.new)) }
{
    match n {
        SsuNode::Lit(x, _, _) => give_slots(alloc, slots, &[*x], row),
        SsuNode::Una(x, _, _, _) => give_slots(alloc, slots, &[*x], row),
        SsuNode::Bin(x, _, _, _, _) => give_slots(alloc, slots, &[*x], row),
        SsuNode::Read(_, xs, _, _) => give_slots(alloc, slots, xs, row),
        SsuNode::Clone(_, _, _) => Ok(()),
        SsuNode::Write(_, _, _, _) => Ok(()),
        SsuNode::If(_, _, _, _, _) => Ok(()),
        SsuNode::Jump(_, _) => Ok(()),
        SsuNode::Halt(_, _) => Ok(()),
    }
}

/// Slots for the values that a point defines, in its own row where it is an entry, else in that of the next point.
fn point_slots(
    alloc: Global,
    slots: &mut Slots,
    s: &Ssu,
    point_id: PointId,
    rows: &[Vec<u32>],
    k: usize,
) -> Result<(), NoMemory>
    requires room { k + 1 < 2 ^ 64 }
    requires once { all_different (place_values (kind_of_point s.now point_id)) ≡ true }
    requires fresh { (z : ℕ) → is_in z (place_values (kind_of_point s.now point_id)) ≡ true → get nat_eq slots.old z ≡ None }
    ensures { OnOk result (Numbered (get nat_eq slots.old) (place_values (kind_of_point s.now point_id)) (group_row (kind_of_point s.now point_id) (inner.row_at (items_of (drop k rows.now))) (items_of (drop (k + 1) rows.now))) (get nat_eq slots.new)) }
{
    match point_id {
        PointId::Entry(l) => match s.labels.get(l) {
            Some(label) => give_slots(alloc, slots, &label.params, row_at(rows, k)),
            None => Ok(()),
        },
        PointId::Node(id) => match s.nodes.get(id.0) {
            Some(n) => node_slots(alloc, slots, n, row_at(rows, k + 1)),
            None => Ok(()),
        },
    }
}

/// Slots for the values of all points, by the rows of live values at each.
pub fn slots_for(
    alloc: Global,
    s: &Ssu,
    point_ids: &[PointId],
    rows: &[Vec<u32>],
) -> Result<Slots, NoMemory>
    requires once { all_different (values_among (map (kind_of_point s.now) point_ids.now)) ≡ true }
    requires count { length rows.now ≡ length point_ids.now }
    ensures { IfOk result (λ m. AreNumbered (groups (map (kind_of_point s.now) point_ids.now) (items_of rows.now)) (get nat_eq m)) }
{
    let mut slots = HashMap::new(alloc);
    for k in 0..point_ids.len() {
        point_slots(alloc, &mut slots, s, point_ids[k], rows, k)?;
    }
    Ok(slots)
}
