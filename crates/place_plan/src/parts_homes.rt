//! Homes in slots.

ghost use Rattle.std.specs.Prelude.{◌≡◌, ◌≤◌, ℕ, nat_eq, ◌++◌, map, length, Some, unwrap_or, OnOk};
ghost use Rattle.std.specs.HashMap.{get};
ghost use Rattle.std.specs.List.Sorted.{IsPermutation, IsNonDecreasingBy};
ghost use Rattle.ssu_ir.specs.Points.{At};
ghost use Rattle.ssu_ir.specs.Slots.{node_of};
ghost use Rattle.place_plan.specs.Plan.{home_view};
ghost use Rattle.place_plan.specs.inner.Parts as parts;
ghost use Rattle.place_plan.specs.inner.Parts.{bytes, in_byte, number_of, used_of, slot_home, fetched_home, homes_at, IsShort};
ghost use Rattle.place_plan.specs.inner.Spilled.{slot_number};

use crate::parts::SpillInputs;
use crate::place::{Home, Place};
use nv_base::{Mem, NoMemory};
use ssu_ir::SsuNode;
use ssu_liveness::Slots;
use std::alloc::Global;

/// A number that fits into a byte, else 0.
fn byte(n: u32) -> u8
    ensures { result ≡ unwrap_or (in_byte (Some n)) 0 }
{
    if n < 256 { n as u8 } else { 0 }
}

/// The slot of a value. One that is never held has no number, and gets the first.
pub fn slot_of(slots: &Slots, x: u32) -> u8
    ensures { result ≡ slot_number (bytes (get nat_eq slots.now)) x }
{
    match slots.get(&x) {
        Some(n) => byte(*n),
        None => 0,
    }
}

/// Homes of these values, each in its slot alone.
pub fn slot_homes(
    alloc: Global,
    homes: &mut Vec<Home>,
    given: &SpillInputs,
    xs: &[u32],
) -> Result<(), NoMemory>
    ensures { OnOk result (map home_view homes.new.items ≡ map home_view homes.old.items ++ map (slot_home (number_of given.now)) xs.now) }
{
    for x in xs {
        let defined = Place::Slot(slot_of(&given.slots, *x));
        homes.push(Home {
            var: *x,
            defined,
            copied: Vec::new(alloc),
        })?;
    }
    Ok(())
}

/// The home of a word of a read, if it is used.
fn fetched(
    alloc: Global,
    homes: &mut Vec<Home>,
    given: &SpillInputs,
    m: Mem,
    i: u8,
    x: u32,
) -> Result<(), NoMemory>
    ensures { OnOk result (map home_view homes.new.items ≡ map home_view homes.old.items ++ fetched_home (number_of given.now) (used_of given.now) m i x) }
{
    if given.used.contains(&x) {
        let copied = Vec::from_array(alloc, [Place::Slot(slot_of(&given.slots, x))])?;
        homes.push(Home {
            var: x,
            defined: Place::of_read(m, i),
            copied,
        })?;
    }
    Ok(())
}

/// Homes of those words of a read that are used, each in its read register and its slot.
fn fetched_homes(
    alloc: Global,
    homes: &mut Vec<Home>,
    given: &SpillInputs,
    m: Mem,
    xs: &[u32],
) -> Result<(), NoMemory>
    requires { length xs.now ≤ 128 }
    ensures { OnOk result (map home_view homes.new.items ≡ map home_view homes.old.items ++ parts.fetched_homes (number_of given.now) (used_of given.now) m 0 xs.now) }
{
    for i in 0..xs.len() {
        fetched(alloc, homes, given, m, i as u8, xs[i])?;
    }
    Ok(())
}

/// Homes of the values that a node defines, if they want one.
pub fn node_homes(
    alloc: Global,
    homes: &mut Vec<Home>,
    given: &SpillInputs,
    n: &SsuNode,
) -> Result<(), NoMemory>
    requires { IsShort (At (node_of n.now)) }
    ensures { OnOk result ((k : ℕ) → map home_view homes.new.items ≡ map home_view homes.old.items ++ homes_at (number_of given.now) (used_of given.now) k (At (node_of n.now))) }
{
    match n {
        SsuNode::Lit(x, _, _) => slot_homes(alloc, homes, given, &[*x]),
        SsuNode::Una(x, _, _, _) => slot_homes(alloc, homes, given, &[*x]),
        SsuNode::Bin(x, _, _, _, _) => slot_homes(alloc, homes, given, &[*x]),
        SsuNode::Clone(_, _, _) => Ok(()),
        SsuNode::Read(m, xs, _, _) => fetched_homes(alloc, homes, given, *m, xs),
        SsuNode::Write(_, _, _, _) => Ok(()),
        SsuNode::If(_, _, _, _, _) => Ok(()),
        SsuNode::Jump(_, _) => Ok(()),
        SsuNode::Halt(_, _) => Ok(()),
    }
}

/// Homes by rising variable.
pub fn by_variable(homes: Vec<Home>) -> Vec<Home>
    ensures same { IsPermutation homes.items result.items }
    ensures sorted { IsNonDecreasingBy (λ h. h.var) result.items }
{
    let mut sorted = homes;
    sorted.sort_unstable_by_key(|h| h.var);
    sorted
}
