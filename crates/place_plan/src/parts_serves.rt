//! Uses served from slots.

ghost use Rattle.std.specs.Prelude.{◌≡◌, ◌+◌, ◌≤◌, ℕ, ◌++◌, ◌∷◌, [], length, slice_get, OnOk};
ghost use Rattle.ssu_ir.specs.Points.{At};
ghost use Rattle.ssu_ir.specs.Slots.{node_of};
ghost use Rattle.ssu_ir.specs.View.{labels_view};
ghost use Rattle.place_plan.specs.Fits as fits;
ghost use Rattle.place_plan.specs.Uses.{Written};
ghost use Rattle.place_plan.specs.declared.place.Place.TheVariants as place;
ghost use Rattle.place_plan.specs.inner.Parts.{number_of, names_of, serve_of, word_serves, serves_at, IsShort};
ghost use Rattle.place_plan.specs.inner.Spilled.{role_at};
ghost use Rattle.place_plan.specs.inner.Targets.{target_role};

use crate::parts::SpillInputs;
use crate::parts_homes::slot_of;
use crate::place::{Place, Serve};
use nv_base::{Mem, NoMemory};
use ssu_ir::{Ssu, SsuNode};
use ssu_liveness::value_of;

/// Where words go: into write registers, to the parameters of a label, or into the registers of an end.
#[derive(Clone, Copy)]
pub enum Target {
    Memory(Mem),
    Label(u32),
    End,
}

/// Serves one operand.
fn serve(
    serves: &mut Vec<Serve>,
    given: &SpillInputs,
    point: u32,
    operand: u8,
    x: u32,
    at: Place,
) -> Result<(), NoMemory>
    ensures { OnOk result (serves.new.items ≡ serves.old.items ++ serve_of (number_of given.now) (names_of given.now) point operand x at ∷ []) }
{
    let from = Place::Slot(slot_of(&given.slots, value_of(&given.copies, x)));
    serves.push(Serve {
        point,
        operand,
        from,
        at,
    })?;
    Ok(())
}

/// Serves two operands: one through a read register, the other in the compiler's own.
fn serve_two(
    serves: &mut Vec<Serve>,
    given: &SpillInputs,
    point: u32,
    x: u32,
    y: u32,
) -> Result<(), NoMemory>
    ensures { OnOk result (serves.new.items ≡ serves.old.items ++ serve_of (number_of given.now) (names_of given.now) point 0 x (place.L 0) ∷ serve_of (number_of given.now) (names_of given.now) point 1 y (place.A 15) ∷ []) }
{
    serve(serves, given, point, 0, x, Place::L(0))?;
    serve(serves, given, point, 1, y, Place::A(15))
}

/// The parameter of this number, or 0.
fn param_at(xs: &[u32], i: usize) -> u32
    ensures { result ≡ fits.param_at (slice_get xs.now i) }
{
    match xs.get(i) {
        Some(x) => *x,
        None => 0,
    }
}

/// A parameter of a label.
fn parameter(s: &Ssu, l: u32, i: usize) -> u32
    ensures { result ≡ fits.parameter (labels_view s.now) l i }
{
    match s.labels.get(l as usize) {
        Some(label) => param_at(&label.params, i),
        None => 0,
    }
}

/// Where a word goes.
fn place_of(s: &Ssu, given: &SpillInputs, target: Target, i: u8) -> Place
    ensures { (j : ℕ) → result ≡ role_at (labels_view s.now) (number_of given.now) j (target_role target i) }
{
    match target {
        Target::Memory(m) => Place::of_write(m, i),
        Target::Label(l) => Place::Slot(slot_of(&given.slots, parameter(s, l, i as usize))),
        Target::End => Place::A(i),
    }
}

/// Serves words by the operands from one on.
fn serve_words(
    serves: &mut Vec<Serve>,
    s: &Ssu,
    given: &SpillInputs,
    point: u32,
    operand: u8,
    target: Target,
    xs: &[u32],
) -> Result<(), NoMemory>
    requires { operand + length xs.now ≤ 128 }
    ensures { OnOk result (serves.new.items ≡ serves.old.items ++ word_serves (labels_view s.now) (number_of given.now) (names_of given.now) point operand 0 (target_role target) xs.now) }
{
    for i in 0..xs.len() {
        let at = place_of(s, given, target, i as u8);
        serve(serves, given, point, operand + i as u8, xs[i], at)?;
    }
    Ok(())
}

/// Serves a write: its address, then its words.
fn serve_write(
    serves: &mut Vec<Serve>,
    s: &Ssu,
    given: &SpillInputs,
    point: u32,
    m: Mem,
    y: u32,
    xs: &[u32],
) -> Result<(), NoMemory>
    requires { 1 + length xs.now ≤ 128 }
    ensures { OnOk result (serves.new.items ≡ serves.old.items ++ serve_of (number_of given.now) (names_of given.now) point 0 y (place.A 15) ∷ word_serves (labels_view s.now) (number_of given.now) (names_of given.now) point 1 0 (Written m) xs.now) }
{
    serve(serves, given, point, 0, y, Place::A(15))?;
    serve_words(serves, s, given, point, 1, Target::Memory(m), xs)
}

/// Serves the operands of a node.
pub fn node_serves(
    serves: &mut Vec<Serve>,
    s: &Ssu,
    given: &SpillInputs,
    point: u32,
    n: &SsuNode,
) -> Result<(), NoMemory>
    requires { IsShort (At (node_of n.now)) }
    ensures { OnOk result (serves.new.items ≡ serves.old.items ++ serves_at (labels_view s.now) (number_of given.now) (names_of given.now) point (At (node_of n.now))) }
{
    match n {
        SsuNode::Lit(_, _, _) => Ok(()),
        SsuNode::Una(_, _, y, _) => serve(serves, given, point, 0, *y, Place::L(0)),
        SsuNode::Bin(_, _, y, z, _) => serve_two(serves, given, point, *y, *z),
        SsuNode::Clone(_, _, _) => Ok(()),
        SsuNode::Read(_, _, y, _) => serve(serves, given, point, 0, *y, Place::A(15)),
        SsuNode::Write(m, y, xs, _) => serve_write(serves, s, given, point, *m, *y, xs),
        SsuNode::If(_, x, y, _, _) => serve_two(serves, given, point, *x, *y),
        SsuNode::Jump(l, xs) => serve_words(serves, s, given, point, 0, Target::Label(*l), xs),
        SsuNode::Halt(_, xs) => serve_words(serves, s, given, point, 0, Target::End, xs),
    }
}
