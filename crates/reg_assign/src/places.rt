//! Places by what the columns say.

ghost use Rattle.std.specs.Prelude.{◌≡◌, ◌+◌, ℕ, nat_eq, map, IfOk, OnOk};
ghost use Rattle.std.specs.HashMap.{get};
ghost use Rattle.bank_prog_form.specs.inner.Form.{value_view, origin_view};
ghost use Rattle.reg_assign_reading.specs.ReadOff as pure;
ghost use Rattle.reg_assign.specs.inner.AssignmentInputs.{labels_in, says_in, numbers_in};
ghost use Rattle.reg_assign_reading.specs.inner.Reading.{says, known_place, numbers_of, place_noted};
ghost use Rattle.place_plan.specs.inner.UseViews.{use_view};

use crate::given::AssignmentInputs;
use bank_prog::{Bank, Origin, Role, Use, Value};
use nv_base::NoMemory;
use place_plan::Place;
use reg_assign_reading::columns::Family;
use reg_assign_reading::numbers::BankNumbers;
use reg_assign_reading::reading::Reading;
use std::alloc::Global;
use std::collections::HashMap;

/// Where each value comes that is read.
pub type ReadPlaces = HashMap<u32, Place>;

/// A number that fits into a byte.
pub fn small(n: u64) -> Result<u8, NoMemory>
    ensures { IfOk result (λ k. k ≡ n) }
{
    match u8::try_from(n) {
        Ok(k) => Ok(k),
        Err(_) => Err(NoMemory),
    }
}

/// The register of word i of the access at a point.
fn register(r: &Reading<'_>, k: u32, i: u32) -> Result<u8, NoMemory>
    ensures { IfOk result (λ n. n ≡ pure.begins (says r.now) k + i) }
{
    small(u64::from(r.begins(k)) + u64::from(i))
}

/// The read register of a read value.
pub fn origin_place(r: &Reading<'_>, v: Value) -> Result<Place, NoMemory>
    ensures { IfOk result (λ q. q ≡ pure.origin_place (says r.now) v.point (origin_view v.origin)) }
{
    match v.origin {
        Origin::Parameter(_, _) => Ok(Place::Slot(0)),
        Origin::Result => Ok(Place::Slot(0)),
        Origin::Fetched(m, i) => Ok(Place::of_read(m, register(r, v.point, i)?)),
    }
}

/// The write register of a written word.
pub fn word_place(r: &Reading<'_>, u: Use) -> Result<Place, NoMemory>
    ensures { IfOk result (λ q. q ≡ pure.word_place (says r.now) (use_view u)) }
{
    match u.role {
        Role::Written(m, i) => Ok(Place::of_write(m, register(r, u.point, i)?)),
        Role::Operand => Ok(Place::Slot(0)),
        Role::Address => Ok(Place::Slot(0)),
        Role::Argument(_, _) => Ok(Place::Slot(0)),
        Role::Ending(_) => Ok(Place::Slot(0)),
    }
}

/// Notes where a value comes, unless that is known.
fn note(came: &mut ReadPlaces, x: u32, q: Place) -> Result<(), NoMemory>
    ensures { OnOk result ((z : ℕ) → get nat_eq came.new z ≡ place_noted (get nat_eq came.old z) x q z) }
{
    if came.get(&x).is_none() {
        came.insert(x, q)?;
    }
    Ok(())
}

/// Where these values come.
pub fn read_places_of(
    alloc: Global,
    r: &Reading<'_>,
    values: &[Value],
) -> Result<ReadPlaces, NoMemory>
    ensures { IfOk result (λ m. (x : ℕ) → known_place (get nat_eq m x) ≡ pure.place_in (says r.now) (map value_view values.now) x) }
{
    let mut came = HashMap::new(alloc);
    for v in values {
        note(&mut came, v.var, origin_place(r, *v)?)?;
    }
    Ok(came)
}

/// The place of a value's home in a bank.
pub fn home_place(numbers: &BankNumbers, h: Bank, x: u32) -> Place
    ensures { result ≡ pure.home_place (numbers_of numbers.now) h x }
{
    match h {
        Bank::A => Place::A(numbers.number(h, x)),
        Bank::B => Place::B(numbers.number(h, x)),
        Bank::M => Place::Slot(numbers.number(h, x)),
        Bank::T => Place::Slot(0),
        Bank::L => Place::Slot(0),
        Bank::A15 => Place::Slot(0),
        Bank::W => Place::Slot(0),
    }
}

/// Where a value comes that is read.
fn read_place_of(came: &ReadPlaces, x: u32) -> Place
    ensures { result ≡ known_place (get nat_eq came.now x) }
{
    match came.get(&x) {
        Some(q) => *q,
        None => Place::Slot(0),
    }
}

/// The place of the word of a use in a bank, or on its way.
pub fn bank_place(g: &AssignmentInputs<'_>, u: Use, h: Bank) -> Result<Place, NoMemory>
    ensures { IfOk result (λ q. q ≡ pure.bank_place (labels_in g.now) (says_in g.now) (numbers_in g.now) (use_view u) h) }
{
    match h {
        Bank::A => Ok(Place::A(g.numbers.number(h, u.value))),
        Bank::B => Ok(Place::B(g.numbers.number(h, u.value))),
        Bank::M => Ok(Place::Slot(g.numbers.number(h, u.value))),
        Bank::T => Ok(read_place_of(&g.came, u.value)),
        Bank::L => Ok(Place::L(g.reading.first_on(Family::ReadVia(u.point)).unwrap_or(0))),
        Bank::A15 => Ok(Place::A(15)),
        Bank::W => word_place(&g.reading, u),
    }
}
