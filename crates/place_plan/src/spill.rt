//! Slots for all values of a program.

ghost use Rattle.std.specs.Prelude.{◌≡◌, ◌≤◌, ◌<◌, ℕ, true, nat_eq, map, All, Err, IfOk};
ghost use Rattle.std.specs.HashMap.{get};
ghost use Rattle.ssu_ir.specs.Measures as measures;
ghost use Rattle.ssu_ir.specs.Points.{points};
ghost use Rattle.ssu_ir.specs.Single.{single};
ghost use Rattle.ssu_ir.specs.Slots.{bare_all};
ghost use Rattle.ssu_ir.specs.View.{placed_of, labels_view};
ghost use Rattle.place_plan.specs.Fits.{Fits};
ghost use Rattle.place_plan.specs.InSlots.{AreInSlots};
ghost use Rattle.place_plan.specs.Plan.{plan_view};
ghost use Rattle.place_plan.specs.declared.place.PlaceError.TheVariants.{TooFew as WantsSlots};
ghost use Rattle.ssu_liveness.specs.inner.Live.{source_among};
ghost use Rattle.place_plan.specs.inner.Spilled.{IsNumbered};
ghost use Rattle.ssu_liveness.specs.inner.PointIds.{kind_of_point};

use crate::parts::{SpillInputs, spill_points};
use crate::parts_homes::by_variable;
use crate::place::{PlaceError, Placement};
use crate::used::used_values;
use nv_base::NoMemory;
use ssu_ir::Ssu;
use ssu_liveness::{
    Copies, PointId, Slots, all_rows, copies_of, longest_row, point_ids_of, slots_for,
};
use std::alloc::Global;

/// The error that N slots are wanted.
fn too_few(wanted: usize) -> PlaceError
    ensures { (n : ℕ) → result ≡ WantsSlots n → n ≡ wanted }
{
    match u32::try_from(wanted) {
        Ok(n) => PlaceError::TooFew(n),
        Err(_) => PlaceError::NoMemory,
    }
}

/// Numbers of slots for all values, below this bound, where these are the clones and the points.
pub fn numbers_below(
    alloc: Global,
    s: &Ssu,
    copies: &Copies,
    point_ids: &[PointId],
    slots: u32,
) -> Result<Slots, PlaceError>
    requires single { single (labels_view s.now) ≡ true }
    requires copies { (z : ℕ) → get nat_eq copies.now z ≡ source_among (bare_all (placed_of s.now)) z }
    requires point_ids { map (kind_of_point s.now) point_ids.now ≡ map (λ p. p.place) (points (labels_view s.now)) }
    ensures numbered { IfOk result (λ m. All (IsNumbered (get nat_eq m) slots) (points (labels_view s.now))) }
    ensures enough { IfOk result (λ m. measures.peak (labels_view s.now) ≤ slots) }
    ensures few { (n : ℕ) → result ≡ Err (WantsSlots n) → (n ≡ measures.peak (labels_view s.now)) × (slots < n) }
{
    let rows = all_rows(alloc, s, copies)?;
    let wanted = longest_row(&rows);
    if wanted > slots as usize {
        return Err(too_few(wanted));
    }
    Ok(slots_for(alloc, s, point_ids, &rows)?)
}

/// The placement by these clones, points and numbers.
fn placed(
    alloc: Global,
    s: &Ssu,
    copies: Copies,
    point_ids: &[PointId],
    numbers: Slots,
    slots: u32,
) -> Result<Placement, NoMemory>
    requires single { single (labels_view s.now) ≡ true }
    requires copies { (z : ℕ) → get nat_eq copies z ≡ source_among (bare_all (placed_of s.now)) z }
    requires point_ids { map (kind_of_point s.now) point_ids.now ≡ map (λ p. p.place) (points (labels_view s.now)) }
    requires slots { slots ≤ 128 }
    requires numbered { All (IsNumbered (get nat_eq numbers) slots) (points (labels_view s.now)) }
    requires enough { measures.peak (labels_view s.now) ≤ slots }
    ensures fits { IfOk result (λ p. Fits (labels_view s.now) (plan_view p)) }
    ensures in_slots { IfOk result (λ p. AreInSlots (plan_view p)) }
    ensures slots { IfOk result (λ p. p.slots ≡ slots) }
{
    let used = used_values(alloc, s, &copies, point_ids)?;
    let given = SpillInputs {
        slots: numbers,
        copies,
        used,
    };
    let parts = spill_points(alloc, s, &given, point_ids)?;
    let homes = by_variable(parts.homes);
    Ok(Placement {
        slots,
        homes,
        firsts: parts.firsts,
        serves: parts.serves,
        passes: parts.passes,
    })
}

/// Every value at home in a slot alone.
///
/// # Errors
///
/// `TooFew` tells the greatest number of live values at a point, where that is above the slots.
pub fn spill_all(alloc: Global, s: &Ssu, slots: u32) -> Result<Placement, PlaceError>
    requires single { single (labels_view s.now) ≡ true }
    requires slots { slots ≤ 128 }
    ensures fits { IfOk result (λ p. Fits (labels_view s.now) (plan_view p)) }
    ensures in_slots { IfOk result (λ p. AreInSlots (plan_view p)) }
    ensures slots { IfOk result (λ p. p.slots ≡ slots) }
    ensures enough { IfOk result (λ p. measures.peak (labels_view s.now) ≤ slots) }
    ensures few { (n : ℕ) → result ≡ Err (WantsSlots n) → (n ≡ measures.peak (labels_view s.now)) × (slots < n) }
{
    let copies = copies_of(alloc, s)?;
    let point_ids = point_ids_of(alloc, s)?;
    let numbers = numbers_below(alloc, s, &copies, &point_ids, slots)?;
    Ok(placed(alloc, s, copies, &point_ids, numbers, slots)?)
}
