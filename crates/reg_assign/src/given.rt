//! What places are read off from.

ghost use Rattle.std.specs.Prelude.{◌≡◌, ℕ, nat_eq, IfOk};
ghost use Rattle.std.specs.HashMap.{get};
ghost use Rattle.place_plan.specs.Uses.{values};
ghost use Rattle.reg_assign_reading.specs.ReadOff as pure;
ghost use Rattle.reg_assign_reading.specs.inner.Reading.{says, labels_of, known_place};

use crate::places::{ReadPlaces, read_places_of};
use nv_base::NoMemory;
use reg_assign_reading::numbers::BankNumbers;
use reg_assign_reading::reading::Reading;
use std::alloc::Global;

/// What places are read off from.
#[derive(Drop)]
pub struct AssignmentInputs<'a> {
    pub reading: Reading<'a>,
    pub numbers: BankNumbers,
    pub came: ReadPlaces,
    ghost right: { (x : ℕ) → known_place (get nat_eq came x) ≡ pure.place_in (says reading) (values (labels_of reading)) x },
}

/// What places are read off from, by these columns and numbers.
pub fn given_of<'a>(
    alloc: Global,
    reading: Reading<'a>,
    numbers: BankNumbers,
) -> Result<AssignmentInputs<'a>, NoMemory>
    ensures reading { IfOk result (λ g. g.reading ≡ reading.entry) }
    ensures numbers { IfOk result (λ g. g.numbers ≡ numbers) }
{
    let bank = reading.bank;
    let came = read_places_of(alloc, &reading, &bank.form.tables.values)?;
    Ok(AssignmentInputs {
        reading,
        numbers,
        came,
    })
}
