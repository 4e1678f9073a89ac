//! Numbers for the homes of values. Of each point's live values those with a home in the bank make a row, and no two of a
//! row may have one number. Numbers by hints spare moves and are checked on the rows; only where the check fails, a second
//! way gives each value the least free number at its definition, which is below the longest row.

ghost use Rattle.std.specs.Prelude.{◌≡◌, ◌≤◌, ℕ, nat_eq, true, length, map, filter, All, IfOk, IfSome};
ghost use Rattle.std.specs.HashMap.{get};
ghost use Rattle.ssu_ir.specs.Points.{points};
ghost use Rattle.ssu_ir.specs.Single.{single};
ghost use Rattle.ssu_liveness.specs.LiveRows.{HaveNumbers, items_of};
ghost use Rattle.zo_model.specs.Program.{vector};
ghost use Rattle.bank_prog.specs.Meaning.{IsFeasible};
ghost use Rattle.reg_assign_reading.specs.ReadOff as pure;
ghost use Rattle.reg_assign_reading.specs.ReadOff.{AreNumbered};
ghost use Rattle.reg_assign_reading.specs.inner.Reading.{says, labels_of, numbers_of};

use crate::allocation_hints::hints_in;
use crate::wished_numbers;
use bank_prog::Bank;
use nv_base::NoMemory;
use reg_assign_reading::numbers::BankNumbers;
use reg_assign_reading::reading::Reading;
use ssu_liveness::{Slots, slots_for};
use std::alloc::Global;

/// How many registers of each bank values can have: the last of the first is the compiler's own, and that of the second
/// has the spill base.
const REGISTERS: u32 = 15;

/// The values of a row that have a home in a bank.
fn homes_in(alloc: Global, r: &Reading<'_>, row: &[u32], h: Bank) -> Result<Vec<u32>, NoMemory>
    ensures { IfOk result (λ v. v.items ≡ filter (λ x. pure.has_home (says r.now) x h) row.now) }
{
    let mut kept = Vec::new(alloc);
    for x in row {
        if r.has_home(*x, h) {
            kept.push(*x)?;
        }
    }
    Ok(kept)
}

/// Of each row the values that have a home in a bank.
fn all_homes_in(
    alloc: Global,
    r: &Reading<'_>,
    rows: &[Vec<u32>],
    h: Bank,
) -> Result<Vec<Vec<u32>>, NoMemory>
    ensures { IfOk result (λ v. items_of v.items ≡ map (filter (λ x. pure.has_home (says r.now) x h)) (items_of rows.now)) }
{
    let mut kept = Vec::new(alloc);
    for row in rows {
        kept.push(homes_in(alloc, r, row, h)?)?;
    }
    Ok(kept)
}

/// Numbers by hints for the values with a home in a bank of registers, where they are found.
fn hinted_in(alloc: Global, r: &Reading<'_>, h: Bank) -> Result<Option<Slots>, NoMemory>
    requires { single (labels_of r.now) ≡ true }
    ensures { IfOk result (λ found. IfSome found (λ m. All (HaveNumbers (λ x. pure.has_home (says r.now) x h) (get nat_eq m) 15) (points (labels_of r.now)))) }
{
    let kept = all_homes_in(alloc, r, &r.bank.form.live, h)?;
    let allocation_hints = hints_in(alloc, r, h)?;
    wished_numbers(alloc, &kept, &allocation_hints, REGISTERS)
}

/// The least numbers that are free for the values with a home in a bank.
fn least_in(alloc: Global, r: &Reading<'_>, h: Bank) -> Result<Slots, NoMemory>
    requires { single (labels_of r.now) ≡ true }
    ensures { IfOk result (λ m. (n : ℕ) → All (λ q. length (filter (λ x. pure.has_home (says r.now) x h) q.before) ≤ n) (points (labels_of r.now)) → All (HaveNumbers (λ x. pure.has_home (says r.now) x h) (get nat_eq m) n) (points (labels_of r.now))) }
{
    let kept = all_homes_in(alloc, r, &r.bank.form.live, h)?;
    let bank = r.bank;
    slots_for(alloc, bank.form.ssu, &bank.form.point_ids, &kept)
}

/// Numbers for the values with a home in a bank of registers: by hints, else the least that are free.
fn registers_in(alloc: Global, r: &Reading<'_>, h: Bank) -> Result<Slots, NoMemory>
    requires { single (labels_of r.now) ≡ true }
    ensures { IfOk result (λ m. All (λ q. length (filter (λ x. pure.has_home (says r.now) x h) q.before) ≤ 15) (points (labels_of r.now)) → All (HaveNumbers (λ x. pure.has_home (says r.now) x h) (get nat_eq m) 15) (points (labels_of r.now))) }
{
    let hinted = hinted_in(alloc, r, h)?;
    match hinted {
        Some(numbers) => Ok(numbers),
        None => least_in(alloc, r, h),
    }
}

/// Numbers for the homes of all values. How many hints are met isn't promised.
pub fn number_homes(alloc: Global, r: &Reading<'_>) -> Result<BankNumbers, NoMemory>
    requires { single (labels_of r.now) ≡ true }
    ensures { IfOk result (λ n. (slots : ℕ) → slots ≤ 128 → IsFeasible (labels_of r.now) slots (vector r.now.x.now.on.items) → AreNumbered (labels_of r.now) slots (says r.now) (numbers_of n)) }
{
    let a = registers_in(alloc, r, Bank::A)?;
    let b = registers_in(alloc, r, Bank::B)?;
    let m = least_in(alloc, r, Bank::M)?;
    Ok(BankNumbers { a, b, m })
}
