//! Numbers by wishes.

ghost use Rattle.std.specs.Prelude.{All, IfOk, IfSome, nat_eq};
ghost use Rattle.std.specs.HashMap.{get};
ghost use Rattle.ssu_liveness.specs.LiveRows.{items_of};
ghost use Rattle.reg_assign_numbers.specs.Rows.{HasNumbers};

use crate::apart::are_apart;
use crate::colours::numbers_by;
use crate::exchange::exchange_numbers;
use crate::groups::groups_of;
use crate::values::values_of;
use nv_base::NoMemory;
use ssu_liveness::Slots;
use std::alloc::Global;

/// Two values want one number.
#[derive(Clone, Copy, Drop)]
pub struct PairWish {
    pub weight: u32,
    pub value: u32,
    pub other: u32,
}

/// A value wants this number.
#[derive(Clone, Copy, Drop)]
pub struct FixedWish {
    pub weight: u32,
    pub value: u32,
    pub number: u32,
}

/// What values want, the dearest pair first.
#[derive(Drop)]
pub struct Hints {
    pub pairs: Vec<PairWish>,
    pub fixed: Vec<FixedWish>,
}

/// Numbers below a limit for the values of these rows, by wishes; none where those that were found don't tell the values of
/// a row apart, as where a row has more values than there are numbers. Which numbers are found, and how many wishes they
/// meet, isn't promised: any numbers that the contract admits make correct code.
pub fn wished_numbers(
    alloc: Global,
    rows: &[Vec<u32>],
    allocation_hints: &Hints,
    limit: u32,
) -> Result<Option<Slots>, NoMemory>
    ensures { IfOk result (λ found. IfSome found (λ m. All (HasNumbers (get nat_eq m) limit) (items_of rows.now))) }
{
    let values = values_of(alloc, rows)?;
    let groups = groups_of(alloc, &values, &allocation_hints.pairs)?;
    let mut numbers = numbers_by(
        alloc,
        rows,
        &values,
        &groups,
        &allocation_hints.fixed,
        limit as usize,
    )?;
    exchange_numbers(alloc, &values, allocation_hints, &mut numbers)?;
    if are_apart(alloc, &numbers, rows, limit)? {
        Ok(Some(numbers))
    } else {
        Ok(None)
    }
}
