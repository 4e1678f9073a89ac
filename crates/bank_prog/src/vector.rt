//! The vector in which each value is in its bank alone.
//!
//! A value that is read is copied there. Uses are served from there: an operand that can't be used in its bank beside the first one is copied
//! to the compiler's register, and a slot is loaded into the first read register. Words of accesses begin at the first register; nothing
//! stays in a read register, and nothing is copied early.

use crate::homes::{Homes, homes_of, other_operand, parameter_of};
use crate::registers::BANK_ROOM;
use crate::{Bank, BankTables, Column, Form, Role, Use};
use nv_base::NoMemory;
use ssu_liveness::longest_row;
use std::alloc::Global;
use zo_model::Assignment;

/// The bank of a value; A of one that is live nowhere.
fn home(homes: &Homes, x: u32) -> Bank {
    homes.get(&x).copied().unwrap_or(Bank::A)
}

/// Where a word of this bank is an operand, if no other operand is in its way.
fn operand_bank(h: Bank) -> Bank {
    match h {
        Bank::M => Bank::L,
        Bank::A | Bank::B | Bank::T | Bank::L | Bank::A15 | Bank::W => h,
    }
}

/// The bank in which a use has its word.
fn bank_of(f: &Form<'_>, homes: &Homes, u: &Use) -> Bank {
    let h = home(homes, u.value);
    match u.role {
        Role::Operand => match other_operand(f, u) {
            Some(y) if u.operand == 1 && home(homes, y) == h => Bank::A15,
            Some(_) | None => operand_bank(h),
        },
        Role::Address => match h {
            Bank::M => Bank::A15,
            Bank::A | Bank::B | Bank::T | Bank::L | Bank::A15 | Bank::W => h,
        },
        Role::Written(_, _) => Bank::W,
        Role::Argument(_, _) => match parameter_of(f, u) {
            Some(x) => home(homes, x),
            None => Bank::A,
        },
        Role::Ending(_) => Bank::A,
    }
}

/// Whether a use is served from one bank in another.
fn is_served(f: &Form<'_>, homes: &Homes, k: u32, i: u32, h: Bank, p: Bank) -> bool {
    let Some(summary) = f.tables.summaries.get(k as usize) else {
        return false;
    };
    match summary.uses.get(i as usize) {
        Some(u) => home(homes, u.value) == h && bank_of(f, homes, u) == p,
        None => false,
    }
}

/// Whether a slot is read at a point.
fn reads_slot(f: &Form<'_>, homes: &Homes, k: u32) -> bool {
    match f.tables.summaries.get(k as usize) {
        Some(summary) => summary.uses.iter().any(|u| home(homes, u.value) == Bank::M),
        None => false,
    }
}

/// Whether a slot is written at a point.
fn writes_slot(f: &Form<'_>, homes: &Homes, k: u32) -> bool {
    match f.tables.summaries.get(k as usize) {
        Some(summary) => summary.values.iter().any(|v| home(homes, v.var) == Bank::M),
        None => false,
    }
}

/// Whether a column is 1.
fn is_on(f: &Form<'_>, homes: &Homes, c: Column) -> bool {
    match c {
        Column::Def(x, h) => home(homes, x) == h,
        Column::DirectWrite(_, _, _) => false,
        Column::Fill(x, h) => home(homes, x) == h && f.origin_of(x).is_fetched(),
        Column::Stay(_, _) => false,
        Column::EarlyWrite(_, _, _) => false,
        Column::First(_, r) => r == 0,
        Column::Serve(k, i, h, p) => is_served(f, homes, k, i, h, p),
        Column::ReadVia(k, r) => r == 0 && reads_slot(f, homes, k),
        Column::WriteVia(k, r) => r == 0 && writes_slot(f, homes, k),
    }
}

/// Of each column whether it is 1.
fn choices(alloc: Global, bank: &BankTables<'_>, homes: &Homes) -> Result<Vec<bool>, NoMemory> {
    let mut on = Vec::with_capacity(alloc, bank.priced.len())?;
    for (c, _) in &bank.priced {
        on.push(is_on(&bank.form, homes, *c))?;
    }
    Ok(on)
}

/// A choice of banks by next use, where more values are live at a point than fit a bank.
pub fn by_next_use(alloc: Global, bank: &BankTables<'_>) -> Result<Option<Assignment>, NoMemory> {
    if longest_row(&bank.form.live) <= BANK_ROOM {
        return Ok(None);
    }
    let homes = homes_of(alloc, &bank.form)?;
    let on = choices(alloc, bank, &homes)?;
    Ok(Some(Assignment { on }))
}
