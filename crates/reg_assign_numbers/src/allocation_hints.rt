//! What the values of a bank want: numbers by which no move is needed. A wish weighs as much as its move would run.

use crate::hinted::{FixedWish, Hints, PairWish};
use crate::{Frequencies, ONCE, frequencies_of};
use bank_prog::services::services;
use bank_prog::{Bank, Column, Origin, Role, Use};
use nv_base::NoMemory;
use reg_assign_reading::reading::Reading;
use std::alloc::Global;

/// Whether a use takes its word from a bank to the same bank.
fn stays_in(r: &Reading<'_>, u: Use, h: Bank) -> bool {
    match r.service_on(u, services(u.role)) {
        Some(s) => s.from == h && s.at == h,
        None => false,
    }
}

/// A word and the parameter that takes it in a bank want one number.
fn push_pairs(
    allocation_hints: &mut Hints,
    r: &Reading<'_>,
    h: Bank,
    frequencies: &Frequencies,
) -> Result<(), NoMemory> {
    for u in &r.bank.form.tables.uses {
        if let Role::Argument(l, i) = u.role {
            if stays_in(r, *u, h) {
                allocation_hints.pairs.push(PairWish {
                    weight: frequencies.at(u.point),
                    value: u.value,
                    other: r.bank.form.parameter(l, i),
                })?;
            }
        }
    }
    Ok(())
}

/// In the first bank a parameter of the program wants the place in which it comes.
fn push_parameters(allocation_hints: &mut Hints, r: &Reading<'_>) -> Result<(), NoMemory> {
    for v in &r.bank.form.tables.values {
        if let Origin::Parameter(0, i) = v.origin {
            if r.is_on(Column::Def(v.var, Bank::A)) {
                allocation_hints.fixed.push(FixedWish {
                    weight: ONCE,
                    value: v.var,
                    number: i,
                })?;
            }
        }
    }
    Ok(())
}

/// In the first bank a word of an end wants its place there. A run comes to one end once, so these wishes count half, and no more in loops.
fn push_endings(
    allocation_hints: &mut Hints,
    r: &Reading<'_>,
    frequencies: &Frequencies,
) -> Result<(), NoMemory> {
    for u in &r.bank.form.tables.uses {
        if let Role::Ending(i) = u.role {
            if stays_in(r, *u, Bank::A) {
                allocation_hints.fixed.push(FixedWish {
                    weight: frequencies.at(u.point).min(ONCE).wrapping_shr(1),
                    value: u.value,
                    number: i,
                })?;
            }
        }
    }
    Ok(())
}

/// What the values with a home in a bank want, the dearest wishes first.
pub fn hints_in(alloc: Global, r: &Reading<'_>, h: Bank) -> Result<Hints, NoMemory> {
    let mut allocation_hints = Hints {
        pairs: Vec::new(alloc),
        fixed: Vec::new(alloc),
    };
    let form = &r.bank.form;
    let frequencies = frequencies_of(alloc, form.ssu, &form.point_ids)?;
    push_pairs(&mut allocation_hints, r, h, &frequencies)?;
    if h == Bank::A {
        push_parameters(&mut allocation_hints, r)?;
        push_endings(&mut allocation_hints, r, &frequencies)?;
    }
    allocation_hints
        .pairs
        .sort_by_key(|wish| u32::MAX - wish.weight)?;
    Ok(allocation_hints)
}
