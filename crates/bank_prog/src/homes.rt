//! The bank of each value, by next use.
//!
//! The points are gone over in order. A value that is new at a point goes into the bank of an argument for it, else into A, else into
//! B. Where these are full, the value whose next use is farthest goes into a slot for its whole live range. What is live at a point of a
//! label was defined on the way there, so values that are in a bank together had room in it together.
//!
//! Two operands of one instruction can't both be in A alone. In B they can: the second one is copied to the compiler's register.

use crate::registers::{LiveValue, Registers};
use crate::{Bank, Form, Role, Use};
use nv_base::NoMemory;
use std::alloc::Global;
use std::collections::HashMap;

/// After every point.
const NEVER: u32 = u32::MAX;

/// Of each value its bank.
pub type Homes = HashMap<u32, Bank>;

/// The point of the first use of a value from a point on.
fn next_use(f: &Form<'_>, x: u32, point: u32) -> u32 {
    for u in f.uses_of(x) {
        if u.point >= point {
            return u.point;
        }
    }
    NEVER
}

/// The value of the other operand of an instruction of two.
pub fn other_operand(f: &Form<'_>, u: &Use) -> Option<u32> {
    let summary = f.tables.summaries.get(u.point as usize)?;
    if !summary.two || u.operand > 1 {
        return None;
    }
    let other = summary.uses.get(1 - u.operand as usize)?;
    Some(other.value)
}

/// Whether the value is no operand beside itself or a value in A.
fn may_be_a(f: &Form<'_>, homes: &Homes, x: u32) -> bool {
    for u in f.uses_of(x) {
        if let Some(y) = other_operand(f, u) {
            if y == x || homes.get(&y).copied() == Some(Bank::A) {
                return false;
            }
        }
    }
    true
}

/// The parameter for which a use is an argument.
pub fn parameter_of(f: &Form<'_>, u: &Use) -> Option<u32> {
    match u.role {
        Role::Argument(l, i) => Some(f.parameter(l, i)),
        Role::Operand | Role::Address | Role::Written(_, _) | Role::Ending(_) => None,
    }
}

/// The banks of the values so far, and of arguments for parameters.
#[derive(Drop)]
struct Assigned {
    homes: Homes,
    hints: Homes,
}

impl Assigned {
    /// The bank for a new value, and the value that is spilled for it.
    fn bank_for(
        &self,
        f: &Form<'_>,
        registers: &mut Registers,
        it: LiveValue,
    ) -> (Bank, Option<u32>) {
        let may_be_a = may_be_a(f, &self.homes, it.var);
        let hint = self.hints.get(&it.var).copied();
        if hint == Some(Bank::B) && registers.has_room(false) {
            return (Bank::B, None);
        }
        if may_be_a && registers.has_room(true) {
            return (Bank::A, None);
        }
        if registers.has_room(false) {
            return (Bank::B, None);
        }
        match registers.spill(it, may_be_a) {
            Some((bank, var)) => (bank, Some(var)),
            None => (Bank::M, None),
        }
    }

    /// Assigns a bank to a value, which is a hint for the parameters that it is an argument for.
    fn put(&mut self, f: &Form<'_>, x: u32, bank: Bank) -> Result<(), NoMemory> {
        self.homes.insert(x, bank)?;
        for u in f.uses_of(x) {
            if let Some(parameter) = parameter_of(f, u) {
                self.hints.insert(parameter, bank)?;
            }
        }
        Ok(())
    }

    /// Assigns a bank to a new value.
    fn assign(
        &mut self,
        f: &Form<'_>,
        registers: &mut Registers,
        it: LiveValue,
    ) -> Result<(), NoMemory> {
        let (bank, spilled) = self.bank_for(f, registers, it);
        match spilled {
            Some(var) => self.put(f, var, Bank::M)?,
            None => registers.add(bank, it)?,
        }
        self.put(f, it.var, bank)
    }

    /// Assigns banks to the values that are new at a point.
    fn assign_point(
        &mut self,
        f: &Form<'_>,
        registers: &mut Registers,
        row: &[u32],
        point: u32,
    ) -> Result<(), NoMemory> {
        for x in row {
            let next = next_use(f, *x, point);
            if let Some(bank) = self.homes.get(x).copied() {
                registers.add(bank, LiveValue { var: *x, next })?;
            }
        }
        for x in row {
            if self.homes.get(x).is_none() {
                let next = next_use(f, *x, point);
                self.assign(f, registers, LiveValue { var: *x, next })?;
            }
        }
        Ok(())
    }

    /// Assigns banks to the values that are live at the points.
    fn assign_all(&mut self, alloc: Global, f: &Form<'_>) -> Result<(), NoMemory> {
        for (k, row) in f.live.iter().enumerate() {
            let mut registers = Registers::new(alloc);
            let point = u32::try_from(k).unwrap_or(NEVER);
            self.assign_point(f, &mut registers, row, point)?;
        }
        Ok(())
    }
}

/// The bank of each value that is live at some point.
pub fn homes_of(alloc: Global, f: &Form<'_>) -> Result<Homes, NoMemory> {
    let mut assigned = Assigned {
        homes: HashMap::new(alloc),
        hints: HashMap::new(alloc),
    };
    assigned.assign_all(alloc, f)?;
    let Assigned { homes, .. } = assigned;
    Ok(homes)
}
