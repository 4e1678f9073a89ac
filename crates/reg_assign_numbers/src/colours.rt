//! Numbers for groups, and then for values.

use crate::groups::Groups;
use crate::hinted::FixedWish;
use crate::values::Values;
use nv_base::NoMemory;
use ssu_liveness::Slots;
use std::alloc::Global;
use std::collections::HashMap;

/// The number of each group that has one, and the numbers that the values of each group want.
#[derive(Drop)]
struct Colours {
    colours: Vec<Option<u32>>,
    wanted: Vec<Vec<u32>>,
}

/// Marks a number, if there is a mark for it.
fn mark(marks: &mut [bool], n: u32) {
    if let Some(m) = marks.get_mut(n as usize) {
        *m = true;
    }
}

/// Whether a number has a mark that is off.
fn is_free(marks: &[bool], n: u32) -> bool {
    marks.get(n as usize).copied() == Some(false)
}

/// The first of these numbers whose mark is off.
fn first_free(marks: &[bool], numbers: &[u32]) -> Option<u32> {
    for n in numbers {
        if is_free(marks, *n) {
            return Some(*n);
        }
    }
    None
}

/// The least number whose mark is off.
fn least_free(marks: &[bool]) -> Option<u32> {
    for (n, m) in marks.iter().enumerate() {
        if !*m {
            return u32::try_from(n).ok();
        }
    }
    None
}

impl Colours {
    fn colour(&self, g: usize) -> Option<u32> {
        self.colours.get(g).copied().flatten()
    }

    fn wanted(&self, g: usize) -> &[u32] {
        match self.wanted.get(g) {
            Some(numbers) => numbers,
            None => &[],
        }
    }

    /// A group wants a number.
    fn want(&mut self, g: usize, n: u32) -> Result<(), NoMemory> {
        if let Some(numbers) = self.wanted.get_mut(g) {
            numbers.push(n)?;
        }
        Ok(())
    }

    /// Marks the number of a group, or where it has none yet, among others those that it wants.
    fn mark_group(&self, taken: &mut [bool], sought: &mut [bool], g: usize) {
        match self.colour(g) {
            Some(n) => mark(taken, n),
            None => {
                for n in self.wanted(g) {
                    mark(sought, *n);
                }
            }
        }
    }

    /// Marks the numbers that a value can't have, and those that others want.
    fn mark_beside(
        &self,
        values: &Values,
        groups: &Groups,
        i: usize,
        taken: &mut [bool],
        sought: &mut [bool],
    ) {
        for j in values.beside(i) {
            if let Some(g) = groups.group(*j) {
                self.mark_group(taken, sought, g);
            }
        }
    }

    /// A free number for a group: one that it wants, else the least that no other group wants, else the least.
    fn choice(
        &self,
        alloc: Global,
        values: &Values,
        groups: &Groups,
        g: usize,
        limit: usize,
    ) -> Result<Option<u32>, NoMemory> {
        let mut taken = vec![in alloc; false; limit]?;
        let mut sought = vec![in alloc; false; limit]?;
        for i in groups.members(g) {
            self.mark_beside(values, groups, *i, &mut taken, &mut sought);
        }
        if let Some(n) = first_free(&taken, self.wanted(g)) {
            return Ok(Some(n));
        }
        for n in 0..limit {
            if taken.get(n).copied() == Some(false) && sought.get(n).copied() == Some(false) {
                return Ok(u32::try_from(n).ok());
            }
        }
        Ok(least_free(&taken))
    }
}

/// What the values of each group want.
fn wanting(
    alloc: Global,
    values: &Values,
    groups: &Groups,
    fixed: &[FixedWish],
) -> Result<Colours, NoMemory> {
    let mut all = Colours {
        colours: vec![in alloc; None; values.len()]?,
        wanted: Vec::new(alloc),
    };
    for _ in 0..values.len() {
        all.wanted.push(Vec::new(alloc))?;
    }
    for wish in fixed {
        if let Some(i) = values.place(wish.value) {
            if let Some(g) = groups.group(i) {
                all.want(g, wish.number)?;
            }
        }
    }
    Ok(all)
}

/// The place of a group in the order: those that want a number first, then those beside many values.
fn rank(values: &Values, groups: &Groups, all: &Colours, g: usize) -> (bool, usize, usize) {
    let mut ahead = usize::MAX;
    for i in groups.members(g) {
        ahead = ahead.saturating_sub(values.beside(*i).len());
    }
    (all.wanted(g).is_empty(), ahead, g)
}

/// The groups in the order in which they get their numbers.
fn order_of(
    alloc: Global,
    values: &Values,
    groups: &Groups,
    all: &Colours,
) -> Result<Vec<(bool, usize, usize)>, NoMemory> {
    let mut order = Vec::new(alloc);
    for g in 0..values.len() {
        if !groups.members(g).is_empty() {
            order.push(rank(values, groups, all, g))?;
        }
    }
    order.sort()?;
    Ok(order)
}

/// Numbers for the groups. A group has none where none is free for all its values.
fn colours_of(
    alloc: Global,
    values: &Values,
    groups: &Groups,
    fixed: &[FixedWish],
    limit: usize,
) -> Result<Colours, NoMemory> {
    let mut all = wanting(alloc, values, groups, fixed)?;
    let order = order_of(alloc, values, groups, &all)?;
    for (_, _, g) in &order {
        let n = all.choice(alloc, values, groups, *g, limit)?;
        if let Some(colour) = all.colours.get_mut(*g) {
            *colour = n;
        }
    }
    Ok(all)
}

/// The number of a value's group.
fn number_wanted(values: &Values, groups: &Groups, all: &Colours, x: u32) -> Option<u32> {
    match values.place(x) {
        Some(i) => match groups.group(i) {
            Some(g) => all.colour(g),
            None => None,
        },
        None => None,
    }
}

/// Marks at the numbers that the values of a row have.
fn taken_in(
    alloc: Global,
    numbers: &Slots,
    row: &[u32],
    limit: usize,
) -> Result<Vec<bool>, NoMemory> {
    let mut taken = vec![in alloc; false; limit]?;
    for y in row {
        if let Some(n) = numbers.get(y) {
            mark(&mut taken, *n);
        }
    }
    Ok(taken)
}

/// A number for a value, where one is free: that of its group, else the least.
fn give(
    numbers: &mut Slots,
    x: u32,
    taken: &mut [bool],
    wanted: Option<u32>,
) -> Result<(), NoMemory> {
    let chosen = match wanted {
        Some(n) => {
            if is_free(taken, n) {
                Some(n)
            } else {
                least_free(taken)
            }
        }
        None => least_free(taken),
    };
    if let Some(n) = chosen {
        mark(taken, n);
        numbers.insert(x, n)?;
    }
    Ok(())
}

/// Whether each value of a row has a number.
fn all_have(numbers: &Slots, row: &[u32]) -> bool {
    for x in row {
        if numbers.get(x).is_none() {
            return false;
        }
    }
    true
}

/// Numbers for those values of a row that have none.
fn give_row(
    alloc: Global,
    numbers: &mut Slots,
    row: &[u32],
    values: &Values,
    groups: &Groups,
    all: &Colours,
    limit: usize,
) -> Result<(), NoMemory> {
    if all_have(numbers, row) {
        return Ok(());
    }
    let mut taken = taken_in(alloc, numbers, row, limit)?;
    for x in row {
        if numbers.get(x).is_none() {
            give(
                numbers,
                *x,
                &mut taken,
                number_wanted(values, groups, all, *x),
            )?;
        }
    }
    Ok(())
}

/// Numbers for the values of these rows, in the order of the rows: a value gets the number of its group where no value
/// that is held with it has that, else the least that none of them has.
pub fn numbers_by(
    alloc: Global,
    rows: &[Vec<u32>],
    values: &Values,
    groups: &Groups,
    fixed: &[FixedWish],
    limit: usize,
) -> Result<Slots, NoMemory> {
    let all = colours_of(alloc, values, groups, fixed, limit)?;
    let mut numbers = HashMap::new(alloc);
    for row in rows {
        give_row(alloc, &mut numbers, row, values, groups, &all, limit)?;
    }
    Ok(numbers)
}
