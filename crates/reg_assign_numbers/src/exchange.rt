//! Numbers that meet more wishes: two numbers are exchanged in a part of the values.
//!
//! Such a part has a value whose wish isn't met. With each of its values it has those of the other number that can't have the number of
//! that value. So the values that had two numbers have two numbers after the exchange. A larger part also has, with each value, those of
//! the same number that want the value's number.

use crate::hinted::Hints;
use crate::values::Values;
use nv_base::NoMemory;
use ssu_liveness::Slots;
use std::alloc::Global;

/// So many values may be in a part.
const PART_LIMIT: usize = 512;
/// So often all values are gone over.
const ROUNDS: usize = 6;
/// How many pairs of values are looked at, of which both can't have one number, before no more numbers are exchanged.
const EFFORT: usize = 16_777_216;

/// By places the wishes of the values, each with its weight: the place of another value whose number is wanted, or a number.
#[derive(Drop)]
struct Wishes {
    same: Vec<Vec<(usize, u32)>>,
    fixed: Vec<Vec<(u32, u32)>>,
}

/// An exchange of two numbers in the part round the value at a place, with what is gained by it.
#[derive(Clone, Copy, Drop)]
struct Trade {
    place: usize,
    old: u32,
    new: u32,
    is_larger: bool,
    gain: i64,
}

/// The numbers of the values by their places, and a part of these places.
#[derive(Drop)]
struct Exchange<'a> {
    values: &'a Values,
    wishes: &'a Wishes,
    numbers: Vec<Option<u32>>,
    part: Vec<usize>,
    is_in_part: Vec<bool>,
    effort: usize,
}

/// What one wish more costs with the new number than with the old.
fn rise(is_met: bool, will_be: bool, weight: u32) -> i64 {
    match (is_met, will_be) {
        (true, false) => i64::from(weight).wrapping_neg(),
        (false, true) => i64::from(weight),
        (true, true) | (false, false) => 0,
    }
}

impl Wishes {
    fn same(&self, i: usize) -> &[(usize, u32)] {
        match self.same.get(i) {
            Some(wishes) => wishes,
            None => &[],
        }
    }

    fn fixed(&self, i: usize) -> &[(u32, u32)] {
        match self.fixed.get(i) {
            Some(wishes) => wishes,
            None => &[],
        }
    }

    /// The value at a place wants the number of another one.
    fn want_same(&mut self, i: usize, j: usize, weight: u32) -> Result<(), NoMemory> {
        if let Some(wishes) = self.same.get_mut(i) {
            wishes.push((j, weight))?;
        }
        Ok(())
    }

    /// The value at a place wants a number.
    fn want(&mut self, i: usize, n: u32, weight: u32) -> Result<(), NoMemory> {
        if let Some(wishes) = self.fixed.get_mut(i) {
            wishes.push((n, weight))?;
        }
        Ok(())
    }
}

/// The wishes of all values.
fn wishes_of(alloc: Global, values: &Values, hints: &Hints) -> Result<Wishes, NoMemory> {
    let mut wishes = Wishes {
        same: Vec::new(alloc),
        fixed: Vec::new(alloc),
    };
    for _ in 0..values.len() {
        wishes.same.push(Vec::new(alloc))?;
        wishes.fixed.push(Vec::new(alloc))?;
    }
    for wish in &hints.pairs {
        if let (Some(i), Some(j)) = (values.place(wish.value), values.place(wish.other)) {
            wishes.want_same(i, j, wish.weight)?;
            wishes.want_same(j, i, wish.weight)?;
        }
    }
    for wish in &hints.fixed {
        if let Some(i) = values.place(wish.value) {
            wishes.want(i, wish.number, wish.weight)?;
        }
    }
    Ok(wishes)
}

impl<'a> Exchange<'a> {
    fn number(&self, i: usize) -> Option<u32> {
        self.numbers.get(i).copied().flatten()
    }

    /// Puts a place into the part.
    fn add(&mut self, i: usize) -> Result<(), NoMemory> {
        if let Some(mark) = self.is_in_part.get_mut(i) {
            if !*mark {
                *mark = true;
                self.part.push(i)?;
            }
        }
        Ok(())
    }

    /// Takes all places out of the part.
    fn clear(&mut self) {
        for i in &self.part {
            if let Some(mark) = self.is_in_part.get_mut(*i) {
                *mark = false;
            }
        }
        self.part.clear();
    }

    /// Puts into the part what a place of it asks for.
    fn add_round(&mut self, i: usize, old: u32, new: u32, is_larger: bool) -> Result<(), NoMemory> {
        let values = self.values;
        let wishes = self.wishes;
        let mine = self.number(i);
        let other = if mine == Some(old) { new } else { old };
        self.effort = self.effort.saturating_sub(values.beside(i).len());
        for j in values.beside(i) {
            if self.number(*j) == Some(other) {
                self.add(*j)?;
            }
        }
        if is_larger {
            for wish in wishes.same(i) {
                if self.number(wish.0) == mine {
                    self.add(wish.0)?;
                }
            }
        }
        Ok(())
    }

    /// Makes the part round a place in which two numbers may be exchanged. Whether it isn't too large.
    fn grow(&mut self, trade: Trade) -> Result<bool, NoMemory> {
        self.clear();
        self.add(trade.place)?;
        for next in 0..PART_LIMIT {
            let Some(i) = self.part.get(next).copied() else {
                return Ok(true);
            };
            if self.effort == 0 {
                return Ok(false);
            }
            self.add_round(i, trade.old, trade.new, trade.is_larger)?;
        }
        Ok(false)
    }

    /// What is gained by another number for the value at a place of the part, whose values all get the other number.
    fn gain_at(&self, i: usize, mine: u32, other: u32) -> i64 {
        let mut gain: i64 = 0;
        for (j, weight) in self.wishes.same(i) {
            if self.is_in_part.get(*j).copied() != Some(true) {
                let number = self.number(*j);
                let is_met = number == Some(mine);
                gain = gain.saturating_add(rise(is_met, number == Some(other), *weight));
            }
        }
        for (number, weight) in self.wishes.fixed(i) {
            gain = gain.saturating_add(rise(*number == mine, *number == other, *weight));
        }
        gain
    }

    /// What is gained by an exchange in the part.
    fn gain(&self, old: u32, new: u32) -> i64 {
        let mut gain: i64 = 0;
        for i in &self.part {
            let is_old = self.number(*i) == Some(old);
            let (mine, other) = if is_old { (old, new) } else { (new, old) };
            gain = gain.saturating_add(self.gain_at(*i, mine, other));
        }
        gain
    }

    /// Exchanges two numbers in the part.
    fn exchange(&mut self, old: u32, new: u32) {
        for i in &self.part {
            if let Some(number) = self.numbers.get_mut(*i) {
                *number = if *number == Some(old) {
                    Some(new)
                } else {
                    Some(old)
                };
            }
        }
    }

    /// What the wishes that aren't met weigh at a place.
    fn unmet(&self, i: usize) -> u64 {
        let mine = self.number(i);
        let mut total: u64 = 0;
        for (j, weight) in self.wishes.same(i) {
            if self.number(*j) != mine {
                total = total.saturating_add(u64::from(*weight));
            }
        }
        for (number, weight) in self.wishes.fixed(i) {
            if Some(*number) != mine {
                total = total.saturating_add(u64::from(*weight));
            }
        }
        total
    }

    /// The other numbers that the value at a place wants.
    fn wanted(&self, alloc: Global, i: usize, mine: u32) -> Result<Vec<u32>, NoMemory> {
        let mut wanted = Vec::new(alloc);
        for (j, _) in self.wishes.same(i) {
            if let Some(number) = self.number(*j) {
                wanted.push(number)?;
            }
        }
        for (number, _) in self.wishes.fixed(i) {
            wanted.push(*number)?;
        }
        wanted.retain(|number| *number != mine);
        wanted.sort_unstable();
        wanted.dedup();
        Ok(wanted)
    }

    /// The trade, if it gains more than the best one.
    fn better(&mut self, best: Trade, trade: Trade) -> Result<Trade, NoMemory> {
        if self.grow(trade)? {
            let gain = self.gain(trade.old, trade.new);
            if gain > best.gain {
                return Ok(Trade { gain, ..trade });
            }
        }
        Ok(best)
    }

    /// The exchange round a place that gains most, made where it gains. Whether it was.
    fn improve_at(&mut self, alloc: Global, place: usize) -> Result<bool, NoMemory> {
        let Some(old) = self.number(place) else {
            return Ok(false);
        };
        let none = Trade {
            place,
            old,
            new: old,
            is_larger: false,
            gain: 0,
        };
        let mut best = none;
        for new in &self.wanted(alloc, place, old)? {
            let trade = Trade { new: *new, ..none };
            best = self.better(best, trade)?;
            let larger = Trade {
                is_larger: true,
                ..trade
            };
            best = self.better(best, larger)?;
        }
        if best.gain <= 0 || !self.grow(best)? {
            return Ok(false);
        }
        self.exchange(best.old, best.new);
        Ok(true)
    }

    /// The places of the values with wishes that aren't met, those that weigh most first.
    fn order(&self, alloc: Global) -> Result<Vec<(u64, usize)>, NoMemory> {
        let mut order = Vec::new(alloc);
        for i in 0..self.values.len() {
            let weight = self.unmet(i);
            if weight > 0 {
                order.push((u64::MAX.wrapping_sub(weight), i))?;
            }
        }
        order.sort()?;
        Ok(order)
    }

    /// Exchanges as long as they gain, for some rounds.
    fn run(&mut self, alloc: Global) -> Result<(), NoMemory> {
        for _ in 0..ROUNDS {
            let mut is_better = false;
            for (_, i) in &self.order(alloc)? {
                is_better |= self.improve_at(alloc, *i)?;
            }
            if !is_better || self.effort == 0 {
                return Ok(());
            }
        }
        Ok(())
    }
}

/// The number of the value at each place.
fn numbers_at(
    alloc: Global,
    values: &Values,
    numbers: &Slots,
) -> Result<Vec<Option<u32>>, NoMemory> {
    let mut all = Vec::new(alloc);
    for i in 0..values.len() {
        let number = match values.var(i) {
            Some(x) => numbers.get(&x).copied(),
            None => None,
        };
        all.push(number)?;
    }
    Ok(all)
}

/// Exchanges numbers of values so that more of the wishes are met.
pub fn exchange_numbers(
    alloc: Global,
    values: &Values,
    hints: &Hints,
    numbers: &mut Slots,
) -> Result<(), NoMemory> {
    let wishes = wishes_of(alloc, values, hints)?;
    let mut exchange = Exchange {
        values,
        wishes: &wishes,
        numbers: numbers_at(alloc, values, numbers)?,
        part: Vec::new(alloc),
        is_in_part: vec![in alloc; false; values.len()]?,
        effort: EFFORT,
    };
    exchange.run(alloc)?;
    for i in 0..values.len() {
        if let (Some(x), Some(number)) = (values.var(i), exchange.number(i)) {
            numbers.insert(x, number)?;
        }
    }
    Ok(())
}
