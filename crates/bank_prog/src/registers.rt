//! The values that are in registers at one point.

use crate::Bank;
use nv_base::NoMemory;
use std::alloc::Global;

/// So many values fit a bank: one of its 16 registers is the compiler's own.
pub const BANK_ROOM: usize = 15;

/// A value in a register, and the point of its next use.
#[derive(Clone, Copy, Drop)]
pub struct LiveValue {
    pub var: u32,
    pub next: u32,
}

/// The values that are in registers at a point.
#[derive(Drop)]
pub struct Registers {
    a: Vec<LiveValue>,
    b: Vec<LiveValue>,
}

/// The index of the value whose next use is farthest, where that is after a point.
fn farthest(live: &[LiveValue], after: u32) -> Option<usize> {
    let mut best: Option<usize> = None;
    let mut next = after;
    for (i, it) in live.iter().enumerate() {
        if it.next > next {
            best = Some(i);
            next = it.next;
        }
    }
    best
}

/// The point of a value's next use.
fn next_at(live: &[LiveValue], i: usize) -> u32 {
    match live.get(i) {
        Some(it) => it.next,
        None => 0,
    }
}

/// Puts a value in place of another one, which is answered.
fn replace(live: &mut [LiveValue], i: usize, it: LiveValue) -> Option<u32> {
    let entry = live.get_mut(i)?;
    let was = entry.var;
    *entry = it;
    Some(was)
}

impl Registers {
    /// No value yet.
    pub fn new(alloc: Global) -> Registers {
        Registers {
            a: Vec::new(alloc),
            b: Vec::new(alloc),
        }
    }

    /// Puts a value into bank A or B.
    pub fn add(&mut self, bank: Bank, it: LiveValue) -> Result<(), NoMemory> {
        match bank {
            Bank::A => self.a.push(it)?,
            Bank::B => self.b.push(it)?,
            Bank::M | Bank::T | Bank::L | Bank::A15 | Bank::W => {}
        }
        Ok(())
    }

    /// Whether bank A, or else bank B, has room.
    pub fn has_room(&self, is_a: bool) -> bool {
        if is_a {
            self.a.len() < BANK_ROOM
        } else {
            self.b.len() < BANK_ROOM
        }
    }

    /// Spills the value of bank A, or else of bank B, whose next use is farthest, where that is after the next use of the new value.
    /// The bank, and the spilled value.
    pub fn spill(&mut self, it: LiveValue, may_be_a: bool) -> Option<(Bank, u32)> {
        let in_b = farthest(&self.b, it.next);
        if may_be_a {
            let least = match in_b {
                Some(i) => next_at(&self.b, i),
                None => it.next,
            };
            if let Some(i) = farthest(&self.a, least) {
                return Some((Bank::A, replace(&mut self.a, i, it)?));
            }
        }
        Some((Bank::B, replace(&mut self.b, in_b?, it)?))
    }
}
