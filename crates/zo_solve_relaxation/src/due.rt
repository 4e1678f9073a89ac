//! The columns, or the rows, that rounds look at.
//!
//! They are sets of bits, and each round goes over its set in the order of the numbers. So neighbours in memory are visited one
//! after another.

use std::alloc::{AllocError, Global};
use std::mem;

/// A bit for each column or row, and one for each word of them that isn't 0.
#[derive(Drop)]
pub struct Marks {
    words: Vec<u64>,
    summary: Vec<u64>,
    is_empty: bool,
}

/// Puts something after a list, where there is room for it.
///
/// Lists of columns and rows have room from the start. Nothing rests on what is put there.
pub fn put<T: Drop>(list: &mut Vec<T>, it: T) {
    let _ = list.push(it);
}

/// A word with one bit.
fn bit(at: u32) -> u64 {
    let one: u64 = 1;
    one << (at % 64)
}

/// Sets a bit of a list of words.
fn set(words: &mut [u64], at: u32) {
    if let Some(word) = words.get_mut((at / 64) as usize) {
        *word |= bit(at);
    }
}

/// Takes a word of a list, and leaves 0.
fn take(words: &mut [u64], at: u32) -> u64 {
    match words.get_mut(at as usize) {
        Some(word) => mem::replace(word, 0),
        None => 0,
    }
}

/// Puts the bits of a word, that stands behind so many words, into a list from a place on. How far it goes then.
fn put_bits(list: &mut [u32], from: usize, word: u64, at: u32) -> usize {
    let mut left = word;
    let mut to = from;
    for _ in 0..64 {
        if left == 0 {
            return to;
        }
        if let Some(it) = list.get_mut(to) {
            *it = at.wrapping_mul(64).wrapping_add(left.trailing_zeros());
        }
        to = to.wrapping_add(1);
        left &= left.wrapping_sub(1);
    }
    to
}

impl Marks {
    /// None of so many.
    pub fn new(alloc: Global, count: usize) -> Result<Marks, AllocError> {
        Ok(Marks {
            words: vec![in alloc; 0; count / 64 + 1]?,
            summary: vec![in alloc; 0; count / 4_096 + 1]?,
            is_empty: true,
        })
    }

    /// Adds one.
    pub fn add(&mut self, it: u32) {
        set(&mut self.words, it);
        set(&mut self.summary, it / 64);
        self.is_empty = false;
    }

    /// Whether there is none.
    pub fn is_empty(&self) -> bool {
        self.is_empty
    }

    /// Takes those of 64 words, and puts them into a list from a place on. How far it goes then.
    fn take_block(&mut self, list: &mut [u32], from: usize, block: u32) -> usize {
        let mut left = take(&mut self.summary, block);
        let mut to = from;
        for _ in 0..64 {
            if left == 0 {
                return to;
            }
            let at = block.wrapping_mul(64).wrapping_add(left.trailing_zeros());
            let word = take(&mut self.words, at);
            to = put_bits(list, to, word, at);
            left &= left.wrapping_sub(1);
        }
        to
    }

    /// Takes all, and puts their numbers into a list, rising. How many there are.
    fn take_all(&mut self, list: &mut [u32]) -> usize {
        let mut count = 0;
        if !self.is_empty {
            for block in 0..self.summary.len() {
                let block = u32::try_from(block).unwrap_or(u32::MAX);
                count = self.take_block(list, count, block);
            }
            self.is_empty = true;
        }
        count
    }
}

/// Those of this round, those of the next one, and those that are set aside.
#[derive(Drop)]
pub struct Due {
    pub now: Marks,
    pub next: Marks,
    aside: Marks,
    /// Those that a round goes over.
    list: Vec<u32>,
}

impl Due {
    /// None of so many.
    pub fn new(alloc: Global, count: usize) -> Result<Due, AllocError> {
        Ok(Due {
            now: Marks::new(alloc, count)?,
            next: Marks::new(alloc, count)?,
            aside: Marks::new(alloc, count)?,
            list: vec![in alloc; 0; count]?,
        })
    }

    /// Takes those of this round. How many there are.
    pub fn take_now(&mut self) -> usize {
        self.now.take_all(&mut self.list)
    }

    /// One of those that were taken.
    pub fn taken(&self, at: usize) -> u32 {
        self.list.get(at).copied().unwrap_or(u32::MAX)
    }

    /// This round ends.
    pub fn turn(&mut self) {
        mem::swap(&mut self.now, &mut self.next)
    }

    /// Sets aside what this round looks at, or takes it back.
    pub fn swap_aside(&mut self) {
        mem::swap(&mut self.now, &mut self.aside)
    }
}
