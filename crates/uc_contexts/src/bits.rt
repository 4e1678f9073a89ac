//! Sets of numbers, a bit for each.
ghost use Rattle.std.specs.Prelude.{◌≡◌, ◌+◌, ◌%◌, ◌<◌, ◌≤◌, ℕ, false, IfOk};
ghost use Rattle.uc_contexts.specs.Sets.{Numbers, Adds, has};

use nv_base::NoMemory;
use std::alloc::Global;
use std::marker::Model;

/// A set of numbers below a size, with a bit for each. Contracts see the size, and which numbers it has.
#[derive(Drop)]
pub struct Bits {
    size: u32,
    words: Vec<u32>,
}

impl Model for Bits {
    ghost use Rattle.uc_contexts.specs.Sets.{Numbers, AreNumbers};

    ghost Value = { Numbers };

    ghost view = { λ b. record { size = b.size; words = b.words.items } };

    ghost invariant = { λ b. AreNumbers (record { size = b.size; words = b.words.items }) };
}

impl Bits {
    /// None of the numbers below a size.
    pub fn new(alloc: Global, size: u32) -> Result<Bits, NoMemory>
        ensures size { IfOk result (λ b. b.size ≡ size) }
        ensures empty { IfOk result (λ b. (x : ℕ) → has b x ≡ false) }
    {
        let words = vec![in alloc; 0; size as usize / 32 + 1]?;
        Ok(Bits { size, words })
    }

    /// The numbers are below this size.
    pub fn size(&self) -> u32
        ensures size { result ≡ self.now.size }
        ensures within { (x : ℕ) → self.now.size ≤ x → has self.now x ≡ false }
    {
        self.size
    }

    /// Whether a number is in the set; one from the size on never is.
    pub fn contains(&self, x: u32) -> bool
        ensures { result ≡ has self.now x }
    {
        match self.words.get(x as usize / 32) {
            Some(word) => (*word >> (x % 32)) & 1 == 1,
            None => false,
        }
    }

    // Puts a number into the set.
    fn insert(&mut self, x: u64)
        requires { x < self.old.size }
        ensures size { self.new.size ≡ self.old.size }
        ensures has { Adds self.old (λ y. y ≡ x) self.new }
    {
        self.words[(x / 32) as usize] |= 1 << (x % 32);
    }

    // Puts so many numbers whose bits stand in one word into the set, from a first one on.
    fn insert_within(&mut self, first: u64, count: u64)
        requires some { 1 ≤ count }
        requires one_word { first % 32 + count ≤ 32 }
        requires below { first + count ≤ self.old.size }
        ensures size { self.new.size ≡ self.old.size }
        ensures has { Adds self.old (λ y. (first ≤ y) × (y < first + count)) self.new }
    {
        let from = u32::MAX << (first % 32);
        let below = u32::MAX >> (32 - (first % 32 + count));
        self.words[(first / 32) as usize] |= from & below;
    }

    // Puts so many numbers into the set one by one, from a first one on.
    fn insert_each(&mut self, first: u64, count: u64)
        requires { first + count ≤ self.old.size }
        ensures size { self.new.size ≡ self.old.size }
        ensures has { Adds self.old (λ y. (first ≤ y) × (y < first + count)) self.new }
    {
        // The check has to be told that the size fits its type.
        let _size = self.size;
        for x in first..first + count {
            self.insert(x);
        }
    }

    /// Puts so many numbers into the set, from a first one on.
    pub fn insert_from(&mut self, first: u64, count: u64)
        requires { first + count ≤ self.old.size }
        ensures size { self.new.size ≡ self.old.size }
        ensures has { Adds self.old (λ y. (first ≤ y) × (y < first + count)) self.new }
    {
        if count == 0 {
            return;
        }
        if count <= 32 && first % 32 <= 32 - count {
            self.insert_within(first, count);
        } else {
            self.insert_each(first, count);
        }
    }
}
