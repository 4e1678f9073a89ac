// Numbers of variables.

ghost use Rattle.std.specs.Prelude.{◌≡◌, ℕ, ◌<◌, max, nat_eq, true, IfOk, OnOk, if◌then◌else◌};
ghost use Rattle.nv_base.specs.Sets.{is_in};
ghost use Rattle.ssu_make.specs.Uses.{kept, outside};

use nv_base::NoMemory;
use std::alloc::Global;
use std::collections::HashMap;

/// A number for each variable, 0 where none was put.
#[derive(Drop)]
pub struct Counts {
    map: HashMap<u32, u32>,
    // each variable that has a number, and maybe others
    keys: Vec<u32>,
    ghost listed: { (y : ℕ) → 0 < kept map y → is_in y keys.items ≡ true },
}

impl Counts {
    /// All numbers 0.
    pub fn new(alloc: Global) -> Counts
        ensures { (y : ℕ) → kept result.map y ≡ 0 }
    {
        Counts {
            map: HashMap::new(alloc),
            keys: Vec::new(alloc),
        }
    }

    /// The number of a variable.
    pub fn at(&self, x: u32) -> u32
        ensures { result ≡ kept self.now.map x }
    {
        self.map.get(&x).copied().unwrap_or(0)
    }

    /// Gives a variable a number.
    pub fn put(&mut self, x: u32, n: u32) -> Result<(), NoMemory>
        ensures { OnOk result ((y : ℕ) → kept self.new.map y ≡ (if nat_eq y x then n else kept self.old.map y)) }
    {
        self.keys.push(x)?;
        self.map.insert(x, n)?;
        Ok(())
    }

    /// Takes the numbers of variables away.
    pub fn forget(&mut self, xs: &[u32])
        ensures { (y : ℕ) → kept self.new.map y ≡ outside xs.now (kept self.old.map) y }
    {
        for x in xs {
            self.remove(*x);
        }
    }

    fn remove(&mut self, x: u32)
        ensures { (y : ℕ) → kept self.new.map y ≡ (if nat_eq y x then 0 else kept self.old.map y) }
    {
        self.map.remove(&x);
    }

    /// The greater number of each variable.
    pub fn most(self, other: Counts) -> Result<Counts, NoMemory>
        ensures { IfOk result (λ c. (y : ℕ) → kept c.map y ≡ max (kept self.map y) (kept other.map y)) }
    {
        if self.keys.len() < other.keys.len() {
            other.raised(&self)
        } else {
            self.raised(&other)
        }
    }

    // These numbers, raised to others where those are greater.
    fn raised(mut self, other: &Counts) -> Result<Counts, NoMemory>
        ensures { IfOk result (λ c. (y : ℕ) → kept c.map y ≡ max (kept self.map y) (kept other.now.map y)) }
    {
        for x in &other.keys {
            self.raise(*x, other.at(*x))?;
        }
        Ok(self)
    }

    // Raises the number of a variable to n.
    fn raise(&mut self, x: u32, n: u32) -> Result<(), NoMemory>
        ensures { OnOk result ((y : ℕ) → kept self.new.map y ≡ (if nat_eq y x then max n (kept self.old.map y) else kept self.old.map y)) }
    {
        if self.at(x) < n {
            self.put(x, n)?;
        }
        Ok(())
    }
}
