// Sets of variables.

ghost use Rattle.std.specs.Prelude.{◌≡◌, ℕ, nat_eq, Bool, true, false, not, ◌&&◌, ◌||◌, [], IfOk, OnOk};
ghost use Rattle.nv_base.specs.Sets.{is_in, all_different, different, without, all_vars};
ghost use Rattle.nv_base.specs.Words.{atom_vars, prim_vars};

use flow_ir::uses::in_all;
use nv_base::{Atom, NoMemory, Prim};
use std::alloc::Global;

// Whether a variable is among these.
fn is_among(x: u32, xs: &[u32]) -> bool
    ensures { result ≡ is_in x xs.now }
{
    xs.contains(&x)
}

/// Variables, each once.
#[derive(Drop)]
pub struct Row {
    pub xs: Vec<u32>,
    pub ghost once: { all_different xs.items ≡ true },
}

impl Row {
    /// No variable.
    pub fn new(alloc: Global) -> Row
        ensures { result.xs.items ≡ [] }
    {
        Row {
            xs: Vec::new(alloc),
        }
    }

    /// How many there are.
    pub fn count(&self) -> usize
        ensures { result ≡ different self.now.xs.items }
    {
        self.xs.len()
    }

    /// One variable more, where it isn't there.
    pub fn add(&mut self, x: u32) -> Result<(), NoMemory>
        ensures { OnOk result ((y : ℕ) → is_in y self.new.xs.items ≡ (nat_eq y x || is_in y self.old.xs.items)) }
    {
        if !is_among(x, &self.xs) {
            self.xs.push(x)?;
        }
        Ok(())
    }

    /// The variable of an operand too.
    pub fn add_atom(&mut self, a: Atom) -> Result<(), NoMemory>
        ensures { OnOk result ((y : ℕ) → is_in y self.new.xs.items ≡ (is_in y (atom_vars a) || is_in y self.old.xs.items)) }
    {
        match a {
            Atom::Var(x) => self.add(x),
            Atom::Lit(_) => Ok(()),
        }
    }

    /// Those of a primitive too.
    pub fn add_prim(&mut self, p: Prim) -> Result<(), NoMemory>
        ensures { OnOk result ((y : ℕ) → is_in y self.new.xs.items ≡ (is_in y (prim_vars p) || is_in y self.old.xs.items)) }
    {
        match p {
            Prim::Same(a) => self.add_atom(a),
            Prim::Una(_, a) => self.add_atom(a),
            Prim::Bin(_, a, b) => {
                self.add_atom(b)?;
                self.add_atom(a)
            }
        }
    }

    /// Those of operands too.
    pub fn add_all(&mut self, atoms: &[Atom]) -> Result<(), NoMemory>
        ensures { OnOk result ((y : ℕ) → is_in y self.new.xs.items ≡ (is_in y (all_vars atoms.now) || is_in y self.old.xs.items)) }
    {
        for a in atoms {
            self.add_atom(*a)?;
        }
        Ok(())
    }

    /// These variables too.
    pub fn add_each(&mut self, xs: &[u32]) -> Result<(), NoMemory>
        ensures { OnOk result ((y : ℕ) → is_in y self.new.xs.items ≡ (is_in y xs.now || is_in y self.old.xs.items)) }
    {
        for x in xs {
            self.add(*x)?;
        }
        Ok(())
    }

    /// The row without these variables.
    pub fn without(&self, alloc: Global, gone: &[u32]) -> Result<Row, NoMemory>
        ensures { IfOk result (λ r. (y : ℕ) → is_in y r.xs.items ≡ (is_in y self.now.xs.items && not (is_in y gone.now))) }
    {
        let mut left = Row::new(alloc);
        for x in &self.xs {
            if !is_among(*x, gone) {
                left.add(*x)?;
            }
        }
        Ok(left)
    }

    /// How many are there beside those of operands.
    pub fn beside(&self, atoms: &[Atom]) -> usize
        ensures { result ≡ different (without self.now.xs.items (all_vars atoms.now)) }
    {
        let mut n = 0;
        for x in &self.xs {
            if !in_all(*x, atoms) {
                n += 1;
            }
        }
        n
    }
}
