// Marks on variables, all of which are taken off at once.

ghost use Rattle.std.specs.Prelude.{◌≡◌, ◌≤◌, ℕ, false, ◌∷◌, [], All, OnOk};
ghost use Rattle.nv_base.specs.Sets.{all_vars};
ghost use Rattle.nv_base.specs.Words.{atom_vars, prim_vars};
ghost use Rattle.cps_rules.specs.inner.Marks.{marked_in, Adds};

use nv_base::{Atom, NoMemory, Prim};
use std::alloc::Global;

/// The last round in which each variable was marked, 0 for none: those of the present round are marked.
#[derive(Drop)]
pub struct Marks {
    rounds: Vec<u32>,
    round: u32,
    ghost past: { All (λ n. n ≤ round) rounds.items },
}

impl Marks {
    pub fn new(alloc: Global) -> Marks {
        Marks {
            rounds: Vec::new(alloc),
            round: 0,
        }
    }

    /// Takes all marks off.
    pub fn clear(&mut self) -> Result<(), NoMemory>
        ensures { OnOk result ((x : ℕ) → marked_in self.new.rounds.items self.new.round x ≡ false) }
    {
        match self.round.checked_add(1) {
            Some(next) => {
                self.round = next;
                Ok(())
            }
            None => Err(NoMemory),
        }
    }

    /// Whether a variable is marked.
    pub fn has(&self, x: u32) -> bool
        ensures { result ≡ marked_in self.now.rounds.items self.now.round x }
    {
        let i = x as usize;
        if i < self.rounds.len() {
            self.rounds[i] == self.round
        } else {
            self.round == 0
        }
    }

    // Marks a variable.
    fn add_var(&mut self, x: u32) -> Result<(), NoMemory>
        ensures { OnOk result (Adds (x ∷ []) (marked_in self.old.rounds.items self.old.round) (marked_in self.new.rounds.items self.new.round)) }
    {
        let i = x as usize;
        while self.rounds.len() <= i {
            self.rounds.push(0)?;
        }
        self.rounds[i] = self.round;
        Ok(())
    }

    /// Marks the variable of an operand.
    pub fn add(&mut self, a: Atom) -> Result<(), NoMemory>
        ensures { OnOk result (Adds (atom_vars a) (marked_in self.old.rounds.items self.old.round) (marked_in self.new.rounds.items self.new.round)) }
    {
        match a {
            Atom::Var(x) => self.add_var(x),
            Atom::Lit(_) => Ok(()),
        }
    }

    /// Marks the variables of operands.
    pub fn add_all(&mut self, atoms: &[Atom]) -> Result<(), NoMemory>
        ensures { OnOk result (Adds (all_vars atoms.now) (marked_in self.old.rounds.items self.old.round) (marked_in self.new.rounds.items self.new.round)) }
    {
        for a in atoms {
            self.add(*a)?;
        }
        Ok(())
    }

    /// Marks the variables of a primitive.
    pub fn add_prim(&mut self, p: Prim) -> Result<(), NoMemory>
        ensures { OnOk result (Adds (prim_vars p) (marked_in self.old.rounds.items self.old.round) (marked_in self.new.rounds.items self.new.round)) }
    {
        match p {
            Prim::Same(a) => self.add(a),
            Prim::Una(_, a) => self.add(a),
            Prim::Bin(_, a, b) => {
                self.add(a)?;
                self.add(b)
            }
        }
    }
}
