//! Short code, in place.
ghost use Rattle.std.specs.Prelude.{◌≡◌, ◌<◌, ◌++◌, [], ◌∷◌, length};

use std::marker::Model;
use uc_isa::Instr;

/// At most four instructions, in place: it takes no memory. Contracts see it as their list.
#[derive(Drop)]
pub struct Shorter {
    places: [Instr; 4],
    count: usize,
}

impl Model for Shorter {
    ghost use Rattle.std.specs.Prelude.{List, ◌≤◌, take, length};
    ghost use Rattle.uc_isa.specs.declared.instruction.Instr.{Instr};

    ghost Value = { List Instr };

    ghost view = { λ s. take s.count s.places };

    ghost invariant = { λ s. s.count ≤ 4 };
}

impl Shorter {
    /// No instruction.
    pub fn none() -> Shorter
        ensures { result ≡ [] }
    {
        Shorter {
            places: [Instr::Halt { k: 0, n: 0 }; 4],
            count: 0,
        }
    }

    /// One instruction.
    pub fn one(i: Instr) -> Shorter
        ensures { result ≡ i ∷ [] }
    {
        let mut s = Shorter::none();
        s.push(i);
        s
    }

    /// Appends an instruction.
    pub fn push(&mut self, i: Instr)
        requires { length self.old < 4 }
        ensures { self.new ≡ self.old ++ i ∷ [] }
    {
        self.places[self.count] = i;
        self.count += 1;
    }

    /// The instructions.
    pub fn as_slice(&self) -> &[Instr]
        ensures { result.now ≡ self.now }
    {
        &self.places[..self.count]
    }
}
