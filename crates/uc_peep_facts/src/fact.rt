//! What is known at a place: instructions that would change nothing there.

ghost use Rattle.std.specs.Prelude.{◌≡◌, [], slice_get};
ghost use Rattle.uc_peep_facts.specs.Facts.{AreWith, known};

use uc_isa::Instr;

/// A part of what an instruction writes: its target, the flag zero, or both flags.
#[derive(Clone, Copy)]
pub enum Part {
    Target,
    Zero,
    Flags,
}

/// An instruction that would leave this part of what it writes as it is, if it were run again.
#[derive(Clone, Copy)]
pub struct Fact {
    pub instr: Instr,
    pub part: Part,
}

/// At most 32 facts, in place. One more takes the place of the oldest.
#[derive(Clone, Copy)]
pub struct Facts {
    places: [Fact; 32],
    pub(crate) count: usize,
    oldest: usize,
}

impl Facts {
    /// No fact.
    pub fn none() -> Facts
        ensures { known result ≡ [] }
    {
        Facts {
            places: [Fact {
                instr: Instr::Halt { k: 0, n: 0 },
                part: Part::Target,
            }; 32],
            count: 0,
            oldest: 0,
        }
    }

    // How many there are.
    pub(crate) fn len(&self) -> usize
        ensures { result ≡ self.now.count }
    {
        self.count
    }

    // The fact with this number, if there is one.
    pub(crate) fn get(&self, k: usize) -> Option<Fact>
        ensures { result ≡ slice_get (known self.now) k }
    {
        let all: &[Fact] = &self.places;
        if k >= self.count || k >= all.len() {
            return None;
        }
        Some(all[k])
    }

    /// Notes a fact.
    pub(crate) fn push(&mut self, f: Fact)
        ensures { AreWith f (known self.old) (known self.new) }
    {
        if self.count < 32 {
            self.places[self.count] = f;
            self.count += 1;
            return;
        }
        let k = self.oldest % 32;
        self.places[k] = f;
        self.oldest = k + 1;
    }
}
