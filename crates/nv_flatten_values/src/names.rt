// The functions that are called, by number.

ghost use Rattle.std.specs.Prelude.{◌≡◌, ◌∷◌, ◌++◌, ◌⊎◌, [], Some, slice_get, IfOk, MatchOption, None};
ghost use Rattle.nv_flatten_values.specs.inner.Bounded.{AreOnce};
ghost use Rattle.nv_flatten_values.specs.inner.Simulation.{Extends};
ghost use Rattle.nv_flatten_values.specs.inner.Well.{AreCalled};

use indexmap::IndexSet;
use nv_ast::Name;
use nv_base::NoMemory;
use std::alloc::Global;
use std::marker::Model;

/// Names of functions, numbered from 0 in the order in which they were first met. Contracts see the
/// list of the names.
#[derive(Drop)]
pub struct Names<'a> {
    entries: IndexSet<&'a Name>,
}

impl<'a> Model for Names<'a> {
    ghost use Rattle.std.specs.Prelude.{List, ℕ, map};

    ghost Value = { List (List ℕ) };

    ghost view = { λ d. map (λ x. x.now) d.entries.keys };
}

// A number of so many; there are fewer names than memory holds.
fn small(place: usize) -> Result<u32, NoMemory>
    ensures { IfOk result (λ i. i ≡ place) }
{
    if place > u32::MAX as usize {
        Err(NoMemory)
    } else {
        Ok(place as u32)
    }
}

impl<'a> Names<'a> {
    /// No name.
    pub fn new(alloc: Global) -> Names<'a>
        ensures { result ≡ [] }
    {
        Names {
            entries: IndexSet::new(alloc),
        }
    }

    /// The number of a name, which is a new one where it wasn't met before.
    pub fn number(&mut self, x: &'a Name) -> Result<u32, NoMemory>
        ensures number { IfOk result (λ i. slice_get self.new i ≡ Some x.now) }
        ensures added { (self.new ≡ self.old) ⊎ (self.new ≡ self.old ++ x.now ∷ []) }
        ensures extends { Extends self.old self.new }
        ensures called { IfOk result (λ i. AreCalled self.old self.new (i ∷ [])) }
    {
        let added = self.entries.insert_full(x)?;
        let number = small(added.0)?;
        Ok(number)
    }

    /// The name of a number. No name has two numbers.
    pub fn get(&self, i: usize) -> Option<&'a Name>
        ensures found { MatchOption result (slice_get self.now i ≡ None) (λ x. slice_get self.now i ≡ Some x.now) }
        ensures once { AreOnce self.now }
    {
        self.entries.as_slice().get(i).copied()
    }
}
