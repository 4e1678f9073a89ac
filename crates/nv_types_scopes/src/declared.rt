//! What is declared.

ghost use Rattle.std.specs.Prelude.{◌≡◌, ◌++◌, ◌∷◌, [], None, OnOk, OnErr, bytes_eq};
ghost use Rattle.indexmap.specs.IndexMap.{insert_entry};
ghost use Rattle.nv_ast.specs.Tests.{look_up};

use indexmap::IndexMap;
use nv_ast::Name;
use nv_base::NoMemory;
use std::alloc::Global;
use std::marker::Model;

/// Things by name, in the order of their declarations. Contracts see the list of their names and of them.
#[derive(Drop)]
pub struct Declared<'a, T> {
    entries: IndexMap<&'a Name, T>,
}

impl<'a, T> Model for Declared<'a, T> {
    ghost use Rattle.std.specs.Prelude.{List, ℕ};
    ghost use Rattle.nv_types_table.specs.inner.Named.{named};

    ghost Value = { List (List ℕ × T) };

    ghost view = { λ d. named d.entries.entries };
}

impl<'a, T: Copy + Drop> Declared<'a, T> {
    /// Nothing.
    pub fn new(alloc: Global) -> Declared<'a, T>
        ensures { result ≡ [] }
    {
        Declared {
            entries: IndexMap::new(alloc),
        }
    }

    /// What is declared under a name.
    pub fn get(&self, name: &'a Name) -> Option<T>
        ensures { result ≡ look_up name.now self.now }
    {
        self.entries.get(&name).copied()
    }

    /// One more declaration. A name that is there keeps its place and gets the value.
    pub fn add(&mut self, name: &'a Name, value: T) -> Result<(), NoMemory>
        ensures new_name { look_up name.now self.old ≡ None → OnOk result (self.new ≡ self.old ++ (name.now, value) ∷ []) }
        ensures entries { OnOk result (self.new ≡ insert_entry bytes_eq self.old name.now value) }
        ensures failed { OnErr result (self.new ≡ self.old) }
    {
        self.entries.insert(name, value)?;
        Ok(())
    }

    /// Lets all go.
    pub fn end(self) {}
}
