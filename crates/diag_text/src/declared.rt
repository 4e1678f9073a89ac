//! What is declared, and the variables in sight.

use indexmap::IndexMap;
use nv_ast::Name;
use nv_lines::Message;
use std::alloc::Global;

/// Things by name, in the order of their declarations. Where memory runs out some are missing, and `is_short` tells.
#[derive(Drop)]
pub struct Declared<'a, T> {
    entries: IndexMap<&'a Name, T>,
    names: Vec<&'a Name>,
    is_short: bool,
}

impl<'a, T: Copy + Drop> Declared<'a, T> {
    /// Nothing.
    pub fn new(alloc: Global) -> Declared<'a, T> {
        Declared {
            entries: IndexMap::new(alloc),
            names: Vec::new(alloc),
            is_short: false,
        }
    }

    /// What is declared under a name.
    pub fn get(&self, name: &'a Name) -> Option<T> {
        self.entries.get(&name).copied()
    }

    /// One more declaration.
    pub fn add(&mut self, name: &'a Name, value: T) {
        if self.entries.insert(name, value).is_err() {
            self.is_short = true;
        }
        if self.names.push(name).is_err() {
            self.is_short = true;
        }
    }

    /// Whether memory ran out for a declaration.
    pub fn is_short(&self) -> bool {
        self.is_short
    }

    /// The names in order.
    pub fn names(&self) -> &[&'a Name] {
        &self.names
    }
}

// A variable, its type, and that of the variable that it hides.
#[derive(Clone, Copy)]
struct Binding<'a> {
    name: &'a Name,
    hidden: Option<usize>,
}

/// The variables with their types; a newer one hides an earlier one of its name. Where memory runs out some are missing, and
/// `is_short` tells.
#[derive(Drop)]
pub struct Scope<'a> {
    seen: IndexMap<&'a Name, usize>,
    stack: Vec<Binding<'a>>,
    // The names that were in sight.
    gone: Vec<&'a Name>,
    is_short: bool,
}

impl<'a> Scope<'a> {
    /// No variables.
    pub fn new(alloc: Global) -> Scope<'a> {
        Scope {
            seen: IndexMap::new(alloc),
            stack: Vec::new(alloc),
            gone: Vec::new(alloc),
            is_short: false,
        }
    }

    /// Whether memory ran out for a variable.
    pub fn is_short(&self) -> bool {
        self.is_short
    }

    /// The type of a variable.
    pub fn get(&self, name: &'a Name) -> Option<usize> {
        self.seen.get(&name).copied()
    }

    /// One more variable.
    pub fn bind(&mut self, name: &'a Name, t: usize) {
        let hidden = self.get(name);
        if self.stack.push(Binding { name, hidden }).is_err() {
            self.is_short = true;
        }
        self.set(name, t)
    }

    fn set(&mut self, name: &'a Name, t: usize) {
        if self.seen.insert(name, t).is_err() {
            self.is_short = true;
        }
    }

    /// How many variables were bound.
    pub fn mark(&self) -> usize {
        self.stack.len()
    }

    /// Forgets the variables after a mark.
    pub fn leave(&mut self, mark: usize) {
        for _ in mark..self.stack.len() {
            self.forget();
        }
    }

    // Forgets the newest variable.
    fn forget(&mut self) {
        if let Some(newest) = self.stack.pop() {
            let name = newest.name;
            if self.gone.push(name).is_err() {
                self.is_short = true;
            }
            match newest.hidden {
                Some(t) => self.set(name, t),
                None => {
                    self.seen.swap_remove(&name);
                }
            }
        }
    }

    /// Whether a variable of this name was in sight.
    pub fn was_bound(&self, name: &Name) -> bool {
        for gone in self.gone.iter() {
            if *gone == name {
                return true;
            }
        }
        false
    }

    /// No variable was in sight.
    pub fn forget_gone(&mut self) {
        self.gone.clear();
    }

    /// The names of the variables.
    pub fn names(&self, alloc: Global, out: &mut Message) -> Vec<&'a Name> {
        let mut names = Vec::new(alloc);
        for it in self.stack.iter() {
            out.keep(&mut names, it.name);
        }
        names
    }
}
