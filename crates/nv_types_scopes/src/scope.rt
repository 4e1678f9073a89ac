//! The variables in sight.

ghost use Rattle.std.specs.Prelude.{◌≡◌, ◌-◌, ◌≤◌, ◌∷◌, [], OnOk, length, drop};
ghost use Rattle.nv_ast.specs.Tests.{look_up};

use indexmap::IndexMap;
use nv_ast::Name;
use nv_base::NoMemory;
use std::alloc::Global;
use std::marker::Model;

/// A variable, the number of its type, and that of the variable that it hides.
#[derive(Clone, Copy)]
pub struct Binding<'a> {
    pub name: &'a Name,
    pub bound: usize,
    pub hidden: Option<usize>,
}

/// The variables with the numbers of their types; a newer one hides an earlier one of its name. Contracts
/// see their list, the newest first.
#[derive(Drop)]
pub struct Scope<'a> {
    seen: IndexMap<&'a Name, usize>,
    stack: Vec<Binding<'a>>,
}

impl<'a> Model for Scope<'a> {
    ghost use Rattle.std.specs.Prelude.{List, ℕ};
    ghost use Rattle.nv_types_scopes.specs.inner.Stack.{bindings, IsScope};

    ghost Value = { List (List ℕ × ℕ) };

    ghost view = { λ s. bindings s.stack.items };

    ghost invariant = { λ s. IsScope s.stack.items s.seen.entries };
}

impl<'a> Scope<'a> {
    /// No variables.
    pub fn new(alloc: Global) -> Scope<'a>
        ensures { result ≡ [] }
    {
        Scope {
            seen: IndexMap::new(alloc),
            stack: Vec::new(alloc),
        }
    }

    /// The type of a variable.
    pub fn look_up(&self, name: &'a Name) -> Option<usize>
        ensures { result ≡ look_up name.now self.now }
    {
        self.seen.get(&name).copied()
    }

    /// One more variable.
    pub fn bind(&mut self, name: &'a Name, t: usize) -> Result<(), NoMemory>
        ensures { OnOk result (self.new ≡ (name.now, t) ∷ self.old) }
    {
        let hidden = self.look_up(name);
        self.stack.push(Binding {
            name,
            bound: t,
            hidden,
        })?;
        if self.seen.insert(name, t).is_err() {
            self.stack.pop();
            return Err(NoMemory);
        }
        Ok(())
    }

    /// How many variables were bound.
    pub fn mark(&self) -> usize
        ensures { result ≡ length self.now }
    {
        self.stack.len()
    }

    /// Forgets the variables after a mark.
    pub fn leave(&mut self, mark: usize) -> Result<(), NoMemory>
        ensures { OnOk result (self.new ≡ drop (length self.old - mark) self.old) }
    {
        while self.mark() > mark {
            self.forget()?;
        }
        Ok(())
    }

    // Forgets the newest variable.
    fn forget(&mut self) -> Result<(), NoMemory>
        ensures { OnOk result (self.new ≡ drop 1 self.old) }
    {
        if let Some(newest) = self.stack.pop() {
            let name = newest.name;
            match newest.hidden {
                Some(t) => {
                    self.seen.insert(name, t)?;
                }
                None => {
                    self.seen.swap_remove(&name);
                }
            }
        }
        Ok(())
    }
}
