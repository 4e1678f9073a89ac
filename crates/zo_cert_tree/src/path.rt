//! The place of a walk through a tree of branches.

ghost use Rattle.std.specs.Prelude.{◌≡◌, ◌≢◌, ◌≤◌, ◌^◌, [], length, IfOk, IsTrue, ◌↔◌, slice_get};
ghost use Rattle.zo_model.specs.Program.{IsValid, costs_of};
ghost use Rattle.zo_cert_tree.specs.Fixing.{ones};
ghost use Rattle.zo_cert_tree.specs.inner.Path.{IsFixed, Turns, Enters, begun, current, rest_of};

use std::alloc::{AllocError, Global};
use std::marker::Model;
use zo_model::ZeroOne;

/// Which columns are fixed, and at what: one place a column.
#[derive(Drop)]
pub struct Fixed {
    pub at: Vec<Option<bool>>,
}

/// Which columns are fixed where the walk stands, in which order, and what those fixed at 1 cost.
#[derive(Drop)]
pub struct Path {
    costs: Vec<u32>,
    fixed: Fixed,
    // the columns that are fixed are stack[top..], the last first
    stack: Vec<u32>,
    top: usize,
    spent: u64,
    is_open: bool,
}

impl Model for Path {
    ghost use Rattle.std.specs.Prelude.{drop};
    ghost use Rattle.zo_cert_tree.specs.inner.Path.{Pending, KeepsPlace, open_fixings};

    ghost Value = { Pending };

    ghost view = { λ p. record { costs = p.costs.items; fixings = open_fixings p.is_open p.fixed.at.items (drop p.top p.stack.items) } };

    ghost invariant = { λ p. KeepsPlace p.costs.items p.fixed.at.items p.stack.items p.top p.spent };
}

/// Turns the column from 0 to 1, or frees it where it is 1. Whether it is now 1.
fn turn(fixed: &mut [Option<bool>], column: usize) -> bool
    requires { IsFixed (slice_get fixed.old column) }
    ensures { Turns fixed.old fixed.new column result }
{
    if let Some(false) = fixed[column] {
        fixed[column] = Some(true);
        return true;
    }
    fixed[column] = None;
    false
}

impl Path {
    /// A walk that begins: the whole tree is to come.
    pub fn new(alloc: Global, z: &ZeroOne) -> Result<Path, AllocError>
        requires valid { IsValid z.now }
        ensures { IfOk result (λ p. p ≡ begun z.now.costs.items) }
    {
        let columns = z.costs.len();
        Ok(Path {
            costs: Vec::from_slice(alloc, &z.costs)?,
            fixed: Fixed {
                at: vec![in alloc; None; columns]?,
            },
            stack: vec![in alloc; 0; columns]?,
            top: columns,
            spent: 0,
            is_open: true,
        })
    }

    /// Whether a subtree is still to come.
    pub fn is_open(&self) -> bool
        ensures { IsTrue result ↔ self.now.fixings ≢ [] }
    {
        self.is_open
    }

    /// Whether no subtree is to come.
    pub fn is_done(&self) -> bool
        ensures { IsTrue result ↔ self.now.fixings ≡ [] }
    {
        !self.is_open
    }

    /// The columns that are fixed above the next subtree.
    pub fn fixed(&self) -> &Fixed
        requires { self.now.fixings ≢ [] }
        ensures first { result.now.at.items ≡ current self.now.fixings }
        ensures length { length result.now.at.items ≡ length self.now.costs }
    {
        &self.fixed
    }

    /// What the columns cost that are fixed at 1 above the next subtree.
    pub fn spent(&self) -> u64
        requires { self.now.fixings ≢ [] }
        ensures cost { result ≡ costs_of self.now.costs (ones (current self.now.fixings)) }
        ensures small { result ≤ 2 ^ 46 }
    {
        self.spent
    }

    /// Begins again.
    pub fn restart(&mut self)
        ensures { self.new ≡ begun self.old.costs }
    {
        self.fixed.at.fill(None);
        self.top = self.stack.len();
        self.spent = 0;
        self.is_open = true;
    }

    /// Goes into the two subtrees of a branch on the column `j`. False, and nothing is changed, where it is fixed or isn't there.
    pub fn enter(&mut self, j: u32) -> bool
        requires { self.old.fixings ≢ [] }
        ensures { Enters self.old self.new j result }
    {
        let column = j as usize;
        if column >= self.fixed.at.len() || self.fixed.at[column].is_some() {
            return false;
        }
        self.fixed.at[column] = Some(false);
        self.top -= 1;
        self.stack[self.top] = j;
        true
    }

    /// Leaves the next subtree behind.
    pub fn leave(&mut self)
        requires { self.old.fixings ≢ [] }
        ensures { self.new ≡ record self.old { fixings = rest_of self.old.fixings } }
    {
        while self.top < self.stack.len() {
            let column = self.stack[self.top] as usize;
            let cost = u64::from(self.costs[column]);
            if turn(&mut self.fixed.at, column) {
                self.spent += cost;
                return;
            }
            self.spent -= cost;
            self.top += 1;
        }
        self.is_open = false;
    }
}
