//! A choice of the column to branch on by what the rounds of the search say of it.

ghost use Rattle.std.specs.Prelude.{◌≡◌, ◌≤◌, ◌^◌, IfOk, IfSome, length, slice_get, Some, None};
ghost use Rattle.zo_model.specs.Program.{IsValid, columns};
ghost use Rattle.zo_solve_dive.specs.inner.Better.{IsBest, IsWeaker};
ghost use Rattle.zo_solve_dive.specs.Pick.{HasFree};
ghost use Rattle.zo_solve_dive.specs.Vector.{IsVector, start_cost};

use crate::tree::Tree;
use std::alloc::{AllocError, Global};
use std::cell::RefCell;
use zo_cert_tree::{CertNode, Claim, Fixed};
use zo_model::{Assignment, NoMemory, ZeroOne};
use zo_solve_dive::pick::least_free;
use zo_solve_dive::{Best, begin};

/// The rounds of a search, in a cell, so that the closure that names the columns to branch on may share them with the search.
#[derive(Drop)]
pub struct Order {
    tree: RefCell<Tree>,
    alloc: Global,
}

/// The column where it is unfixed, else the least unfixed one.
fn free_or_least(column: Option<u32>, fixed: &[Option<bool>]) -> u32
    requires few { length fixed.now ≤ 2 ^ 26 }
    ensures { HasFree fixed.now → slice_get fixed.now result ≡ Some None }
{
    if let Some(column) = column {
        let place = column as usize;
        if place < fixed.len() && fixed[place].is_none() {
            return column;
        }
    }
    least_free(fixed)
}

impl Order {
    /// The rounds of a program.
    pub fn new(alloc: Global, z: &ZeroOne) -> Result<Order, NoMemory> {
        Order::within(alloc, z, u64::MAX)
    }

    /// Rounds that end at the latest when they visited so many columns, rows and terms.
    pub fn within(alloc: Global, z: &ZeroOne, work: u64) -> Result<Order, NoMemory> {
        let mut tree = Tree::new(alloc, z)?;
        tree.rounds.cap(work);
        Ok(Order {
            tree: RefCell::new(tree),
            alloc,
        })
    }

    /// What the rounds say.
    fn told(&self, z: &ZeroOne, fixed: &[Option<bool>]) -> Option<u32> {
        let Ok(mut tree) = self.tree.try_borrow_mut() else {
            return None;
        };
        tree.choice(self.alloc, z, fixed)
    }

    /// An unfixed column on which a branch gains much; where the rounds tell none, the least unfixed column.
    pub fn choice(&self, z: &ZeroOne, fixed: &Fixed) -> u32
        requires valid { IsValid z.now }
        requires places { length fixed.now.at.items ≡ columns z.now }
        ensures { HasFree fixed.now.at.items → slice_get fixed.now.at.items result ≡ Some None }
    {
        free_or_least(self.told(z, &fixed.at), &fixed.at)
    }

    /// Whether the rounds' multipliers show the claim with these columns fixed.
    pub(crate) fn shows(&self, claim: &Claim, fixed: &[Option<bool>]) -> bool {
        match self.tree.try_borrow_mut() {
            Ok(mut tree) => tree.shows(claim, fixed),
            Err(_) => false,
        }
    }

    /// The leaf of the multipliers over a denominator, if they fit.
    pub(crate) fn candidate(
        &self,
        alloc: Global,
        claim: &Claim,
        denominator: u32,
    ) -> Result<Option<CertNode>, AllocError> {
        match self.tree.try_borrow_mut() {
            Ok(mut tree) => tree.candidate(alloc, claim, denominator),
            Err(_) => Ok(None),
        }
    }

    /// The leaf of the multipliers at the root, as a bound on the cost of every vector, if they fit.
    pub fn root_leaf(&self, alloc: Global) -> Result<Option<CertNode>, AllocError> {
        match self.tree.try_borrow_mut() {
            Ok(mut tree) => tree.root_leaf(alloc),
            Err(_) => Ok(None),
        }
    }

    /// A leaf was closed.
    pub(crate) fn note_leaf(&self, leaf: &CertNode) {
        if let Ok(mut tree) = self.tree.try_borrow_mut() {
            tree.note_leaf(leaf);
        }
    }

    /// A node wasn't closed.
    pub(crate) fn leave_open(&self) {
        if let Ok(mut tree) = self.tree.try_borrow_mut() {
            tree.leave_open();
        }
    }

    /// The vector that a search begins with, of at most so many branches.
    pub fn begin(
        &self,
        alloc: Global,
        z: &ZeroOne,
        start: Option<Assignment>,
        budget: u32,
    ) -> Result<Best, AllocError>
        requires valid { IsValid z.now }
        requires start { IfSome start (IsVector z.now) }
        ensures best { IfOk result (IsBest z.now) }
        ensures start { IfOk result (λ best. best.start ≡ start_cost z.now start) }
    {
        match self.tree.try_borrow_mut() {
            Ok(mut tree) => {
                let best = begin(alloc, z, start, &mut tree.rounds)?;
                tree.begin(budget);
                Ok(best)
            }
            Err(_) => Ok(Best::new(z, start)),
        }
    }

    /// Makes the best vector cheaper where it is time to try.
    pub(crate) fn improve(
        &self,
        alloc: Global,
        z: &ZeroOne,
        best: &mut Best,
    ) -> Result<(), AllocError>
        requires valid { IsValid z.now }
        requires best { IsBest z.now best.old }
        ensures best { IfOk result (λ _. IsBest z.now best.new) }
        ensures start { IfOk result (λ _. best.new.start ≡ best.old.start) }
        ensures weaker { IfOk result (λ _. IsWeaker best.old.claim best.new.claim) }
    {
        match self.tree.try_borrow_mut() {
            Ok(mut tree) => {
                if tree.is_later() {
                    tree.exchange_again(alloc, z, best)
                } else if tree.is_dive_due() {
                    tree.dive(alloc, z, best)
                } else {
                    Ok(())
                }
            }
            Err(_) => Ok(()),
        }
    }
}
