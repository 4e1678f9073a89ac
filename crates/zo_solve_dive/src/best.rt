//! The best vector of a search so far.

ghost use Rattle.std.specs.Prelude.{◌≡◌, IfSome, IfErr, IfOk, IsTrue, ◌↔◌, Some, false, length};
ghost use Rattle.zo_model.specs.Program.{IsValid, columns, cost_of};
ghost use Rattle.zo_cert_tree.specs.Fixing.{ones};
ghost use Rattle.zo_cert_tree.specs.Searched.{IsMet};
ghost use Rattle.zo_solve_dive.specs.Vector.{AreOnes, IsVector, cost_at, start_cost};
ghost use Rattle.zo_solve_dive.specs.inner.Better.{CostsAsMuch, IsBest, IsCheaper, IsWeaker};

use crate::reach::ones_vector;
use std::alloc::{AllocError, Global};
use zo_cert_tree::Claim;
use zo_model::{Assignment, ZeroOne, cost};

/// The best vector so far, the claim that it is best, and what the start cost.
#[derive(Drop)]
pub struct Best {
    pub x: Option<Assignment>,
    pub claim: Claim,
    pub start: Option<u64>,
}

impl Best {
    /// The start, where there is one.
    pub fn new(z: &ZeroOne, start: Option<Assignment>) -> Best
        requires valid { IsValid z.now }
        requires start { IfSome start (IsVector z.now) }
        ensures best { IsBest z.now result }
        ensures start { result.start ≡ start_cost z.now start }
        ensures x { result.x ≡ start }
    {
        match start {
            Some(x) => {
                let cost = cost(z, &x);
                Best {
                    x: Some(x),
                    claim: Claim::Least(cost),
                    start: Some(cost),
                }
            }
            None => Best {
                x: None,
                claim: Claim::Nothing,
                start: None,
            },
        }
    }

    /// Takes the vector where it is better. Whether it was taken.
    pub fn replace(&mut self, z: &ZeroOne, x: Assignment) -> bool
        requires valid { IsValid z.now }
        requires vector { IsVector z.now x }
        requires best { IsBest z.now self.old }
        ensures best { IsBest z.now self.new }
        ensures start { self.new.start ≡ self.old.start }
        ensures weaker { IsWeaker self.old.claim self.new.claim }
        ensures cheaper { IsTrue result ↔ IsCheaper self.old.claim (cost_at z.now x) }
        ensures taken { IsTrue result → self.new.x ≡ Some x }
        ensures kept { result ≡ false → self.new ≡ self.old }
    {
        let cost = cost(z, &x);
        if costs_as_much(&self.claim, cost) {
            return false;
        }
        self.x = Some(x);
        self.claim = Claim::Least(cost);
        true
    }

    /// Takes the vector in which the columns fixed at 1 are 1, where it is better.
    pub fn improve(
        &mut self,
        alloc: Global,
        z: &ZeroOne,
        fixed: &[Option<bool>],
        spent: u64,
    ) -> Result<(), AllocError>
        requires best { IsBest z.now self.old }
        requires places { length fixed.now ≡ columns z.now }
        requires met { IsMet z.now fixed.now }
        requires spent { spent ≡ cost_of z.now (ones fixed.now) }
        ensures best { IfOk result (λ _. IsBest z.now self.new) }
        ensures weaker { IfOk result (λ _. IsWeaker self.old.claim self.new.claim) }
        ensures start { IfOk result (λ _. self.new.start ≡ self.old.start) }
        ensures at_most { IfOk result (λ _. CostsAsMuch self.new.claim spent) }
        ensures taken { IfOk result (λ _. IsCheaper self.old.claim spent → IfSome self.new.x (AreOnes fixed.now)) }
        ensures kept { IfOk result (λ _. CostsAsMuch self.old.claim spent → self.new ≡ self.old) }
        ensures failed { IfErr result (λ _. self.new ≡ self.old) }
    {
        if costs_as_much(&self.claim, spent) {
            return Ok(());
        }
        let x = ones_vector(alloc, z, fixed)?;
        self.x = Some(x);
        self.claim = Claim::Least(spent);
        Ok(())
    }
}

/// Whether a vector of this cost is no better.
pub fn costs_as_much(claim: &Claim, spent: u64) -> bool
    ensures { IsTrue result ↔ CostsAsMuch claim.now spent }
{
    match claim {
        Claim::Least(t) => *t <= spent,
        Claim::Nothing => false,
    }
}
