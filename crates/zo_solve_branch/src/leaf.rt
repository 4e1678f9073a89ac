//! From the rounds' multipliers to a leaf.
//!
//! They are rounded over a few coarse denominators, since these make short leaves, and then over the greatest power of two with
//! which all of them fit. A leaf counts only by the bound that is computed as the checker does.

ghost use Rattle.std.specs.Prelude.{◌≡◌, ◌≢◌, [], IfOk, IfSome};
ghost use Rattle.zo_model.specs.Program.{IsValid, columns};
ghost use Rattle.zo_cert_tree.specs.Certificate.{ClosesLeaf};
ghost use Rattle.zo_cert_tree.specs.inner.Leaf.{IsClear};
ghost use Rattle.zo_cert_tree.specs.inner.Path.{current};
ghost use Rattle.zo_cert_tree.specs.Node.{IsNode};

use crate::order::Order;
use crate::tree::Tree;
use std::alloc::{AllocError, Global};
use zo_cert_tree::path::Path;
use zo_cert_tree::{CertNode, Claim, closes, is_node};
use zo_model::ZeroOne;
use zo_solve_relaxation::{ONE, quotient};

/// The denominators, and that of the greatest power of two.
const DENOMINATORS: [u32; 5] = [1, 2, 4, 1_024, 0];
/// The first so many leaves are tried over the coarse ones.
const COARSE_LEAVES: u64 = 32;

impl Tree {
    /// The greatest power of two, at most `ONE`, over which all multipliers fit.
    fn finest(&self) -> i64 {
        let mut top: i64 = 0;
        for row in 0..self.rounds.rows() {
            top = top.max(self.rounds.multiplier(row));
        }
        let mut denominator = ONE;
        let mut m = i128::from(top).wrapping_mul(i128::from(self.rounds.divisor()));
        for _ in 0..22 {
            if m >> 32 != 0 {
                m /= 2;
                denominator /= 2;
            }
        }
        denominator
    }

    /// The multipliers over a denominator, each at least 1; none where one doesn't fit.
    fn multipliers(
        &self,
        alloc: Global,
        d: i64,
        half: i64,
        factor: i64,
    ) -> Result<Option<Vec<(u32, u32)>>, AllocError> {
        let mut list = Vec::new(alloc);
        for i in 0..self.rounds.rows() {
            let value = self.rounds.multiplier(i);
            if value != 0 {
                let rounded = quotient(value.wrapping_mul(d).wrapping_add(half), ONE);
                let m = rounded.wrapping_mul(factor);
                let (Ok(row), Ok(m)) = (u32::try_from(i), u32::try_from(m)) else {
                    return Ok(None);
                };
                if m >= 1 {
                    list.push((row, m))?;
                }
            }
        }
        Ok(Some(list))
    }

    /// The leaf over a denominator of the list, if its multipliers fit.
    pub fn candidate(
        &mut self,
        alloc: Global,
        claim: &Claim,
        denominator: u32,
    ) -> Result<Option<CertNode>, AllocError> {
        let is_coarse = 1 <= denominator && denominator <= 4;
        let has_cost = matches!(claim, Claim::Least(_));
        if is_coarse && (self.leaves >= COARSE_LEAVES || !has_cost) {
            return Ok(None);
        }
        let (d, half) = if denominator == 0 {
            (self.finest(), 0)
        } else {
            (i64::from(denominator), ONE / 2)
        };
        let factor = if has_cost {
            i64::from(self.rounds.divisor())
        } else {
            1
        };
        let size = self.rounds.size();
        self.rounds.spend(size);
        let (Some(list), Ok(d)) = (self.multipliers(alloc, d, half, factor)?, u32::try_from(d))
        else {
            return Ok(None);
        };
        if has_cost {
            Ok(Some(CertNode::Bound(d, list)))
        } else {
            Ok(Some(CertNode::Clash(list)))
        }
    }

    /// The leaf of the multipliers at the root, if they fit.
    pub fn root_leaf(&mut self, alloc: Global) -> Result<Option<CertNode>, AllocError> {
        if !self.rounds.has_prices() {
            return Ok(None);
        }
        self.go_to_root();
        self.candidate(alloc, &Claim::Least(0), 0)
    }
}

/// The node, where it closes the claim.
fn tried(
    z: &ZeroOne,
    claim: &Claim,
    path: &Path,
    weights: &mut [i128],
    node: CertNode,
) -> Option<CertNode>
    requires valid { IsValid z.now }
    requires path { path.now.costs ≡ z.now.costs.items }
    requires more { path.now.fixings ≢ [] }
    requires clear { IsClear (columns z.now) weights.old }
    ensures clear { IsClear (columns z.now) weights.new }
    ensures closes { IfSome result (λ n. ClosesLeaf z.now claim.now (current path.now.fixings) n) }
    ensures within { IfSome result IsNode }
{
    if is_node(&node) {
        if closes(z, claim, path, weights, &node) {
            return Some(node);
        }
    }
    None
}

/// A leaf of the rounds' multipliers that closes the claim, over the first denominator for which there is one.
fn closing(
    alloc: Global,
    z: &ZeroOne,
    claim: &Claim,
    path: &Path,
    weights: &mut [i128],
    order: &Order,
) -> Result<Option<CertNode>, AllocError>
    requires valid { IsValid z.now }
    requires path { path.now.costs ≡ z.now.costs.items }
    requires more { path.now.fixings ≢ [] }
    requires clear { IsClear (columns z.now) weights.old }
    ensures clear { IsClear (columns z.now) weights.new }
    ensures closes { IfOk result (λ leaf. IfSome leaf (λ n. ClosesLeaf z.now claim.now (current path.now.fixings) n)) }
    ensures within { IfOk result (λ leaf. IfSome leaf IsNode) }
{
    for denominator in DENOMINATORS {
        if let Some(node) = order.candidate(alloc, claim, denominator)? {
            if let Some(leaf) = tried(z, claim, path, weights, node) {
                return Ok(Some(leaf));
            }
        }
    }
    Ok(None)
}

/// A leaf that closes the claim where the walk stands, if some rounds find one.
pub fn leaf_of(
    alloc: Global,
    z: &ZeroOne,
    claim: &Claim,
    path: &Path,
    weights: &mut [i128],
    order: &Order,
) -> Result<Option<CertNode>, AllocError>
    requires valid { IsValid z.now }
    requires path { path.now.costs ≡ z.now.costs.items }
    requires more { path.now.fixings ≢ [] }
    requires clear { IsClear (columns z.now) weights.old }
    ensures clear { IsClear (columns z.now) weights.new }
    ensures closes { IfOk result (λ leaf. IfSome leaf (λ n. ClosesLeaf z.now claim.now (current path.now.fixings) n)) }
    ensures within { IfOk result (λ leaf. IfSome leaf IsNode) }
{
    if order.shows(claim, &path.fixed().at) {
        if let Some(leaf) = closing(alloc, z, claim, path, weights, order)? {
            order.note_leaf(&leaf);
            return Ok(Some(leaf));
        }
    }
    order.leave_open();
    Ok(None)
}
