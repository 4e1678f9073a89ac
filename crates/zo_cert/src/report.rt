//! Reports: a 0-1 program, a verdict on it, and the certificate of the verdict.

ghost use Rattle.std.specs.Prelude.{◌≡◌, ◌<◌, ◌≤◌, ◌^◌, All, IsTrue, ◌↔◌, length};
ghost use Rattle.zo_model.specs.Program.{cost_of, columns, vector, Feasible};
ghost use Rattle.zo_cert_tree.specs.Certificate.{Holds};
ghost use Rattle.zo_cert_tree.specs.Node.{IsNode};
ghost use Rattle.zo_cert.specs.Report.{IsBlank, IsTrueReport, IsValidReport};
ghost use Rattle.zo_cert_tree.specs.declared.cert.Claim.TheVariants.{Least, Nothing};
ghost use Rattle.zo_cert.specs.declared.report.Verdict.TheVariants as verdicts;

use zo_cert_tree::{Cert, CertNode, Claim, Work, check, is_node, is_spent};
use zo_model::{Assignment, ZeroOne, cost, feasible, is_valid};

/// What a search found.
#[derive(Clone, Copy, Debug, PartialEq, Eq, Drop)]
pub enum Verdict {
    /// The vector meets the rows, and none is cheaper.
    Optimal,
    /// The vector meets the rows, and the search was cut off.
    Feasible,
    /// No vector meets the rows.
    Infeasible,
    /// No vector was found before the search was cut off.
    Spent,
}

/// A program, a verdict on it, and the evidence. Under a verdict without a cost, `x` is all false.
#[derive(Drop)]
pub struct Report {
    /// The words of scratch that a compiler had for values without a register: at most 128, and no check asks more of them.
    pub slots: u32,
    pub budget: u32,
    pub z: ZeroOne,
    pub verdict: Verdict,
    pub x: Assignment,
    pub tree: Cert,
}

/// Whether the vector is all false where the verdict has no cost.
fn is_blank(verdict: Verdict, on: &[bool]) -> bool
    ensures { IsTrue result ↔ IsBlank verdict on.now }
{
    match verdict {
        Verdict::Optimal | Verdict::Feasible => true,
        Verdict::Infeasible | Verdict::Spent => on.iter().all(|v| !*v),
    }
}

/// Whether the tree has 1 to 2^32 - 1 nodes, each within its limits.
fn is_tree(nodes: &[CertNode]) -> bool
    ensures { IsTrue result ↔ ((1 ≤ length nodes.now) × (length nodes.now < 2 ^ 32) × All IsNode nodes.now) }
{
    !nodes.is_empty() && nodes.len() < 1 << 32 && nodes.iter().all(is_node)
}

/// Whether the report keeps the limits of its text: a valid program, slots up to 128, a budget of 1 to 1,000,000, one place
/// a column in `x`, 1 to 2^32 - 1 nodes, names below 2^26, rising rows, multipliers and denominators of 1 at least.
pub fn is_valid_report(r: &Report) -> bool
    ensures { IsTrue result ↔ IsValidReport r.now }
{
    has_limits(r) && is_valid(&r.z) && is_blank(r.verdict, &r.x.on) && is_tree(&r.tree.nodes)
}

/// Whether slots, budget and the length of `x` keep their limits.
fn has_limits(r: &Report) -> bool
    ensures { IsTrue result ↔ ((r.now.slots ≤ 128) × (1 ≤ r.now.budget) × (r.now.budget ≤ 1000000) × (length r.now.x.on.items ≡ columns r.now.z)) }
{
    r.slots <= 128 && 1 <= r.budget && r.budget <= 1_000_000 && r.x.on.len() == r.z.costs.len()
}

/// Whether the report is true: its tree is shaped and its verdict holds.
///
/// The cost that a report's text prints is the cost of `x`, so it is no part of the check.
pub fn check_report(r: &Report, w: &mut Work) -> bool
    requires valid { IsValidReport r.now }
    requires work { w.old ≡ r.now.z.costs.items }
    ensures work { w.new ≡ w.old }
    ensures exact { IsTrue result ↔ IsTrueReport r.now }
    ensures feasible { IsTrue result → r.now.verdict ≡ verdicts.Optimal → Feasible r.now.z (vector r.now.x.on.items) }
    ensures optimal { IsTrue result → r.now.verdict ≡ verdicts.Optimal → Holds r.now.z (Least (cost_of r.now.z (vector r.now.x.on.items))) }
    ensures infeasible { IsTrue result → r.now.verdict ≡ verdicts.Infeasible → Holds r.now.z Nothing }
{
    match r.verdict {
        Verdict::Optimal => {
            feasible(&r.z, &r.x) && check(&r.z, &r.tree, &Claim::Least(cost(&r.z, &r.x)), w)
        }
        Verdict::Feasible => feasible(&r.z, &r.x) && is_spent(&r.z, &r.tree, r.budget, w),
        Verdict::Infeasible => check(&r.z, &r.tree, &Claim::Nothing, w),
        Verdict::Spent => is_spent(&r.z, &r.tree, r.budget, w),
    }
}
