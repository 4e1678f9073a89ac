//! What is asked of the homes of values.

ghost use Rattle.std.specs.Prelude.{◌≡◌};
ghost use Rattle.std.specs.List.{list_all};
ghost use Rattle.ssu_ir.specs.View.{labels_view};
ghost use Rattle.place_plan.specs.Order.{IsInOrder};
ghost use Rattle.place_plan.specs.Plan.{plan_view};
ghost use Rattle.place_ir_checks.specs.inner.Checks as checks;
ghost use Rattle.place_ir_checks.specs.inner.Checks.{found};
ghost use Rattle.place_ir_checks.specs.inner.NodeLookups.{place_at};
ghost use Rattle.place_plan.specs.Uses.{node_values, place_values};
ghost use Rattle.ssu_ir.specs.Slots.{node_of};

use crate::points::{node_at, values_at};
use crate::registers::{can_be_home, is_read_place, rank, same_bank};
use crate::words::{count_early, count_uses, is_put_at, is_used, words_fit};
use nv_base::Mem;
use place_plan::{Place, Placement};
use ssu_ir::{Ssu, SsuNode};

/// Whether the values of a point have the homes that they want.
pub fn values_fit(s: &Ssu, p: &Placement, k: u128) -> bool
    requires { IsInOrder (plan_view p.now) }
    ensures { result ≡ list_all (checks.value_fits (found (labels_view s.now) (plan_view p.now)) (plan_view p.now)) (place_values k (place_at (labels_view s.now) k)) }
{
    match node_at(s, k) {
        None => params_fit(s, p, values_at(s, k)),
        Some(n) => node_fits(s, p, k, n),
    }
}

fn node_fits(s: &Ssu, p: &Placement, k: u128, n: &SsuNode) -> bool
    requires { IsInOrder (plan_view p.now) }
    ensures { result ≡ list_all (checks.value_fits (found (labels_view s.now) (plan_view p.now)) (plan_view p.now)) (node_values k (node_of n.now)) }
{
    match n {
        SsuNode::Lit(x, _, _) => result_fits(s, p, *x),
        SsuNode::Una(x, _, _, _) => result_fits(s, p, *x),
        SsuNode::Bin(x, _, _, _, _) => result_fits(s, p, *x),
        SsuNode::Clone(_, _, _) => true,
        SsuNode::Read(m, xs, _, _) => fetched_fit(s, p, *m, p.first_of(k), xs),
        SsuNode::Write(_, _, _, _) => true,
        SsuNode::If(_, _, _, _, _) => true,
        SsuNode::Jump(_, _) => true,
        SsuNode::Halt(_, _) => true,
    }
}

fn params_fit(s: &Ssu, p: &Placement, xs: &[u32]) -> bool
    requires { IsInOrder (plan_view p.now) }
    ensures { result ≡ list_all (checks.param_fits (found (labels_view s.now) (plan_view p.now)) (plan_view p.now)) xs.now }
{
    for x in xs {
        if !param_fits(s, p, *x) {
            return false;
        }
    }
    true
}

fn param_fits(s: &Ssu, p: &Placement, x: u32) -> bool
    requires { IsInOrder (plan_view p.now) }
    ensures { result ≡ checks.param_fits (found (labels_view s.now) (plan_view p.now)) (plan_view p.now) x }
{
    p.has_home(x) && is_general_home(s, p, x)
}

fn result_fits(s: &Ssu, p: &Placement, x: u32) -> bool
    requires { IsInOrder (plan_view p.now) }
    ensures { result ≡ checks.result_fits (found (labels_view s.now) (plan_view p.now)) (plan_view p.now) x }
{
    p.has_home(x) && (is_general_home(s, p, x) || is_put_early(s, p, x))
}

/// Whether the words of a read that are used have the homes that they want.
fn fetched_fit(s: &Ssu, p: &Placement, m: Mem, first: u8, xs: &[u32]) -> bool
    requires { IsInOrder (plan_view p.now) }
    ensures { result ≡ checks.fetched_fit (found (labels_view s.now) (plan_view p.now)) (plan_view p.now) m first 0 xs.now }
{
    for (i, x) in xs.iter().enumerate() {
        if !fetched_fits(s, p, m, first, i, *x) {
            return false;
        }
    }
    true
}

fn fetched_fits(s: &Ssu, p: &Placement, m: Mem, first: u8, i: usize, x: u32) -> bool
    requires { IsInOrder (plan_view p.now) }
    ensures { result ≡ checks.fetched_fits (found (labels_view s.now) (plan_view p.now)) (plan_view p.now) m first i x }
{
    !is_used(s, p, x)
        || (p.has_home(x) && (is_read_place(p.defined_of(x), m, first, i) && copies_fit(s, p, x)))
}

/// Whether a value comes into a general register or a slot, and is copied as it should.
fn is_general_home(s: &Ssu, p: &Placement, x: u32) -> bool
    requires { IsInOrder (plan_view p.now) }
    ensures { result ≡ checks.is_general_home (found (labels_view s.now) (plan_view p.now)) (plan_view p.now) x }
{
    can_be_home(p.slots, p.defined_of(x)) && copies_fit(s, p, x)
}

/// Whether a value comes into the write register of its one use.
fn is_put_early(s: &Ssu, p: &Placement, x: u32) -> bool
    requires { IsInOrder (plan_view p.now) }
    ensures { result ≡ checks.is_put_early (found (labels_view s.now) (plan_view p.now)) (plan_view p.now) x }
{
    p.copied_of(x).is_empty() && (count_uses(s, p, x) == 1 && is_put_at(s, p, x, p.defined_of(x)))
}

/// Whether the copies of a value are those that may be, and its early words'.
fn copies_fit(s: &Ssu, p: &Placement, x: u32) -> bool
    requires { IsInOrder (plan_view p.now) }
    ensures { result ≡ checks.copies_fit (found (labels_view s.now) (plan_view p.now)) (plan_view p.now) x }
{
    (p.copied_of(x).is_empty() || (is_used(s, p, x) && !p.defined_of(x).is_slot()))
        && copies_match(s, p, x, p.copied_of(x))
}

fn copies_match(s: &Ssu, p: &Placement, x: u32, copied: &[Place]) -> bool
    requires { IsInOrder (plan_view p.now) }
    ensures { result ≡ checks.copies_match (found (labels_view s.now) (plan_view p.now)) (plan_view p.now) x copied.now }
{
    let early = count_early(s, p, x);
    if early > copied.len() {
        return false;
    }
    let (fills, words) = copied.split_at(copied.len() - early);
    fills_fit(p.slots, p.defined_of(x), fills) && words_fit(s, p, x, words)
}

/// Whether a value that comes into a place may be copied to these: one of each bank at most, in order.
fn fills_fit(slots: u32, defined: Place, fills: &[Place]) -> bool
    ensures { result ≡ checks.fills_fit slots defined 0 fills.now }
{
    let mut last = 0;
    for q in fills {
        if !fill_fits(slots, defined, last, *q) {
            return false;
        }
        last = rank(*q);
    }
    true
}

fn fill_fits(slots: u32, defined: Place, last: u8, q: Place) -> bool
    ensures { result ≡ checks.fill_fits slots defined last q }
{
    last < rank(q) && (can_be_home(slots, q) && !same_bank(q, defined))
}
