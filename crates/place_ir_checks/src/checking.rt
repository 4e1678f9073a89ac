//! Whether a placement fits a form. The test takes no memory: points, values and uses are found again
//! wherever they are wanted.

ghost use Rattle.std.specs.Prelude.{◌≡◌, ◌&&◌, true, None, drop, length, map};
ghost use Rattle.std.specs.List.{list_all};
ghost use Rattle.ssu_ir.specs.Points.{points};
ghost use Rattle.ssu_ir.specs.Single.{single};
ghost use Rattle.ssu_ir.specs.View.{labels_view};
ghost use Rattle.place_plan.specs.Fits.{Fits};
ghost use Rattle.place_plan.specs.Order.{IsInOrder};
ghost use Rattle.place_plan.specs.Plan.{plan_view};
ghost use Rattle.place_ir_checks.specs.inner.Checks as checks;
ghost use Rattle.place_ir_checks.specs.inner.Checks.{found};
ghost use Rattle.place_ir_checks.specs.inner.NodeLookups.{place_at, place_node};

use crate::keeps::{access_fits, keeps_held, keeps_read, keeps_waiting, operands_fit, passes_fit};
use crate::pieces::use_count;
use crate::points::{count, has, node_at, point_id_at, values_at};
use crate::values::values_fit;
use crate::words::{is_used, uses_fit};
use place_plan::{Placement, Serve};
use ssu_ir::{Ssu, SsuNode};

/// Whether a placement fits a form: whether each value has a home, each access its registers, each use
/// is served from a home of its value, and no register or slot is wanted twice at a point.
///
/// The time grows as about the fourth power of the number of points.
pub fn fits(s: &Ssu, p: &Placement) -> bool
    requires single { single (labels_view s.now) ≡ true }
    ensures fits { result ≡ true → Fits (labels_view s.now) (plan_view p.now) }
    ensures only_fits { Fits (labels_view s.now) (plan_view p.now) → result ≡ true }
{
    does_fit(s, p)
}

fn does_fit(s: &Ssu, p: &Placement) -> bool
    requires { single (labels_view s.now) ≡ true }
    ensures { result ≡ checks.does_fit (labels_view s.now) (plan_view p.now) }
{
    if !lists_fit(s, p) {
        return false;
    }
    uses_fit(s, p) && points_fit(s, p)
}

/// Whether homes, accesses, serves and passes are listed as they should.
fn lists_fit(s: &Ssu, p: &Placement) -> bool
    ensures { result ≡ checks.lists_fit (labels_view s.now) (plan_view p.now) }
{
    p.slots <= 128
        && (homes_fit(s, p) && (firsts_fit(s, p) && (serves_fit(s, p) && passes_listed(s, p))))
}

/// Whether the tests hold at each point.
fn points_fit(s: &Ssu, p: &Placement) -> bool
    requires { IsInOrder (plan_view p.now) }
    ensures { result ≡ checks.all_below (checks.point_fits (labels_view s.now) (plan_view p.now)) (length (points (labels_view s.now))) }
{
    for k in 0..count(s) {
        if !point_fits(s, p, k) {
            return false;
        }
    }
    true
}

fn point_fits(s: &Ssu, p: &Placement, k: u128) -> bool
    requires { IsInOrder (plan_view p.now) }
    ensures { result ≡ checks.point_fits (labels_view s.now) (plan_view p.now) k }
{
    values_fit(s, p, k)
        && (access_fits(s, p, k)
            && (keeps_held(s, p, k)
                && (keeps_read(s, p, k)
                    && (keeps_waiting(s, p, k) && (operands_fit(s, p, k) && passes_fit(s, p, k))))))
}

// ---- homes

fn homes_fit(s: &Ssu, p: &Placement) -> bool
    ensures { result ≡ checks.homes_fit (labels_view s.now) (plan_view p.now) }
{
    homes_rise(p) && homes_wanted(s, p)
}

/// Whether homes come by rising variable.
fn homes_rise(p: &Placement) -> bool
    ensures { result ≡ checks.rise None (map (λ h. h.var) (plan_view p.now).homes) }
{
    let mut last = None;
    for h in &p.homes {
        if !follows(last, h.var) {
            return false;
        }
        last = Some(h.var);
    }
    true
}

/// Whether a number is above the last one.
fn follows(last: Option<u32>, x: u32) -> bool
    ensures { result ≡ checks.follows last x }
{
    match last {
        Some(y) => y < x,
        None => true,
    }
}

fn homes_wanted(s: &Ssu, p: &Placement) -> bool
    ensures { result ≡ list_all (λ h. checks.is_wanted (labels_view s.now) (plan_view p.now) h.var) (plan_view p.now).homes }
{
    for h in &p.homes {
        if !is_wanted(s, p, h.var) {
            return false;
        }
    }
    true
}

/// Whether a value wants a home.
fn is_wanted(s: &Ssu, p: &Placement, x: u32) -> bool
    ensures { result ≡ checks.is_wanted (labels_view s.now) (plan_view p.now) x }
{
    for k in 0..count(s) {
        if wants_at(s, p, k, x) {
            return true;
        }
    }
    false
}

fn wants_at(s: &Ssu, p: &Placement, k: u128, x: u32) -> bool
    ensures { result ≡ checks.wants_at (labels_view s.now) (plan_view p.now) x k }
{
    has(values_at(s, k), x) && (!is_read(s, k) || is_used(s, p, x))
}

fn is_read(s: &Ssu, k: u128) -> bool
    ensures { result ≡ checks.is_read (place_node (place_at (labels_view s.now) k)) }
{
    match node_at(s, k) {
        Some(SsuNode::Read(_, _, _, _)) => true,
        _ => false,
    }
}

// ---- accesses, serves and passes

/// Whether the points of the accesses are those that are listed, in order.
fn firsts_fit(s: &Ssu, p: &Placement) -> bool
    ensures { result ≡ checks.firsts_fit (map (λ f. f.point) (plan_view p.now).firsts) 0 (points (labels_view s.now)) }
{
    let mut rest = &p.firsts[..];
    for k in 0..count(s) {
        if is_access(s, k) {
            if rest.is_empty() || rest[0].point as u128 != k {
                return false;
            }
            rest = &rest[1..];
        }
    }
    rest.is_empty()
}

fn is_access(s: &Ssu, k: u128) -> bool
    ensures { result ≡ checks.is_access (place_node (place_at (labels_view s.now) k)) }
{
    match node_at(s, k) {
        Some(SsuNode::Read(_, _, _, _)) => true,
        Some(SsuNode::Write(_, _, _, _)) => true,
        _ => false,
    }
}

/// Whether the uses are those that are listed, in order.
fn serves_fit(s: &Ssu, p: &Placement) -> bool
    ensures { result ≡ checks.serves_fit p.now.serves.items 0 (points (labels_view s.now)) }
{
    let mut rest = &p.serves[..];
    for k in 0..count(s) {
        let many = uses_at(s, k);
        if !begins(rest, k, many) {
            return false;
        }
        rest = past(rest, many);
    }
    rest.is_empty()
}

/// The serves past the first ones.
fn past(serves: &[Serve], many: u128) -> &[Serve]
    ensures { result.now ≡ drop many serves.now }
{
    if (serves.len() as u128) < many {
        return &[];
    }
    &serves[many as usize..]
}

/// How many uses a point has.
fn uses_at(s: &Ssu, k: u128) -> u128
    ensures { result ≡ checks.uses_at (place_node (place_at (labels_view s.now) k)) }
{
    match node_at(s, k) {
        Some(n) => use_count(n),
        None => 0,
    }
}

/// Whether so many serves of a point come first, one for each operand in order.
fn begins(serves: &[Serve], k: u128, many: u128) -> bool
    ensures { result ≡ checks.begins k many serves.now }
{
    if (serves.len() as u128) < many {
        return false;
    }
    for (i, serve) in serves[..many as usize].iter().enumerate() {
        if !is_for(serve, k, i) {
            return false;
        }
    }
    true
}

fn is_for(serve: &Serve, k: u128, i: usize) -> bool
    ensures { result ≡ checks.is_for k i serve.now }
{
    serve.point as u128 == k && serve.operand as usize == i
}

/// Whether the passes are at points of the form, by rising point.
fn passes_listed(s: &Ssu, p: &Placement) -> bool
    ensures { result ≡ (checks.rise None (map (λ q. q.point) (plan_view p.now).passes) && list_all (checks.is_there (labels_view s.now)) (plan_view p.now).passes) }
{
    passes_rise(p) && passes_there(s, p)
}

fn passes_rise(p: &Placement) -> bool
    ensures { result ≡ checks.rise None (map (λ q. q.point) (plan_view p.now).passes) }
{
    let mut last = None;
    for q in &p.passes {
        if !follows(last, q.point) {
            return false;
        }
        last = Some(q.point);
    }
    true
}

fn passes_there(s: &Ssu, p: &Placement) -> bool
    ensures { result ≡ list_all (checks.is_there (labels_view s.now)) (plan_view p.now).passes }
{
    for q in &p.passes {
        if q.point as u128 >= count(s) {
            return false;
        }
    }
    true
}
