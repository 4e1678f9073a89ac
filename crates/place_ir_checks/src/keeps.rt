//! What is asked at one point: no register and no slot is wanted twice.

ghost use Rattle.std.specs.Prelude.{◌≡◌, not};
ghost use Rattle.std.specs.List.{list_all, list_any};
ghost use Rattle.ssu_ir.specs.Slots.{node_of};
ghost use Rattle.ssu_ir.specs.Points.{place_values};
ghost use Rattle.ssu_ir.specs.View.{labels_view};
ghost use Rattle.place_plan.specs.Fits as rules;
ghost use Rattle.place_plan.specs.Fits.{general_places};
ghost use Rattle.place_plan.specs.Order.{IsInOrder};
ghost use Rattle.place_plan.specs.Plan.{plan_view};
ghost use Rattle.place_plan.specs.inner.UseViews.{use_view};
ghost use Rattle.place_ir_checks.specs.inner.Checks as checks;
ghost use Rattle.place_ir_checks.specs.inner.Checks.{found, word_place};
ghost use Rattle.place_ir_checks.specs.inner.NodeLookups.{place_at, place_node};

use crate::pieces::use_count;
use crate::points::{has, is_above, node_at, values_at};
use crate::registers::{
    Word, among, different_groups, has_slot, in_read_run, in_write_run, is_first, is_through,
    same_word,
};
use crate::words::{is_below, is_early, is_used, is_used_below, stays, use_of, word_of};
use nv_base::Mem;
use place_plan::{Place, Placement, Use};
use ssu_ir::{Ssu, SsuNode};

// ---- live values

/// Whether a value is live at a point.
fn is_before(s: &Ssu, p: &Placement, k: u128, x: u32) -> bool
    ensures { result ≡ checks.is_before (labels_view s.now) (plan_view p.now) k x }
{
    match node_at(s, k) {
        None => has(values_at(s, k), x),
        Some(_) => is_above(s, k, x) && is_used_below(s, p, k, true, x),
    }
}

/// Whether a value is live at a point that follows another directly.
fn is_after(s: &Ssu, p: &Placement, k: u128, x: u32) -> bool
    ensures { result ≡ checks.is_after (labels_view s.now) (plan_view p.now) k x }
{
    is_known(s, k, x) && is_used_below(s, p, k, false, x)
}

/// Whether a value is defined at a point or above it.
fn is_known(s: &Ssu, k: u128, x: u32) -> bool
    ensures { result ≡ checks.is_known (labels_view s.now) k x }
{
    is_above(s, k, x) || has(values_at(s, k), x)
}

/// Whether no two live values at a point share a place.
pub fn keeps_held(s: &Ssu, p: &Placement, k: u128) -> bool
    requires { IsInOrder (plan_view p.now) }
    ensures { result ≡ list_all (λ h. checks.live_fits (labels_view s.now) (plan_view p.now) k h.var) (plan_view p.now).homes }
{
    for h in &p.homes {
        if !live_fits(s, p, k, h.var) {
            return false;
        }
    }
    true
}

fn live_fits(s: &Ssu, p: &Placement, k: u128, x: u32) -> bool
    requires { IsInOrder (plan_view p.now) }
    ensures { result ≡ checks.live_fits (labels_view s.now) (plan_view p.now) k x }
{
    !is_before(s, p, k, x) || (passes_by(s, p, k, x) && is_apart(s, p, k, x))
}

/// Whether no slot comes through the read register in which a value stays.
fn passes_by(s: &Ssu, p: &Placement, k: u128, x: u32) -> bool
    requires { IsInOrder (plan_view p.now) }
    ensures { result ≡ checks.passes_by (labels_view s.now) (plan_view p.now) k x }
{
    match p.pass_of(k).0 {
        None => true,
        Some(r) => !(Place::L(r).is(p.defined_of(x)) && stays(s, p, x)),
    }
}

/// Whether a value shares no place with another that is live at a point.
fn is_apart(s: &Ssu, p: &Placement, k: u128, x: u32) -> bool
    requires { IsInOrder (plan_view p.now) }
    ensures { result ≡ list_all (λ h. checks.may_meet (labels_view s.now) (plan_view p.now) k x h.var) (plan_view p.now).homes }
{
    for h in &p.homes {
        if !may_meet(s, p, k, x, h.var) {
            return false;
        }
    }
    true
}

fn may_meet(s: &Ssu, p: &Placement, k: u128, x: u32, y: u32) -> bool
    requires { IsInOrder (plan_view p.now) }
    ensures { result ≡ checks.may_meet (labels_view s.now) (plan_view p.now) k x y }
{
    x == y || (values_apart(s, p, x, y) || !is_before(s, p, k, y))
}

/// Whether two values share no general register, no slot and no read register in which they stay.
fn values_apart(s: &Ssu, p: &Placement, x: u32, y: u32) -> bool
    requires { IsInOrder (plan_view p.now) }
    ensures { result ≡ checks.values_apart (labels_view s.now) (plan_view p.now) x y }
{
    general_apart(p, x, y)
        && !(p.defined_of(x).is(p.defined_of(y)) && (stays(s, p, x) && stays(s, p, y)))
}

fn general_apart(p: &Placement, x: u32, y: u32) -> bool
    requires { IsInOrder (plan_view p.now) }
    ensures { result ≡ checks.general_apart (plan_view p.now) x y }
{
    !is_shared(p, y, p.defined_of(x)) && none_shared(p, y, p.copied_of(x))
}

/// Whether none of these places is a general register or slot of a value.
fn none_shared(p: &Placement, y: u32, qs: &[Place]) -> bool
    requires { IsInOrder (plan_view p.now) }
    ensures { result ≡ list_all (λ q. not (checks.is_shared (plan_view p.now) y q)) qs.now }
{
    for q in qs {
        if is_shared(p, y, *q) {
            return false;
        }
    }
    true
}

fn is_shared(p: &Placement, y: u32, q: Place) -> bool
    requires { IsInOrder (plan_view p.now) }
    ensures { result ≡ checks.is_shared (plan_view p.now) y q }
{
    q.is_general() && (q.is(p.defined_of(y)) || among(p.copied_of(y), q))
}

// ---- accesses

/// Whether the words of an access have registers.
pub fn access_fits(s: &Ssu, p: &Placement, k: u128) -> bool
    requires { IsInOrder (plan_view p.now) }
    ensures { result ≡ checks.access_fits (plan_view p.now) k (place_node (place_at (labels_view s.now) k)) }
{
    match node_at(s, k) {
        Some(SsuNode::Read(m, xs, _, _)) => is_first(*m, xs.len(), p.first_of(k)),
        Some(SsuNode::Write(m, _, xs, _)) => is_first(*m, xs.len(), p.first_of(k)),
        _ => true,
    }
}

/// Whether a read fills no register in which another value stays.
pub fn keeps_read(s: &Ssu, p: &Placement, k: u128) -> bool
    requires { IsInOrder (plan_view p.now) }
    ensures { result ≡ checks.keeps_read (labels_view s.now) (plan_view p.now) k (place_node (place_at (labels_view s.now) k)) }
{
    match node_at(s, k) {
        Some(SsuNode::Read(m, xs, _, _)) => spares_all(s, p, k, *m, xs),
        _ => true,
    }
}

fn spares_all(s: &Ssu, p: &Placement, k: u128, m: Mem, xs: &[u32]) -> bool
    requires { IsInOrder (plan_view p.now) }
    ensures { result ≡ list_all (λ h. checks.spares (labels_view s.now) (plan_view p.now) k m xs.now h.var) (plan_view p.now).homes }
{
    for h in &p.homes {
        if !spares(s, p, k, m, xs, h.var) {
            return false;
        }
    }
    true
}

fn spares(s: &Ssu, p: &Placement, k: u128, m: Mem, xs: &[u32], x: u32) -> bool
    requires { IsInOrder (plan_view p.now) }
    ensures { result ≡ checks.spares (labels_view s.now) (plan_view p.now) k m xs.now x }
{
    has(xs, x)
        || (!in_read_run(p.defined_of(x), m, p.first_of(k), xs.len())
            || !(stays(s, p, x) && is_after(s, p, k, x)))
}

// ---- words that wait

/// Whether the words that wait after a point have registers of their own.
pub fn keeps_waiting(s: &Ssu, p: &Placement, k: u128) -> bool
    requires { IsInOrder (plan_view p.now) }
    ensures { result ≡ list_all (checks.word_fits (labels_view s.now) (plan_view p.now) k) (found (labels_view s.now) (plan_view p.now)) }
{
    for serve in &p.serves {
        if !word_fits(s, p, k, use_of(s, serve)) {
            return false;
        }
    }
    true
}

fn word_fits(s: &Ssu, p: &Placement, k: u128, u: Use) -> bool
    requires { IsInOrder (plan_view p.now) }
    ensures { result ≡ checks.word_fits (labels_view s.now) (plan_view p.now) k (use_view u) }
{
    !waits(s, p, k, u) || (is_free(s, p, k, word_of(p, u)) && is_alone(s, p, k, u))
}

/// Whether the word of a use waits after a point.
fn waits(s: &Ssu, p: &Placement, k: u128, u: Use) -> bool
    requires { IsInOrder (plan_view p.now) }
    ensures { result ≡ checks.waits (labels_view s.now) (plan_view p.now) k (use_view u) }
{
    is_early(p, u) && (is_below(s, k, u.point as u128) && is_known(s, k, u.value))
}

/// Whether no slot goes through the register of a word at a point, and no write uses it.
fn is_free(s: &Ssu, p: &Placement, k: u128, w: Word) -> bool
    requires { IsInOrder (plan_view p.now) }
    ensures { result ≡ checks.is_free (plan_view p.now) k (place_node (place_at (labels_view s.now) k)) (word_place w) }
{
    !is_through(w, p.pass_of(k).1) && !is_written(s, p, k, w)
}

fn is_written(s: &Ssu, p: &Placement, k: u128, w: Word) -> bool
    requires { IsInOrder (plan_view p.now) }
    ensures { result ≡ checks.is_written (plan_view p.now) k (place_node (place_at (labels_view s.now) k)) (word_place w) }
{
    match node_at(s, k) {
        Some(SsuNode::Write(m, _, xs, _)) => in_write_run(w, *m, p.first_of(k), xs.len()),
        _ => false,
    }
}

/// Whether no other word that waits has the register of this one.
fn is_alone(s: &Ssu, p: &Placement, k: u128, u: Use) -> bool
    requires { IsInOrder (plan_view p.now) }
    ensures { result ≡ list_all (checks.is_other (labels_view s.now) (plan_view p.now) k (use_view u)) (found (labels_view s.now) (plan_view p.now)) }
{
    for serve in &p.serves {
        if !is_other(s, p, k, u, use_of(s, serve)) {
            return false;
        }
    }
    true
}

fn is_other(s: &Ssu, p: &Placement, k: u128, u: Use, v: Use) -> bool
    requires { IsInOrder (plan_view p.now) }
    ensures { result ≡ checks.is_other (labels_view s.now) (plan_view p.now) k (use_view u) (use_view v) }
{
    (u.point == v.point && u.operand == v.operand)
        || (!same_word(word_of(p, u), word_of(p, v)) || !waits(s, p, k, v))
}

// ---- operands and slots

/// Whether the two operands of an instruction come from different groups of registers.
pub fn operands_fit(s: &Ssu, p: &Placement, k: u128) -> bool
    requires { IsInOrder (plan_view p.now) }
    ensures { result ≡ checks.operands_fit (plan_view p.now) k (place_node (place_at (labels_view s.now) k)) }
{
    match node_at(s, k) {
        Some(SsuNode::Bin(_, _, _, _, _)) => are_different(p, k),
        Some(SsuNode::If(_, _, _, _, _)) => are_different(p, k),
        _ => true,
    }
}

fn are_different(p: &Placement, k: u128) -> bool
    requires { IsInOrder (plan_view p.now) }
    ensures { result ≡ checks.are_different (plan_view p.now) k }
{
    different_groups(p.serve_of(k, 0).1, p.serve_of(k, 1).1)
}

/// Whether registers for slots are named where they are wanted, and only where they may be.
pub fn passes_fit(s: &Ssu, p: &Placement, k: u128) -> bool
    requires { IsInOrder (plan_view p.now) }
    ensures { result ≡ checks.passes_fit (labels_view s.now) (plan_view p.now) k }
{
    let (l, w) = p.pass_of(k);
    reads_fit(s, p, k, l) && writes_fit(s, p, k, w)
}

fn reads_fit(s: &Ssu, p: &Placement, k: u128, l: Option<u8>) -> bool
    requires { IsInOrder (plan_view p.now) }
    ensures { result ≡ checks.reads_fit (labels_view s.now) (plan_view p.now) k l }
{
    match l {
        Some(r) => r < 8 && has_use(s, k),
        None => !reads_slot(s, p, k),
    }
}

fn writes_fit(s: &Ssu, p: &Placement, k: u128, w: Option<u8>) -> bool
    requires { IsInOrder (plan_view p.now) }
    ensures { result ≡ checks.writes_fit (labels_view s.now) (plan_view p.now) k w }
{
    match w {
        Some(r) => r < 8 && any_used(s, p, values_at(s, k)),
        None => !any_to_slot(s, p, is_result(s, k), values_at(s, k)),
    }
}

fn has_use(s: &Ssu, k: u128) -> bool
    ensures { result ≡ checks.has_use (place_node (place_at (labels_view s.now) k)) }
{
    match node_at(s, k) {
        Some(n) => use_count(n) > 0,
        None => false,
    }
}

/// Whether a use of a point is served from a slot.
fn reads_slot(s: &Ssu, p: &Placement, k: u128) -> bool
    requires { IsInOrder (plan_view p.now) }
    ensures { result ≡ checks.reads_slot (plan_view p.now) k (place_node (place_at (labels_view s.now) k)) }
{
    match node_at(s, k) {
        Some(n) => any_from_slot(p, k, use_count(n)),
        None => false,
    }
}

fn any_from_slot(p: &Placement, k: u128, count: u128) -> bool
    requires { IsInOrder (plan_view p.now) }
    ensures { result ≡ checks.any_from_slot (plan_view p.now) k count }
{
    for i in 0..count {
        if p.serve_of(k, i).0.is_slot() {
            return true;
        }
    }
    false
}

/// Whether a node of a point gives one value the result of an operation or a literal.
fn is_result(s: &Ssu, k: u128) -> bool
    ensures { result ≡ checks.is_result (place_node (place_at (labels_view s.now) k)) }
{
    match node_at(s, k) {
        Some(SsuNode::Lit(_, _, _)) => true,
        Some(SsuNode::Una(_, _, _, _)) => true,
        Some(SsuNode::Bin(_, _, _, _, _)) => true,
        _ => false,
    }
}

fn any_used(s: &Ssu, p: &Placement, xs: &[u32]) -> bool
    ensures { result ≡ list_any (checks.used (found (labels_view s.now) (plan_view p.now))) xs.now }
{
    for x in xs {
        if is_used(s, p, *x) {
            return true;
        }
    }
    false
}

/// Whether one of these values is copied to a slot, or, as a result, comes into one.
fn any_to_slot(s: &Ssu, p: &Placement, result_: bool, xs: &[u32]) -> bool
    requires { IsInOrder (plan_view p.now) }
    ensures { result ≡ list_any (checks.to_slot (labels_view s.now) (plan_view p.now) result_) xs.now }
{
    for x in xs {
        if to_slot(s, p, result_, *x) {
            return true;
        }
    }
    false
}

fn to_slot(s: &Ssu, p: &Placement, result_: bool, x: u32) -> bool
    requires { IsInOrder (plan_view p.now) }
    ensures { result ≡ checks.to_slot (labels_view s.now) (plan_view p.now) result_ x }
{
    (has_slot(p.copied_of(x)) || (result_ && p.defined_of(x).is_slot())) && is_used(s, p, x)
}
