//! Uses, found by their serves, and what is asked of all uses of a value.

ghost use Rattle.std.specs.Prelude.{◌≡◌, ◌+◌, nat_eq, nat_lt, nat_le, ◌&&◌, ◌||◌, count_by};
ghost use Rattle.std.specs.List.{list_any, list_all};
ghost use Rattle.ssu_ir.specs.View.{labels_view};
ghost use Rattle.place_plan.specs.Fits as rules;
ghost use Rattle.place_plan.specs.Order.{IsInOrder};
ghost use Rattle.place_plan.specs.Plan.{plan_view};
ghost use Rattle.place_plan.specs.inner.UseViews.{use_view};
ghost use Rattle.place_ir_checks.specs.inner.Checks as checks;
ghost use Rattle.place_ir_checks.specs.inner.Checks.{word_place, found};
ghost use Rattle.place_ir_checks.specs.inner.NodeLookups.{found_use, below_at};

use crate::pieces::{item, use_name, use_role};
use crate::points::{node_at, reaches, value_of};
use crate::registers::{Word, among, is_address_at, is_at, is_ending_at, is_operand_at};
use nv_base::Mem;
use place_plan::{Place, Placement, Role, Serve, Use};
use ssu_ir::Ssu;

/// The use that a serve is for.
pub fn use_of(s: &Ssu, serve: &Serve) -> Use
    ensures { use_view result ≡ found_use (labels_view s.now) serve.now }
{
    match node_at(s, serve.point as u128) {
        Some(n) => Use {
            point: serve.point,
            operand: serve.operand as u32,
            value: value_of(s, use_name(n, serve.operand as usize)),
            role: use_role(n, serve.operand),
        },
        None => Use {
            point: serve.point,
            operand: serve.operand as u32,
            value: value_of(s, 0),
            role: Role::Operand,
        },
    }
}

/// Whether a use is served from a write register.
pub fn is_early(p: &Placement, u: Use) -> bool
    requires { IsInOrder (plan_view p.now) }
    ensures { result ≡ rules.is_early (plan_view p.now) (use_view u) }
{
    p.serve_of(u.point as u128, u.operand as u128)
        .0
        .is_written()
}

/// The write register of a written word.
pub fn word_of(p: &Placement, u: Use) -> Word
    requires { IsInOrder (plan_view p.now) }
    ensures { word_place result ≡ rules.word_register (plan_view p.now) (use_view u) }
{
    match u.role {
        Role::Operand => Word::Other,
        Role::Address => Word::Other,
        Role::Written(m, i) => word_at(m, p.first_of(u.point as u128) as u64 + i as u64),
        Role::Argument(_, _) => Word::Other,
        Role::Ending(_) => Word::Other,
    }
}

fn word_at(m: Mem, k: u64) -> Word
    ensures { word_place result ≡ rules.write_place m k }
{
    match m {
        Mem::Sram => Word::S(k),
        Mem::Sdram => Word::SD(k),
        Mem::Scratch => Word::S(k),
    }
}

/// Whether a value has a use.
pub fn is_used(s: &Ssu, p: &Placement, x: u32) -> bool
    ensures { result ≡ list_any (checks.is_of x) (found (labels_view s.now) (plan_view p.now)) }
{
    for serve in &p.serves {
        if use_of(s, serve).value == x {
            return true;
        }
    }
    false
}

/// Whether a use of a value is served from a read register.
pub fn stays(s: &Ssu, p: &Placement, x: u32) -> bool
    requires { IsInOrder (plan_view p.now) }
    ensures { result ≡ list_any (checks.is_kept (plan_view p.now) x) (found (labels_view s.now) (plan_view p.now)) }
{
    for serve in &p.serves {
        if is_kept(p, use_of(s, serve), x) {
            return true;
        }
    }
    false
}

fn is_kept(p: &Placement, u: Use, x: u32) -> bool
    requires { IsInOrder (plan_view p.now) }
    ensures { result ≡ checks.is_kept (plan_view p.now) x (use_view u) }
{
    u.value == x && p.serve_of(u.point as u128, u.operand as u128).0.is_read()
}

/// How many uses a value has.
pub fn count_uses(s: &Ssu, p: &Placement, x: u32) -> usize
    ensures { result ≡ count_by (checks.is_of x) (found (labels_view s.now) (plan_view p.now)) }
{
    let mut n = 0;
    for serve in &p.serves {
        if use_of(s, serve).value == x {
            n += 1;
        }
    }
    n
}

/// How many uses of a value are put early.
pub fn count_early(s: &Ssu, p: &Placement, x: u32) -> usize
    requires { IsInOrder (plan_view p.now) }
    ensures { result ≡ count_by (checks.is_early_of (plan_view p.now) x) (found (labels_view s.now) (plan_view p.now)) }
{
    let mut n = 0;
    for serve in &p.serves {
        if is_early_of(p, use_of(s, serve), x) {
            n += 1;
        }
    }
    n
}

fn is_early_of(p: &Placement, u: Use, x: u32) -> bool
    requires { IsInOrder (plan_view p.now) }
    ensures { result ≡ checks.is_early_of (plan_view p.now) x (use_view u) }
{
    u.value == x && is_early(p, u)
}

/// Whether an early use of a value has its register at a place.
pub fn is_put_at(s: &Ssu, p: &Placement, x: u32, q: Place) -> bool
    requires { IsInOrder (plan_view p.now) }
    ensures { result ≡ list_any (checks.is_word_at (plan_view p.now) x q) (found (labels_view s.now) (plan_view p.now)) }
{
    for serve in &p.serves {
        if is_word_at(p, use_of(s, serve), x, q) {
            return true;
        }
    }
    false
}

fn is_word_at(p: &Placement, u: Use, x: u32, q: Place) -> bool
    requires { IsInOrder (plan_view p.now) }
    ensures { result ≡ checks.is_word_at (plan_view p.now) x q (use_view u) }
{
    is_early_of(p, u, x) && is_at(q, word_of(p, u))
}

/// Whether places are the registers of the early uses of a value, in order.
pub fn words_fit(s: &Ssu, p: &Placement, x: u32, qs: &[Place]) -> bool
    requires { IsInOrder (plan_view p.now) }
    ensures { result ≡ checks.words_fit (plan_view p.now) x qs.now (found (labels_view s.now) (plan_view p.now)) }
{
    let mut rest = qs;
    for serve in &p.serves {
        let u = use_of(s, serve);
        if is_early_of(p, u, x) {
            if rest.is_empty() || !is_at(rest[0], word_of(p, u)) {
                return false;
            }
            rest = &rest[1..];
        }
    }
    rest.is_empty()
}

/// Whether each use is served from a home of its value, where it is wanted.
pub fn uses_fit(s: &Ssu, p: &Placement) -> bool
    requires { IsInOrder (plan_view p.now) }
    ensures { result ≡ list_all (checks.use_fits (labels_view s.now) (plan_view p.now)) (found (labels_view s.now) (plan_view p.now)) }
{
    for serve in &p.serves {
        if !use_fits(s, p, use_of(s, serve)) {
            return false;
        }
    }
    true
}

fn use_fits(s: &Ssu, p: &Placement, u: Use) -> bool
    requires { IsInOrder (plan_view p.now) }
    ensures { result ≡ checks.use_fits (labels_view s.now) (plan_view p.now) (use_view u) }
{
    let (from, at) = p.serve_of(u.point as u128, u.operand as u128);
    let home = is_home(p, u.value, from);
    match u.role {
        Role::Operand => home && is_operand_at(p.pass_of(u.point as u128).0, from, at),
        Role::Address => home && is_address_at(from, at),
        Role::Written(_, _) => is_at(at, word_of(p, u)) && (home || from.is(at)),
        Role::Argument(l, i) => home && at.is(p.defined_of(parameter(s, l, i))),
        Role::Ending(i) => home && is_ending_at(at, i),
    }
}

/// Whether a place is a home of a value that lasts.
fn is_home(p: &Placement, x: u32, q: Place) -> bool
    requires { IsInOrder (plan_view p.now) }
    ensures { result ≡ rules.is_home (plan_view p.now) x q }
{
    !q.is_written() && (q.is(p.defined_of(x)) || among(p.copied_of(x), q))
}

/// The parameter of a number of a label.
fn parameter(s: &Ssu, l: u32, i: u32) -> u32
    ensures { result ≡ rules.parameter (labels_view s.now) l i }
{
    match s.labels.get(l as usize) {
        Some(label) => item(&label.params, i as usize),
        None => 0,
    }
}

/// Whether a value is used below a point, or, where `here` is set, at it.
pub fn is_used_below(s: &Ssu, p: &Placement, k: u128, here: bool, x: u32) -> bool
    ensures { result ≡ list_any (checks.is_of_below (labels_view s.now) k here x) (found (labels_view s.now) (plan_view p.now)) }
{
    for serve in &p.serves {
        if is_of_below(s, k, here, use_of(s, serve), x) {
            return true;
        }
    }
    false
}

fn is_of_below(s: &Ssu, k: u128, here: bool, u: Use, x: u32) -> bool
    ensures { result ≡ checks.is_of_below (labels_view s.now) k here x (use_view u) }
{
    u.value == x && ((here && u.point as u128 == k) || is_below(s, k, u.point as u128))
}

/// Whether a point lies below another.
pub fn is_below(s: &Ssu, k: u128, j: u128) -> bool
    ensures { result ≡ (nat_lt k j && nat_le j (k + below_at (labels_view s.now) k)) }
{
    k < j && reaches(s, k, j - k)
}
