//! Conditions that are always one way.

ghost use Rattle.std.specs.Prelude.{◌≡◌, ◌≤◌, ℕ, IfSome};
ghost use Rattle.nv_base.specs.Words.{compares};

use crate::fields::field_bits;
use crate::lint::Lint;
use crate::ranges::are_apart;
use nv_ast::{Expr, Kind, Op, ShiftOp};
use nv_base::Cmp;

/// What a condition always is, where this is seen without running it.
pub fn decided<'a>(lint: &Lint<'a>, e: &'a Expr) -> Option<bool> {
    match &e.kind {
        Kind::Truth(b) => Some(*b),
        Kind::Paren(inner) => decided(lint, inner),
        Kind::Negate(inner) => match decided(lint, inner) {
            Some(b) => Some(!b),
            None => None,
        },
        Kind::Binary(Op::Both, a, b) if are_apart(a, b, true) => Some(false),
        Kind::Binary(Op::Either, a, b) if are_apart(a, b, false) => Some(true),
        Kind::Binary(Op::Both, a, b) => one_of(decided(lint, a), decided(lint, b), false),
        Kind::Binary(Op::Either, a, b) => one_of(decided(lint, a), decided(lint, b), true),
        Kind::Binary(op, a, b) => compared(lint, *op, a, b),
        _ => None,
    }
}

// Of two conditions that are joined by a sign: the deciding value where one has it, and else the other one where both are known.
fn one_of(a: Option<bool>, b: Option<bool>, deciding: bool) -> Option<bool> {
    if is_known_as(a, deciding) || is_known_as(b, deciding) {
        Some(deciding)
    } else if a.is_some() && b.is_some() {
        Some(!deciding)
    } else {
        None
    }
}

fn is_known_as(a: Option<bool>, value: bool) -> bool {
    match a {
        Some(x) => x == value,
        None => false,
    }
}

// A comparison: of a variable with itself, or of values with a number that they can't reach.
fn compared<'a>(lint: &Lint<'a>, op: Op, a: &'a Expr, b: &'a Expr) -> Option<bool> {
    match op {
        Op::Eq => of_words(lint, Cmp::Eq, a, b),
        Op::Ne => of_words(lint, Cmp::Ne, a, b),
        Op::Lt => of_words(lint, Cmp::Lt, a, b),
        Op::Ge => of_words(lint, Cmp::Ge, a, b),
        Op::Gt => of_words(lint, Cmp::Lt, b, a),
        Op::Le => of_words(lint, Cmp::Ge, b, a),
        _ => None,
    }
}

fn of_words<'a>(lint: &Lint<'a>, cmp: Cmp, a: &'a Expr, b: &'a Expr) -> Option<bool> {
    if is_same(a, b) {
        return Some(cmp.holds(0, 0));
    }
    match (number(a), number(b)) {
        (Some(x), Some(y)) => Some(cmp.holds(x, y)),
        (None, Some(y)) => match unreached(cmp, bits(lint, a), y) {
            Some(b) => Some(b),
            None => to_number(cmp, most(lint, a), y),
        },
        (Some(x), None) => match unreached(cmp, bits(lint, b), x) {
            Some(b) => Some(b),
            None => from_number(cmp, x, most(lint, b)),
        },
        (None, None) => None,
    }
}

fn is_same(a: &Expr, b: &Expr) -> bool {
    match (&a.kind, &b.kind) {
        (Kind::Var(x), Kind::Var(y)) => x == y,
        _ => false,
    }
}

/// The number that an expression is, where that is seen.
pub fn number(e: &Expr) -> Option<u32> {
    match &e.kind {
        Kind::Number(n) => Some(*n),
        Kind::Paren(inner) => number(inner),
        // A value without itself.
        Kind::Binary(Op::Xor | Op::Sub, a, b) if is_same(a, b) => Some(0),
        _ => None,
    }
}

// A comparison of each value up to a greatest one with a number.
fn to_number(cmp: Cmp, most: u32, y: u32) -> Option<bool>
    ensures { (x : ℕ) → x ≤ most → IfSome result (λ b. compares cmp x y ≡ b) }
{
    match cmp {
        Cmp::Eq if y > most => Some(false),
        Cmp::Ne if y > most => Some(true),
        Cmp::Lt if y > most => Some(true),
        Cmp::Lt if y == 0 => Some(false),
        Cmp::Ge if y > most => Some(false),
        Cmp::Ge if y == 0 => Some(true),
        _ => None,
    }
}

// A comparison of a number with each value up to a greatest one.
fn from_number(cmp: Cmp, x: u32, most: u32) -> Option<bool>
    ensures { (y : ℕ) → y ≤ most → IfSome result (λ b. compares cmp x y ≡ b) }
{
    match cmp {
        Cmp::Eq if x > most => Some(false),
        Cmp::Ne if x > most => Some(true),
        Cmp::Lt if x >= most => Some(false),
        Cmp::Ge if x >= most => Some(true),
        _ => None,
    }
}

// Whether words of these bits alone are equal to a number that has others.
fn unreached(cmp: Cmp, bits: u32, y: u32) -> Option<bool> {
    match cmp {
        Cmp::Eq if y & !bits != 0 => Some(false),
        Cmp::Ne if y & !bits != 0 => Some(true),
        _ => None,
    }
}

// The bits that a word may have.
fn bits<'a>(lint: &Lint<'a>, e: &'a Expr) -> u32 {
    match &e.kind {
        Kind::Paren(inner) => bits(lint, inner),
        Kind::Binary(Op::And, a, b) => bits(lint, a) & bits(lint, b),
        Kind::Binary(Op::Or | Op::Xor, a, b) => bits(lint, a) | bits(lint, b),
        Kind::Shift(ShiftOp::Left, inner, n) if *n < 32 => bits(lint, inner) << *n,
        Kind::Shift(ShiftOp::Right, inner, n) if *n < 32 => bits(lint, inner) >> *n,
        Kind::Number(n) => *n,
        Kind::Dot(_, _) => most(lint, e),
        _ => u32::MAX,
    }
}

// A number that a word can't be above.
fn most<'a>(lint: &Lint<'a>, e: &'a Expr) -> u32 {
    match &e.kind {
        Kind::Number(n) => *n,
        Kind::Paren(inner) => most(lint, inner),
        Kind::Binary(Op::And, a, b) => most(lint, a).min(most(lint, b)),
        Kind::Shift(ShiftOp::Right, inner, n) if *n < 32 => most(lint, inner) >> *n,
        Kind::Dot(_, _) => match field_bits(lint, e) {
            Some(n) if n < 32 => (1u32 << n).wrapping_sub(1),
            _ => u32::MAX,
        },
        _ => u32::MAX,
    }
}
