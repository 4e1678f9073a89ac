//! The words that a comparison of a variable with a number lets through.

use crate::conditions::number;
use nv_ast::{Expr, Kind, Name, Op};

// The words from `least` to `most` of a variable.
#[derive(Clone, Copy)]
struct Range<'a> {
    name: &'a Name,
    least: u32,
    most: u32,
}

/// Whether no word of a variable is let through by both of two comparisons, or by both of their opposites.
pub fn are_apart(a: &Expr, b: &Expr, is_meant: bool) -> bool {
    let (Some(one), Some(other)) = (range_of(a, is_meant), range_of(b, is_meant)) else {
        return false;
    };
    one.name == other.name && (one.most < other.least || other.most < one.least)
}

// What a comparison lets through, or its opposite, where that is one range.
fn range_of(e: &Expr, is_meant: bool) -> Option<Range<'_>> {
    match &e.kind {
        Kind::Paren(inner) => range_of(inner, is_meant),
        Kind::Negate(inner) => range_of(inner, !is_meant),
        Kind::Binary(op, a, b) => match (variable(a), number(b)) {
            (Some(name), Some(n)) => range_to(name, meant(*op, is_meant)?, n),
            _ => range_to(variable(b)?, turned(meant(*op, is_meant)?), number(a)?),
        },
        _ => None,
    }
}

fn variable(e: &Expr) -> Option<&Name> {
    match &e.kind {
        Kind::Var(name) => Some(name),
        Kind::Paren(inner) => variable(inner),
        _ => None,
    }
}

// A comparison or its opposite.
fn meant(op: Op, is_meant: bool) -> Option<Op> {
    match (op, is_meant) {
        (Op::Eq, true) | (Op::Ne, false) => Some(Op::Eq),
        (Op::Lt, true) | (Op::Ge, false) => Some(Op::Lt),
        (Op::Le, true) | (Op::Gt, false) => Some(Op::Le),
        (Op::Gt, true) | (Op::Le, false) => Some(Op::Gt),
        (Op::Ge, true) | (Op::Lt, false) => Some(Op::Ge),
        _ => None,
    }
}

// The comparison with its sides in the other order.
fn turned(op: Op) -> Op {
    match op {
        Op::Lt => Op::Gt,
        Op::Le => Op::Ge,
        Op::Gt => Op::Lt,
        Op::Ge => Op::Le,
        other => other,
    }
}

// The words of a variable that compare so with a number.
fn range_to<'a>(name: &'a Name, op: Op, n: u32) -> Option<Range<'a>> {
    let (least, most) = match op {
        Op::Eq => (n, n),
        Op::Lt => (0, n.checked_sub(1)?),
        Op::Le => (0, n),
        Op::Gt => (n.checked_add(1)?, u32::MAX),
        Op::Ge => (n, u32::MAX),
        _ => return None,
    };
    Some(Range { name, least, most })
}
