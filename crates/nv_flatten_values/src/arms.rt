// How an expression is done: as a value, as a condition, and at the end of code.

ghost use Rattle.nv_ast.specs.ExprView.{tree_of};
ghost use Rattle.nv_flatten_values.specs.inner.Arms.{ValueBy, TestBy, EndBy};

use crate::parts::{Ends, arithmetic, comparison, ends_as};
use nv_ast::{Expr, Kind, Name, Pat, ShiftOp, Stmt};
use nv_base::{Bin, Cmp, Mem};

/// How an expression has a value.
#[derive(Clone, Copy)]
pub enum ValueArm<'a> {
    Number(u32),
    Truth(bool),
    Var(&'a Name),
    Paren(&'a Expr),
    Tuple(&'a [Expr]),
    Fields(&'a [(Name, Expr)]),
    Dot(&'a Expr, &'a Name),
    Invert(&'a Expr),
    Negate(&'a Expr),
    Shift(ShiftOp, &'a Expr, u32),
    /// An operation on two words.
    Combine(Bin, &'a Expr, &'a Expr),
    Unpack(&'a Name, &'a Expr),
    Pack(&'a Name, &'a Expr),
    Fetch(Mem, u32, &'a Expr),
    Block(&'a [Stmt], &'a Expr),
    /// By names for the words of an expression that chooses, calls or raises.
    Named,
}

/// How an expression is a condition.
#[derive(Clone, Copy)]
pub enum TestArm<'a> {
    Paren(&'a Expr),
    Negate(&'a Expr),
    /// A comparison, and whether its operands change places.
    Compare(Cmp, bool, &'a Expr, &'a Expr),
    /// By its value.
    Truth,
}

/// How code ends with an expression.
#[derive(Clone, Copy)]
pub enum EndArm<'a> {
    Paren(&'a Expr),
    /// With the words that its steps give.
    Given,
    /// With 1 or 0, as the comparison holds.
    Decided,
    Both(&'a Expr, &'a Expr),
    Either(&'a Expr, &'a Expr),
    Call(&'a Name, &'a [Expr]),
    Raise(&'a Name, &'a [Expr]),
    Choose(&'a Expr, &'a Expr, &'a Expr),
    Try(&'a Expr, &'a Name, &'a [Pat], &'a Expr),
    Block(&'a [Stmt], &'a Expr),
}

/// How an expression has a value.
pub fn value_arm<'a>(e: &'a Expr) -> ValueArm<'a>
    ensures { ValueBy (tree_of e.now) result }
{
    match &e.kind {
        Kind::Number(n) => ValueArm::Number(*n),
        Kind::Truth(b) => ValueArm::Truth(*b),
        Kind::Var(x) => ValueArm::Var(x),
        Kind::Paren(a) => ValueArm::Paren(a),
        Kind::Tuple(es) => ValueArm::Tuple(es),
        Kind::Fields(es) => ValueArm::Fields(es),
        Kind::Dot(a, x) => ValueArm::Dot(a, x),
        Kind::Invert(a) => ValueArm::Invert(a),
        Kind::Negate(a) => ValueArm::Negate(a),
        Kind::Shift(op, a, n) => ValueArm::Shift(*op, a, *n),
        Kind::Binary(op, a, b) => match arithmetic(*op) {
            Some(bin) => ValueArm::Combine(bin, a, b),
            None => ValueArm::Named,
        },
        Kind::Unpack(l, a) => ValueArm::Unpack(l, a),
        Kind::Pack(l, a) => ValueArm::Pack(l, a),
        Kind::Fetch(m, n, a) => ValueArm::Fetch(*m, *n, a),
        Kind::Block(sts, a) => ValueArm::Block(sts, a),
        Kind::Call(_, _) => ValueArm::Named,
        Kind::Raise(_, _) => ValueArm::Named,
        Kind::If(_, _, _) => ValueArm::Named,
        Kind::Try(_, _, _, _) => ValueArm::Named,
    }
}

/// How an expression is a condition.
pub fn test_arm<'a>(e: &'a Expr) -> TestArm<'a>
    ensures { TestBy (tree_of e.now) result }
{
    match &e.kind {
        Kind::Paren(a) => TestArm::Paren(a),
        Kind::Negate(a) => TestArm::Negate(a),
        Kind::Binary(op, a, b) => match comparison(*op) {
            Some((cmp, swapped)) => TestArm::Compare(cmp, swapped, a, b),
            None => TestArm::Truth,
        },
        _ => TestArm::Truth,
    }
}

/// How code ends with an expression.
pub fn end_arm<'a>(e: &'a Expr) -> EndArm<'a>
    ensures { EndBy (tree_of e.now) result }
{
    match &e.kind {
        Kind::Paren(a) => EndArm::Paren(a),
        Kind::Binary(op, a, b) => match ends_as(*op) {
            Ends::Value => EndArm::Given,
            Ends::Test => EndArm::Decided,
            Ends::Both => EndArm::Both(a, b),
            Ends::Either => EndArm::Either(a, b),
        },
        Kind::Call(f, es) => EndArm::Call(f, es),
        Kind::Raise(x, es) => EndArm::Raise(x, es),
        Kind::If(c, a, b) => EndArm::Choose(c, a, b),
        Kind::Try(a, x, ps, h) => EndArm::Try(a, x, ps, h),
        Kind::Block(sts, a) => EndArm::Block(sts, a),
        _ => EndArm::Given,
    }
}
