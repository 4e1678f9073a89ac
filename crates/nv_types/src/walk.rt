//! Expressions, and the statements of blocks.

ghost use Rattle.std.specs.Prelude.{false};
ghost use Rattle.nv_ast.specs.ExprView.{tree_of, list_trees, list_named_trees, list_statements, statement_tree};
ghost use Rattle.nv_ast.specs.Tree.{TupleTree, FieldsTree, DotTree, BinaryTree, ShiftTree, CallTree, UnpackTree, PackTree, RaiseTree, IfTree, TryTree, FetchTree, BlockTree, LetStatement, StoreStatement};
ghost use Rattle.nv_ast.specs.PatternView.{pattern_tree, list_patterns};
ghost use Rattle.nv_types_scopes.specs.inner.Walk.{Checks, ChecksAll};
ghost use Rattle.nv_types_scopes.specs.inner.Blocks.{ChecksStatement};

use crate::handlers::open_handler;
use crate::lets::let_value;
use nv_ast::{Expr, Kind, Name, Op, Pat, ShiftOp, Span, Stmt};
use nv_base::Mem;
use nv_types_scopes::expected::Expected;
use nv_types_scopes::functions::{Checker, TypedExpr};
use nv_types_scopes::nodes::{
    called_cost, can_move, field_cost, is_in_reach, is_outside, kind_where, operand_type,
    result_type,
};
use nv_types_table::cost::Cost;
use nv_types_table::error::{TypeError, fault_where};
use nv_types_table::needs::Step;
use nv_types_table::table::{BOOL, WORD};

/// An expression, in tail position or not, of which something is wanted. First its parts from left to
/// right, then the expression itself.
#[cycle(walk)]
pub fn expr<'a>(
    checker: &mut Checker<'a>,
    tail: bool,
    expected: Expected,
    e: &'a Expr,
) -> Result<TypedExpr, TypeError>
    ensures { Checks checker.old checker.new tail expected (tree_of e.now) result }
{
    let span = e.span;
    match &e.kind {
        Kind::Number(_) => checker.plain(span, expected, Some(WORD), Cost::NONE),
        Kind::Truth(_) => checker.plain(span, expected, Some(BOOL), Cost::NONE),
        Kind::Var(x) => checker.variable(span, expected, x),
        Kind::Paren(inner) => {
            let part = expr(checker, tail, Expected::Value, inner)?;
            checker.plain(span, expected, part.value, part.cost)
        }
        Kind::Tuple(es) => tuple(checker, span, expected, es),
        Kind::Fields(es) => fields(checker, span, expected, es),
        Kind::Dot(inner, x) => dot(checker, span, expected, inner, x),
        Kind::Invert(inner) => {
            let part = expr(checker, false, Expected::Typed(WORD), inner)?;
            checker.plain(span, expected, Some(WORD), part.cost)
        }
        Kind::Negate(inner) => {
            let part = expr(checker, false, Expected::Typed(BOOL), inner)?;
            checker.plain(span, expected, Some(BOOL), part.cost)
        }
        Kind::Binary(op, a, b) => binary(checker, span, expected, *op, a, b),
        Kind::Shift(op, inner, n) => shift(checker, span, expected, *op, inner, *n),
        Kind::Call(f, es) => call(checker, span, expected, tail, f, es),
        Kind::Unpack(l, inner) => unpack(checker, span, expected, l, inner),
        Kind::Pack(l, inner) => pack(checker, span, expected, l, inner),
        Kind::Raise(x, es) => raise(checker, span, expected, x, es),
        Kind::If(c, a, b) => choice(checker, span, expected, tail, c, a, b),
        Kind::Try(a, x, ps, h) => handled(checker, span, expected, tail, a, x, ps, h),
        Kind::Fetch(mem, n, a) => fetch(checker, span, expected, *mem, *n, a),
        Kind::Block(sts, last) => block(checker, span, expected, tail, sts, last),
    }
}

#[cycle(walk)]
fn tuple<'a>(
    checker: &mut Checker<'a>,
    span: Span,
    expected: Expected,
    es: &'a [Expr],
) -> Result<TypedExpr, TypeError>
    ensures { Checks checker.old checker.new false expected (TupleTree span (list_trees es.now)) result }
{
    let mut types = Vec::new(checker.alloc);
    let mut parts = Cost::NONE;
    for e in es {
        let part = expr(checker, false, Expected::Value, e)?;
        types.push(part.value.unwrap_or(WORD))?;
        parts = parts.beside(part.cost);
    }
    let list = checker.table.parts_of(&types)?;
    let t = checker.table.tuple(list)?;
    checker.plain(span, expected, Some(t), parts)
}

#[cycle(walk)]
fn fields<'a>(
    checker: &mut Checker<'a>,
    span: Span,
    expected: Expected,
    es: &'a [(Name, Expr)],
) -> Result<TypedExpr, TypeError>
    ensures { Checks checker.old checker.new false expected (FieldsTree span (list_named_trees es.now)) result }
{
    let mut types = Vec::new(checker.alloc);
    let mut parts = Cost::NONE;
    for e in es {
        let part = expr(checker, false, Expected::Value, &e.1)?;
        types.push((&e.0, part.value.unwrap_or(WORD)))?;
        parts = parts.beside(part.cost);
    }
    checker.made_record(span, expected, &types, parts)
}

// 15: a dot at no record, or at one without such a field.
#[cycle(walk)]
fn dot<'a>(
    checker: &mut Checker<'a>,
    span: Span,
    expected: Expected,
    inner: &'a Expr,
    name: &'a Name,
) -> Result<TypedExpr, TypeError>
    ensures { Checks checker.old checker.new false expected (DotTree span (tree_of inner.now) name.now) result }
{
    let part = expr(checker, false, Expected::Value, inner)?;
    match checker.field_of(name, part.value) {
        Some(t) => checker.plain(span, expected, Some(t), part.cost),
        None => Err(TypeError::Fault(15, span)),
    }
}

#[cycle(walk)]
fn binary<'a>(
    checker: &mut Checker<'a>,
    span: Span,
    expected: Expected,
    op: Op,
    a: &'a Expr,
    b: &'a Expr,
) -> Result<TypedExpr, TypeError>
    ensures { Checks checker.old checker.new false expected (BinaryTree span op (tree_of a.now) (tree_of b.now)) result }
{
    let operand = Expected::Typed(operand_type(op));
    let left = expr(checker, false, operand, a)?;
    let right = expr(checker, false, operand, b)?;
    let parts = left.cost.beside(right.cost);
    checker.plain(span, expected, Some(result_type(op)), parts)
}

// 21: a shift by more than 31.
#[cycle(walk)]
fn shift<'a>(
    checker: &mut Checker<'a>,
    span: Span,
    expected: Expected,
    _op: ShiftOp,
    inner: &'a Expr,
    n: u32,
) -> Result<TypedExpr, TypeError>
    ensures { Checks checker.old checker.new false expected (ShiftTree span _op (tree_of inner.now) n) result }
{
    let part = expr(checker, false, Expected::Typed(WORD), inner)?;
    let count = kind_where(n > 31, 21);
    checker.judge(span, expected, Some(WORD), None, count)?;
    Ok(checker.found(Some(WORD), part.cost))
}

// Expressions of which values are wanted, and where a list of types is there these types in turn.
#[cycle(walk)]
fn arguments<'a>(
    checker: &mut Checker<'a>,
    types: Option<usize>,
    es: &'a [Expr],
) -> Result<Cost, TypeError>
    ensures { ChecksAll checker.old checker.new types (list_trees es.now) result }
{
    let mut left = types;
    let mut parts = Cost::NONE;
    for e in es {
        let next = checker.next_expected(left);
        left = next.1;
        let part = expr(checker, false, next.0, e)?;
        parts = parts.beside(part.cost);
    }
    Ok(parts)
}

// 11: an unknown function; 12: one of the own group outside tail position; 13: a wrong number of arguments.
#[cycle(walk)]
fn call<'a>(
    checker: &mut Checker<'a>,
    span: Span,
    expected: Expected,
    tail: bool,
    name: &'a Name,
    es: &'a [Expr],
) -> Result<TypedExpr, TypeError>
    ensures { Checks checker.old checker.new tail expected (CallTree span name.now (list_trees es.now)) result }
{
    let Some(f) = checker.functions.get(name) else {
        arguments(checker, None, es)?;
        return Err(TypeError::Fault(11, span));
    };
    let types = checker.if_as_many(f.params, es.len());
    let parts = arguments(checker, types, es)?;
    let behind = checker.costs.get(name);
    fault_where(is_outside(behind, tail), 12, span)?;
    fault_where(types.is_none(), 13, span)?;
    let called = called_cost(behind);
    checker.plain(span, expected, Some(f.result), parts.beside(called))
}

// 3: an unknown layout.
#[cycle(walk)]
fn unpack<'a>(
    checker: &mut Checker<'a>,
    span: Span,
    expected: Expected,
    layout: &'a Name,
    inner: &'a Expr,
) -> Result<TypedExpr, TypeError>
    ensures { Checks checker.old checker.new false expected (UnpackTree span layout.now (tree_of inner.now)) result }
{
    let Some(shape) = checker.layouts.get(layout) else {
        expr(checker, false, Expected::Value, inner)?;
        return Err(TypeError::Fault(3, span));
    };
    let packed = checker.table.words(shape.packed_words())?;
    let part = expr(checker, false, Expected::Typed(packed), inner)?;
    let t = checker.table.record_of(shape.types)?;
    checker.plain(
        span,
        expected,
        Some(t),
        part.cost.beside(field_cost(shape.fields)),
    )
}

// 3: an unknown layout.
#[cycle(walk)]
fn pack<'a>(
    checker: &mut Checker<'a>,
    span: Span,
    expected: Expected,
    layout: &'a Name,
    inner: &'a Expr,
) -> Result<TypedExpr, TypeError>
    ensures { Checks checker.old checker.new false expected (PackTree span layout.now (tree_of inner.now)) result }
{
    let Some(shape) = checker.layouts.get(layout) else {
        expr(checker, false, Expected::Value, inner)?;
        return Err(TypeError::Fault(3, span));
    };
    let part = expr(checker, false, Expected::Packed(shape.forms), inner)?;
    let t = checker.table.words(shape.packed_words())?;
    checker.plain(
        span,
        expected,
        Some(t),
        part.cost.beside(field_cost(shape.fields)),
    )
}

// 13: a wrong number of arguments; 17: an unknown exception.
#[cycle(walk)]
fn raise<'a>(
    checker: &mut Checker<'a>,
    span: Span,
    expected: Expected,
    name: &'a Name,
    es: &'a [Expr],
) -> Result<TypedExpr, TypeError>
    ensures { Checks checker.old checker.new false expected (RaiseTree span name.now (list_trees es.now)) result }
{
    let Some(list) = checker.exceptions.get(name) else {
        arguments(checker, None, es)?;
        return Err(TypeError::Fault(17, span));
    };
    let types = checker.if_as_many(list, es.len());
    let parts = arguments(checker, types, es)?;
    fault_where(types.is_none(), 13, span)?;
    checker.plain(span, expected, None, parts)
}

#[cycle(walk)]
fn choice<'a>(
    checker: &mut Checker<'a>,
    span: Span,
    expected: Expected,
    tail: bool,
    c: &'a Expr,
    a: &'a Expr,
    b: &'a Expr,
) -> Result<TypedExpr, TypeError>
    ensures { Checks checker.old checker.new tail expected (IfTree span (tree_of c.now) (tree_of a.now) (tree_of b.now)) result }
{
    let condition = expr(checker, false, Expected::Typed(BOOL), c)?;
    let yes = expr(checker, tail, Expected::Anything, a)?;
    let no = expr(checker, tail, Expected::same_as(yes.value), b)?;
    let parts = condition.cost.beside(yes.cost.beside(no.cost));
    checker.plain(span, expected, yes.value.or(no.value), parts)
}

#[cycle(walk)]
fn handled<'a>(
    checker: &mut Checker<'a>,
    span: Span,
    expected: Expected,
    tail: bool,
    body: &'a Expr,
    exception: &'a Name,
    ps: &'a [Pat],
    handler: &'a Expr,
) -> Result<TypedExpr, TypeError>
    ensures { Checks checker.old checker.new tail expected (TryTree span (tree_of body.now) exception.now (list_patterns ps.now) (tree_of handler.now)) result }
{
    let read = expr(checker, false, Expected::Anything, body);
    let mark = checker.scope.mark();
    let opened = open_handler(checker, span, exception, ps, handler, read)?;
    let caught = expr(checker, tail, opened.expected, opened.handler)?;
    checker.scope.leave(mark)?;
    let raised = Cost {
        words: checker.table.known(opened.types).words,
        ..Cost::NONE
    };
    let parts = raised.beside(opened.tried.cost.beside(caught.cost));
    checker.plain(span, expected, opened.tried.value.or(caught.value), parts)
}

// 19 and 20: a number of words, or a scratch address.
#[cycle(walk)]
fn fetch<'a>(
    checker: &mut Checker<'a>,
    span: Span,
    expected: Expected,
    mem: Mem,
    n: u32,
    address: &'a Expr,
) -> Result<TypedExpr, TypeError>
    ensures { Checks checker.old checker.new false expected (FetchTree span mem n (tree_of address.now)) result }
{
    let part = expr(checker, false, Expected::Typed(WORD), address)?;
    if !can_move(mem, n as u64) {
        fault_where(!expected.is_right_words(&checker.table, n), 14, span)?;
        return Err(TypeError::Fault(19, span));
    }
    let t = checker.table.words(n)?;
    let place = if is_in_reach(mem, address, n as u64) {
        None
    } else {
        Some(20)
    };
    checker.judge(span, expected, Some(t), None, place)?;
    Ok(checker.found(Some(t), part.cost))
}

#[cycle(walk)]
fn block<'a>(
    checker: &mut Checker<'a>,
    span: Span,
    expected: Expected,
    tail: bool,
    sts: &'a [Stmt],
    last: &'a Expr,
) -> Result<TypedExpr, TypeError>
    ensures { Checks checker.old checker.new tail expected (BlockTree span (list_statements sts.now) (tree_of last.now)) result }
{
    let mark = checker.scope.mark();
    let first = checker.written.len();
    let mut steps = Vec::new(checker.alloc);
    let mut size: u64 = 0;
    for st in sts {
        let (step, cost) = statement(checker, st)?;
        steps.push(step)?;
        size = size.saturating_add(cost);
    }
    let before = checker.written.len();
    let result = expr(checker, tail, Expected::Anything, last)?;
    checker.scope.leave(mark)?;
    checker.judge(span, expected, result.value, None, None)?;
    let need = checker.block_need(first, &steps, before, result.cost.need)?;
    let words = result.cost.words;
    let cost = Cost {
        words,
        size: size
            .saturating_add(result.cost.size)
            .saturating_add(words)
            .saturating_add(1),
        need: need.saturating_add(2),
    };
    Ok(TypedExpr {
        value: result.value,
        cost,
    })
}

// A statement, and its expanded size.
#[cycle(walk)]
fn statement<'a>(checker: &mut Checker<'a>, st: &'a Stmt) -> Result<(Step<'a>, u64), TypeError>
    ensures { ChecksStatement checker.old checker.new (statement_tree st.now) result }
{
    match st {
        Stmt::Let(p, e, span) => binding(checker, *span, p, e),
        Stmt::Store(mem, a, e, span) => store(checker, *span, *mem, a, e),
    }
}

#[cycle(walk)]
fn binding<'a>(
    checker: &mut Checker<'a>,
    span: Span,
    p: &'a Pat,
    value: &'a Expr,
) -> Result<(Step<'a>, u64), TypeError>
    ensures { ChecksStatement checker.old checker.new (LetStatement span (pattern_tree p.now) (tree_of value.now)) result }
{
    let before = checker.written.len();
    let read = expr(checker, false, Expected::Value, value);
    let_value(checker, span, p, before, read)
}

// 19 and 20: a number of words, or a scratch address.
#[cycle(walk)]
fn store<'a>(
    checker: &mut Checker<'a>,
    span: Span,
    mem: Mem,
    a: &'a Expr,
    e: &'a Expr,
) -> Result<(Step<'a>, u64), TypeError>
    ensures { ChecksStatement checker.old checker.new (StoreStatement span mem (tree_of a.now) (tree_of e.now)) result }
{
    let before = checker.written.len();
    let address = expr(checker, false, Expected::Typed(WORD), a)?;
    let stored = expr(checker, false, Expected::Stored, e)?;
    let n = checker.words_of(stored.value);
    fault_where(!can_move(mem, n), 19, span)?;
    fault_where(!is_in_reach(mem, a, n), 20, span)?;
    let parts = Cost::node(0, address.cost.beside(stored.cost));
    let step = Step {
        before,
        need: parts.need,
        pattern: None,
        words: 0,
    };
    Ok((step, parts.size))
}
