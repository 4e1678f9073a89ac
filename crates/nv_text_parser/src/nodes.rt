// Expressions made of their parts.
ghost use Rattle.std.specs.Prelude.{◌≡◌, IfOk};
ghost use Rattle.nv_ast.specs.Tokens.{to};
ghost use Rattle.nv_ast.specs.Tree.{NumberTree, TruthTree, VarTree, statement_span, ParenTree, TupleTree, FieldsTree, DotTree, InvertTree, NegateTree, BinaryTree, ShiftTree, CallTree, UnpackTree, PackTree, RaiseTree, IfTree, TryTree, FetchTree, BlockTree, span_of};
ghost use Rattle.nv_ast.specs.ExprView.{tree_of, statement_tree, list_trees, list_named_trees, list_statements};
ghost use Rattle.nv_ast.specs.PatternView.{list_patterns};

use crate::cursor::joined;
use nv_ast::{Expr, Kind, Name, Op, Pat, ShiftOp, Span, Stmt};
use nv_base::Mem;
use std::alloc::{AllocError, Global};

/// An expression in a box. Where there is no memory for it, the expressions that are held go by a call.
macro_rules! boxed {
    ($alloc:expr, $inside:expr $(, $held:expr)*) => {
        match Box::new($alloc, $inside) {
            Ok(inside) => inside,
            Err(failed) => {
                $(drop($held);)*
                return Err(failed.into());
            }
        }
    };
}

pub fn paren(alloc: Global, span: Span, inside: Expr) -> Result<Expr, AllocError>
    ensures { IfOk result (λ e. tree_of e ≡ ParenTree span (tree_of inside)) }
{
    let inside = Box::new(alloc, inside)?;
    Ok(Expr {
        span,
        kind: Kind::Paren(inside),
    })
}

pub fn dot(alloc: Global, record_: Expr, name: Name, last: Span) -> Result<Expr, AllocError>
    ensures { IfOk result (λ e. tree_of e ≡ DotTree (to (span_of (tree_of record_)) last) (tree_of record_) name) }
{
    let span = joined(record_.span, last);
    let record_ = Box::new(alloc, record_)?;
    Ok(Expr {
        span,
        kind: Kind::Dot(record_, name),
    })
}

pub fn invert(alloc: Global, first: Span, inside: Expr) -> Result<Expr, AllocError>
    ensures { IfOk result (λ e. tree_of e ≡ InvertTree (to first (span_of (tree_of inside))) (tree_of inside)) }
{
    let span = joined(first, inside.span);
    let inside = Box::new(alloc, inside)?;
    Ok(Expr {
        span,
        kind: Kind::Invert(inside),
    })
}

pub fn negate(alloc: Global, first: Span, inside: Expr) -> Result<Expr, AllocError>
    ensures { IfOk result (λ e. tree_of e ≡ NegateTree (to first (span_of (tree_of inside))) (tree_of inside)) }
{
    let span = joined(first, inside.span);
    let inside = Box::new(alloc, inside)?;
    Ok(Expr {
        span,
        kind: Kind::Negate(inside),
    })
}

pub fn binary(alloc: Global, op: Op, left: Expr, right: Expr) -> Result<Expr, AllocError>
    ensures { IfOk result (λ e. tree_of e ≡ BinaryTree (to (span_of (tree_of left)) (span_of (tree_of right))) op (tree_of left) (tree_of right)) }
{
    let span = joined(left.span, right.span);
    let left = boxed!(alloc, left, right);
    let right = Box::new(alloc, right)?;
    Ok(Expr {
        span,
        kind: Kind::Binary(op, left, right),
    })
}

pub fn shift(
    alloc: Global,
    op: ShiftOp,
    left: Expr,
    count: u32,
    last: Span,
) -> Result<Expr, AllocError>
    ensures { IfOk result (λ e. tree_of e ≡ ShiftTree (to (span_of (tree_of left)) last) op (tree_of left) count) }
{
    let span = joined(left.span, last);
    let left = Box::new(alloc, left)?;
    Ok(Expr {
        span,
        kind: Kind::Shift(op, left, count),
    })
}

pub fn unpack(alloc: Global, span: Span, layout: Name, inside: Expr) -> Result<Expr, AllocError>
    ensures { IfOk result (λ e. tree_of e ≡ UnpackTree span layout (tree_of inside)) }
{
    let inside = Box::new(alloc, inside)?;
    Ok(Expr {
        span,
        kind: Kind::Unpack(layout, inside),
    })
}

pub fn pack(alloc: Global, span: Span, layout: Name, inside: Expr) -> Result<Expr, AllocError>
    ensures { IfOk result (λ e. tree_of e ≡ PackTree span layout (tree_of inside)) }
{
    let inside = Box::new(alloc, inside)?;
    Ok(Expr {
        span,
        kind: Kind::Pack(layout, inside),
    })
}

pub fn fetch(
    alloc: Global,
    span: Span,
    mem: Mem,
    words: u32,
    address: Expr,
) -> Result<Expr, AllocError>
    ensures { IfOk result (λ e. tree_of e ≡ FetchTree span mem words (tree_of address)) }
{
    let address = Box::new(alloc, address)?;
    Ok(Expr {
        span,
        kind: Kind::Fetch(mem, words, address),
    })
}

pub fn if_else(
    alloc: Global,
    first: Span,
    condition: Expr,
    yes: Expr,
    no: Expr,
) -> Result<Expr, AllocError>
    ensures { IfOk result (λ e. tree_of e ≡ IfTree (to first (span_of (tree_of no))) (tree_of condition) (tree_of yes) (tree_of no)) }
{
    let span = joined(first, no.span);
    let condition = boxed!(alloc, condition, yes, no);
    let yes = boxed!(alloc, yes, no);
    let no = Box::new(alloc, no)?;
    Ok(Expr {
        span,
        kind: Kind::If(condition, yes, no),
    })
}

pub fn try_handle(
    alloc: Global,
    span: Span,
    body: Expr,
    exception: Name,
    patterns: Vec<Pat>,
    handler: Expr,
) -> Result<Expr, AllocError>
    ensures { IfOk result (λ e. tree_of e ≡ TryTree span (tree_of body) exception (list_patterns patterns.items) (tree_of handler)) }
{
    let body = boxed!(alloc, body, handler);
    let handler = Box::new(alloc, handler)?;
    Ok(Expr {
        span,
        kind: Kind::Try(body, exception, patterns, handler),
    })
}

pub fn block(
    alloc: Global,
    first: Span,
    statements: Vec<Stmt>,
    tail: Expr,
) -> Result<Expr, AllocError>
    ensures { IfOk result (λ e. tree_of e ≡ BlockTree (to first (span_of (tree_of tail))) (list_statements statements.items) (tree_of tail)) }
{
    let span = joined(first, tail.span);
    let tail = Box::new(alloc, tail)?;
    Ok(Expr {
        span,
        kind: Kind::Block(statements, tail),
    })
}

pub fn tuple(span: Span, parts: Vec<Expr>) -> Expr
    ensures { tree_of result ≡ TupleTree span (list_trees parts.items) }
{
    Expr {
        span,
        kind: Kind::Tuple(parts),
    }
}

pub fn fields(span: Span, members: Vec<(Name, Expr)>) -> Expr
    ensures { tree_of result ≡ FieldsTree span (list_named_trees members.items) }
{
    Expr {
        span,
        kind: Kind::Fields(members),
    }
}

pub fn call(span: Span, function: Name, arguments: Vec<Expr>) -> Expr
    ensures { tree_of result ≡ CallTree span function (list_trees arguments.items) }
{
    Expr {
        span,
        kind: Kind::Call(function, arguments),
    }
}

pub fn raise(span: Span, exception: Name, arguments: Vec<Expr>) -> Expr
    ensures { tree_of result ≡ RaiseTree span exception (list_trees arguments.items) }
{
    Expr {
        span,
        kind: Kind::Raise(exception, arguments),
    }
}

pub fn number(span: Span, value: u32) -> Expr
    ensures { tree_of result ≡ NumberTree span value }
{
    Expr {
        span,
        kind: Kind::Number(value),
    }
}

pub fn truth(span: Span, value: bool) -> Expr
    ensures { tree_of result ≡ TruthTree span value }
{
    Expr {
        span,
        kind: Kind::Truth(value),
    }
}

pub fn variable(span: Span, name: Name) -> Expr
    ensures { tree_of result ≡ VarTree span name }
{
    Expr {
        span,
        kind: Kind::Var(name),
    }
}

pub fn statement_span(statement: &Stmt) -> Span
    ensures { result ≡ statement_span (statement_tree statement.now) }
{
    match statement {
        Stmt::Let(_, _, span) => *span,
        Stmt::Store(_, _, _, span) => *span,
    }
}
