//! A try after its body.

ghost use Rattle.std.specs.Prelude.{◌≡◌, Bool, false, Option, Ok, Err, IfOk, IfErr};
ghost use Rattle.nv_ast.specs.Tree.{Tree, TryTree};
ghost use Rattle.nv_ast.specs.Types.{Ty};
ghost use Rattle.nv_ast.specs.Faults.{same_as};
ghost use Rattle.nv_ast.specs.PatternView.{list_patterns};
ghost use Rattle.nv_types_table.specs.inner.Store.{Store, IsValue};
ghost use Rattle.nv_types_scopes.specs.declared.expected.Expected.TheVariants.{Anything};
ghost use Rattle.nv_types_scopes.specs.inner.Judging.{IsExpected};
ghost use Rattle.nv_types_scopes.specs.inner.Patterns.{BindsHandler};
ghost use Rattle.nv_types_scopes.specs.inner.Walk.{Checks};

use nv_ast::{Expr, Name, Pat, Span};
use nv_types_scopes::expected::Expected;
use nv_types_scopes::functions::{Checker, TypedExpr};
use nv_types_table::error::TypeError;

/// A try whose body and patterns have no fault: its handler and what is wanted of that, the types at which the
/// patterns are bound, and what the body gave.
#[derive(Clone, Copy)]
pub struct Opened<'a> {
    pub handler: &'a Expr,
    pub expected: Expected,
    pub types: usize,
    pub tried: TypedExpr,
}

/// A try with what its body gave, up to its handler. A fault of the body counts before one of the patterns, and that
/// before one of the handler.
#[tactic(none)]
pub fn open_handler<'a>(
    checker: &mut Checker<'a>,
    span: Span,
    exception: &'a Name,
    ps: &'a [Pat],
    handler: &'a Expr,
    body: Result<TypedExpr, TypeError>,
) -> Result<Opened<'a>, TypeError>
    ensures tried { IfOk result (λ it. body ≡ Ok it.tried) }
    ensures handler { IfOk result (λ it. it.handler ≡ handler.entry) }
    ensures bound { IfOk result (λ it. BindsHandler checker.old checker.new span exception.now (list_patterns ps.now) (Ok it.types)) }
    ensures expected { IfOk result (λ it. (s : Store) (t : Option Ty) → IsValue s it.tried.value t → IsExpected s it.expected (same_as t)) }
    ensures first { IfErr result (λ e. (c : Checker) (tail : Bool) (expected : Expected) (a h : Tree) → Checks c checker.old false Anything a body → Checks c checker.new tail expected (TryTree span a exception.now (list_patterns ps.now) h) (Err e)) }
{
    let tried = body?;
    let types = checker.handler_patterns(span, exception, ps)?;
    Ok(Opened {
        handler,
        expected: Expected::same_as(tried.value),
        types,
        tried,
    })
}
