//! A let after its value.

ghost use Rattle.std.specs.Prelude.{◌≡◌, false, length};
ghost use Rattle.nv_ast.specs.Tree.{Tree, LetStatement};
ghost use Rattle.nv_ast.specs.PatternView.{pattern_tree};
ghost use Rattle.nv_types_scopes.specs.declared.expected.Expected.TheVariants.{Value};
ghost use Rattle.nv_types_scopes.specs.inner.Standing.{written_in};
ghost use Rattle.nv_types_scopes.specs.inner.Walk.{Checks};
ghost use Rattle.nv_types_scopes.specs.inner.Blocks.{ChecksStatement};

use nv_ast::{Pat, Span};
use nv_types_scopes::functions::{Checker, TypedExpr};
use nv_types_table::error::TypeError;
use nv_types_table::needs::Step;

/// A let with what its value gave, in front of which `before` variables were written: the statement's step and its
/// expanded size. A fault of the value counts before one of the pattern.
pub fn let_value<'a>(
    checker: &mut Checker<'a>,
    span: Span,
    p: &'a Pat,
    before: usize,
    value: Result<TypedExpr, TypeError>,
) -> Result<(Step<'a>, u64), TypeError>
    ensures { (c : Checker) (e : Tree) → Checks c checker.old false Value e value → before ≡ length (written_in c) → ChecksStatement c checker.new (LetStatement span (pattern_tree p.now) e) result }
{
    let part = value?;
    checker.let_pattern(span, p, part.value)?;
    let step = Step {
        before,
        need: part.cost.words.saturating_add(part.cost.need),
        pattern: Some(p),
        words: part.cost.words,
    };
    Ok((step, part.cost.size.saturating_add(1)))
}
