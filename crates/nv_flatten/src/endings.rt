// Conditions, and code that ends with an expression's words.

ghost use Rattle.std.specs.Prelude.{◌≡◌, ◌≤◌, [], Some, true, false, IfOk, OnOk, option_map};
ghost use Rattle.nv_ast.specs.declared.token.Span.{Span};
ghost use Rattle.nv_ast.specs.declared.tree.Op.TheVariants.{Both, Either};
ghost use Rattle.nv_ast.specs.ExprView.{tree_of, list_trees, list_statements};
ghost use Rattle.nv_ast.specs.PatternView.{list_patterns};
ghost use Rattle.nv_ast.specs.Tree.{BinaryTree, CallTree, RaiseTree, IfTree, TryTree, BlockTree};
ghost use Rattle.nv_flatten_values.specs.inner.Code.{comparison_of, is_given, is_comparison};
ghost use Rattle.nv_flatten.specs.inner.Flat.{IsFlatTest, IsFlatEnd};
ghost use Rattle.nv_flatten_values.specs.inner.Simulation.{Extends};
ghost use Rattle.nv_flatten_values.specs.inner.View.{view, scope_of};
ghost use Rattle.nv_flatten_values.specs.inner.WholeView.{whole_in};

use crate::made_code::{
    Tail, both_code, calling, caught, chosen_code, compared, decided_code, either_code, ended,
    given_code, handled, raising,
};
use crate::values::{each, statements, value};
use crate::want::made;
use nv_ast::{Expr, Name, Op, Pat, Stmt};
use nv_base::{Atom, Cmp, NoMemory};
use nv_flatten_values::arms::{EndArm, TestArm, end_arm, test_arm};
use nv_flatten_values::branches::Test;
use nv_flatten_values::names::Names;
use nv_flatten_values::scope::Scope;
use nv_flatten_values::source::Source;
use nv_flatten_values::symbol::truth_in;
use std::alloc::Global;

// ---- conditions

/// A comparison that is a condition's truth. `!` turns the comparison over.
#[cycle(walk)]
fn condition<'a>(
    alloc: Global,
    t: &Source<'a>,
    e: &'a Expr,
    scope: &mut Scope<'a>,
    names: &mut Names<'a>,
    next: &mut u32,
) -> Result<Test, NoMemory>
    ensures flat { IfOk result (λ r. IsFlatTest (whole_in t.now) names.old names.new next.old next.new (scope_of scope.old.items []) (tree_of e.now) r.steps.items r.cmp r.left r.right) }
    ensures scope { OnOk result (scope.new.items ≡ scope.old.items) }
    ensures names { Extends names.old names.new }
    ensures later { next.old ≤ next.new }
{
    match test_arm(e) {
        TestArm::Paren(a) => condition(alloc, t, a, scope, names, next),
        TestArm::Negate(a) => {
            let test = made!(condition(alloc, t, a, scope, names, next));
            Ok(Test {
                cmp: test.cmp.negated(),
                ..test
            })
        }
        TestArm::Compare(cmp, swapped, a, b) => {
            compare(alloc, t, cmp, swapped, a, b, scope, names, next)
        }
        TestArm::Truth => truth(alloc, t, e, scope, names, next),
    }
}

#[cycle(walk)]
#[inline(never)]
fn compare<'a>(
    alloc: Global,
    t: &Source<'a>,
    cmp: Cmp,
    swapped: bool,
    a: &'a Expr,
    b: &'a Expr,
    scope: &mut Scope<'a>,
    names: &mut Names<'a>,
    next: &mut u32,
) -> Result<Test, NoMemory>
    ensures flat { IfOk result (λ r. (s : Span) (op : Op) → comparison_of op ≡ Some (cmp, swapped) → IsFlatTest (whole_in t.now) names.old names.new next.old next.new (scope_of scope.old.items []) (BinaryTree s op (tree_of a.now) (tree_of b.now)) r.steps.items r.cmp r.left r.right) }
    ensures scope { OnOk result (scope.new.items ≡ scope.old.items) }
    ensures names { Extends names.old names.new }
    ensures later { next.old ≤ next.new }
{
    let left = made!(value(alloc, t, a, scope, names, next));
    let right = made!(value(alloc, t, b, scope, names, next), left);
    compared(cmp, swapped, left, right)
}

// A truth is compared with 0.
#[cycle(walk)]
#[inline(never)]
fn truth<'a>(
    alloc: Global,
    t: &Source<'a>,
    e: &'a Expr,
    scope: &mut Scope<'a>,
    names: &mut Names<'a>,
    next: &mut u32,
) -> Result<Test, NoMemory>
    ensures flat { is_comparison (tree_of e.now) ≡ false → IfOk result (λ r. IsFlatTest (whole_in t.now) names.old names.new next.old next.new (scope_of scope.old.items []) (tree_of e.now) r.steps.items r.cmp r.left r.right) }
    ensures scope { OnOk result (scope.new.items ≡ scope.old.items) }
    ensures names { Extends names.old names.new }
    ensures later { next.old ≤ next.new }
{
    let v = made!(value(alloc, t, e, scope, names, next));
    let left = truth_in(&v.symbol);
    drop(v.symbol);
    Ok(Test {
        steps: v.steps,
        cmp: Cmp::Ne,
        left,
        right: Atom::Lit(0),
    })
}

// ---- code that ends with an expression's words

/// Code that ends with the words of an expression.
#[cycle(walk)]
pub fn ending<'a>(
    alloc: Global,
    t: &Source<'a>,
    e: &'a Expr,
    scope: &mut Scope<'a>,
    names: &mut Names<'a>,
    next: &mut u32,
) -> Result<Tail<'a>, NoMemory>
    ensures flat { IfOk result (λ r. IsFlatEnd (whole_in t.now) names.old names.new next.old next.new (scope_of scope.old.items []) (tree_of e.now) r.code (option_map view r.form)) }
    ensures scope { OnOk result (scope.new.items ≡ scope.old.items) }
    ensures names { Extends names.old names.new }
    ensures later { next.old ≤ next.new }
{
    match end_arm(e) {
        EndArm::Paren(a) => ending(alloc, t, a, scope, names, next),
        EndArm::Given => given(alloc, t, e, scope, names, next),
        EndArm::Decided => decided(alloc, t, e, scope, names, next),
        EndArm::Both(a, b) => both(alloc, t, a, b, scope, names, next),
        EndArm::Either(a, b) => either(alloc, t, a, b, scope, names, next),
        EndArm::Call(f, es) => call(alloc, t, f, es, scope, names, next),
        EndArm::Raise(x, es) => raise(alloc, t, x, es, scope, names, next),
        EndArm::Choose(c, a, b) => choose(alloc, t, c, a, b, scope, names, next),
        EndArm::Try(a, x, ps, h) => try_(alloc, t, a, x, ps, h, scope, names, next),
        EndArm::Block(sts, a) => ending_block(alloc, t, sts, a, scope, names, next),
    }
}

// An expression whose value its steps give.
#[cycle(walk)]
#[inline(never)]
fn given<'a>(
    alloc: Global,
    t: &Source<'a>,
    e: &'a Expr,
    scope: &mut Scope<'a>,
    names: &mut Names<'a>,
    next: &mut u32,
) -> Result<Tail<'a>, NoMemory>
    ensures flat { is_given (tree_of e.now) ≡ true → IfOk result (λ r. IsFlatEnd (whole_in t.now) names.old names.new next.old next.new (scope_of scope.old.items []) (tree_of e.now) r.code (option_map view r.form)) }
    ensures scope { OnOk result (scope.new.items ≡ scope.old.items) }
    ensures names { Extends names.old names.new }
    ensures later { next.old ≤ next.new }
{
    let v = made!(value(alloc, t, e, scope, names, next));
    given_code(alloc, v)
}

// A comparison: 1 where it holds, else 0.
#[cycle(walk)]
#[inline(never)]
fn decided<'a>(
    alloc: Global,
    t: &Source<'a>,
    e: &'a Expr,
    scope: &mut Scope<'a>,
    names: &mut Names<'a>,
    next: &mut u32,
) -> Result<Tail<'a>, NoMemory>
    ensures flat { is_comparison (tree_of e.now) ≡ true → IfOk result (λ r. IsFlatEnd (whole_in t.now) names.old names.new next.old next.new (scope_of scope.old.items []) (tree_of e.now) r.code (option_map view r.form)) }
    ensures scope { OnOk result (scope.new.items ≡ scope.old.items) }
    ensures names { Extends names.old names.new }
    ensures later { next.old ≤ next.new }
{
    let test = made!(condition(alloc, t, e, scope, names, next));
    decided_code(alloc, test)
}

// The right operand where the left one holds, else 0.
#[cycle(walk)]
#[inline(never)]
fn both<'a>(
    alloc: Global,
    t: &Source<'a>,
    a: &'a Expr,
    b: &'a Expr,
    scope: &mut Scope<'a>,
    names: &mut Names<'a>,
    next: &mut u32,
) -> Result<Tail<'a>, NoMemory>
    ensures flat { IfOk result (λ r. (s : Span) → IsFlatEnd (whole_in t.now) names.old names.new next.old next.new (scope_of scope.old.items []) (BinaryTree s Both (tree_of a.now) (tree_of b.now)) r.code (option_map view r.form)) }
    ensures scope { OnOk result (scope.new.items ≡ scope.old.items) }
    ensures names { Extends names.old names.new }
    ensures later { next.old ≤ next.new }
{
    let test = made!(condition(alloc, t, a, scope, names, next));
    let right = made!(ending(alloc, t, b, scope, names, next), test);
    both_code(alloc, test, right)
}

// 1 where the left operand holds, else the right one.
#[cycle(walk)]
#[inline(never)]
fn either<'a>(
    alloc: Global,
    t: &Source<'a>,
    a: &'a Expr,
    b: &'a Expr,
    scope: &mut Scope<'a>,
    names: &mut Names<'a>,
    next: &mut u32,
) -> Result<Tail<'a>, NoMemory>
    ensures flat { IfOk result (λ r. (s : Span) → IsFlatEnd (whole_in t.now) names.old names.new next.old next.new (scope_of scope.old.items []) (BinaryTree s Either (tree_of a.now) (tree_of b.now)) r.code (option_map view r.form)) }
    ensures scope { OnOk result (scope.new.items ≡ scope.old.items) }
    ensures names { Extends names.old names.new }
    ensures later { next.old ≤ next.new }
{
    let test = made!(condition(alloc, t, a, scope, names, next));
    let right = made!(ending(alloc, t, b, scope, names, next), test);
    either_code(alloc, test, right)
}

#[cycle(walk)]
#[inline(never)]
fn choose<'a>(
    alloc: Global,
    t: &Source<'a>,
    c: &'a Expr,
    a: &'a Expr,
    b: &'a Expr,
    scope: &mut Scope<'a>,
    names: &mut Names<'a>,
    next: &mut u32,
) -> Result<Tail<'a>, NoMemory>
    ensures flat { IfOk result (λ r. (s : Span) → IsFlatEnd (whole_in t.now) names.old names.new next.old next.new (scope_of scope.old.items []) (IfTree s (tree_of c.now) (tree_of a.now) (tree_of b.now)) r.code (option_map view r.form)) }
    ensures scope { OnOk result (scope.new.items ≡ scope.old.items) }
    ensures names { Extends names.old names.new }
    ensures later { next.old ≤ next.new }
{
    let test = made!(condition(alloc, t, c, scope, names, next));
    let first = made!(ending(alloc, t, a, scope, names, next), test);
    let second = made!(ending(alloc, t, b, scope, names, next), test, first);
    chosen_code(alloc, test, first, second)
}

// A body with a handler, whose variables have the words of the exception.
#[cycle(walk)]
#[inline(never)]
fn try_<'a>(
    alloc: Global,
    t: &Source<'a>,
    a: &'a Expr,
    x: &'a Name,
    ps: &'a [Pat],
    h: &'a Expr,
    scope: &mut Scope<'a>,
    names: &mut Names<'a>,
    next: &mut u32,
) -> Result<Tail<'a>, NoMemory>
    ensures flat { IfOk result (λ r. (s : Span) → IsFlatEnd (whole_in t.now) names.old names.new next.old next.new (scope_of scope.old.items []) (TryTree s (tree_of a.now) x.now (list_patterns ps.now) (tree_of h.now)) r.code (option_map view r.form)) }
    ensures scope { OnOk result (scope.new.items ≡ scope.old.items) }
    ensures names { Extends names.old names.new }
    ensures later { next.old ≤ next.new }
{
    let body = made!(ending(alloc, t, a, scope, names, next));
    let outside = scope.len();
    let caught = made!(caught(alloc, t, x, ps, scope, next), body);
    let handler = made!(ending(alloc, t, h, scope, names, next), body, caught);
    scope.truncate(outside);
    handled(alloc, body, caught, handler)
}

#[cycle(walk)]
#[inline(never)]
fn call<'a>(
    alloc: Global,
    t: &Source<'a>,
    f: &'a Name,
    es: &'a [Expr],
    scope: &mut Scope<'a>,
    names: &mut Names<'a>,
    next: &mut u32,
) -> Result<Tail<'a>, NoMemory>
    ensures flat { IfOk result (λ r. (s : Span) → IsFlatEnd (whole_in t.now) names.old names.new next.old next.new (scope_of scope.old.items []) (CallTree s f.now (list_trees es.now)) r.code (option_map view r.form)) }
    ensures scope { OnOk result (scope.new.items ≡ scope.old.items) }
    ensures names { Extends names.old names.new }
    ensures later { next.old ≤ next.new }
{
    let args = made!(each(alloc, t, es, scope, names, next));
    calling(alloc, t, f, args, names)
}

#[cycle(walk)]
#[inline(never)]
fn raise<'a>(
    alloc: Global,
    t: &Source<'a>,
    x: &'a Name,
    es: &'a [Expr],
    scope: &mut Scope<'a>,
    names: &mut Names<'a>,
    next: &mut u32,
) -> Result<Tail<'a>, NoMemory>
    ensures flat { IfOk result (λ r. (s : Span) → IsFlatEnd (whole_in t.now) names.old names.new next.old next.new (scope_of scope.old.items []) (RaiseTree s x.now (list_trees es.now)) r.code (option_map view r.form)) }
    ensures scope { OnOk result (scope.new.items ≡ scope.old.items) }
    ensures names { Extends names.old names.new }
    ensures later { next.old ≤ next.new }
{
    let args = made!(each(alloc, t, es, scope, names, next));
    raising(alloc, t, x, args)
}

#[cycle(walk)]
#[inline(never)]
fn ending_block<'a>(
    alloc: Global,
    t: &Source<'a>,
    sts: &'a [Stmt],
    a: &'a Expr,
    scope: &mut Scope<'a>,
    names: &mut Names<'a>,
    next: &mut u32,
) -> Result<Tail<'a>, NoMemory>
    ensures flat { IfOk result (λ r. (s : Span) → IsFlatEnd (whole_in t.now) names.old names.new next.old next.new (scope_of scope.old.items []) (BlockTree s (list_statements sts.now) (tree_of a.now)) r.code (option_map view r.form)) }
    ensures scope { OnOk result (scope.new.items ≡ scope.old.items) }
    ensures names { Extends names.old names.new }
    ensures later { next.old ≤ next.new }
{
    let outside = scope.len();
    let steps = made!(statements(alloc, t, sts, scope, names, next));
    let last = made!(ending(alloc, t, a, scope, names, next), steps);
    scope.truncate(outside);
    ended(alloc, steps, last)
}
