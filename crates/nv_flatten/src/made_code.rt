// Conditions and code made of the values and the code of their parts.

ghost use Rattle.std.specs.Prelude.{◌≡◌, ◌≤◌, ◌+◌, [], ℕ, List, Some, true, IfOk, OnOk, option_map};
ghost use Rattle.std.specs.Option.{option_or};
ghost use Rattle.nv_ast.specs.declared.token.Span.{Span};
ghost use Rattle.nv_ast.specs.declared.tree.Op.{Op};
ghost use Rattle.nv_ast.specs.declared.tree.Op.TheVariants.{Both, Either};
ghost use Rattle.nv_ast.specs.PatternView.{list_patterns};
ghost use Rattle.nv_ast.specs.Tree.{Tree, Trees, BinaryTree, CallTree, RaiseTree, IfTree};
ghost use Rattle.nv_ast.specs.Types.{total_words};
ghost use Rattle.nv_meaning.specs.Running.{exception_number};
ghost use Rattle.flat_ir.specs.Spine.{IsJoined};
ghost use Rattle.nv_flatten_values.specs.inner.Code.{comparison_of, is_given, is_comparison};
ghost use Rattle.nv_flatten_values.specs.inner.Simulation.{Extends};
ghost use Rattle.nv_flatten_values.specs.inner.Symbols.{SymbolScope, numbers_from, all_fresh, all_bound};
ghost use Rattle.nv_flatten_values.specs.inner.View.{view, list_symbols, scope_of};
ghost use Rattle.nv_flatten_values.specs.inner.Whole.{Whole, raised_or_none};
ghost use Rattle.nv_flatten_values.specs.inner.WholeView.{whole_in};
ghost use Rattle.nv_flatten.specs.inner.Flat.{IsFlatValue, AreFlatValues, IsFlatTest, IsFlatEnd};
ghost use Rattle.nv_flatten.specs.inner.Handled.{IsHandled};

use crate::made_values::{Listed, two_words};
use crate::want::{boxed, made};
use flat_ir::{Flat, Step, join};
use nv_ast::{Name, Pat};
use nv_base::{Atom, Cmp, NoMemory};
use nv_flatten_values::branches::{Test, branch, give_truth};
use nv_flatten_values::names::Names;
use nv_flatten_values::parts::{short, short_vars};
use nv_flatten_values::scope::{Scope, bind_all};
use nv_flatten_values::source::Source;
use nv_flatten_values::symbol::{Symbol, Valued, all_operands_in, operands_in};
use std::alloc::Global;

/// Code that ends with an expression's words, and the form of its value, if it has one.
#[derive(Drop)]
pub struct Tail<'a> {
    pub code: Flat,
    pub form: Option<Symbol<'a>>,
}

/// The number of an exception that is handled, and the variables that have its words.
#[derive(Drop)]
pub struct Raised {
    pub number: u16,
    pub vars: Vec<u32>,
}

// ---- conditions

/// A comparison of two values' words, which change places where it is so.
pub fn compared<'a>(
    cmp: Cmp,
    swapped: bool,
    left: Valued<'a>,
    right: Valued<'a>,
) -> Result<Test, NoMemory>
    ensures { IfOk result (λ r. (w : Whole) (old names more : List (List ℕ)) (low mid high : ℕ) (scope : SymbolScope) (s : Span) (op : Op) (a b : Tree) → comparison_of op ≡ Some (cmp, swapped) → Extends names more → low ≤ mid → mid ≤ high → IsFlatValue w old names low mid scope a left.entry.steps.items (view left.entry.symbol) → IsFlatValue w names more mid high scope b right.entry.steps.items (view right.entry.symbol) → IsFlatTest w old more low high scope (BinaryTree s op a b) r.steps.items r.cmp r.left r.right) }
{
    let both = two_words(left, right)?;
    let (left, right) = if swapped {
        (both.right, both.left)
    } else {
        (both.left, both.right)
    };
    Ok(Test {
        steps: both.steps,
        cmp,
        left,
        right,
    })
}

// ---- code

/// Code that gives a value's words.
pub fn given_code<'a>(alloc: Global, v: Valued<'a>) -> Result<Tail<'a>, NoMemory>
    ensures { IfOk result (λ r. (w : Whole) (old names : List (List ℕ)) (low high : ℕ) (scope : SymbolScope) (e : Tree) → is_given e ≡ true → IsFlatValue w old names low high scope e v.entry.steps.items (view v.entry.symbol) → IsFlatEnd w old names low high scope e r.code (option_map view r.form)) }
{
    let words = made!(operands_in(alloc, &v.symbol), v);
    let Ok(code) = join(alloc, v.steps, Flat::Give(words)) else {
        drop(v.symbol);
        return Err(NoMemory);
    };
    Ok(Tail {
        code,
        form: Some(v.symbol),
    })
}

/// Code that gives 1 where a comparison holds, else 0.
pub fn decided_code<'a>(alloc: Global, test: Test) -> Result<Tail<'a>, NoMemory>
    ensures { IfOk result (λ r. (w : Whole) (old names : List (List ℕ)) (low high : ℕ) (scope : SymbolScope) (e : Tree) → is_comparison e ≡ true → IsFlatTest w old names low high scope e test.steps.items test.cmp test.left test.right → IsFlatEnd w old names low high scope e r.code (option_map view r.form)) }
{
    let holds = made!(give_truth(alloc, true), test);
    let fails = made!(give_truth(alloc, false), test, holds);
    Ok(Tail {
        code: branch(alloc, test, holds, fails)?,
        form: Some(Symbol::Truth(Atom::Lit(0))),
    })
}

/// Code that ends as the right operand's where the left one holds, else with 0.
pub fn both_code<'a>(alloc: Global, test: Test, right: Tail<'a>) -> Result<Tail<'a>, NoMemory>
    ensures { IfOk result (λ r. (w : Whole) (old names more : List (List ℕ)) (low mid high : ℕ) (scope : SymbolScope) (s : Span) (a b : Tree) → Extends names more → low ≤ mid → IsFlatTest w old names low mid scope a test.steps.items test.cmp test.left test.right → IsFlatEnd w names more mid high scope b right.entry.code (option_map view right.entry.form) → IsFlatEnd w old more low high scope (BinaryTree s Both a b) r.code (option_map view r.form)) }
{
    drop(right.form);
    let fails = made!(give_truth(alloc, false), test, right.code);
    Ok(Tail {
        code: branch(alloc, test, right.code, fails)?,
        form: Some(Symbol::Truth(Atom::Lit(0))),
    })
}

/// Code that ends with 1 where the left operand holds, else as the right one's.
pub fn either_code<'a>(alloc: Global, test: Test, right: Tail<'a>) -> Result<Tail<'a>, NoMemory>
    ensures { IfOk result (λ r. (w : Whole) (old names more : List (List ℕ)) (low mid high : ℕ) (scope : SymbolScope) (s : Span) (a b : Tree) → Extends names more → low ≤ mid → IsFlatTest w old names low mid scope a test.steps.items test.cmp test.left test.right → IsFlatEnd w names more mid high scope b right.entry.code (option_map view right.entry.form) → IsFlatEnd w old more low high scope (BinaryTree s Either a b) r.code (option_map view r.form)) }
{
    drop(right.form);
    let holds = made!(give_truth(alloc, true), test, right.code);
    Ok(Tail {
        code: branch(alloc, test, holds, right.code)?,
        form: Some(Symbol::Truth(Atom::Lit(0))),
    })
}

/// Code that ends as the first where a comparison holds, else as the second.
pub fn chosen_code<'a>(
    alloc: Global,
    test: Test,
    first: Tail<'a>,
    second: Tail<'a>,
) -> Result<Tail<'a>, NoMemory>
    ensures { IfOk result (λ r. (w : Whole) (old names between more : List (List ℕ)) (low mid after high : ℕ) (scope : SymbolScope) (s : Span) (e a b : Tree) → Extends names between → Extends between more → low ≤ mid → mid ≤ after → IsFlatTest w old names low mid scope e test.steps.items test.cmp test.left test.right → IsFlatEnd w names between mid after scope a first.entry.code (option_map view first.entry.form) → IsFlatEnd w between more after high scope b second.entry.code (option_map view second.entry.form) → IsFlatEnd w old more low high scope (IfTree s e a b) r.code (option_map view r.form)) }
{
    let form = first.form.or(second.form);
    let code = made!(branch(alloc, test, first.code, second.code), form);
    Ok(Tail { code, form })
}

/// Code that calls a function on values' words.
pub fn calling<'a>(
    alloc: Global,
    t: &Source<'a>,
    f: &'a Name,
    args: Listed<'a>,
    names: &mut Names<'a>,
) -> Result<Tail<'a>, NoMemory>
    ensures flat { IfOk result (λ r. (old : List (List ℕ)) (low high : ℕ) (scope : SymbolScope) (s : Span) (es : Trees) → AreFlatValues (whole_in t.now) old names.old low high scope es args.entry.steps.items (list_symbols args.entry.symbols.items) → IsFlatEnd (whole_in t.now) old names.new low high scope (CallTree s f.now es) r.code (option_map view r.form)) }
    ensures names { Extends names.old names.new }
{
    let words = made!(all_operands_in(alloc, &args.symbols), args);
    drop(args.symbols);
    let number = made!(names.number(f), args.steps);
    let code = join(alloc, args.steps, Flat::Call(number, words))?;
    let form = made!(t.result_form(alloc, f), code);
    Ok(Tail { code, form })
}

/// Code that raises an exception with values' words.
pub fn raising<'a>(
    alloc: Global,
    t: &Source<'a>,
    x: &'a Name,
    args: Listed<'a>,
) -> Result<Tail<'a>, NoMemory>
    ensures { IfOk result (λ r. (old names : List (List ℕ)) (low high : ℕ) (scope : SymbolScope) (s : Span) (es : Trees) → AreFlatValues (whole_in t.now) old names low high scope es args.entry.steps.items (list_symbols args.entry.symbols.items) → IsFlatEnd (whole_in t.now) old names low high scope (RaiseTree s x.now es) r.code (option_map view r.form)) }
{
    let operands = made!(all_operands_in(alloc, &args.symbols), args);
    drop(args.symbols);
    let words = made!(short(alloc, &operands), args.steps);
    Ok(Tail {
        code: join(alloc, args.steps, Flat::Raise(t.table.exception(x), words))?,
        form: None,
    })
}

/// Code with steps before it.
pub fn ended<'a>(alloc: Global, steps: Vec<Step>, last: Tail<'a>) -> Result<Tail<'a>, NoMemory>
    ensures { IfOk result (λ r. IsJoined steps.items last.entry.code r.code × (r.form ≡ last.entry.form)) }
{
    let Ok(code) = join(alloc, steps, last.code) else {
        drop(last.form);
        return Err(NoMemory);
    };
    Ok(Tail {
        code,
        form: last.form,
    })
}

// ---- handlers

/// New variables for the words of an exception, and those of the handler's patterns in scope.
pub fn caught<'a>(
    alloc: Global,
    t: &Source<'a>,
    x: &'a Name,
    ps: &'a [Pat],
    scope: &mut Scope<'a>,
    next: &mut u32,
) -> Result<Raised, NoMemory>
    ensures number { IfOk result (λ r. r.number ≡ exception_number (whole_in t.now).declared.exceptions x.now) }
    ensures vars { IfOk result (λ r. r.vars.items ≡ numbers_from next.old (total_words (raised_or_none (whole_in t.now) r.number))) }
    ensures bound { IfOk result (λ r. scope_of scope.new.items [] ≡ all_bound (list_patterns ps.now) (all_fresh next.old (raised_or_none (whole_in t.now) r.number)) (scope_of scope.old.items [])) }
    ensures next { IfOk result (λ r. next.new ≡ next.old + total_words (raised_or_none (whole_in t.now) r.number)) }
    ensures extends { Extends scope.old.items scope.new.items }
    ensures later { next.old ≤ next.new }
{
    let number = t.table.exception(x);
    let mut vars = Vec::new(alloc);
    let values = t.raised_values(alloc, number, next, &mut vars)?;
    bind_all(ps, values, scope)?;
    Ok(Raised { number, vars })
}

/// Code that does a body, and where the body raises what is caught, a handler.
pub fn handled<'a>(
    alloc: Global,
    body: Tail<'a>,
    caught: Raised,
    handler: Tail<'a>,
) -> Result<Tail<'a>, NoMemory>
    ensures { IfOk result (λ r. IsHandled caught.number caught.vars.items body.entry.code handler.entry.code r.code × (option_map view r.form ≡ option_or (option_map view body.entry.form) (option_map view handler.entry.form))) }
{
    let form = body.form.or(handler.form);
    let code = made!(
        handled_code(alloc, body.code, caught.number, &caught.vars, handler.code),
        form
    );
    Ok(Tail { code, form })
}

fn handled_code(
    alloc: Global,
    body: Flat,
    number: u16,
    vars: &[u32],
    handler: Flat,
) -> Result<Flat, NoMemory>
    ensures { IfOk result (λ t. IsHandled number vars.now body handler t) }
{
    let first = boxed!(alloc, body, handler);
    let second = boxed!(alloc, handler, first);
    let vars = made!(short_vars(alloc, vars), first, second);
    Ok(Flat::Try(first, number, vars, second))
}
