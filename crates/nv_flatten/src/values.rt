// Expressions and statements as steps of flat code.

ghost use Rattle.std.specs.Prelude.{◌≡◌, ◌≤◌, [], Some, true, if◌then◌else◌, IfOk, OnOk};
ghost use Rattle.nv_base.specs.declared.term.Atom.TheVariants.{Lit};
ghost use Rattle.nv_ast.specs.declared.token.Span.{Span};
ghost use Rattle.nv_ast.specs.ExprView.{tree_of, list_trees, list_named_trees, list_statements, statement_tree};
ghost use Rattle.nv_ast.specs.Tree.{TupleTree, FieldsTree, DotTree, InvertTree, NegateTree, BinaryTree, ShiftTree, UnpackTree, PackTree, FetchTree, BlockTree, StoreStatement};
ghost use Rattle.nv_flatten_values.specs.inner.Arms.{is_named};
ghost use Rattle.nv_flatten_values.specs.inner.Code.{arithmetic_of};
ghost use Rattle.nv_flatten.specs.inner.Flat.{IsFlatValue, AreFlatValues, IsFlatStatement, IsFlatStated};
ghost use Rattle.nv_flatten_values.specs.inner.Simulation.{Extends};
ghost use Rattle.nv_flatten_values.specs.inner.Symbols.{Word, Truth};
ghost use Rattle.nv_flatten_values.specs.inner.View.{view, list_symbols, scope_of};
ghost use Rattle.nv_flatten_values.specs.inner.WholeView.{whole_in};

use crate::endings::ending;
use crate::made_values::{
    Listed, add_field, add_valued, behind, bound_value, combined, fetched, inverted, negated,
    no_fields, no_values, packed_value, shifted_by, store_steps, unpacked_value,
};
use crate::want::made;
use flat_ir::Step;
use nv_ast::{Expr, Name, Op, ShiftOp, Stmt};
use nv_base::{Atom, Bin, Mem, NoMemory};
use nv_flatten_values::arms::{ValueArm, value_arm};
use nv_flatten_values::names::Names;
use nv_flatten_values::parts::add_steps;
use nv_flatten_values::scope::{Scope, bind, variable};
use nv_flatten_values::source::Source;
use nv_flatten_values::symbol::{Symbol, Valued, field_in};
use std::alloc::Global;

// ---- values

/// The value of an expression.
#[cycle(walk)]
pub fn value<'a>(
    alloc: Global,
    t: &Source<'a>,
    e: &'a Expr,
    scope: &mut Scope<'a>,
    names: &mut Names<'a>,
    next: &mut u32,
) -> Result<Valued<'a>, NoMemory>
    ensures flat { IfOk result (λ r. IsFlatValue (whole_in t.now) names.old names.new next.old next.new (scope_of scope.old.items []) (tree_of e.now) r.steps.items (view r.symbol)) }
    ensures scope { OnOk result (scope.new.items ≡ scope.old.items) }
    ensures names { Extends names.old names.new }
    ensures later { next.old ≤ next.new }
{
    match value_arm(e) {
        ValueArm::Number(n) => Ok(constant(alloc, number(n))),
        ValueArm::Truth(b) => Ok(constant(alloc, bit(b))),
        ValueArm::Var(x) => Ok(constant(alloc, variable(alloc, scope, x)?)),
        ValueArm::Paren(a) => value(alloc, t, a, scope, names, next),
        ValueArm::Tuple(es) => tuple(alloc, t, es, scope, names, next),
        ValueArm::Fields(es) => record(alloc, t, es, scope, names, next),
        ValueArm::Dot(a, x) => dot(alloc, t, a, x, scope, names, next),
        ValueArm::Invert(a) => invert(alloc, t, a, scope, names, next),
        ValueArm::Negate(a) => negate(alloc, t, a, scope, names, next),
        ValueArm::Shift(op, a, n) => shift(alloc, t, op, a, n, scope, names, next),
        ValueArm::Combine(bin, a, b) => combine(alloc, t, bin, a, b, scope, names, next),
        ValueArm::Unpack(l, a) => unpack(alloc, t, l, a, scope, names, next),
        ValueArm::Pack(l, a) => pack(alloc, t, l, a, scope, names, next),
        ValueArm::Fetch(m, n, a) => fetch(alloc, t, m, n, a, scope, names, next),
        ValueArm::Block(sts, a) => block(alloc, t, sts, a, scope, names, next),
        ValueArm::Named => named(alloc, t, e, scope, names, next),
    }
}

// A symbolic value without steps.
fn constant<'a>(alloc: Global, symbol: Symbol<'a>) -> Valued<'a>
    ensures steps { result.steps.items ≡ [] }
    ensures symbol { result.symbol ≡ symbol.entry }
{
    Valued {
        steps: Vec::new(alloc),
        symbol,
    }
}

// A number, which is a word.
fn number<'a>(n: u32) -> Symbol<'a>
    ensures { view result ≡ Word (Lit n) }
{
    Symbol::Word(Atom::Lit(n))
}

// A truth: 1 or 0.
fn bit<'a>(b: bool) -> Symbol<'a>
    ensures { view result ≡ Truth (Lit (if b then 1 else 0)) }
{
    Symbol::Truth(Atom::Lit(b as u32))
}

// An expression that chooses, calls or raises: its words get names.
#[cycle(walk)]
#[inline(never)]
fn named<'a>(
    alloc: Global,
    t: &Source<'a>,
    e: &'a Expr,
    scope: &mut Scope<'a>,
    names: &mut Names<'a>,
    next: &mut u32,
) -> Result<Valued<'a>, NoMemory>
    ensures flat { is_named (tree_of e.now) ≡ true → IfOk result (λ r. IsFlatValue (whole_in t.now) names.old names.new next.old next.new (scope_of scope.old.items []) (tree_of e.now) r.steps.items (view r.symbol)) }
    ensures scope { OnOk result (scope.new.items ≡ scope.old.items) }
    ensures names { Extends names.old names.new }
    ensures later { next.old ≤ next.new }
{
    let tail = made!(ending(alloc, t, e, scope, names, next));
    bound_value(alloc, tail, next)
}

#[cycle(walk)]
#[inline(never)]
fn tuple<'a>(
    alloc: Global,
    t: &Source<'a>,
    es: &'a [Expr],
    scope: &mut Scope<'a>,
    names: &mut Names<'a>,
    next: &mut u32,
) -> Result<Valued<'a>, NoMemory>
    ensures flat { IfOk result (λ r. (s : Span) → IsFlatValue (whole_in t.now) names.old names.new next.old next.new (scope_of scope.old.items []) (TupleTree s (list_trees es.now)) r.steps.items (view r.symbol)) }
    ensures scope { OnOk result (scope.new.items ≡ scope.old.items) }
    ensures names { Extends names.old names.new }
    ensures later { next.old ≤ next.new }
{
    let parts = made!(each(alloc, t, es, scope, names, next));
    Ok(Valued {
        steps: parts.steps,
        symbol: Symbol::Tuple(parts.symbols),
    })
}

#[cycle(walk)]
#[inline(never)]
fn record<'a>(
    alloc: Global,
    t: &Source<'a>,
    es: &'a [(Name, Expr)],
    scope: &mut Scope<'a>,
    names: &mut Names<'a>,
    next: &mut u32,
) -> Result<Valued<'a>, NoMemory>
    ensures flat { IfOk result (λ r. (s : Span) → IsFlatValue (whole_in t.now) names.old names.new next.old next.new (scope_of scope.old.items []) (FieldsTree s (list_named_trees es.now)) r.steps.items (view r.symbol)) }
    ensures scope { OnOk result (scope.new.items ≡ scope.old.items) }
    ensures names { Extends names.old names.new }
    ensures later { next.old ≤ next.new }
{
    let mut recorded = no_fields(alloc, es.len())?;
    for e in es {
        let v = made!(value(alloc, t, &e.1, scope, names, next), recorded);
        made!(add_field(&e.0, v, &mut recorded), recorded);
    }
    Ok(Valued {
        steps: recorded.steps,
        symbol: Symbol::Record(recorded.fields),
    })
}

#[cycle(walk)]
#[inline(never)]
fn dot<'a>(
    alloc: Global,
    t: &Source<'a>,
    a: &'a Expr,
    x: &Name,
    scope: &mut Scope<'a>,
    names: &mut Names<'a>,
    next: &mut u32,
) -> Result<Valued<'a>, NoMemory>
    ensures flat { IfOk result (λ r. (s : Span) → IsFlatValue (whole_in t.now) names.old names.new next.old next.new (scope_of scope.old.items []) (DotTree s (tree_of a.now) x.now) r.steps.items (view r.symbol)) }
    ensures scope { OnOk result (scope.new.items ≡ scope.old.items) }
    ensures names { Extends names.old names.new }
    ensures later { next.old ≤ next.new }
{
    let whole = made!(value(alloc, t, a, scope, names, next));
    Ok(Valued {
        steps: whole.steps,
        symbol: field_in(whole.symbol, x),
    })
}

#[cycle(walk)]
#[inline(never)]
fn invert<'a>(
    alloc: Global,
    t: &Source<'a>,
    a: &'a Expr,
    scope: &mut Scope<'a>,
    names: &mut Names<'a>,
    next: &mut u32,
) -> Result<Valued<'a>, NoMemory>
    ensures flat { IfOk result (λ r. (s : Span) → IsFlatValue (whole_in t.now) names.old names.new next.old next.new (scope_of scope.old.items []) (InvertTree s (tree_of a.now)) r.steps.items (view r.symbol)) }
    ensures scope { OnOk result (scope.new.items ≡ scope.old.items) }
    ensures names { Extends names.old names.new }
    ensures later { next.old ≤ next.new }
{
    let operand = made!(value(alloc, t, a, scope, names, next));
    inverted(operand, next)
}

// A truth turned over: 1 for 0, and 0 for 1.
#[cycle(walk)]
#[inline(never)]
fn negate<'a>(
    alloc: Global,
    t: &Source<'a>,
    a: &'a Expr,
    scope: &mut Scope<'a>,
    names: &mut Names<'a>,
    next: &mut u32,
) -> Result<Valued<'a>, NoMemory>
    ensures flat { IfOk result (λ r. (s : Span) → IsFlatValue (whole_in t.now) names.old names.new next.old next.new (scope_of scope.old.items []) (NegateTree s (tree_of a.now)) r.steps.items (view r.symbol)) }
    ensures scope { OnOk result (scope.new.items ≡ scope.old.items) }
    ensures names { Extends names.old names.new }
    ensures later { next.old ≤ next.new }
{
    let operand = made!(value(alloc, t, a, scope, names, next));
    negated(operand, next)
}

// A shift by no place is the word itself.
#[cycle(walk)]
#[inline(never)]
fn shift<'a>(
    alloc: Global,
    t: &Source<'a>,
    op: ShiftOp,
    a: &'a Expr,
    n: u32,
    scope: &mut Scope<'a>,
    names: &mut Names<'a>,
    next: &mut u32,
) -> Result<Valued<'a>, NoMemory>
    ensures flat { IfOk result (λ r. (s : Span) → IsFlatValue (whole_in t.now) names.old names.new next.old next.new (scope_of scope.old.items []) (ShiftTree s op (tree_of a.now) n) r.steps.items (view r.symbol)) }
    ensures scope { OnOk result (scope.new.items ≡ scope.old.items) }
    ensures names { Extends names.old names.new }
    ensures later { next.old ≤ next.new }
{
    let operand = made!(value(alloc, t, a, scope, names, next));
    shifted_by(op, n, operand, next)
}

#[cycle(walk)]
#[inline(never)]
fn combine<'a>(
    alloc: Global,
    t: &Source<'a>,
    bin: Bin,
    a: &'a Expr,
    b: &'a Expr,
    scope: &mut Scope<'a>,
    names: &mut Names<'a>,
    next: &mut u32,
) -> Result<Valued<'a>, NoMemory>
    ensures flat { IfOk result (λ r. (s : Span) (op : Op) → arithmetic_of op ≡ Some bin → IsFlatValue (whole_in t.now) names.old names.new next.old next.new (scope_of scope.old.items []) (BinaryTree s op (tree_of a.now) (tree_of b.now)) r.steps.items (view r.symbol)) }
    ensures scope { OnOk result (scope.new.items ≡ scope.old.items) }
    ensures names { Extends names.old names.new }
    ensures later { next.old ≤ next.new }
{
    let left = made!(value(alloc, t, a, scope, names, next));
    let right = made!(value(alloc, t, b, scope, names, next), left);
    combined(bin, left, right, next)
}

#[cycle(walk)]
#[inline(never)]
fn unpack<'a>(
    alloc: Global,
    t: &Source<'a>,
    l: &'a Name,
    a: &'a Expr,
    scope: &mut Scope<'a>,
    names: &mut Names<'a>,
    next: &mut u32,
) -> Result<Valued<'a>, NoMemory>
    ensures flat { IfOk result (λ r. (s : Span) → IsFlatValue (whole_in t.now) names.old names.new next.old next.new (scope_of scope.old.items []) (UnpackTree s l.now (tree_of a.now)) r.steps.items (view r.symbol)) }
    ensures scope { OnOk result (scope.new.items ≡ scope.old.items) }
    ensures names { Extends names.old names.new }
    ensures later { next.old ≤ next.new }
{
    let whole = made!(value(alloc, t, a, scope, names, next));
    unpacked_value(alloc, t, l, whole, next)
}

#[cycle(walk)]
#[inline(never)]
fn pack<'a>(
    alloc: Global,
    t: &Source<'a>,
    l: &'a Name,
    a: &'a Expr,
    scope: &mut Scope<'a>,
    names: &mut Names<'a>,
    next: &mut u32,
) -> Result<Valued<'a>, NoMemory>
    ensures flat { IfOk result (λ r. (s : Span) → IsFlatValue (whole_in t.now) names.old names.new next.old next.new (scope_of scope.old.items []) (PackTree s l.now (tree_of a.now)) r.steps.items (view r.symbol)) }
    ensures scope { OnOk result (scope.new.items ≡ scope.old.items) }
    ensures names { Extends names.old names.new }
    ensures later { next.old ≤ next.new }
{
    let fields = made!(value(alloc, t, a, scope, names, next));
    packed_value(alloc, t, l, fields, next)
}

#[cycle(walk)]
#[inline(never)]
fn fetch<'a>(
    alloc: Global,
    t: &Source<'a>,
    m: Mem,
    n: u32,
    a: &'a Expr,
    scope: &mut Scope<'a>,
    names: &mut Names<'a>,
    next: &mut u32,
) -> Result<Valued<'a>, NoMemory>
    ensures flat { IfOk result (λ r. (s : Span) → IsFlatValue (whole_in t.now) names.old names.new next.old next.new (scope_of scope.old.items []) (FetchTree s m n (tree_of a.now)) r.steps.items (view r.symbol)) }
    ensures scope { OnOk result (scope.new.items ≡ scope.old.items) }
    ensures names { Extends names.old names.new }
    ensures later { next.old ≤ next.new }
{
    let address = made!(value(alloc, t, a, scope, names, next));
    fetched(alloc, m, n, address, next)
}

// A block: its statements, and then its value.
#[cycle(walk)]
#[inline(never)]
fn block<'a>(
    alloc: Global,
    t: &Source<'a>,
    sts: &'a [Stmt],
    a: &'a Expr,
    scope: &mut Scope<'a>,
    names: &mut Names<'a>,
    next: &mut u32,
) -> Result<Valued<'a>, NoMemory>
    ensures flat { IfOk result (λ r. (s : Span) → IsFlatValue (whole_in t.now) names.old names.new next.old next.new (scope_of scope.old.items []) (BlockTree s (list_statements sts.now) (tree_of a.now)) r.steps.items (view r.symbol)) }
    ensures scope { OnOk result (scope.new.items ≡ scope.old.items) }
    ensures names { Extends names.old names.new }
    ensures later { next.old ≤ next.new }
{
    let outside = scope.len();
    let steps = made!(statements(alloc, t, sts, scope, names, next));
    let last = made!(value(alloc, t, a, scope, names, next), steps);
    scope.truncate(outside);
    behind(steps, last)
}

// ---- expressions one after another

/// The values of expressions.
#[cycle(walk)]
#[inline(never)]
pub fn each<'a>(
    alloc: Global,
    t: &Source<'a>,
    es: &'a [Expr],
    scope: &mut Scope<'a>,
    names: &mut Names<'a>,
    next: &mut u32,
) -> Result<Listed<'a>, NoMemory>
    ensures flat { IfOk result (λ r. AreFlatValues (whole_in t.now) names.old names.new next.old next.new (scope_of scope.old.items []) (list_trees es.now) r.steps.items (list_symbols r.symbols.items)) }
    ensures scope { OnOk result (scope.new.items ≡ scope.old.items) }
    ensures names { Extends names.old names.new }
    ensures later { next.old ≤ next.new }
{
    let mut listed = no_values(alloc, es.len())?;
    for e in es {
        let v = made!(value(alloc, t, e, scope, names, next), listed);
        made!(add_valued(v, &mut listed), listed);
    }
    Ok(listed)
}

// ---- statements

/// The steps of statements, which add variables to the scope.
#[cycle(walk)]
#[inline(never)]
pub fn statements<'a>(
    alloc: Global,
    t: &Source<'a>,
    sts: &'a [Stmt],
    scope: &mut Scope<'a>,
    names: &mut Names<'a>,
    next: &mut u32,
) -> Result<Vec<Step>, NoMemory>
    ensures flat { IfOk result (λ steps. IsFlatStated (whole_in t.now) names.old names.new next.old next.new (scope_of scope.old.items []) (list_statements sts.now) steps.items (scope_of scope.new.items [])) }
    ensures scope { OnOk result (Extends scope.old.items scope.new.items) }
    ensures names { Extends names.old names.new }
    ensures later { next.old ≤ next.new }
{
    let mut steps = Vec::new(alloc);
    for st in sts {
        let more = made!(statement(alloc, t, st, scope, names, next), steps);
        made!(add_steps(more, &mut steps), steps);
    }
    Ok(steps)
}

#[cycle(walk)]
#[inline(never)]
fn statement<'a>(
    alloc: Global,
    t: &Source<'a>,
    st: &'a Stmt,
    scope: &mut Scope<'a>,
    names: &mut Names<'a>,
    next: &mut u32,
) -> Result<Vec<Step>, NoMemory>
    ensures flat { IfOk result (λ steps. IsFlatStatement (whole_in t.now) names.old names.new next.old next.new (scope_of scope.old.items []) (statement_tree st.now) steps.items (scope_of scope.new.items [])) }
    ensures scope { OnOk result (Extends scope.old.items scope.new.items) }
    ensures names { Extends names.old names.new }
    ensures later { next.old ≤ next.new }
{
    match st {
        Stmt::Let(pattern, e, _) => {
            let v = made!(value(alloc, t, e, scope, names, next));
            made!(bind(pattern, v.symbol, scope), v.steps);
            Ok(v.steps)
        }
        Stmt::Store(m, a, e, _) => store(alloc, t, *m, a, e, scope, names, next),
    }
}

// The address first, then the value.
#[cycle(walk)]
#[inline(never)]
fn store<'a>(
    alloc: Global,
    t: &Source<'a>,
    m: Mem,
    a: &'a Expr,
    e: &'a Expr,
    scope: &mut Scope<'a>,
    names: &mut Names<'a>,
    next: &mut u32,
) -> Result<Vec<Step>, NoMemory>
    ensures flat { IfOk result (λ steps. (s : Span) → IsFlatStatement (whole_in t.now) names.old names.new next.old next.new (scope_of scope.old.items []) (StoreStatement s m (tree_of a.now) (tree_of e.now)) steps.items (scope_of scope.new.items [])) }
    ensures scope { OnOk result (Extends scope.old.items scope.new.items) }
    ensures names { Extends names.old names.new }
    ensures later { next.old ≤ next.new }
{
    let address = made!(value(alloc, t, a, scope, names, next));
    let stored = made!(value(alloc, t, e, scope, names, next), address);
    store_steps(alloc, m, address, stored)
}
