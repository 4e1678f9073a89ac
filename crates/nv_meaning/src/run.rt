// What the parts of a program come to.

ghost use Rattle.std.specs.Prelude.{◌≡◌, ◌≤◌, [], OnOk, None, Some, MatchOption, if◌then◌else◌};
ghost use Rattle.nv_ast.specs.ExprView.{tree_of, list_trees, list_named_trees, list_statements, statement_tree};
ghost use Rattle.nv_ast.specs.PatternView.{list_patterns};
ghost use Rattle.nv_meaning_values.specs.Values.{variable_in, truth_of, word_of, words_of, all_matched, matched, Tuple as TupleOf, Record as RecordOf, Truth as TruthOf};
ghost use Rattle.nv_meaning_values.specs.Running.{Running, Gives, Raises, and_then, and_all, and_named, and_stated, then_stated, handled, exception_number, store as store_of};
ghost use Rattle.nv_meaning.specs.Meaning.{Calls, eval as evaluated, eval_all, eval_named, run_one, run_all, binary as binary_of};
ghost use Rattle.nv_meaning.specs.inner.Operand.{made_of as made, decided_by, joined_by};
ghost use Rattle.nv_meaning_values.specs.inner.View.{view, list_values, scope_of, Extends};
ghost use Rattle.nv_meaning_values.specs.inner.TableView.{declared_in};
ghost use Rattle.nv_meaning.specs.inner.Ran.{at, RanStep, RanValue, RanValues, RanFields, RanScope, RanCall, IsStep, IsValue};

use crate::memory::stored;
use crate::pack::packed;
use crate::parts::field_in;
use crate::scope::{Scope, bind, bind_all, enter, variable};
use crate::step::Step;
use crate::unpack::unpacked;
use nv_ast::{Expr, Kind, Name, Op, Pat, Span, Stmt};
use nv_base::{Mem, Packet, word};
use nv_meaning_values::{
    Field, Interruption, Notes, Table, Value, combined, fetched, is_true, shifted, truth_in,
    word_in,
};
use std::alloc::Global;

/// What an expression comes to, with the calls in its place still to be made.
#[cycle(run)]
pub fn eval<'a>(
    alloc: Global,
    t: &Table<'a>,
    e: &'a Expr,
    scope: &mut Scope<'a>,
    p: &mut Packet,
    log: &mut Notes<'a>,
    left: &mut u64,
) -> Result<Step<'a>, Interruption<'a>>
    ensures ran { RanStep (declared_in t.now) (at left.old p.old log.old) (at left.new p.new log.new) result (λ call now. evaluated (declared_in t.now) call (tree_of e.now) (scope_of scope.old.items []) now) }
    ensures left { left.new ≤ left.old }
    ensures extends { Extends scope.old.items scope.new.items }
    ensures same { OnOk result (scope.new.items ≡ scope.old.items) }
{
    log.set_here(e.span);
    match &e.kind {
        Kind::Number(n) => Ok(Step::Done(Value::Word(*n))),
        Kind::Truth(b) => Ok(Step::Done(Value::Truth(*b))),
        Kind::Var(x) => look_up(alloc, scope, x),
        Kind::Paren(a) => eval(alloc, t, a, scope, p, log, left),
        Kind::Tuple(es) => tuple(alloc, t, es, scope, p, log, left),
        Kind::Fields(es) => record(alloc, t, es, scope, p, log, left),
        Kind::Binary(op, a, b) => binary(alloc, t, *op, a, b, scope, p, log, left),
        Kind::Call(f, es) => again(alloc, t, f, es, scope, p, log, left),
        Kind::Raise(x, es) => raise(alloc, t, x, es, scope, p, log, left),
        Kind::If(c, a, b) => choose(alloc, t, c, a, b, scope, p, log, left),
        Kind::Try(a, x, ps, h) => try_(alloc, t, a, x, ps, h, scope, p, log, left),
        Kind::Block(sts, a) => block(alloc, t, sts, a, scope, p, log, left),
        Kind::Dot(a, _)
        | Kind::Invert(a)
        | Kind::Negate(a)
        | Kind::Shift(_, a, _)
        | Kind::Unpack(_, a)
        | Kind::Pack(_, a)
        | Kind::Fetch(_, _, a) => of_operand(alloc, t, e, a, scope, p, log, left),
    }
}

/// The value of an expression, with the calls in its place made.
#[cycle(run)]
pub fn settled<'a>(
    alloc: Global,
    t: &Table<'a>,
    e: &'a Expr,
    scope: &mut Scope<'a>,
    p: &mut Packet,
    log: &mut Notes<'a>,
    left: &mut u64,
) -> Result<Value<'a>, Interruption<'a>>
    ensures ran { RanValue (declared_in t.now) (at left.old p.old log.old) (at left.new p.new log.new) result (λ call now. evaluated (declared_in t.now) call (tree_of e.now) (scope_of scope.old.items []) now) }
    ensures left { left.new ≤ left.old }
    ensures extends { Extends scope.old.items scope.new.items }
    ensures same { OnOk result (scope.new.items ≡ scope.old.items) }
{
    match eval(alloc, t, e, scope, p, log, left)? {
        Step::Done(v) => Ok(v),
        Step::Again(f, vs) => {
            let before = log.mark();
            let answer = call(alloc, t, f, vs, p, log, left);
            log.back(before);
            answer
        }
    }
}

// Calls a function, and the functions that are called in its place.
#[cycle(run)]
#[inline(never)]
fn call<'a>(
    alloc: Global,
    t: &Table<'a>,
    f: &'a Name,
    vs: Vec<Value<'a>>,
    p: &mut Packet,
    log: &mut Notes<'a>,
    left: &mut u64,
) -> Result<Value<'a>, Interruption<'a>>
    ensures ran { RanCall (declared_in t.now) (at left.old p.old log.old) (at left.new p.new log.new) result f.now (list_values vs.entry.items) }
    ensures left { left.new ≤ left.old }
{
    let mut callee = f;
    let mut args = vs;
    let mut scope = Vec::new(alloc);
    loop {
        if *left == 0 {
            return Err(Interruption::Going);
        }
        *left -= 1;
        match t.found(callee) {
            None => return Err(Interruption::Going),
            Some((place, function)) => {
                log.follow(callee, place, function, &args)?;
                scope.clear();
                enter(&function.params, args, &mut scope)?;
                match eval(alloc, t, &function.body, &mut scope, p, log, left)? {
                    Step::Done(v) => return Ok(v),
                    Step::Again(next, values) => {
                        callee = next;
                        args = values;
                    }
                }
            }
        }
    }
}

// ---- parts one after another

// The values of some expressions.
#[cycle(run)]
#[inline(never)]
fn each<'a>(
    alloc: Global,
    t: &Table<'a>,
    es: &'a [Expr],
    scope: &mut Scope<'a>,
    p: &mut Packet,
    log: &mut Notes<'a>,
    left: &mut u64,
) -> Result<Vec<Value<'a>>, Interruption<'a>>
    ensures ran { RanValues (declared_in t.now) (at left.old p.old log.old) (at left.new p.new log.new) result (λ call now. eval_all (declared_in t.now) call (list_trees es.now) (scope_of scope.old.items []) now) }
    ensures left { left.new ≤ left.old }
    ensures extends { Extends scope.old.items scope.new.items }
    ensures same { OnOk result (scope.new.items ≡ scope.old.items) }
{
    let mut vs = Vec::with_capacity(alloc, es.len())?;
    for e in es {
        vs.push(settled(alloc, t, e, scope, p, log, left)?)?;
    }
    Ok(vs)
}

// The values of some expressions with names.
#[cycle(run)]
#[inline(never)]
fn each_named<'a>(
    alloc: Global,
    t: &Table<'a>,
    es: &'a [(Name, Expr)],
    scope: &mut Scope<'a>,
    p: &mut Packet,
    log: &mut Notes<'a>,
    left: &mut u64,
) -> Result<Vec<Field<'a>>, Interruption<'a>>
    ensures ran { RanFields (declared_in t.now) (at left.old p.old log.old) (at left.new p.new log.new) result (λ call now. eval_named (declared_in t.now) call (list_named_trees es.now) (scope_of scope.old.items []) now) }
    ensures left { left.new ≤ left.old }
    ensures extends { Extends scope.old.items scope.new.items }
    ensures same { OnOk result (scope.new.items ≡ scope.old.items) }
{
    let mut fields = Vec::with_capacity(alloc, es.len())?;
    for e in es {
        let v = settled(alloc, t, &e.1, scope, p, log, left)?;
        fields.push((&e.0, v))?;
    }
    Ok(fields)
}

// Runs some statements.
#[cycle(run)]
#[inline(never)]
fn statements<'a>(
    alloc: Global,
    t: &Table<'a>,
    sts: &'a [Stmt],
    scope: &mut Scope<'a>,
    p: &mut Packet,
    log: &mut Notes<'a>,
    left: &mut u64,
) -> Result<(), Interruption<'a>>
    ensures ran { RanScope (declared_in t.now) (at left.old p.old log.old) (at left.new p.new log.new) result (scope_of scope.new.items []) (λ call now. run_all (declared_in t.now) call (list_statements sts.now) (scope_of scope.old.items []) now) }
    ensures left { left.new ≤ left.old }
    ensures extends { Extends scope.old.items scope.new.items }
{
    for st in sts {
        statement(alloc, t, st, scope, p, log, left)?;
    }
    Ok(())
}

#[cycle(run)]
#[inline(never)]
fn statement<'a>(
    alloc: Global,
    t: &Table<'a>,
    st: &'a Stmt,
    scope: &mut Scope<'a>,
    p: &mut Packet,
    log: &mut Notes<'a>,
    left: &mut u64,
) -> Result<(), Interruption<'a>>
    ensures ran { RanScope (declared_in t.now) (at left.old p.old log.old) (at left.new p.new log.new) result (scope_of scope.new.items []) (λ call now. run_one (declared_in t.now) call (statement_tree st.now) (scope_of scope.old.items []) now) }
    ensures left { left.new ≤ left.old }
    ensures extends { Extends scope.old.items scope.new.items }
{
    match st {
        Stmt::Let(pattern, e, _) => {
            let v = settled(alloc, t, e, scope, p, log, left)?;
            log.bound(e.span, pattern, &v);
            Ok(bind(pattern, v, scope)?)
        }
        Stmt::Store(m, a, e, span) => store(alloc, t, *span, *m, a, e, scope, p, log, left),
    }
}

// Evaluates an address and then a value, and stores the value there.
#[cycle(run)]
#[inline(never)]
fn store<'a>(
    alloc: Global,
    t: &Table<'a>,
    span: Span,
    m: Mem,
    a: &'a Expr,
    e: &'a Expr,
    scope: &mut Scope<'a>,
    p: &mut Packet,
    log: &mut Notes<'a>,
    left: &mut u64,
) -> Result<(), Interruption<'a>>
    ensures ran { RanScope (declared_in t.now) (at left.old p.old log.old) (at left.new p.new log.new) result (scope_of scope.new.items []) (λ call now. then_stated (evaluated (declared_in t.now) call (tree_of a.now) (scope_of scope.old.items []) now) (λ v next. then_stated (evaluated (declared_in t.now) call (tree_of e.now) (scope_of scope.old.items []) next) (λ w last. store_of span (scope_of scope.old.items []) m (word_of v) (words_of w) last))) }
    ensures left { left.new ≤ left.old }
    ensures extends { Extends scope.old.items scope.new.items }
{
    let at = settled(alloc, t, a, scope, p, log, left)?;
    let v = settled(alloc, t, e, scope, p, log, left)?;
    stored(alloc, p, log, span, m, word_in(at), v)
}

// ---- kinds of expression

// The value of a variable.
#[inline(never)]
fn look_up<'a>(
    alloc: Global,
    scope: &[(&'a Name, Value<'a>)],
    x: &Name,
) -> Result<Step<'a>, Interruption<'a>>
    ensures { (call : Calls) (now : Running) → IsStep call result now (Gives (variable_in (scope_of scope.now []) x.now) now) }
{
    Ok(Step::Done(variable(alloc, scope, x)?))
}

#[cycle(run)]
#[inline(never)]
fn tuple<'a>(
    alloc: Global,
    t: &Table<'a>,
    es: &'a [Expr],
    scope: &mut Scope<'a>,
    p: &mut Packet,
    log: &mut Notes<'a>,
    left: &mut u64,
) -> Result<Step<'a>, Interruption<'a>>
    ensures ran { RanStep (declared_in t.now) (at left.old p.old log.old) (at left.new p.new log.new) result (λ call now. and_all (eval_all (declared_in t.now) call (list_trees es.now) (scope_of scope.old.items []) now) (λ vs last. Gives (TupleOf vs) last)) }
    ensures left { left.new ≤ left.old }
    ensures extends { Extends scope.old.items scope.new.items }
    ensures same { OnOk result (scope.new.items ≡ scope.old.items) }
{
    let vs = each(alloc, t, es, scope, p, log, left)?;
    Ok(Step::Done(Value::Tuple(vs)))
}

#[cycle(run)]
#[inline(never)]
fn record<'a>(
    alloc: Global,
    t: &Table<'a>,
    es: &'a [(Name, Expr)],
    scope: &mut Scope<'a>,
    p: &mut Packet,
    log: &mut Notes<'a>,
    left: &mut u64,
) -> Result<Step<'a>, Interruption<'a>>
    ensures ran { RanStep (declared_in t.now) (at left.old p.old log.old) (at left.new p.new log.new) result (λ call now. and_named (eval_named (declared_in t.now) call (list_named_trees es.now) (scope_of scope.old.items []) now) (λ vs last. Gives (RecordOf vs) last)) }
    ensures left { left.new ≤ left.old }
    ensures extends { Extends scope.old.items scope.new.items }
    ensures same { OnOk result (scope.new.items ≡ scope.old.items) }
{
    let fields = each_named(alloc, t, es, scope, p, log, left)?;
    Ok(Step::Done(Value::Record(fields)))
}

// A call, which is still to be made.
#[cycle(run)]
#[inline(never)]
fn again<'a>(
    alloc: Global,
    t: &Table<'a>,
    f: &'a Name,
    es: &'a [Expr],
    scope: &mut Scope<'a>,
    p: &mut Packet,
    log: &mut Notes<'a>,
    left: &mut u64,
) -> Result<Step<'a>, Interruption<'a>>
    ensures ran { RanStep (declared_in t.now) (at left.old p.old log.old) (at left.new p.new log.new) result (λ call now. and_all (eval_all (declared_in t.now) call (list_trees es.now) (scope_of scope.old.items []) now) (λ vs next. call f.now vs next)) }
    ensures left { left.new ≤ left.old }
    ensures extends { Extends scope.old.items scope.new.items }
    ensures same { OnOk result (scope.new.items ≡ scope.old.items) }
{
    let vs = each(alloc, t, es, scope, p, log, left)?;
    Ok(Step::Again(f, vs))
}

#[cycle(run)]
#[inline(never)]
fn raise<'a>(
    alloc: Global,
    t: &Table<'a>,
    x: &Name,
    es: &'a [Expr],
    scope: &mut Scope<'a>,
    p: &mut Packet,
    log: &mut Notes<'a>,
    left: &mut u64,
) -> Result<Step<'a>, Interruption<'a>>
    ensures ran { RanStep (declared_in t.now) (at left.old p.old log.old) (at left.new p.new log.new) result (λ call now. and_all (eval_all (declared_in t.now) call (list_trees es.now) (scope_of scope.old.items []) now) (λ vs last. Raises (exception_number (declared_in t.now).exceptions x.now) vs last)) }
    ensures left { left.new ≤ left.old }
    ensures extends { Extends scope.old.items scope.new.items }
    ensures same { OnOk result (scope.new.items ≡ scope.old.items) }
{
    let vs = each(alloc, t, es, scope, p, log, left)?;
    log.raised(x, &vs);
    Err(Interruption::Raised(t.exception(x), vs))
}

#[cycle(run)]
#[inline(never)]
fn binary<'a>(
    alloc: Global,
    t: &Table<'a>,
    op: Op,
    a: &'a Expr,
    b: &'a Expr,
    scope: &mut Scope<'a>,
    p: &mut Packet,
    log: &mut Notes<'a>,
    left: &mut u64,
) -> Result<Step<'a>, Interruption<'a>>
    ensures ran { RanStep (declared_in t.now) (at left.old p.old log.old) (at left.new p.new log.new) result (λ call now. binary_of op (evaluated (declared_in t.now) call (tree_of a.now) (scope_of scope.old.items []) now) (λ next. evaluated (declared_in t.now) call (tree_of b.now) (scope_of scope.old.items []) next)) }
    ensures left { left.new ≤ left.old }
    ensures extends { Extends scope.old.items scope.new.items }
    ensures same { OnOk result (scope.new.items ≡ scope.old.items) }
{
    let v = settled(alloc, t, a, scope, p, log, left)?;
    if let Some(known) = decided(op, &v) {
        return Ok(Step::Done(Value::Truth(known)));
    }
    let w = settled(alloc, t, b, scope, p, log, left)?;
    Ok(Step::Done(joined(op, v, w)))
}

// The truth that the left operand alone decides.
#[tactic(auto)]
fn decided(op: Op, v: &Value) -> Option<bool>
    ensures { result ≡ decided_by op (truth_of (view v.now)) }
{
    match op {
        Op::Both => { if is_true(v) { None } else { Some(false) } }
        Op::Either => { if is_true(v) { Some(true) } else { None } }
        _ => None,
    }
}

// What an operator gives of both operands, where the left one alone does not decide.
#[tactic(auto)]
fn joined<'a>(op: Op, v: Value<'a>, w: Value<'a>) -> Value<'a>
    ensures { view result ≡ joined_by op (view v.entry) (view w.entry) }
{
    match op {
        Op::Both | Op::Either => w,
        _ => combined(op, v, w),
    }
}

#[cycle(run)]
#[inline(never)]
fn choose<'a>(
    alloc: Global,
    t: &Table<'a>,
    c: &'a Expr,
    a: &'a Expr,
    b: &'a Expr,
    scope: &mut Scope<'a>,
    p: &mut Packet,
    log: &mut Notes<'a>,
    left: &mut u64,
) -> Result<Step<'a>, Interruption<'a>>
    ensures ran { RanStep (declared_in t.now) (at left.old p.old log.old) (at left.new p.new log.new) result (λ call now. and_then (evaluated (declared_in t.now) call (tree_of c.now) (scope_of scope.old.items []) now) (λ v next. if truth_of v then evaluated (declared_in t.now) call (tree_of a.now) (scope_of scope.old.items []) next else evaluated (declared_in t.now) call (tree_of b.now) (scope_of scope.old.items []) next)) }
    ensures left { left.new ≤ left.old }
    ensures extends { Extends scope.old.items scope.new.items }
    ensures same { OnOk result (scope.new.items ≡ scope.old.items) }
{
    let v = settled(alloc, t, c, scope, p, log, left)?;
    if truth_in(v) {
        eval(alloc, t, a, scope, p, log, left)
    } else {
        eval(alloc, t, b, scope, p, log, left)
    }
}

#[cycle(run)]
#[inline(never)]
fn try_<'a>(
    alloc: Global,
    t: &Table<'a>,
    a: &'a Expr,
    x: &Name,
    ps: &'a [Pat],
    h: &'a Expr,
    scope: &mut Scope<'a>,
    p: &mut Packet,
    log: &mut Notes<'a>,
    left: &mut u64,
) -> Result<Step<'a>, Interruption<'a>>
    ensures ran { RanStep (declared_in t.now) (at left.old p.old log.old) (at left.new p.new log.new) result (λ call now. handled (exception_number (declared_in t.now).exceptions x.now) (λ vs next. evaluated (declared_in t.now) call (tree_of h.now) (all_matched (list_patterns ps.now) vs (scope_of scope.old.items [])) next) (evaluated (declared_in t.now) call (tree_of a.now) (scope_of scope.old.items []) now)) }
    ensures left { left.new ≤ left.old }
    ensures extends { Extends scope.old.items scope.new.items }
    ensures same { OnOk result (scope.new.items ≡ scope.old.items) }
{
    let mark = scope.len();
    match settled(alloc, t, a, scope, p, log, left) {
        Ok(v) => Ok(Step::Done(v)),
        Err(stop) => match stop {
            Interruption::Raised(k, vs) => {
                if k == t.exception(x) {
                    scope.truncate(mark);
                    handle(alloc, t, ps, vs, h, scope, p, log, left)
                } else {
                    Err(Interruption::Raised(k, vs))
                }
            }
            Interruption::NoMemory => Err(Interruption::NoMemory),
            Interruption::Fault(m, at) => Err(Interruption::Fault(m, at)),
            Interruption::Going => Err(Interruption::Going),
        },
    }
}

// A handler, with the values of its exception.
#[cycle(run)]
#[inline(never)]
fn handle<'a>(
    alloc: Global,
    t: &Table<'a>,
    ps: &'a [Pat],
    vs: Vec<Value<'a>>,
    h: &'a Expr,
    scope: &mut Scope<'a>,
    p: &mut Packet,
    log: &mut Notes<'a>,
    left: &mut u64,
) -> Result<Step<'a>, Interruption<'a>>
    ensures ran { RanStep (declared_in t.now) (at left.old p.old log.old) (at left.new p.new log.new) result (λ call now. evaluated (declared_in t.now) call (tree_of h.now) (all_matched (list_patterns ps.now) (list_values vs.entry.items) (scope_of scope.old.items [])) now) }
    ensures left { left.new ≤ left.old }
    ensures extends { Extends scope.old.items scope.new.items }
    ensures same { OnOk result (scope.new.items ≡ scope.old.items) }
{
    let mark = scope.len();
    bind_all(ps, vs, scope)?;
    let step = eval(alloc, t, h, scope, p, log, left)?;
    scope.truncate(mark);
    Ok(step)
}

#[cycle(run)]
#[inline(never)]
fn block<'a>(
    alloc: Global,
    t: &Table<'a>,
    sts: &'a [Stmt],
    tail: &'a Expr,
    scope: &mut Scope<'a>,
    p: &mut Packet,
    log: &mut Notes<'a>,
    left: &mut u64,
) -> Result<Step<'a>, Interruption<'a>>
    ensures ran { RanStep (declared_in t.now) (at left.old p.old log.old) (at left.new p.new log.new) result (λ call now. and_stated (run_all (declared_in t.now) call (list_statements sts.now) (scope_of scope.old.items []) now) (λ inner next. evaluated (declared_in t.now) call (tree_of tail.now) inner next)) }
    ensures left { left.new ≤ left.old }
    ensures extends { Extends scope.old.items scope.new.items }
    ensures same { OnOk result (scope.new.items ≡ scope.old.items) }
{
    let mark = scope.len();
    statements(alloc, t, sts, scope, p, log, left)?;
    let step = eval(alloc, t, tail, scope, p, log, left)?;
    scope.truncate(mark);
    Ok(step)
}

// An expression of one operand.
#[cycle(run)]
#[inline(never)]
fn of_operand<'a>(
    alloc: Global,
    t: &Table<'a>,
    e: &'a Expr,
    a: &'a Expr,
    scope: &mut Scope<'a>,
    p: &mut Packet,
    log: &mut Notes<'a>,
    left: &mut u64,
) -> Result<Step<'a>, Interruption<'a>>
    ensures ran { RanStep (declared_in t.now) (at left.old p.old log.old) (at left.new p.new log.new) result (λ call now. and_then (evaluated (declared_in t.now) call (tree_of a.now) (scope_of scope.old.items []) now) (λ v last. made (declared_in t.now) (tree_of e.now) v last)) }
    ensures left { left.new ≤ left.old }
    ensures extends { Extends scope.old.items scope.new.items }
    ensures same { OnOk result (scope.new.items ≡ scope.old.items) }
{
    let v = settled(alloc, t, a, scope, p, log, left)?;
    note_fetch(e, &v, log);
    Ok(Step::Done(made_of(alloc, t, e, v, p)?))
}

// Notes a fetch from the address that the operand is.
#[inline(never)]
fn note_fetch(e: &Expr, v: &Value, log: &mut Notes)
    ensures { log.new ≡ log.old }
{
    if let (Kind::Fetch(m, n, _), Value::Word(at)) = (&e.kind, v) {
        log.fetch(e.span, *m, *at, *n);
    }
}

// What an expression of one operand makes of the operand's value.
#[inline(never)]
fn made_of<'a>(
    alloc: Global,
    t: &Table<'a>,
    e: &'a Expr,
    v: Value<'a>,
    p: &Packet,
) -> Result<Value<'a>, Interruption<'a>>
    ensures { (now : Running) → now.packet ≡ p.now → IsValue result now (made (declared_in t.now) (tree_of e.now) (view v.entry) now) }
{
    match &e.kind {
        Kind::Dot(_, x) => Ok(field_in(v, x)),
        Kind::Invert(_) => Ok(Value::Word(word::not(word_in(v)))),
        Kind::Negate(_) => Ok(Value::Truth(!truth_in(v))),
        Kind::Shift(op, _, n) => Ok(Value::Word(shifted(*op, *n, word_in(v)))),
        Kind::Unpack(l, _) => Ok(unpacked(alloc, t, l, &v)?),
        Kind::Pack(l, _) => Ok(packed(alloc, t, l, &v)?),
        Kind::Fetch(m, n, _) => fetched(alloc, p, *m, *n, word_in(v)),
        Kind::Number(_)
        | Kind::Truth(_)
        | Kind::Var(_)
        | Kind::Paren(_)
        | Kind::Tuple(_)
        | Kind::Fields(_)
        | Kind::Binary(_, _, _)
        | Kind::Call(_, _)
        | Kind::Raise(_, _)
        | Kind::If(_, _, _)
        | Kind::Try(_, _, _, _)
        | Kind::Block(_, _) => Ok(v),
    }
}
