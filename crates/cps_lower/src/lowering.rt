// Code, with the label or the function that takes its words, and the handlers round it.

ghost use Rattle.std.specs.Prelude.{◌≡◌, ◌+◌, ◌∷◌, ◌++◌, [], IfOk, slice_get};
ghost use Rattle.cps_ir.specs.Meaning.{handler_of};
ghost use Rattle.cps_ir.specs.Spine.{put_all};
ghost use Rattle.cps_ir.specs.View.{term_view};
ghost use Rattle.cps_lower.specs.inner.Lowered.{lowered, labels, give_term, raise_term, call_term};
ghost use Rattle.cps_lower.specs.inner.Lowered as inner;

use crate::scan::is_earlier;
use cps_ir::{Step, Term, join};
use flat_ir::{Flat, FlatFun};
use nv_base::{Args, Atom, NoMemory, Vars};
use std::alloc::Global;

/// The same numbers.
pub fn numbers(alloc: Global, xs: &[u32]) -> Result<Vec<u32>, NoMemory>
    ensures { IfOk result (λ v. v.items ≡ xs.now) }
{
    Ok(xs.to_vec(alloc)?)
}

// The same operands.
fn atoms(alloc: Global, xs: &[Atom]) -> Result<Vec<Atom>, NoMemory>
    ensures { IfOk result (λ v. v.items ≡ xs.now) }
{
    let mut v = Vec::new(alloc);
    for a in xs {
        v.push(*a)?;
    }
    Ok(v)
}

// The same operands in a short list.
fn short_atoms(alloc: Global, xs: &[Atom]) -> Result<Args, NoMemory>
    ensures { IfOk result (λ v. v.items ≡ xs.now) }
{
    Ok(Args::from_slice(alloc, xs)?)
}

// The same variables in a short list.
fn short_numbers(alloc: Global, xs: &[u32]) -> Result<Vars, NoMemory>
    ensures { IfOk result (λ v. v.items ≡ xs.now) }
{
    Ok(Vars::from_slice(alloc, xs)?)
}

// Some handlers, and the others after them.
fn handlers_after(mut v: Vec<(u16, u32)>, hs: &[(u16, u32)]) -> Result<Vec<(u16, u32)>, NoMemory>
    ensures { IfOk result (λ u. u.items ≡ v.items ++ hs.now) }
{
    for h in hs {
        v.push(*h)?;
    }
    Ok(v)
}

// One more handler in front.
fn handler_before(
    alloc: Global,
    e: u16,
    label: u32,
    hs: &[(u16, u32)],
) -> Result<Vec<(u16, u32)>, NoMemory>
    ensures { IfOk result (λ v. v.items ≡ (e, label) ∷ hs.now) }
{
    let mut v = Vec::new(alloc);
    v.push((e, label))?;
    handlers_after(v, hs)
}

// The label that takes an exception.
fn find_handler(e: u16, hs: &[(u16, u32)]) -> Option<u32>
    ensures { result ≡ handler_of e hs.now }
{
    for h in hs {
        if h.0 == e {
            return Some(h.1);
        }
    }
    None
}

// The words to where they go.
fn give(alloc: Global, bs: &[Atom], to: Option<u32>) -> Result<Term, NoMemory>
    ensures { IfOk result (λ u. term_view u ≡ give_term to bs.now) }
{
    let words = atoms(alloc, bs)?;
    match to {
        Some(l) => Ok(Term::Jump(l, words)),
        None => Ok(Term::Return(words)),
    }
}

// The words to the label that takes the exception, if there is one.
fn raise(alloc: Global, e: u16, bs: &[Atom], hs: &[(u16, u32)]) -> Result<Term, NoMemory>
    ensures { IfOk result (λ u. term_view u ≡ raise_term (handler_of e hs.now) e bs.now) }
{
    match find_handler(e, hs) {
        Some(l) => Ok(Term::Jump(l, atoms(alloc, bs)?)),
        None => Ok(Term::Throw(e, short_atoms(alloc, bs)?)),
    }
}

// A call of a function, with where its words and its exceptions go.
fn call(
    alloc: Global,
    earlier: bool,
    f: u32,
    bs: &[Atom],
    to: Option<u32>,
    hs: &[(u16, u32)],
) -> Result<Term, NoMemory>
    ensures { IfOk result (λ u. term_view u ≡ call_term earlier f bs.now to hs.now) }
{
    let words = atoms(alloc, bs)?;
    let handlers = handlers_after(Vec::new(alloc), hs)?;
    match to {
        Some(l) => Ok(Term::Call(f, words, Some(l), handlers)),
        None => Ok(last_call(earlier, f, words, handlers)),
    }
}

// A call whose words are the function's: from an earlier group they come back to label 0.
fn last_call(earlier: bool, f: u32, words: Vec<Atom>, handlers: Vec<(u16, u32)>) -> Term
    ensures { term_view result ≡ inner.last_call earlier f words.items handlers.items }
{
    if earlier {
        Term::Call(f, words, Some(0), handlers)
    } else {
        Term::Call(f, words, None, handlers)
    }
}

// The next label.
fn next_label(fresh: &mut u32) -> Result<u32, NoMemory>
    ensures label { IfOk result (λ n. n ≡ fresh.old) }
    ensures next { IfOk result (λ n. fresh.new ≡ fresh.old + 1) }
{
    let label = *fresh;
    match label.checked_add(1) {
        Some(next) => {
            *fresh = next;
            Ok(label)
        }
        None => Err(NoMemory),
    }
}

// One step more.
fn push_step(steps: &mut Vec<Step>, step: Step) -> Result<(), NoMemory>
    ensures { IfOk result (λ u. steps.new.items ≡ steps.old.items ++ step ∷ []) }
{
    steps.push(step)?;
    Ok(())
}

// The steps before a term.
fn joined(alloc: Global, steps: Vec<Step>, end: Term) -> Result<Term, NoMemory>
    ensures { IfOk result (λ u. term_view u ≡ put_all steps.items (term_view end)) }
{
    Ok(join(alloc, steps, end)?)
}

/// The term of flat code in a function of a group, whose words go to a label or are the function's, under
/// handlers; `fresh` is the next label.
#[cycle(code)]
pub fn lower_code(
    alloc: Global,
    funs: &[FlatFun],
    own: u32,
    t: &Flat,
    to: Option<u32>,
    hs: &[(u16, u32)],
    fresh: &mut u32,
) -> Result<Term, NoMemory>
    ensures count { IfOk result (λ u. fresh.new ≡ fresh.old + labels t.now) }
    ensures term { IfOk result (λ u. term_view u ≡ lowered funs.now own t.now fresh.old to hs.now) }
{
    let mut steps = Vec::new(alloc);
    let end = match lower_steps(alloc, funs, own, t, to, hs, fresh, &mut steps) {
        Ok(end) => end,
        Err(failure) => {
            drop(steps);
            return Err(failure);
        }
    };
    joined(alloc, steps, end)
}

// Adds the steps of flat code, and answers with its end.
#[cycle(code)]
fn lower_steps(
    alloc: Global,
    funs: &[FlatFun],
    own: u32,
    t: &Flat,
    to: Option<u32>,
    hs: &[(u16, u32)],
    fresh: &mut u32,
    steps: &mut Vec<Step>,
) -> Result<Term, NoMemory>
    ensures count { IfOk result (λ u. fresh.new ≡ fresh.old + labels t.now) }
    ensures term { IfOk result (λ u. put_all steps.new.items (term_view u) ≡ put_all steps.old.items (lowered funs.now own t.now fresh.old to hs.now)) }
{
    let mut cur = t;
    'spine: loop {
        match cur {
            Flat::Let(x, p, rest) => {
                push_step(steps, Step::Let(*x, *p))?;
                cur = rest;
            }
            Flat::Fetch(m, xs, a, rest) => {
                push_step(steps, Step::Read(*m, short_numbers(alloc, xs)?, *a))?;
                cur = rest;
            }
            Flat::Store(m, a, bs, rest) => {
                push_step(steps, Step::Write(*m, *a, short_atoms(alloc, bs)?))?;
                cur = rest;
            }
            Flat::If(c, a, b, first, second) => {
                let u = lower_code(alloc, funs, own, first, to, hs, fresh)?;
                push_step(steps, Step::If(*c, *a, *b, u))?;
                cur = second;
            }
            Flat::Bind(xs, first, rest) => {
                let label = next_label(fresh)?;
                let params = numbers(alloc, xs)?;
                let u = lower_code(alloc, funs, own, first, Some(label), hs, fresh)?;
                push_step(steps, Step::Label(label, params, u))?;
                cur = rest;
            }
            Flat::Try(first, e, xs, handler) => {
                let label = next_label(fresh)?;
                let params = numbers(alloc, xs)?;
                let inner = handler_before(alloc, *e, label, hs)?;
                let u = lower_code(alloc, funs, own, first, to, &inner, fresh)?;
                push_step(steps, Step::Label(label, params, u))?;
                cur = handler;
            }
            Flat::Call(f, bs) => {
                let end = call(alloc, is_earlier(funs, own, *f), *f, bs, to, hs)?;
                return Ok(end);
            }
            Flat::Raise(e, bs) => {
                let end = raise(alloc, *e, bs, hs)?;
                return Ok(end);
            }
            Flat::Give(bs) => {
                let end = give(alloc, bs, to)?;
                return Ok(end);
            }
        }
    }
}
