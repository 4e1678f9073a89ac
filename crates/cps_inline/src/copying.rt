// Copies of functions, at the places of their calls.

ghost use Rattle.std.specs.Prelude.{◌≡◌, ◌≢◌, ◌+◌, ◌∷◌, [], MatchOption, IfOk, map, length};
ghost use Rattle.cps_ir.specs.Meaning.{handler_of};
ghost use Rattle.cps_ir.specs.Spine.{put_all};
ghost use Rattle.cps_ir.specs.Term as cps;
ghost use Rattle.cps_ir.specs.View.{term_view, label_view, labels_view, fun_view};
ghost use Rattle.cps_inline.specs.inner.Inlined as inner;

use crate::moving::{handlers_after, moved, moved_atoms, moved_handlers, moved_numbers};
use crate::span::span;
use crate::stepping::{
    joined, push_if, push_label, push_labels, push_let, push_read, push_write, read, return_to,
    round_jump,
};
use cps_ir::{Cont, CpsFun, Step, Term};
use nv_base::{Atom, Cmp, NoMemory};
use std::alloc::Global;

/// A copied group: its number, the label of the program's first function in it, where its words go (else
/// they end the run), and the handlers round it.
#[derive(Drop)]
pub struct InlineContext {
    pub group: u32,
    pub first: u32,
    pub to: Option<u32>,
    pub handlers: Vec<(u16, u32)>,
}

// Where the copy of one function is made: in the program, at the place of its group, and with its numbers
// moved up by a base.
#[derive(Clone, Copy)]
struct Site<'a> {
    funs: &'a [CpsFun],
    place: &'a InlineContext,
    base: u32,
}

// The number that is so many after the next, which it becomes.
fn take(fresh: &mut u32, count: u32) -> Result<u32, NoMemory>
    ensures first { IfOk result (λ n. n ≡ fresh.old) }
    ensures next { IfOk result (λ n. fresh.new ≡ fresh.old + count) }
{
    let first = *fresh;
    *fresh = moved(first, count)?;
    Ok(first)
}

// A length as a number.
fn number(n: usize) -> Result<u32, NoMemory>
    ensures { IfOk result (λ m. m ≡ n) }
{
    match u32::try_from(n) {
        Ok(m) => Ok(m),
        Err(_) => Err(NoMemory),
    }
}

// The label that takes an exception.
fn find_handler(e: u16, hs: &[(u16, u32)]) -> Option<u32>
    ensures { result ≡ handler_of e hs.now }
{
    for h in hs {
        if h.0 == e {
            return Some(h.1);
        }
    }
    None
}

// Where the words and exceptions of a call go.
#[inline(never)]
fn context_of_call(
    alloc: Global,
    place: &InlineContext,
    base: u32,
    group: u32,
    k: u32,
    hs: &[(u16, u32)],
    first: u32,
) -> Result<InlineContext, NoMemory>
    ensures group { IfOk result (λ p. p.group ≡ group) }
    ensures view { IfOk result (λ p. inner.context_view p ≡ inner.context_of_call_in (inner.context_view place.now) base k hs.now first) }
{
    let to = moved(base, k)?;
    let own = moved_handlers(alloc, base, hs)?;
    Ok(InlineContext {
        group,
        first,
        to: Some(to),
        handlers: handlers_after(own, &place.handlers)?,
    })
}

// Whether the copies for one callee have another function among them.
fn is_copied(f: &CpsFun, g: &CpsFun) -> bool
    ensures { result ≡ inner.is_copied (fun_view f.now) (fun_view g.now) }
{
    g.group == f.group && g.results == f.results
}

// The label of a list of one.
fn single(conts: &[Cont]) -> Option<&Cont>
    ensures { MatchOption result (length conts.now ≢ 1) (λ c. conts.now ≡ c.now ∷ []) }
{
    if conts.len() == 1 {
        Some(&conts[0])
    } else {
        None
    }
}

// The copy of a term of a function; `fresh` is the next number.
#[cycle(copies)]
fn copy_term(alloc: Global, site: &Site<'_>, t: &Term, fresh: &mut u32) -> Result<Term, NoMemory>
    ensures count { IfOk result (λ u. fresh.new ≡ fresh.old + inner.count_at site.now.funs.now site.now.place.now (term_view t.now)) }
    ensures term { IfOk result (λ u. term_view u ≡ inner.copy_at site.now.funs.now site.now.place.now site.now.base (term_view t.now) fresh.old) }
{
    let mut steps = Vec::new(alloc);
    let end = read!(copy_steps(alloc, site, t, &mut steps, fresh), steps);
    joined(alloc, steps, end)
}

// Adds the steps of the copy of a term, and answers with its end.
#[cycle(copies)]
fn copy_steps(
    alloc: Global,
    site: &Site<'_>,
    t: &Term,
    steps: &mut Vec<Step>,
    fresh: &mut u32,
) -> Result<Term, NoMemory>
    ensures count { IfOk result (λ u. fresh.new ≡ fresh.old + inner.count_at site.now.funs.now site.now.place.now (term_view t.now)) }
    ensures term { IfOk result (λ u. put_all steps.new.items (term_view u) ≡ put_all steps.old.items (inner.copy_at site.now.funs.now site.now.place.now site.now.base (term_view t.now) fresh.old)) }
{
    let mut cur = t;
    'spine: loop {
        match cur {
            Term::Let(x, a, rest) => {
                push_let(site.base, *x, *a, steps)?;
                cur = rest;
            }
            Term::Read(m, xs, a, rest) => {
                push_read(alloc, site.base, *m, xs, *a, steps)?;
                cur = rest;
            }
            Term::Write(m, a, bs, rest) => {
                push_write(alloc, site.base, *m, *a, bs, steps)?;
                cur = rest;
            }
            Term::If(c, a, b, first, second) => {
                copy_first(alloc, site, (*c, *a, *b), first, steps, fresh)?;
                cur = second;
            }
            Term::Fix(conts, rest) => match single(conts) {
                Some(one) => {
                    copy_around(alloc, site, one, rest, steps, fresh)?;
                    cur = &one.body;
                }
                None => {
                    copy_several(alloc, site, conts, steps, fresh)?;
                    cur = rest;
                }
            },
            Term::Call(f, bs, to, hs) => {
                let end = copy_call(alloc, site, *f, bs, *to, hs, fresh)?;
                return Ok(end);
            }
            Term::Return(bs) => {
                let end = return_to(alloc, site.place.to, 0, site.base, bs)?;
                return Ok(end);
            }
            Term::Throw(e, bs) => {
                let to = find_handler(*e, &site.place.handlers);
                let end = return_to(alloc, to, *e, site.base, bs)?;
                return Ok(end);
            }
            Term::Jump(l, bs) => {
                let to = Some(moved(site.base, *l)?);
                let end = return_to(alloc, to, 0, site.base, bs)?;
                return Ok(end);
            }
            Term::Halt(e, bs) => {
                let end = return_to(alloc, None, *e, site.base, bs)?;
                return Ok(end);
            }
        }
    }
}

// The same for a part of a term, without the frame of that where it is a mere call.
#[cycle(copies)]
fn copy_part(alloc: Global, site: &Site<'_>, t: &Term, fresh: &mut u32) -> Result<Term, NoMemory>
    ensures count { IfOk result (λ u. fresh.new ≡ fresh.old + inner.count_at site.now.funs.now site.now.place.now (term_view t.now)) }
    ensures term { IfOk result (λ u. term_view u ≡ inner.copy_at site.now.funs.now site.now.place.now site.now.base (term_view t.now) fresh.old) }
{
    match t {
        Term::Call(f, bs, to, hs) => { copy_call(alloc, site, *f, bs, *to, hs, fresh) }
        _ => copy_term(alloc, site, t, fresh),
    }
}

// An `If`, whose second part comes behind.
#[cycle(copies)]
#[inline(never)]
fn copy_first(
    alloc: Global,
    site: &Site<'_>,
    test: (Cmp, Atom, Atom),
    first: &Term,
    steps: &mut Vec<Step>,
    fresh: &mut u32,
) -> Result<(), NoMemory>
    ensures count { IfOk result (λ u. fresh.new ≡ fresh.old + inner.count_at site.now.funs.now site.now.place.now (term_view first.now)) }
    ensures step { IfOk result (λ u. inner.Adds steps.old.items steps.new.items (cps.If test.0 (inner.moved_atom site.now.base test.1) (inner.moved_atom site.now.base test.2) (inner.copy_at site.now.funs.now site.now.place.now site.now.base (term_view first.now) fresh.old))) }
{
    let part = copy_part(alloc, site, first, fresh)?;
    push_if(site.base, test.0, test.1, test.2, part, steps)
}

// A single label, whose body comes behind.
#[cycle(copies)]
#[inline(never)]
fn copy_around(
    alloc: Global,
    site: &Site<'_>,
    one: &Cont,
    rest: &Term,
    steps: &mut Vec<Step>,
    fresh: &mut u32,
) -> Result<(), NoMemory>
    ensures count { IfOk result (λ u. fresh.new ≡ fresh.old + inner.count_at site.now.funs.now site.now.place.now (term_view rest.now)) }
    ensures step { IfOk result (λ u. inner.Adds steps.old.items steps.new.items (λ t. cps.Fix (cps.label (site.now.base + one.now.label) (inner.moved site.now.base one.now.params.items) t cps.none) (inner.copy_at site.now.funs.now site.now.place.now site.now.base (term_view rest.now) fresh.old))) }
{
    let around = copy_part(alloc, site, rest, fresh)?;
    push_label(alloc, site.base, one, around, steps)
}

// Several labels, before the term round them.
#[cycle(copies)]
#[inline(never)]
fn copy_several(
    alloc: Global,
    site: &Site<'_>,
    conts: &[Cont],
    steps: &mut Vec<Step>,
    fresh: &mut u32,
) -> Result<(), NoMemory>
    ensures count { IfOk result (λ u. fresh.new ≡ fresh.old + inner.labels_count_at site.now.funs.now site.now.place.now (labels_view conts.now)) }
    ensures step { IfOk result (λ u. inner.Adds steps.old.items steps.new.items (cps.Fix (inner.labels_at site.now.funs.now site.now.place.now site.now.base (labels_view conts.now) fresh.old))) }
{
    let labels = copy_labels(alloc, site, conts, fresh)?;
    push_labels(labels, steps)
}

// The copies of labels.
#[cycle(copies)]
fn copy_labels(
    alloc: Global,
    site: &Site<'_>,
    conts: &[Cont],
    fresh: &mut u32,
) -> Result<Vec<Cont>, NoMemory>
    ensures count { IfOk result (λ v. fresh.new ≡ fresh.old + inner.labels_count_at site.now.funs.now site.now.place.now (labels_view conts.now)) }
    ensures labels { IfOk result (λ v. labels_view v.items ≡ inner.labels_at site.now.funs.now site.now.place.now site.now.base (labels_view conts.now) fresh.old) }
{
    let mut v = Vec::new(alloc);
    for c in conts {
        v.push(copy_label(alloc, site, c, fresh)?)?;
    }
    Ok(v)
}

// The copy of one label.
#[cycle(copies)]
fn copy_label(alloc: Global, site: &Site<'_>, c: &Cont, fresh: &mut u32) -> Result<Cont, NoMemory>
    ensures count { IfOk result (λ d. fresh.new ≡ fresh.old + inner.count_at site.now.funs.now site.now.place.now (label_view c.now).body) }
    ensures label { IfOk result (λ d. (label_view d).label ≡ site.now.base + (label_view c.now).label) }
    ensures params { IfOk result (λ d. (label_view d).params ≡ inner.moved site.now.base (label_view c.now).params) }
    ensures body { IfOk result (λ d. (label_view d).body ≡ inner.copy_at site.now.funs.now site.now.place.now site.now.base (label_view c.now).body fresh.old) }
{
    let label = moved(site.base, c.label)?;
    let params = moved_numbers(alloc, site.base, &c.params)?;
    let body = copy_term(alloc, site, &c.body, fresh)?;
    Ok(Cont {
        label,
        params,
        body,
    })
}

// A call: a jump within its group, or the copies of an earlier one and a jump to the callee's.
#[cycle(copies)]
#[inline(never)]
fn copy_call(
    alloc: Global,
    site: &Site<'_>,
    i: u32,
    bs: &[Atom],
    to: Option<u32>,
    hs: &[(u16, u32)],
    fresh: &mut u32,
) -> Result<Term, NoMemory>
    ensures count { IfOk result (λ u. fresh.new ≡ fresh.old + inner.count_at site.now.funs.now site.now.place.now (cps.Call i bs.now to hs.now)) }
    ensures term { IfOk result (λ u. term_view u ≡ inner.copy_at site.now.funs.now site.now.place.now site.now.base (cps.Call i bs.now to hs.now) fresh.old) }
{
    let k = match to {
        Some(k) => k,
        None => return return_to(alloc, Some(moved(site.place.first, i)?), 0, site.base, bs),
    };
    match site.funs.get(i as usize) {
        Some(f) => {
            if f.group >= site.place.group {
                return Err(NoMemory);
            }
            let inner = context_of_call(alloc, site.place, site.base, f.group, k, hs, *fresh)?;
            let words = moved_atoms(alloc, site.base, bs)?;
            enter(alloc, site.funs, i, f, words, &inner, fresh)
        }
        None => Err(NoMemory),
    }
}

/// The copies for a callee, which go to a place, and a jump to its own.
#[cycle(copies)]
pub fn enter(
    alloc: Global,
    funs: &[CpsFun],
    i: u32,
    f: &CpsFun,
    words: Vec<Atom>,
    place: &InlineContext,
    fresh: &mut u32,
) -> Result<Term, NoMemory>
    requires first { place.now.first ≡ fresh.old }
    requires group { place.now.group ≡ f.now.group }
    ensures count { IfOk result (λ u. fresh.new ≡ fresh.old + inner.group_count_at funs.now place.now (fun_view f.now)) }
    ensures term { IfOk result (λ u. term_view u ≡ cps.Fix (inner.copies_at funs.now place.now (fun_view f.now) 0 (map fun_view funs.now) (fresh.old + length funs.now)) (cps.Jump (fresh.old + i) words.items)) }
{
    let label = moved(take(fresh, number(funs.len())?)?, i)?;
    let labels = copy_group(alloc, funs, f, place, fresh)?;
    round_jump(alloc, labels, label, words)
}

// The labels of the copies for a callee.
#[cycle(copies)]
fn copy_group(
    alloc: Global,
    funs: &[CpsFun],
    f: &CpsFun,
    place: &InlineContext,
    fresh: &mut u32,
) -> Result<Vec<Cont>, NoMemory>
    ensures count { IfOk result (λ v. fresh.new ≡ fresh.old + inner.copies_count_at funs.now place.now (fun_view f.now) (map fun_view funs.now)) }
    ensures labels { IfOk result (λ v. labels_view v.items ≡ inner.copies_at funs.now place.now (fun_view f.now) 0 (map fun_view funs.now) fresh.old) }
{
    let mut v = Vec::new(alloc);
    for (j, g) in funs.iter().enumerate() {
        if is_copied(f, g) {
            v.push(copy_function(alloc, funs, place, number(j)?, g, fresh)?)?;
        }
    }
    Ok(v)
}

// The label of a function's copy.
#[cycle(copies)]
fn copy_function(
    alloc: Global,
    funs: &[CpsFun],
    place: &InlineContext,
    j: u32,
    g: &CpsFun,
    fresh: &mut u32,
) -> Result<Cont, NoMemory>
    ensures count { IfOk result (λ d. fresh.new ≡ fresh.old + inner.copy_count_at funs.now place.now (fun_view g.now)) }
    ensures label { IfOk result (λ d. (label_view d).label ≡ place.now.first + j) }
    ensures params { IfOk result (λ d. (label_view d).params ≡ inner.moved fresh.old g.now.params.items) }
    ensures body { IfOk result (λ d. (label_view d).body ≡ inner.copy_at funs.now place.now fresh.old (term_view g.now.body) (fresh.old + inner.span (fun_view g.now))) }
{
    let label = moved(place.first, j)?;
    let base = take(fresh, span(g)?)?;
    let params = moved_numbers(alloc, base, &g.params)?;
    let site = Site { funs, place, base };
    let body = copy_term(alloc, &site, &g.body, fresh)?;
    Ok(Cont {
        label,
        params,
        body,
    })
}
