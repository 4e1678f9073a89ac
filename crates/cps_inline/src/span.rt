// How many numbers a function has, from 0 on.

ghost use Rattle.std.specs.Prelude.{◌≡◌, ◌+◌, max, IfOk, map};
ghost use Rattle.cps_ir.specs.View.{term_view, labels_view, fun_view};
ghost use Rattle.cps_inline.specs.inner.Inlined as inner;

use cps_ir::{Cont, CpsFun, Term};
use nv_base::NoMemory;

// The greater of a number and the one after another.
fn after_one(least: u32, x: u32) -> Result<u32, NoMemory>
    ensures { IfOk result (λ n. n ≡ max least (x + 1)) }
{
    match x.checked_add(1) {
        Some(y) => Ok(if least < y { y } else { least }),
        None => Err(NoMemory),
    }
}

/// The first number from `least` on that is after all of these.
pub fn after_all(least: u32, xs: &[u32]) -> Result<u32, NoMemory>
    ensures { IfOk result (λ n. n ≡ max least (inner.behind xs.now)) }
{
    let mut next = least;
    for x in xs {
        next = after_one(next, *x)?;
    }
    Ok(next)
}

// The same for the labels of handlers.
fn after_handlers(least: u32, hs: &[(u16, u32)]) -> Result<u32, NoMemory>
    ensures { IfOk result (λ n. n ≡ max least (inner.after_handlers hs.now)) }
{
    let mut next = least;
    for h in hs {
        next = after_one(next, h.1)?;
    }
    Ok(next)
}

// The same for the labels of a call.
fn after_call(least: u32, to: Option<u32>, hs: &[(u16, u32)]) -> Result<u32, NoMemory>
    ensures { IfOk result (λ n. n ≡ max least (max (inner.after_label to) (inner.after_handlers hs.now))) }
{
    match to {
        Some(l) => after_handlers(after_one(least, l)?, hs),
        None => after_handlers(least, hs),
    }
}

// The same for a label and its parameters.
fn after_head(least: u32, c: &Cont) -> Result<u32, NoMemory>
    ensures { IfOk result (λ n. n ≡ max least (max (c.now.label + 1) (inner.behind c.now.params.items))) }
{
    after_all(after_one(least, c.label)?, &c.params)
}

// The same for a term: a loop along what follows, of a single label along its body.
#[cycle(spans)]
fn after_term(least: u32, t: &Term) -> Result<u32, NoMemory>
    ensures { IfOk result (λ n. n ≡ max least (inner.term_span (term_view t.now))) }
{
    let mut next = least;
    let mut cur = t;
    'spine: loop {
        match cur {
            Term::Let(x, _, rest) => {
                next = after_one(next, *x)?;
                cur = rest;
            }
            Term::Read(_, xs, _, rest) => {
                next = after_all(next, xs)?;
                cur = rest;
            }
            Term::Write(_, _, _, rest) => cur = rest,
            Term::If(_, _, _, first, second) => {
                next = after_term(next, first)?;
                cur = second;
            }
            Term::Fix(conts, rest) => match conts.as_slice() {
                [one] => {
                    next = after_head(after_term(next, rest)?, one)?;
                    cur = &one.body;
                }
                several => {
                    next = after_labels(next, several)?;
                    cur = rest;
                }
            },
            Term::Call(_, _, to, hs) => return after_call(next, *to, hs),
            Term::Return(_) => return Ok(next),
            Term::Throw(_, _) => return Ok(next),
            Term::Jump(_, _) => return Ok(next),
            Term::Halt(_, _) => return Ok(next),
        }
    }
}

// The same for labels.
#[cycle(spans)]
fn after_labels(least: u32, conts: &[Cont]) -> Result<u32, NoMemory>
    ensures { IfOk result (λ n. n ≡ max least (inner.labels_span (labels_view conts.now))) }
{
    let mut next = least;
    for c in conts {
        next = after_label(next, c)?;
    }
    Ok(next)
}

// The same for one label.
#[cycle(spans)]
fn after_label(least: u32, c: &Cont) -> Result<u32, NoMemory>
    ensures { IfOk result (λ n. n ≡ max least (max (max (c.now.label + 1) (inner.behind c.now.params.items)) (inner.term_span (term_view c.now.body)))) }
{
    after_term(after_head(least, c)?, &c.body)
}

/// How many numbers the variables and labels of a function take, from 0 on.
#[inline(never)]
pub fn span(f: &CpsFun) -> Result<u32, NoMemory>
    ensures { IfOk result (λ n. n ≡ inner.span (fun_view f.now)) }
{
    after_term(after_all(0, &f.params)?, &f.body)
}
