// What a function is looked through for before it is lowered.

ghost use Rattle.std.specs.Prelude.{◌≡◌, ◌++◌, ◌+◌, max, true, IfOk, slice_get};
ghost use Rattle.flat_ir.specs.Formed.{defined};
ghost use Rattle.cps_lower.specs.inner.Lowered as inner;

use flat_ir::{Flat, FlatFun};
use nv_base::NoMemory;

/// Whether a function is of an earlier group than this one.
pub fn is_earlier(funs: &[FlatFun], own: u32, f: u32) -> bool
    ensures { result ≡ inner.is_earlier own (slice_get funs.now f) }
{
    match funs.get(f as usize) {
        Some(g) => g.group < own,
        None => false,
    }
}

/// Whether code has a call of an earlier group whose words are the function's.
pub fn hands_on(funs: &[FlatFun], own: u32, t: &Flat) -> bool
    ensures { result ≡ inner.hands_on funs.now own t.now }
{
    let mut cur = t;
    'spine: loop {
        match cur {
            Flat::Let(_, _, rest) => cur = rest,
            Flat::Fetch(_, _, _, rest) => cur = rest,
            Flat::Store(_, _, _, rest) => cur = rest,
            Flat::If(_, _, _, first, second) => {
                if hands_on(funs, own, first) {
                    return true;
                }
                cur = second;
            }
            Flat::Bind(_, _, rest) => cur = rest,
            Flat::Try(first, _, _, handler) => {
                if hands_on(funs, own, first) {
                    return true;
                }
                cur = handler;
            }
            Flat::Call(f, _) => return is_earlier(funs, own, *f),
            Flat::Raise(_, _) => return false,
            Flat::Give(_) => return false,
        }
    }
}

/// The first variable after all of these.
pub fn variable_above(xs: &[u32]) -> Result<u32, NoMemory>
    ensures { IfOk result (λ n. n ≡ inner.next_variable xs.now) }
{
    let mut next = 0;
    for x in xs {
        next = behind(next, *x)?;
    }
    Ok(next)
}

// The greater of a number and the one after another.
fn behind(next: u32, x: u32) -> Result<u32, NoMemory>
    ensures { IfOk result (λ n. n ≡ max next (x + 1)) }
{
    match x.checked_add(1) {
        Some(y) => Ok(if next < y { y } else { next }),
        None => Err(NoMemory),
    }
}

/// The first variable after a number and all that code defines.
pub fn variable_after(t: &Flat, least: u32) -> Result<u32, NoMemory>
    ensures { IfOk result (λ n. n ≡ max least (inner.next_variable (defined t.now))) }
{
    let mut next = least;
    let mut cur = t;
    'spine: loop {
        match cur {
            Flat::Let(x, _, rest) => {
                next = behind(next, *x)?;
                cur = rest;
            }
            Flat::Fetch(_, xs, _, rest) => {
                next = greater(next, variable_above(xs)?);
                cur = rest;
            }
            Flat::Store(_, _, _, rest) => cur = rest,
            Flat::If(_, _, _, first, second) => {
                next = variable_after(first, next)?;
                cur = second;
            }
            Flat::Bind(xs, first, rest) => {
                next = variable_after(first, greater(next, variable_above(xs)?))?;
                cur = rest;
            }
            Flat::Try(first, _, xs, handler) => {
                next = variable_after(first, greater(next, variable_above(xs)?))?;
                cur = handler;
            }
            Flat::Call(_, _) => return Ok(next),
            Flat::Raise(_, _) => return Ok(next),
            Flat::Give(_) => return Ok(next),
        }
    }
}

fn greater(a: u32, b: u32) -> u32
    ensures { result ≡ max a b }
{
    if a < b { b } else { a }
}
