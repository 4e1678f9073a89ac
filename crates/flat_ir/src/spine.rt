// Code as a list of steps and an end, so that no pass goes down a long one by recursion.

ghost use Rattle.std.specs.Prelude.{◌≡◌, IfOk};
ghost use Rattle.flat_ir.specs.Spine.{IsJoined, IsPut};

use crate::flat::Flat;
use nv_base::{Args, Atom, Mem, Prim, Vars};
use std::alloc::{AllocError, Global};

/// A node with one piece of code after it.
#[derive(Drop)]
pub enum Step {
    Let(u32, Prim),
    Fetch(Mem, Vars, Atom),
    Store(Mem, Atom, Args),
    Bind(Vec<u32>, Flat),
}

/// The code that does these steps and then what `end` does.
pub fn join(alloc: Global, mut steps: Vec<Step>, end: Flat) -> Result<Flat, AllocError>
    ensures { IfOk result (λ t. IsJoined steps.items end t) }
{
    let mut t = end;
    while let Some(s) = steps.pop() {
        t = put(alloc, s, t)?;
    }
    Ok(t)
}

// One step before some code.
fn put(alloc: Global, s: Step, t: Flat) -> Result<Flat, AllocError>
    ensures { IfOk result (λ u. IsPut s t u) }
{
    match s {
        Step::Let(x, p) => Ok(Flat::Let(x, p, Box::new(alloc, t)?)),
        Step::Fetch(m, xs, a) => Ok(Flat::Fetch(m, xs, a, Box::new(alloc, t)?)),
        Step::Store(m, a, bs) => Ok(Flat::Store(m, a, bs, Box::new(alloc, t)?)),
        Step::Bind(xs, first) => {
            let first = Box::new(alloc, first)?;
            Ok(Flat::Bind(xs, first, Box::new(alloc, t)?))
        }
    }
}
