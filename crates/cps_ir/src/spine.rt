// Terms as a list of steps and an end, so that no pass goes down a long one by recursion.

ghost use Rattle.std.specs.Prelude.{◌≡◌, IfOk};
ghost use Rattle.cps_ir.specs.View.{term_view};
ghost use Rattle.cps_ir.specs.Spine.{put, put_all};

use crate::term::{Cont, Term};
use nv_base::{Args, Atom, Cmp, Mem, Prim, Vars};
use std::alloc::{AllocError, Global};

/// A node without the term after it.
#[derive(Drop)]
pub enum Step {
    Let(u32, Prim),
    Read(Mem, Vars, Atom),
    Write(Mem, Atom, Args),
    /// The first part is here, and the second comes behind.
    If(Cmp, Atom, Atom, Term),
    /// The term that makes the label is here, and what the label does comes behind.
    Label(u32, Vec<u32>, Term),
    /// These labels are here, and the term that makes them comes behind.
    Labels(Vec<Cont>),
}

/// The term of these steps and then `end`.
pub fn join(alloc: Global, mut steps: Vec<Step>, end: Term) -> Result<Term, AllocError>
    ensures { IfOk result (λ t. term_view t ≡ put_all steps.items (term_view end)) }
{
    let mut t = end;
    while let Some(s) = steps.pop() {
        t = placed(alloc, s, t)?;
    }
    Ok(t)
}

// One step before a term.
fn placed(alloc: Global, s: Step, t: Term) -> Result<Term, AllocError>
    ensures { IfOk result (λ u. term_view u ≡ put s (term_view t)) }
{
    match s {
        Step::Let(x, p) => Ok(Term::Let(x, p, Box::new(alloc, t)?)),
        Step::Read(m, xs, a) => Ok(Term::Read(m, xs, a, Box::new(alloc, t)?)),
        Step::Write(m, a, bs) => Ok(Term::Write(m, a, bs, Box::new(alloc, t)?)),
        Step::If(c, a, b, first) => {
            let first = Box::new(alloc, first)?;
            Ok(Term::If(c, a, b, first, Box::new(alloc, t)?))
        }
        Step::Label(label, params, around) => one_label(alloc, label, params, t, around),
        Step::Labels(conts) => Ok(Term::Fix(conts, Box::new(alloc, t)?)),
    }
}

// One label round a term.
fn one_label(
    alloc: Global,
    label: u32,
    params: Vec<u32>,
    body: Term,
    around: Term,
) -> Result<Term, AllocError>
    ensures { IfOk result (λ u. term_view u ≡ put (Step.Label label params around) (term_view body)) }
{
    let mut conts = Vec::new(alloc);
    conts.push(Cont {
        label,
        params,
        body,
    })?;
    Ok(Term::Fix(conts, Box::new(alloc, around)?))
}
