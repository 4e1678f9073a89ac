// Nodes of a copy, after the steps so far. These calls stay out of line: so the frames of the recursion
// over callees stay small, which goes as deep as a program has groups.

ghost use Rattle.std.specs.Prelude.{◌≡◌, ◌+◌, ◌++◌, ◌∷◌, [], IfOk};
ghost use Rattle.cps_ir.specs.Spine.{put_all};
ghost use Rattle.cps_ir.specs.Term as cps;
ghost use Rattle.cps_ir.specs.View.{term_view, labels_view};
ghost use Rattle.cps_inline.specs.inner.Inlined as inner;

use crate::moving::{
    moved, moved_atom, moved_atoms, moved_numbers, moved_primitive, short_atoms, short_numbers,
};
use cps_ir::{Cont, Step, Term, join};
use nv_base::{Atom, Cmp, Mem, NoMemory, Prim};
use std::alloc::Global;

// What was found, or memory exhaustion, after letting go of what is held.
macro_rules! read {
    ($found:expr $(, $held:expr)*) => {
        match $found {
            Ok(found) => found,
            Err(failure) => {
                $(drop($held);)*
                return Err(failure);
            }
        }
    };
}

pub(crate) use read;

// One step more.
#[inline(never)]
fn push_step(steps: &mut Vec<Step>, step: Step) -> Result<(), NoMemory>
    ensures { IfOk result (λ u. steps.new.items ≡ steps.old.items ++ step ∷ []) }
{
    steps.push(step)?;
    Ok(())
}

/// A `Let`, moved up.
#[inline(never)]
pub fn push_let(base: u32, x: u32, a: Prim, steps: &mut Vec<Step>) -> Result<(), NoMemory>
    ensures { IfOk result (λ u. inner.Adds steps.old.items steps.new.items (cps.Let (base + x) (inner.moved_primitive base a))) }
{
    push_step(steps, Step::Let(moved(base, x)?, moved_primitive(base, a)?))
}

/// A `Read`, moved up.
#[inline(never)]
pub fn push_read(
    alloc: Global,
    base: u32,
    m: Mem,
    xs: &[u32],
    a: Atom,
    steps: &mut Vec<Step>,
) -> Result<(), NoMemory>
    ensures { IfOk result (λ u. inner.Adds steps.old.items steps.new.items (cps.Read m (inner.moved base xs.now) (inner.moved_atom base a))) }
{
    let place = moved_atom(base, a)?;
    let vars = short_numbers(alloc, base, xs)?;
    push_step(steps, Step::Read(m, vars, place))
}

/// A `Write`, moved up.
#[inline(never)]
pub fn push_write(
    alloc: Global,
    base: u32,
    m: Mem,
    a: Atom,
    bs: &[Atom],
    steps: &mut Vec<Step>,
) -> Result<(), NoMemory>
    ensures { IfOk result (λ u. inner.Adds steps.old.items steps.new.items (cps.Write m (inner.moved_atom base a) (inner.moved_atoms base bs.now))) }
{
    let place = moved_atom(base, a)?;
    let words = short_atoms(alloc, base, bs)?;
    push_step(steps, Step::Write(m, place, words))
}

/// An `If`, moved up, whose first part is here.
#[inline(never)]
pub fn push_if(
    base: u32,
    c: Cmp,
    a: Atom,
    b: Atom,
    first: Term,
    steps: &mut Vec<Step>,
) -> Result<(), NoMemory>
    ensures { IfOk result (λ u. inner.Adds steps.old.items steps.new.items (cps.If c (inner.moved_atom base a) (inner.moved_atom base b) (term_view first))) }
{
    let left = read!(moved_atom(base, a), first);
    let right = read!(moved_atom(base, b), first);
    push_step(steps, Step::If(c, left, right, first))
}

/// A single label, moved up, whose body comes behind; the term round it is here.
#[inline(never)]
pub fn push_label(
    alloc: Global,
    base: u32,
    one: &Cont,
    around: Term,
    steps: &mut Vec<Step>,
) -> Result<(), NoMemory>
    ensures { IfOk result (λ u. inner.Adds steps.old.items steps.new.items (λ t. cps.Fix (cps.label (base + one.now.label) (inner.moved base one.now.params.items) t cps.none) (term_view around))) }
{
    let label = read!(moved(base, one.label), around);
    let params = read!(moved_numbers(alloc, base, &one.params), around);
    push_step(steps, Step::Label(label, params, around))
}

/// Labels that are copied already.
#[inline(never)]
pub fn push_labels(labels: Vec<Cont>, steps: &mut Vec<Step>) -> Result<(), NoMemory>
    ensures { IfOk result (λ u. inner.Adds steps.old.items steps.new.items (cps.Fix (labels_view labels.items))) }
{
    push_step(steps, Step::Labels(labels))
}

/// Labels round a jump to one of them.
#[inline(never)]
pub fn round_jump(
    alloc: Global,
    labels: Vec<Cont>,
    label: u32,
    words: Vec<Atom>,
) -> Result<Term, NoMemory>
    ensures { IfOk result (λ u. term_view u ≡ cps.Fix (labels_view labels.items) (cps.Jump label words.items)) }
{
    match Box::new(alloc, Term::Jump(label, words)) {
        Ok(jump) => Ok(Term::Fix(labels, jump)),
        Err(failed) => {
            drop(labels);
            Err(failed.into())
        }
    }
}

/// The steps before a term.
#[inline(never)]
pub fn joined(alloc: Global, steps: Vec<Step>, end: Term) -> Result<Term, NoMemory>
    ensures { IfOk result (λ u. term_view u ≡ put_all steps.items (term_view end)) }
{
    Ok(join(alloc, steps, end)?)
}

/// Words to a label, or to the end of the run under a number.
#[inline(never)]
pub fn return_to(
    alloc: Global,
    to: Option<u32>,
    e: u16,
    base: u32,
    bs: &[Atom],
) -> Result<Term, NoMemory>
    ensures { IfOk result (λ u. term_view u ≡ inner.return_term to e (inner.moved_atoms base bs.now)) }
{
    match to {
        Some(l) => Ok(Term::Jump(l, moved_atoms(alloc, base, bs)?)),
        None => Ok(Term::Halt(e, short_atoms(alloc, base, bs)?)),
    }
}
