// The labels of a term, in one list.

ghost use Rattle.std.specs.Prelude.{◌≡◌, ◌++◌, OnOk, IfOk, map, reverse};
ghost use Rattle.cps_ir.specs.View.{term_view, label_view};
ghost use Rattle.cps_close.specs.inner.Closed.{labels_in};
ghost use Rattle.cps_close.specs.inner.Pending.{part_view, opened, parts_of};

use cps_ir::{Cont, Term};
use nv_base::NoMemory;
use std::alloc::Global;

/// What is still to be looked through: a term, or a label whose body was.
#[derive(Clone, Copy)]
pub enum Part<'a> {
    Term(&'a Term),
    Label(&'a Cont),
}

/// The labels of a term, each behind those of its own body.
pub fn labels_in<'a>(alloc: Global, t: &'a Term) -> Result<Vec<&'a Cont>, NoMemory>
    ensures { IfOk result (λ v. map (λ c. label_view c.now) v.items ≡ labels_in (term_view t.now)) }
{
    let mut found = Vec::new(alloc);
    let mut pending = Vec::new(alloc);
    pending.push(Part::Term(t))?;
    while let Some(part) = pending.pop() {
        match part {
            Part::Term(t) => expand(t, &mut pending)?,
            Part::Label(c) => found.push(c)?,
        }
    }
    Ok(found)
}

// Adds the parts of a term, the first one last.
fn expand<'a>(t: &'a Term, pending: &mut Vec<Part<'a>>) -> Result<(), NoMemory>
    ensures { OnOk result (map part_view pending.new.items ≡ map part_view pending.old.items ++ opened (term_view t.now)) }
{
    match t {
        Term::Let(_, _, rest) => pending.push(Part::Term(rest))?,
        Term::Read(_, _, _, rest) => pending.push(Part::Term(rest))?,
        Term::Write(_, _, _, rest) => pending.push(Part::Term(rest))?,
        Term::If(_, _, _, first, second) => {
            pending.push(Part::Term(second))?;
            pending.push(Part::Term(first))?;
        }
        Term::Fix(conts, rest) => {
            pending.push(Part::Term(rest))?;
            expand_all(conts, pending)?;
        }
        Term::Call(_, _, _, _) => {}
        Term::Return(_) => {}
        Term::Throw(_, _) => {}
        Term::Jump(_, _) => {}
        Term::Halt(_, _) => {}
    }
    Ok(())
}

// Adds labels, the first one last, and the body of each after it.
fn expand_all<'a>(conts: &'a [Cont], pending: &mut Vec<Part<'a>>) -> Result<(), NoMemory>
    ensures { OnOk result (map part_view pending.new.items ≡ map part_view pending.old.items ++ parts_of (reverse (map label_view conts.now))) }
{
    for c in conts.iter().rev() {
        pending.push(Part::Label(c))?;
        pending.push(Part::Term(&c.body))?;
    }
    Ok(())
}
