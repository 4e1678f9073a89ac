// What a label uses and defines, and which of it the label wants.

ghost use Rattle.std.specs.Prelude.{◌≡◌, ◌++◌, ◌||◌, OnOk, IfOk, ℕ, nat_eq};
ghost use Rattle.std.specs.HashSet as set;
ghost use Rattle.nv_base.specs.Words.{atom_vars, prim_vars};
ghost use Rattle.nv_base.specs.Sets.{is_in, all_vars};
ghost use Rattle.cps_ir.specs.View.{term_view, label_view};
ghost use Rattle.cps_close.specs.inner.Closed.{used, defines, bound, noted_all};
ghost use Rattle.cps_close.specs.inner.View.{table_view};

use crate::table::Table;
use cps_ir::{Cont, Term};
use nv_base::{Atom, NoMemory, Prim};
use std::alloc::Global;
use std::collections::HashSet;

// Adds numbers.
pub fn push_all(v: &mut Vec<u32>, xs: &[u32]) -> Result<(), NoMemory>
    ensures { OnOk result (v.new.items ≡ v.old.items ++ xs.now) }
{
    for x in xs {
        v.push(*x)?;
    }
    Ok(())
}

// Adds the variable of an operand.
fn push_atom(v: &mut Vec<u32>, a: Atom) -> Result<(), NoMemory>
    ensures { OnOk result (v.new.items ≡ v.old.items ++ atom_vars a) }
{
    match a {
        Atom::Var(x) => v.push(x)?,
        Atom::Lit(_) => {}
    }
    Ok(())
}

// Adds the variables of operands.
fn push_atoms(v: &mut Vec<u32>, xs: &[Atom]) -> Result<(), NoMemory>
    ensures { OnOk result (v.new.items ≡ v.old.items ++ all_vars xs.now) }
{
    for a in xs {
        push_atom(v, *a)?;
    }
    Ok(())
}

// Adds the variables of a primitive.
fn push_prim(v: &mut Vec<u32>, p: Prim) -> Result<(), NoMemory>
    ensures { OnOk result (v.new.items ≡ v.old.items ++ prim_vars p) }
{
    match p {
        Prim::Same(a) => push_atom(v, a),
        Prim::Una(_, a) => push_atom(v, a),
        Prim::Bin(_, a, b) => {
            push_atom(v, a)?;
            push_atom(v, b)
        }
    }
}

/// Adds what a term uses up to its jumps and at them.
pub fn push_used(v: &mut Vec<u32>, t: &Term, table: &Table) -> Result<(), NoMemory>
    ensures { OnOk result (v.new.items ≡ v.old.items ++ used (table_view table.now) (term_view t.now)) }
{
    let mut cur = t;
    'spine: loop {
        match cur {
            Term::Let(_, p, rest) => {
                push_prim(v, *p)?;
                cur = rest;
            }
            Term::Read(_, _, a, rest) => {
                push_atom(v, *a)?;
                cur = rest;
            }
            Term::Write(_, a, bs, rest) => {
                push_atom(v, *a)?;
                push_atoms(v, bs)?;
                cur = rest;
            }
            Term::If(_, a, b, first, second) => {
                push_atom(v, *a)?;
                push_atom(v, *b)?;
                push_used(v, first, table)?;
                cur = second;
            }
            Term::Fix(_, rest) => cur = rest,
            Term::Call(_, _, _, _) => return Ok(()),
            Term::Return(_) => return Ok(()),
            Term::Throw(_, _) => return Ok(()),
            Term::Jump(l, bs) => {
                push_atoms(v, bs)?;
                return push_all(v, table.needed(*l));
            }
            Term::Halt(_, bs) => return push_atoms(v, bs),
        }
    }
}

// Adds what a term defines up to its jumps.
fn push_defined(v: &mut Vec<u32>, t: &Term) -> Result<(), NoMemory>
    ensures { OnOk result (v.new.items ≡ v.old.items ++ defines (term_view t.now)) }
{
    let mut cur = t;
    'spine: loop {
        match cur {
            Term::Let(x, _, rest) => {
                v.push(*x)?;
                cur = rest;
            }
            Term::Read(_, xs, _, rest) => {
                push_all(v, xs)?;
                cur = rest;
            }
            Term::Write(_, _, _, rest) => cur = rest,
            Term::If(_, _, _, first, second) => {
                push_defined(v, first)?;
                cur = second;
            }
            Term::Fix(_, rest) => cur = rest,
            Term::Call(_, _, _, _) => return Ok(()),
            Term::Return(_) => return Ok(()),
            Term::Throw(_, _) => return Ok(()),
            Term::Jump(_, _) => return Ok(()),
            Term::Halt(_, _) => return Ok(()),
        }
    }
}

/// What a label binds: its parameters, and what its body defines.
pub fn bound_by(alloc: Global, c: &Cont) -> Result<Vec<u32>, NoMemory>
    ensures { IfOk result (λ v. v.items ≡ bound (label_view c.now)) }
{
    let mut v = Vec::new(alloc);
    push_all(&mut v, &c.params)?;
    push_defined(&mut v, &c.body)?;
    Ok(v)
}

// Adds numbers to a set.
fn insert_all(s: &mut HashSet<u32>, xs: &[u32]) -> Result<(), NoMemory>
    ensures { OnOk result ((q : ℕ) → set.contains nat_eq s.new q ≡ is_in q xs.now || set.contains nat_eq s.old q) }
{
    for x in xs {
        s.insert(*x)?;
    }
    Ok(())
}

/// Some variables, and then those of others that aren't among them or gone, each once.
pub fn grown(
    alloc: Global,
    gone: &[u32],
    needed: &[u32],
    used: &[u32],
) -> Result<Vec<u32>, NoMemory>
    ensures { IfOk result (λ v. v.items ≡ noted_all gone.now needed.now used.now) }
{
    let mut seen = HashSet::with_capacity(alloc, used.len())?;
    insert_all(&mut seen, gone)?;
    insert_all(&mut seen, needed)?;
    let mut v = Vec::new(alloc);
    push_all(&mut v, needed)?;
    for x in used {
        if seen.insert(*x)? {
            v.push(*x)?;
        }
    }
    Ok(v)
}
