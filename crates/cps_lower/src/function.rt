// One function.

ghost use Rattle.std.specs.Prelude.{◌≡◌, true, IfOk};
ghost use Rattle.cps_ir.specs.Term as cps;
ghost use Rattle.cps_ir.specs.View.{fun_view, term_view};
ghost use Rattle.cps_lower.specs.inner.Lowered.{lowered_fun, lowered_body, variables, operands};
ghost use Rattle.cps_lower.specs.inner.Lowered as inner;

use crate::lowering::{lower_code, numbers};
use crate::scan::{hands_on, variable_above, variable_after};
use cps_ir::{Cont, CpsFun, Term};
use flat_ir::FlatFun;
use nv_base::{Atom, NoMemory};
use std::alloc::Global;

/// The continuation form of one of a program's functions.
pub fn lower_fun(alloc: Global, funs: &[FlatFun], f: &FlatFun) -> Result<CpsFun, NoMemory>
    ensures { IfOk result (λ g. fun_view g ≡ lowered_fun funs.now f.now) }
{
    let body = body_of(alloc, funs, f)?;
    let params = numbers(alloc, &f.params)?;
    Ok(CpsFun {
        params,
        results: f.results,
        body,
        group: f.group,
    })
}

// What a function does, after the label that returns the words of its last calls where it has some.
fn body_of(alloc: Global, funs: &[FlatFun], f: &FlatFun) -> Result<Term, NoMemory>
    ensures { IfOk result (λ t. term_view t ≡ lowered_body funs.now f.now (inner.hands_on funs.now f.now.group f.now.body)) }
{
    if hands_on(funs, f.group, &f.body) {
        handing_on(alloc, funs, f)
    } else {
        lower_code(alloc, funs, f.group, &f.body, None, &[], &mut 0)
    }
}

// What a function does after a label that returns the words of its last calls.
fn handing_on(alloc: Global, funs: &[FlatFun], f: &FlatFun) -> Result<Term, NoMemory>
    ensures { IfOk result (λ t. term_view t ≡ lowered_body funs.now f.now true) }
{
    let first = variable_after(&f.body, variable_above(&f.params)?)?;
    let label = returning(alloc, first, f.results)?;
    let mut conts = Vec::new(alloc);
    conts.push(label)?;
    let mut next = 1;
    let code = lower_code(alloc, funs, f.group, &f.body, None, &[], &mut next)?;
    Ok(Term::Fix(conts, Box::new(alloc, code)?))
}

// A label 0 that returns its words, with so many variables from one on.
fn returning(alloc: Global, first: u32, count: u32) -> Result<Cont, NoMemory>
    ensures { IfOk result (λ c. (c.label ≡ 0) × (c.params.items ≡ variables first count) × (term_view c.body ≡ cps.Return (operands (variables first count)))) }
{
    let mut params = Vec::new(alloc);
    let mut words = Vec::new(alloc);
    for i in 0..count {
        match first.checked_add(i) {
            Some(x) => {
                params.push(x)?;
                words.push(Atom::Var(x))?;
            }
            None => return Err(NoMemory),
        }
    }
    Ok(Cont {
        label: 0,
        params,
        body: Term::Return(words),
    })
}
