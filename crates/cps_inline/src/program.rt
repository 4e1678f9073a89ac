// Whole programs.

ghost use Rattle.std.specs.Prelude.{◌≡◌, ◌≤◌, true, IfOk, map, length, All};
ghost use Rattle.nv_base.specs.Meanings.{KeepsOutcomes};
ghost use Rattle.nv_base.specs.Measures.{IsAtMost};
ghost use Rattle.cps_ir.specs.Bulk.{bulk, code_bulk};
ghost use Rattle.cps_ir.specs.Meaning.{cps_meaning, params_in};
ghost use Rattle.cps_ir.specs.View.{fun_view};
ghost use Rattle.cps_ir.specs.Wide.{wide};
ghost use Rattle.cps_ir.specs.Callless.{only_jumps};
ghost use Rattle.cps_inline.specs.inner.Inlined as inner;

use crate::copying::{InlineContext, enter};
use crate::span::after_all;
use cps_ir::{Cps, CpsFun};
use nv_base::{Atom, NoMemory};
use std::alloc::Global;

/// The program in one function, without calls, returns and throws, which has its outcomes, is at most as
/// wide, and has at most as much code. Memory exhaustion is also the answer where a variable or a label would
/// have no number below 2^32: a copy takes as many numbers as the greatest of its function.
pub fn inline(alloc: Global, c: Cps) -> Result<Cps, NoMemory>
    ensures kept { IfOk result (λ d. KeepsOutcomes (params_in (map fun_view c.funs.items) c.main) (params_in (map fun_view d.funs.items) d.main) (cps_meaning (map fun_view c.funs.items) c.main) (cps_meaning (map fun_view d.funs.items) d.main)) }
    ensures one { IfOk result (λ d. length d.funs.items ≡ 1) }
    ensures jumps { IfOk result (λ d. All (λ f. only_jumps f.body ≡ true) (map fun_view d.funs.items)) }
    ensures wide { IfOk result (λ d. wide (map fun_view d.funs.items) d.main ≤ wide (map fun_view c.funs.items) c.main) }
    ensures bulk { IfOk result (λ d. IsAtMost (code_bulk (map fun_view d.funs.items) d.main) (bulk (map fun_view c.funs.items) c.main)) }
{
    let f = &c.funs[c.main as usize];
    let main = inline_main(alloc, &c.funs, c.main, f)?;
    let mut funs = Vec::new(alloc);
    funs.push(main)?;
    Ok(Cps { funs, main: 0 })
}

// Variables as operands.
fn operands(alloc: Global, xs: &[u32]) -> Result<Vec<Atom>, NoMemory>
    ensures { IfOk result (λ v. v.items ≡ inner.operands xs.now) }
{
    let mut v = Vec::new(alloc);
    for x in xs {
        v.push(Atom::Var(*x))?;
    }
    Ok(v)
}

// The one function.
fn inline_main(alloc: Global, funs: &[CpsFun], i: u32, f: &CpsFun) -> Result<CpsFun, NoMemory>
    ensures { IfOk result (λ g. fun_view g ≡ inner.inlined_main (map fun_view funs.now) i (fun_view f.now)) }
{
    let mut fresh = after_all(0, &f.params)?;
    let place = InlineContext {
        group: f.group,
        first: fresh,
        to: None,
        handlers: Vec::new(alloc),
    };
    let words = operands(alloc, &f.params)?;
    let body = enter(alloc, funs, i, f, words, &place, &mut fresh)?;
    Ok(CpsFun {
        params: f.params.to_vec(alloc)?,
        results: f.results,
        body,
        group: 0,
    })
}
