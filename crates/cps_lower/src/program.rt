// Whole programs.

ghost use Rattle.std.specs.Prelude.{◌≡◌, ◌≤◌, IfOk, map};
ghost use Rattle.nv_base.specs.Meanings.{KeepsOutcomes};
ghost use Rattle.nv_base.specs.Measures.{IsAtMost};
ghost use Rattle.flat_ir.specs.Bulk.{bulk as flat_bulk};
ghost use Rattle.flat_ir.specs.Meaning.{flat_meaning};
ghost use Rattle.flat_ir.specs.Reached.{params_in as flat_params};
ghost use Rattle.flat_ir.specs.Wide.{wide as flat_wide};
ghost use Rattle.cps_ir.specs.Bulk.{bulk};
ghost use Rattle.cps_ir.specs.Meaning.{cps_meaning, params_in};
ghost use Rattle.cps_ir.specs.View.{fun_view};
ghost use Rattle.cps_ir.specs.Wide.{wide};
ghost use Rattle.cps_lower.specs.inner.Lowered.{lowered_all};

use crate::function::lower_fun;
use cps_ir::{Cps, CpsFun};
use flat_ir::{FlatFun, FlatProgram};
use nv_base::NoMemory;
use std::alloc::Global;

/// The continuation form of a flat program, which has its outcomes, is at most as wide, and has at most
/// as much code. Memory exhaustion is also the answer where a function would need 2^32 labels or variables.
pub fn lower(alloc: Global, f: &FlatProgram) -> Result<Cps, NoMemory>
    ensures kept { IfOk result (λ c. KeepsOutcomes (flat_params f.now.funs.items f.now.main) (params_in (map fun_view c.funs.items) c.main) (flat_meaning f.now.funs.items f.now.main) (cps_meaning (map fun_view c.funs.items) c.main)) }
    ensures wide { IfOk result (λ c. wide (map fun_view c.funs.items) c.main ≤ flat_wide f.now.funs.items f.now.main) }
    ensures bulk { IfOk result (λ c. IsAtMost (bulk (map fun_view c.funs.items) c.main) (flat_bulk f.now.funs.items f.now.main)) }
{
    let funs = lower_all(alloc, &f.funs)?;
    Ok(Cps { funs, main: f.main })
}

// All functions.
fn lower_all(alloc: Global, funs: &[FlatFun]) -> Result<Vec<CpsFun>, NoMemory>
    ensures { IfOk result (λ v. map fun_view v.items ≡ lowered_all funs.now) }
{
    let mut v = Vec::new(alloc);
    for f in funs {
        v.push(lower_fun(alloc, funs, f)?)?;
    }
    Ok(v)
}
