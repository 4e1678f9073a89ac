//! The sizes of main.

ghost use Rattle.std.specs.Prelude.{◌≡◌, Some, None, MatchResult};
ghost use Rattle.nv_ast.specs.Faults.{main_name};
ghost use Rattle.nv_types.specs.inner.Finding.{FindsMain};

use nv_ast::{Name, Span};
use nv_types_scopes::functions::Checker;
use nv_types_table::error::TypeError;

/// The sizes of a program.
#[derive(Clone, Copy)]
pub struct Sizes {
    pub expanded: u32,
    pub need: u64,
    pub params: u8,
}

/// The sizes of main after all declarations; 1, at the end of the program: there is none.
pub fn sizes_of_main<'a>(
    checker: &Checker<'a>,
    name: &'a Name,
    end: Span,
) -> Result<Sizes, TypeError>
    requires { name.now ≡ main_name }
    ensures { MatchResult result (λ s. FindsMain checker.now (Some s)) (λ e. FindsMain checker.now None × (e ≡ TypeError.Fault 1 end)) }
{
    match found_main(checker, name) {
        Some(sizes) => Ok(sizes),
        None => Err(TypeError::Fault(1, end)),
    }
}

// The sizes of main, if there is one. The size of its group stands still at 4,294,967,295; a main without a
// fault has parameters of at most 8 words.
fn found_main<'a>(checker: &Checker<'a>, name: &'a Name) -> Option<Sizes>
    requires { name.now ≡ main_name }
    ensures { FindsMain checker.now result }
{
    let main = checker.functions.get(name)?;
    let cost = checker.costs.get(name)?;
    Some(Sizes {
        expanded: cost.size.min(u32::MAX as u64) as u32,
        need: cost.need,
        params: checker.table.known(main.params).words.min(8) as u8,
    })
}
