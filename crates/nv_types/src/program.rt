//! Programs.

ghost use Rattle.std.specs.Prelude.{◌≡◌, ◌<◌, ◌≤◌, ◌+◌, ◌*◌, ◌⊎◌, ℕ, IfOk, IfErr, OnOk, MatchResult};
ghost use Rattle.nv_ast.specs.declared.token.Span.{Span as Context};
ghost use Rattle.nv_ast.specs.ProgramView.{program_of};
ghost use Rattle.nv_ast.specs.TypedView.{typed_program};
ghost use Rattle.nv_ast.specs.Faults.{IsTyped, IsFault, main_name, program_faults};
ghost use Rattle.nv_ast.specs.Sizes.{expanded_size, room as room_of};
ghost use Rattle.nv_ast.specs.Accepted.{IsAccepted};
ghost use Rattle.nv_types.specs.Refusals.{IsRefusal};
ghost use Rattle.nv_types.specs.inner.Measuring.{IsSized, Measures};
ghost use Rattle.nv_types_table.specs.inner.Faulty.{Judges};

use crate::declarations::declarations;
use crate::limits::fitting_size;
use crate::main_sizes::{Sizes, sizes_of_main};
use nv_ast::{Name, Program, Span, Typed};
use nv_types_scopes::functions::Checker;
use nv_types_scopes::heads::MAIN;
use nv_types_table::error::TypeError;
use std::alloc::Global;

/// The program as a typed one, with its sizes.
///
/// `Fault` is the first fault of the walk: the declarations in order, and in an expression the parts from left
/// to right and then the expression itself, of whose kinds the least counts. `TooLarge` has the expanded size.
pub fn check(alloc: Global, p: Program) -> Result<Typed, TypeError>
    ensures typed { IfOk result (λ t. typed_program t ≡ program_of p) }
    ensures accepted { OnOk result (IsAccepted (program_of p)) }
    ensures bounded { IfOk result (λ t. room_of (typed_program t) ≤ 5 * expanded_size (typed_program t) + 8) }
    ensures only_accepted { IsAccepted (program_of p) → IfErr result (λ e. e ≡ TypeError.NoMemory) }
    ensures refused { IfErr result (IsRefusal (program_of p)) }
    ensures only_fault { (kind : ℕ) (place : Context) → IsFault (program_of p) kind place → MatchResult result (λ _. ⊥) (λ e. (e ≡ TypeError.NoMemory) ⊎ (e ≡ TypeError.Fault kind place)) }
    ensures only_too_large { IsTyped (program_of p) → 4096 < expanded_size (program_of p) → MatchResult result (λ _. ⊥) (λ e. (e ≡ TypeError.NoMemory) ⊎ (e ≡ TypeError.TooLarge (expanded_size (program_of p)))) }
{
    let main = Name::new(alloc, &MAIN)?;
    let sizes = measure(alloc, &p, &main)?;
    fitting_size(sizes.expanded)?;
    let room = sizes.need as u32 + 8;
    Ok(Typed::of(p, sizes.expanded, room, sizes.params))
}

/// The sizes of a program without a fault.
pub fn measure<'a>(alloc: Global, p: &'a Program, main: &'a Name) -> Result<Sizes, TypeError>
    requires { main.now ≡ main_name }
    ensures judged { Judges (program_faults (program_of p.now)) result }
    ensures sized { IfOk result (λ s. IsSized (program_of p.now) s) }
{
    let mut checker = Checker::new(alloc)?;
    let sizes = sizes_of(&mut checker, p, main);
    checker.end();
    sizes
}

// From the start, the sizes of a program without a fault.
fn sizes_of<'a>(
    checker: &mut Checker<'a>,
    p: &'a Program,
    main: &'a Name,
) -> Result<Sizes, TypeError>
    requires { main.now ≡ main_name }
    ensures { Measures checker.old (program_of p.now) result }
{
    declarations(checker, &p.decls)?;
    let end = Span {
        first: p.length,
        after: p.length,
    };
    sizes_of_main(checker, main, end)
}
