//! The faults of a program beside the one that refuses it.

ghost use Rattle.std.specs.Prelude.{◌≡◌, IfErr, OnOk};
ghost use Rattle.nv_ast.specs.ProgramView.{program_of};
ghost use Rattle.nv_ast.specs.Accepted.{IsAccepted};
ghost use Rattle.nv_ast.specs.Faults.{main_name};
ghost use Rattle.nv_types.specs.Refusals.{IsRefusal};

use crate::declarations::{body, signatures};
use crate::limits::fitting_size;
use crate::main_sizes::sizes_of_main;
use crate::program::measure;
use nv_ast::{Decl, Fun, Name, Program, Span};
use nv_base::NoMemory;
use nv_types_scopes::functions::Checker;
use nv_types_scopes::heads::MAIN;
use nv_types_table::cost::Cost;
use nv_types_table::error::TypeError;
use std::alloc::Global;

/// A fault: its kind, from 1 to 24, and where it lies.
#[derive(Clone, Copy)]
pub struct Fault {
    pub kind: u8,
    pub span: Span,
}

/// Whether `check` would refuse a program, and why. The program stays whole.
pub fn judge(alloc: Global, p: &Program) -> Result<(), TypeError>
    ensures accepted { OnOk result (IsAccepted (program_of p.now)) }
    ensures refused { IfErr result (IsRefusal (program_of p.now)) }
{
    let main = Name::new(alloc, &MAIN)?;
    let sizes = measure(alloc, p, &main)?;
    fitting_size(sizes.expanded)?;
    Ok(())
}

/// All faults of a program that are told at once: after a fault in a body the walk goes on with the next function,
/// whose head it knows, and after any other fault it ends. The first one is that of `judge`; no clause rests on the others.
pub fn faults_of(alloc: Global, p: &Program) -> Result<Vec<Fault>, NoMemory> {
    let main = Name::new(alloc, &MAIN)?;
    let mut found = Vec::new(alloc);
    let mut checker = Checker::new(alloc)?;
    let done = add_faults(&mut checker, p, &main, &mut found);
    checker.end();
    done?;
    Ok(found)
}

// Notes a fault, and gives whether there was none.
fn is_faultless<T: Drop>(
    answer: Result<T, TypeError>,
    found: &mut Vec<Fault>,
) -> Result<bool, NoMemory> {
    match answer {
        Ok(_) => Ok(true),
        Err(TypeError::NoMemory) => Err(NoMemory),
        Err(TypeError::Fault(kind, span)) => {
            found.push(Fault { kind, span })?;
            Ok(false)
        }
        Err(TypeError::TooLarge(_)) => Ok(false),
    }
}

// Notes the faults of the declarations in order, and of `main` at the end.
fn add_faults<'a>(
    checker: &mut Checker<'a>,
    p: &'a Program,
    main: &'a Name,
    found: &mut Vec<Fault>,
) -> Result<(), NoMemory>
    requires { main.now ≡ main_name }
{
    for d in p.decls.iter() {
        let is_known = match d {
            Decl::Layout(x, l, span) => {
                is_faultless(checker.layout_declaration(*span, x, l), found)?
            }
            Decl::Exception(x, ts, span) => {
                is_faultless(checker.exception_declaration(*span, x, ts), found)?
            }
            Decl::Group(fs) => is_known_group(checker, fs, found)?,
        };
        if !is_known {
            return Ok(());
        }
    }
    let end = Span {
        first: p.length,
        after: p.length,
    };
    is_faultless(sizes_of_main(checker, main, end), found)?;
    Ok(())
}

// The first fault of each function of a group, and whether the heads are known from then on.
fn is_known_group<'a>(
    checker: &mut Checker<'a>,
    fs: &'a [Fun],
    found: &mut Vec<Fault>,
) -> Result<bool, NoMemory> {
    if !is_faultless(checker.group_names(fs), found)? {
        return Ok(false);
    }
    if !is_faultless(signatures(checker, fs), found)? {
        return Ok(false);
    }
    let mark = checker.scope.mark();
    for f in fs {
        let _ = is_faultless(body(checker, f), found)?;
        checker.scope.leave(mark)?;
    }
    checker.add_costs(fs, Cost::NONE)?;
    Ok(true)
}
