//! Names: those in a pattern, and names that stand twice.

ghost use Rattle.std.specs.Prelude.{◌≡◌, ◌++◌, [], IfOk, OnOk};
ghost use Rattle.nv_ast.specs.PatternView.{pattern_tree, list_patterns};
ghost use Rattle.nv_ast.specs.Scope.{names_in, names_in_all};
ghost use Rattle.nv_ast.specs.Faults.{at_span, variable_twice};
ghost use Rattle.nv_ast.specs.Tests.{has_twice};
ghost use Rattle.nv_types_table.specs.inner.Named.{plain_names};
ghost use Rattle.nv_types_table.specs.inner.Faulty.{Judges};

use crate::error::{TypeError, fault_where};
use indexmap::IndexSet;
use nv_ast::{Name, Pat, Span};
use nv_base::NoMemory;
use std::alloc::Global;

/// Whether some name is there twice.
pub fn has_repeats<'a>(alloc: Global, names: &[&'a Name]) -> Result<bool, NoMemory>
    ensures { IfOk result (λ b. b ≡ has_twice (plain_names names.now)) }
{
    meets_again(&mut IndexSet::new(alloc), names)
}

// The same, where no name was seen before.
fn meets_again<'a>(seen: &mut IndexSet<&'a Name>, names: &[&'a Name]) -> Result<bool, NoMemory>
    requires { seen.old.keys ≡ [] }
    ensures { IfOk result (λ b. b ≡ has_twice (plain_names names.now)) }
{
    for name in names {
        if !seen.insert(*name)? {
            return Ok(true);
        }
    }
    Ok(false)
}

/// A list of variables has no name twice.
pub fn without_twice<'a>(alloc: Global, span: Span, names: &[&'a Name]) -> Result<(), TypeError>
    ensures { Judges (at_span span (variable_twice (plain_names names.now))) result }
{
    fault_where(has_repeats(alloc, names)?, 9, span)
}

/// Adds the names in a pattern.
#[cycle(names)]
#[tactic(auto, using(crate::proofs::PatternNames::tuple_pattern))]
pub fn add_names<'a>(p: &'a Pat, names: &mut Vec<&'a Name>) -> Result<(), NoMemory>
    ensures { OnOk result (plain_names names.new.items ≡ plain_names names.old.items ++ names_in (pattern_tree p.now)) }
{
    match p {
        Pat::Name(x) => {
            names.push(x)?;
            Ok(())
        }
        Pat::Any => Ok(()),
        Pat::Tuple(ps) => add_all_names(ps, names),
    }
}

/// Adds the names in some patterns.
#[cycle(names)]
pub fn add_all_names<'a>(ps: &'a [Pat], names: &mut Vec<&'a Name>) -> Result<(), NoMemory>
    ensures { OnOk result (plain_names names.new.items ≡ plain_names names.old.items ++ names_in_all (list_patterns ps.now)) }
{
    for p in ps {
        add_names(p, names)?;
    }
    Ok(())
}
