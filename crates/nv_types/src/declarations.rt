//! Declarations.

ghost use Rattle.std.specs.Prelude.{map};
ghost use Rattle.nv_ast.specs.ProgramView.{fun_tree, decl_tree};
ghost use Rattle.nv_ast.specs.Tree.{GroupDecl};
ghost use Rattle.nv_types_scopes.specs.inner.Declarations.{ChecksDecl, ChecksDecls, SignsAll, ChecksBody, ChecksBodies};

use crate::signatures::signature;
use crate::walk::expr;
use nv_ast::{Decl, Fun};
use nv_types_scopes::expected::Expected;
use nv_types_scopes::functions::Checker;
use nv_types_table::cost::Cost;
use nv_types_table::error::TypeError;

/// Declarations in order, each of which is known to the later ones.
pub fn declarations<'a>(checker: &mut Checker<'a>, ds: &'a [Decl]) -> Result<(), TypeError>
    ensures { ChecksDecls checker.old checker.new (map decl_tree ds.now) result }
{
    for d in ds {
        declaration(checker, d)?;
    }
    Ok(())
}

// A declaration, which is known from then on.
fn declaration<'a>(checker: &mut Checker<'a>, d: &'a Decl) -> Result<(), TypeError>
    ensures { ChecksDecl checker.old checker.new (decl_tree d.now) result }
{
    match d {
        Decl::Layout(x, l, span) => checker.layout_declaration(*span, x, l),
        Decl::Exception(x, ts, span) => checker.exception_declaration(*span, x, ts),
        Decl::Group(fs) => group(checker, fs),
    }
}

// The functions of a group: all names, then the types in the text of each, then the bodies.
fn group<'a>(checker: &mut Checker<'a>, fs: &'a [Fun]) -> Result<(), TypeError>
    ensures { ChecksDecl checker.old checker.new (GroupDecl (map fun_tree fs.now)) result }
{
    checker.group_names(fs)?;
    signatures(checker, fs)?;
    let whole = bodies(checker, fs)?;
    checker.add_costs(fs, whole)?;
    Ok(())
}

/// The types in the texts of functions of new names.
pub fn signatures<'a>(checker: &mut Checker<'a>, fs: &'a [Fun]) -> Result<(), TypeError>
    ensures { SignsAll checker.old checker.new (map fun_tree fs.now) result }
{
    for f in fs {
        signature(checker, f)?;
    }
    Ok(())
}

// The bodies of functions that are known: the sizes of all together, and the greatest need.
fn bodies<'a>(checker: &mut Checker<'a>, fs: &'a [Fun]) -> Result<Cost, TypeError>
    ensures { ChecksBodies checker.old checker.new (map fun_tree fs.now) result }
{
    let mut whole = Cost::NONE;
    for f in fs {
        whole = whole.beside(body(checker, f)?);
    }
    Ok(whole)
}

/// The body of a function: the size of the whole function, and its need.
pub fn body<'a>(checker: &mut Checker<'a>, f: &'a Fun) -> Result<Cost, TypeError>
    ensures { ChecksBody checker.old checker.new (fun_tree f.now) result }
{
    let Some(function) = checker.functions.get(&f.name) else {
        return Ok(Cost::NONE);
    };
    checker.written.clear();
    let mark = checker.scope.mark();
    checker.bind_params(f, function.params)?;
    let found = expr(checker, true, Expected::Same(function.result), &f.body)?;
    checker.scope.leave(mark)?;
    let words = checker.table.known(function.params).words;
    Ok(Cost {
        words: 0,
        size: found.cost.size.saturating_add(words).saturating_add(1),
        need: found.cost.need.saturating_add(words),
    })
}
