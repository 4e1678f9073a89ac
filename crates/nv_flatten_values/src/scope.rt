// The variables in scope.

ghost use Rattle.std.specs.Prelude.{◌≡◌, [], IfOk, OnOk};
ghost use Rattle.nv_ast.specs.PatternView.{pattern_tree, list_patterns};
ghost use Rattle.nv_flatten_values.specs.inner.Symbols.{symbol_in, bound, all_bound};
ghost use Rattle.nv_flatten_values.specs.inner.View.{view, list_symbols, scope_of};
ghost use Rattle.nv_flatten_values.specs.inner.Simulation.{Extends};

use crate::symbol::{Symbol, copied};
use crate::want::{made, put};
use nv_ast::{Name, Pat};
use nv_base::{Atom, NoMemory};
use std::alloc::Global;

/// The variables in scope with their symbolic values, the newest last.
pub type Scope<'a> = Vec<(&'a Name, Symbol<'a>)>;

/// The newest symbolic value of a variable, the literal 0 where there is none.
pub fn variable<'a>(
    alloc: Global,
    scope: &[(&'a Name, Symbol<'a>)],
    x: &Name,
) -> Result<Symbol<'a>, NoMemory>
    ensures { IfOk result (λ s. view s ≡ symbol_in (scope_of scope.now []) x.now) }
{
    let mut i = scope.len();
    while i > 0 {
        i -= 1;
        let newest = &scope[i];
        if *x == *newest.0 {
            return copied(alloc, &newest.1);
        }
    }
    Ok(Symbol::Word(Atom::Lit(0)))
}

/// Adds the variables of a pattern.
#[cycle(bind)]
pub fn bind<'a>(p: &'a Pat, s: Symbol<'a>, scope: &mut Scope<'a>) -> Result<(), NoMemory>
    ensures bound { OnOk result (scope_of scope.new.items [] ≡ bound (pattern_tree p.now) (view s.entry) (scope_of scope.old.items [])) }
    ensures extends { Extends scope.old.items scope.new.items }
{
    match p {
        Pat::Name(x) => {
            put!(scope, (x, s));
            Ok(())
        }
        Pat::Any => {
            drop(s);
            Ok(())
        }
        Pat::Tuple(ps) => match s {
            Symbol::Tuple(parts) => bind_all(ps, parts, scope),
            _ => Ok(()),
        },
    }
}

/// Adds the variables of patterns, each at its symbolic value, while there are both.
#[cycle(bind)]
pub fn bind_all<'a>(
    ps: &'a [Pat],
    ss: Vec<Symbol<'a>>,
    scope: &mut Scope<'a>,
) -> Result<(), NoMemory>
    ensures bound { OnOk result (scope_of scope.new.items [] ≡ all_bound (list_patterns ps.now) (list_symbols ss.entry.items) (scope_of scope.old.items [])) }
    ensures extends { Extends scope.old.items scope.new.items }
{
    let mut symbols = ss.into_iter();
    for p in ps {
        match symbols.next() {
            Some(s) => made!(bind(p, s, scope), symbols),
            None => {
                drop(symbols);
                return Ok(());
            }
        }
    }
    drop(symbols);
    Ok(())
}
