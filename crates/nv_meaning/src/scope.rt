// The variables in scope.

ghost use Rattle.std.specs.Prelude.{◌≡◌, ◌++◌, ℕ, [], IfOk, OnOk};
ghost use Rattle.nv_ast.specs.PatternView.{pattern_tree, list_patterns};
ghost use Rattle.nv_ast.specs.TypeView.{list_named_types};
ghost use Rattle.nv_meaning_values.specs.Values.{variable_in, matched, all_matched};
ghost use Rattle.nv_meaning.specs.Meaning.{entered};
ghost use Rattle.nv_meaning_values.specs.inner.View.{view, list_values, scope_of, Extends};

use crate::parts::copied;
use nv_ast::{Name, Pat, TyText};
use nv_base::NoMemory;
use nv_meaning_values::Value;
use std::alloc::Global;

/// The variables in scope with their values, the newest last.
pub type Scope<'a> = Vec<(&'a Name, Value<'a>)>;

/// The newest value of a variable, 0 where there is none.
pub fn variable<'a>(
    alloc: Global,
    scope: &[(&'a Name, Value<'a>)],
    x: &Name,
) -> Result<Value<'a>, NoMemory>
    ensures { IfOk result (λ v. view v ≡ variable_in (scope_of scope.now []) x.now) }
{
    let mut i = scope.len();
    while i > 0 {
        i -= 1;
        let newest = &scope[i];
        if *x == *newest.0 {
            return copied(alloc, &newest.1);
        }
    }
    Ok(Value::Word(0))
}

/// Adds the variables of a pattern.
#[cycle(bind)]
pub fn bind<'a>(p: &'a Pat, v: Value<'a>, scope: &mut Scope<'a>) -> Result<(), NoMemory>
    ensures matches { OnOk result (scope_of scope.new.items [] ≡ matched (pattern_tree p.now) (view v.entry) (scope_of scope.old.items [])) }
    ensures extends { Extends scope.old.items scope.new.items }
{
    match p {
        Pat::Name(x) => {
            scope.push((x, v))?;
            Ok(())
        }
        Pat::Any => Ok(()),
        Pat::Tuple(ps) => match v {
            Value::Tuple(vs) => bind_all(ps, vs, scope),
            _ => Ok(()),
        },
    }
}

/// Adds the variables of patterns, each at its value, while there are both.
#[cycle(bind)]
pub fn bind_all<'a>(
    ps: &'a [Pat],
    vs: Vec<Value<'a>>,
    scope: &mut Scope<'a>,
) -> Result<(), NoMemory>
    ensures matches { OnOk result (scope_of scope.new.items [] ≡ all_matched (list_patterns ps.now) (list_values vs.entry.items) (scope_of scope.old.items [])) }
    ensures extends { Extends scope.old.items scope.new.items }
{
    let mut values = vs.into_iter();
    for p in ps {
        match values.next() {
            Some(v) => bind(p, v, scope)?,
            None => return Ok(()),
        }
    }
    Ok(())
}

/// Adds the parameters of a function, each with its value, while there are both.
pub fn enter<'a>(
    params: &'a [(Name, TyText)],
    vs: Vec<Value<'a>>,
    scope: &mut Scope<'a>,
) -> Result<(), NoMemory>
    ensures { OnOk result (scope_of scope.new.items [] ≡ entered (list_named_types params.now) (list_values vs.entry.items) (scope_of scope.old.items [])) }
{
    let mut values = vs.into_iter();
    for param in params {
        match values.next() {
            Some(v) => scope.push((&param.0, v))?,
            None => return Ok(()),
        }
    }
    Ok(())
}
