// Whole programs.

ghost use Rattle.std.specs.Prelude.{◌≡◌, ◌≤◌, ◌+◌, ◌++◌, ℕ, List, [], Some, IfOk, OnOk};
ghost use Rattle.nv_base.specs.Meanings.{KeepsOutcomes, AreEqual};
ghost use Rattle.nv_ast.specs.ProgramView.{fun_tree};
ghost use Rattle.nv_ast.specs.Sizes.{main_words, room, expanded_size};
ghost use Rattle.nv_ast.specs.Tree.{FunTree};
ghost use Rattle.nv_ast.specs.TypedView.{typed_program};
ghost use Rattle.nv_ast.specs.Types.{named_types_of, total_named_words};
ghost use Rattle.nv_ast.specs.TypeView.{list_named_types};
ghost use Rattle.nv_meaning.specs.Meaning.{source, function_in};
ghost use Rattle.nv_base.specs.Measures.{of_size, IsAtMost};
ghost use Rattle.flat_ir.specs.Bulk.{bulk};
ghost use Rattle.flat_ir.specs.Meaning.{flat_meaning};
ghost use Rattle.flat_ir.specs.Wide.{wide};
ghost use Rattle.nv_flatten_values.specs.inner.Bounded.{IsBounded};
ghost use Rattle.flat_ir.specs.Reached.{params_in, calls, AreReached};
ghost use Rattle.nv_flatten_values.specs.inner.Made.{IsMade, IsPlaced};
ghost use Rattle.nv_flatten_values.specs.inner.Narrow.{IsNarrowFun, IsNarrowOf};
ghost use Rattle.nv_flatten_values.specs.inner.Simulation.{Extends};
ghost use Rattle.nv_flatten_values.specs.inner.Small.{IsSmallFun};
ghost use Rattle.nv_flatten_values.specs.inner.Symbols.{named_fresh, numbers_from, params_bound};
ghost use Rattle.nv_flatten_values.specs.inner.View.{scope_of};
ghost use Rattle.nv_flatten_values.specs.inner.Well.{AreCalled};
ghost use Rattle.nv_flatten_values.specs.inner.Whole.{group_of};
ghost use Rattle.nv_flatten_values.specs.inner.WholeView.{whole_in};
ghost use Rattle.nv_flatten.specs.Functions.{AreFunctionsOf, AreCalledBefore};

use crate::endings::ending;
use crate::want::{made, put};
use flat_ir::{Flat, FlatFun, FlatProgram};
use nv_ast::{Fun, Name, TyText, Typed};
use nv_base::NoMemory;
use nv_flatten_values::forms::of_type;
use nv_flatten_values::names::Names;
use nv_flatten_values::scope::Scope;
use nv_flatten_values::source::Source;
use std::alloc::Global;

/// The flat program of a typed one, which has its outcomes, within each number of calls. Each function
/// that `main` reaches by calls stands in it once, and no others. `main` is number 0, and the others are
/// numbered as they are first called; no clause says in which order those are that one function calls. It is at
/// most as wide as the program's room, and at most as large as its expanded size says.
pub fn flatten(alloc: Global, t: &Typed) -> Result<FlatProgram, NoMemory>
    ensures first { IfOk result (λ f. f.main ≡ 0) }
    ensures functions { IfOk result (λ f. AreFunctionsOf (typed_program t.now) f.funs.items) }
    ensures order { IfOk result (λ f. AreCalledBefore f.funs.items) }
    ensures kept { IfOk result (λ f. KeepsOutcomes (main_words (typed_program t.now)) (params_in f.funs.items f.main) (source (typed_program t.now)) (flat_meaning f.funs.items f.main)) }
    ensures equal { IfOk result (λ f. AreEqual (main_words (typed_program t.now)) (source (typed_program t.now)) (flat_meaning f.funs.items f.main)) }
    ensures reached { IfOk result (λ f. AreReached f.funs.items f.main) }
    ensures wide { IfOk result (λ f. wide f.funs.items f.main ≤ room (typed_program t.now)) }
    ensures bulk { IfOk result (λ f. IsAtMost (bulk f.funs.items f.main) (of_size (expanded_size (typed_program t.now)))) }
{
    let source = Source::of(alloc, t.program())?;
    let Ok(main) = Name::new(alloc, b"main") else {
        drop(source);
        return Err(NoMemory);
    };
    let funs = made!(functions(alloc, &source, &main), source, main);
    drop(source);
    drop(main);
    Ok(FlatProgram { funs, main: 0 })
}

// The function of a name, and after it those that are called, in the order in which they are first
// met; none where there is no such function.
fn functions<'a>(alloc: Global, t: &Source<'a>, main: &Name) -> Result<Vec<FlatFun>, NoMemory>
    ensures bounded { IfOk result (λ funs. (g : FunTree) → function_in (whole_in t.now).declared.functions main.now ≡ Some g → IsBounded (whole_in t.now) main.now funs.items) }
    ensures order { IfOk result (λ funs. AreCalledBefore funs.items) }
{
    match t.function(main) {
        Some((f, _)) => called_from(alloc, t, &f.name),
        None => Ok(Vec::new(alloc)),
    }
}

// The functions that are called from one on, which is the first of them.
fn called_from<'a>(alloc: Global, t: &Source<'a>, first: &'a Name) -> Result<Vec<FlatFun>, NoMemory>
    ensures bounded { IfOk result (λ funs. IsBounded (whole_in t.now) first.now funs.items) }
    ensures order { IfOk result (λ funs. AreCalledBefore funs.items) }
{
    let mut names = Names::new(alloc);
    let mut funs = Vec::new(alloc);
    made!(names.number(first), names, funs);
    while let Some(name) = names.get(funs.len()) {
        let fun = made!(function(alloc, t, name, &mut names), names, funs);
        put!(funs, fun, names, funs);
    }
    drop(names);
    Ok(funs)
}

// The function of a name. No typed program calls one that isn't there; it would give nothing.
fn function<'a>(
    alloc: Global,
    t: &Source<'a>,
    name: &Name,
    names: &mut Names<'a>,
) -> Result<FlatFun, NoMemory>
    ensures made { IfOk result (λ fun. (g : FunTree) → function_in (whole_in t.now).declared.functions name.now ≡ Some g → IsMade (whole_in t.now) names.new g fun) }
    ensures placed { IfOk result (λ fun. IsPlaced (whole_in t.now) name.now fun) }
    ensures called { IfOk result (λ fun. AreCalled names.old names.new (calls fun.body)) }
    ensures narrow { IfOk result (λ fun. IsNarrowOf (whole_in t.now) names.new name.now (function_in (whole_in t.now).declared.functions name.now) fun) }
    ensures small { IfOk result (λ fun. (g : FunTree) → function_in (whole_in t.now).declared.functions name.now ≡ Some g → IsSmallFun (whole_in t.now) names.new name.now g fun) }
    ensures names { Extends names.old names.new }
{
    match t.function(name) {
        Some((f, group)) => flat_function(alloc, t, f, group, names),
        None => Ok(FlatFun {
            params: Vec::new(alloc),
            results: 0,
            body: Flat::Give(Vec::new(alloc)),
            group: 0,
        }),
    }
}

// A function: new variables for the words of its parameters, and code that ends with its body's words.
fn flat_function<'a>(
    alloc: Global,
    t: &Source<'a>,
    f: &'a Fun,
    group: u32,
    names: &mut Names<'a>,
) -> Result<FlatFun, NoMemory>
    ensures made { IfOk result (λ fun. IsMade (whole_in t.now) names.new (fun_tree f.now) fun) }
    ensures group { IfOk result (λ fun. fun.group ≡ group) }
    ensures called { IfOk result (λ fun. AreCalled names.old names.new (calls fun.body)) }
    ensures narrow { IfOk result (λ fun. (x : List ℕ) → group_of (whole_in t.now) x ≡ Some group → IsNarrowFun (whole_in t.now) names.new x (fun_tree f.now) fun) }
    ensures small { IfOk result (λ fun. (x : List ℕ) → group_of (whole_in t.now) x ≡ Some group → IsSmallFun (whole_in t.now) names.new x (fun_tree f.now) fun) }
    ensures names { Extends names.old names.new }
{
    let mut next = 0;
    let mut params = Vec::new(alloc);
    let mut scope = entry(alloc, t, &f.params, &mut next, &mut params)?;
    let tail = made!(
        ending(alloc, t, &f.body, &mut scope, names, &mut next),
        scope
    );
    drop(scope);
    let results = made!(t.words_of(alloc, &f.result), tail);
    drop(tail.form);
    Ok(FlatFun {
        params,
        results,
        body: tail.code,
        group,
    })
}

// The scope in which a body begins: its parameters, of new variables, which are added to a list.
fn entry<'a>(
    alloc: Global,
    t: &Source<'a>,
    params: &'a [(Name, TyText)],
    next: &mut u32,
    made: &mut Vec<u32>,
) -> Result<Scope<'a>, NoMemory>
    ensures scope { IfOk result (λ scope. scope_of scope.items [] ≡ params_bound (named_fresh next.old (named_types_of (whole_in t.now).declared.layouts (list_named_types params.now))) []) }
    ensures next { OnOk result (next.new ≡ next.old + total_named_words (named_types_of (whole_in t.now).declared.layouts (list_named_types params.now))) }
    ensures made { OnOk result (made.new.items ≡ made.old.items ++ numbers_from next.old (total_named_words (named_types_of (whole_in t.now).declared.layouts (list_named_types params.now)))) }
    ensures later { next.old ≤ next.new }
{
    let mut scope = Vec::new(alloc);
    for param in params {
        let value = made!(of_type(alloc, &t.table, &param.1, next, made), scope);
        put!(scope, (&param.0, value), scope);
    }
    Ok(scope)
}
