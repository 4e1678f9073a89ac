// Declarations and whole programs.
ghost use Rattle.std.specs.Prelude.{◌≡◌, ◌≤◌, ◌<◌, ◌+◌, ◌*◌, ◌∷◌, [], length, map, IfOk, IfErr, MatchResult};
ghost use Rattle.nv_ast.specs.Tokens.{key_layout, key_exception, key_fun};
ghost use Rattle.nv_ast.specs.Height.{fun_height, highest_fun, decl_height, highest_decl};
ghost use Rattle.nv_ast.specs.ProgramView.{fun_tree, decl_tree};
ghost use Rattle.nv_ast.specs.Exceptions.{exceptions};
ghost use Rattle.nv_ast.specs.Grammar.{IsFun, IsDecl, IsDecls};
ghost use Rattle.nv_text_parser.specs.inner.Lists.{FunsAfter};
ghost use Rattle.nv_text_parser.specs.inner.Follow.{Above};
ghost use Rattle.nv_text_parser.specs.inner.Failing.{Anything, Many, HasRead, Reads, FailsAs};
ghost use Rattle.nv_text_parser.specs.inner.Phrases.{AFun, ADecl, NextFun, AtEnd};

use crate::codes::{key, sign};
use crate::cursor::{Failure, joined, key_here, push, read, take_key, take_name, take_sign};
use crate::expressions::expr;
use crate::layouts::layout;
use crate::types::{params, type_text, types};
use nv_ast::{Decl, Fun, Span, Token};
use std::alloc::Global;

/// How high an expression, a type or a layout may be.
const ROOM: u8 = 100;

/// A function after its `fun` or `and`.
fn function<'a>(alloc: Global, tokens: &'a [Token]) -> Result<(Fun, &'a [Token]), Failure<'a>>
    ensures read { IfOk result (λ r. IsFun (fun_tree r.0) tokens.now r.1.now) }
    ensures answers { MatchResult result (λ r. Reads AFun Anything 100 tokens.now r.1.now) (λ e. FailsAs AFun Anything 100 tokens.now e) }
    ensures low { IfOk result (λ r. fun_height (fun_tree r.0) ≤ 100) }
    ensures shorter { IfOk result (λ r. length r.1.now < length tokens.now) }
{
    let (first, name, after) = read!(take_name(alloc, tokens));
    let (_, after) = read!(take_sign(after, sign::OPEN_BRACKET));
    let params = read!(params(alloc, after, ROOM));
    let (_, after) = read!(take_sign(params.rest, sign::CLOSE_BRACKET));
    let (_, after) = read!(take_sign(after, sign::COLON));
    let answer = read!(type_text(alloc, after, ROOM));
    let (_, after) = read!(take_sign(answer.rest, sign::OPEN_BRACE), answer.value);
    let body = read!(expr(alloc, after, ROOM), answer.value);
    let (last, rest) = read!(
        take_sign(body.rest, sign::CLOSE_BRACE),
        answer.value,
        body.value
    );
    let made = Fun {
        name,
        params: params.value,
        result: answer.value,
        body: body.value,
        span: joined(first, last),
    };
    Ok((made, rest))
}

/// The functions that follow a first one, each after an `and`.
fn more_functions<'a>(
    alloc: Global,
    first: Fun,
    tokens: &'a [Token],
) -> Result<(Vec<Fun>, &'a [Token]), Failure<'a>>
    requires { fun_height (fun_tree first) ≤ 100 }
    ensures read { IfOk result (λ r. FunsAfter (fun_tree first) (map fun_tree r.0.items) tokens.now r.1.now) }
    ensures answers { MatchResult result (λ r. Reads (Many NextFun) (Above 0) 100 tokens.now r.1.now) (λ e. FailsAs (Many NextFun) (Above 0) 100 tokens.now e) }
    ensures low { IfOk result (λ r. highest_fun (map fun_tree r.0.items) ≤ 100) }
    ensures shorter { IfOk result (λ r. length r.1.now ≤ length tokens.now) }
{
    let mut rest = tokens;
    let mut functions = Vec::new(alloc);
    push!(functions, first);
    while let Some((_, after)) = key_here(rest, key::AND) {
        let (next, behind) = read!(function(alloc, after));
        rest = behind;
        push!(functions, next);
    }
    Ok((functions, rest))
}

/// The functions of a group, after its `fun`.
fn group<'a>(
    alloc: Global,
    first: Span,
    tokens: &'a [Token],
) -> Result<(Decl, &'a [Token]), Failure<'a>>
    ensures read { IfOk result (λ r. IsDecl (decl_tree r.0) (key_fun first ∷ tokens.now) r.1.now) }
    ensures answers { MatchResult result (λ r. Reads (HasRead (key_fun first ∷ []) ADecl) (Above 0) 100 tokens.now r.1.now) (λ e. FailsAs (HasRead (key_fun first ∷ []) ADecl) (Above 0) 100 tokens.now e) }
    ensures low { IfOk result (λ r. decl_height (decl_tree r.0) ≤ 100) }
    ensures shorter { IfOk result (λ r. 5 * exceptions (r.0 ∷ []) + length r.1.now < length tokens.now) }
{
    let (function, after) = read!(function(alloc, tokens));
    let (functions, rest) = read!(more_functions(alloc, function, after));
    Ok((Decl::Group(functions), rest))
}

/// The layout that is declared behind `layout`.
fn layout_decl<'a>(
    alloc: Global,
    first: Span,
    tokens: &'a [Token],
) -> Result<(Decl, &'a [Token]), Failure<'a>>
    ensures read { IfOk result (λ r. IsDecl (decl_tree r.0) (key_layout first ∷ tokens.now) r.1.now) }
    ensures answers { MatchResult result (λ r. Reads (HasRead (key_layout first ∷ []) ADecl) (Above 0) 100 tokens.now r.1.now) (λ e. FailsAs (HasRead (key_layout first ∷ []) ADecl) (Above 0) 100 tokens.now e) }
    ensures low { IfOk result (λ r. decl_height (decl_tree r.0) ≤ 100) }
    ensures shorter { IfOk result (λ r. 5 * exceptions (r.0 ∷ []) + length r.1.now < length tokens.now) }
{
    let (_, name, after) = read!(take_name(alloc, tokens));
    let (_, after) = read!(take_sign(after, sign::IS));
    let layout = read!(layout(alloc, after, ROOM));
    let (last, rest) = read!(take_sign(layout.rest, sign::SEMICOLON), layout.value);
    Ok((Decl::Layout(name, layout.value, joined(first, last)), rest))
}

/// The exception that is declared behind `exception`.
fn exception_decl<'a>(
    alloc: Global,
    first: Span,
    tokens: &'a [Token],
) -> Result<(Decl, &'a [Token]), Failure<'a>>
    ensures read { IfOk result (λ r. IsDecl (decl_tree r.0) (key_exception first ∷ tokens.now) r.1.now) }
    ensures answers { MatchResult result (λ r. Reads (HasRead (key_exception first ∷ []) ADecl) (Above 0) 100 tokens.now r.1.now) (λ e. FailsAs (HasRead (key_exception first ∷ []) ADecl) (Above 0) 100 tokens.now e) }
    ensures low { IfOk result (λ r. decl_height (decl_tree r.0) ≤ 100) }
    ensures shorter { IfOk result (λ r. 5 * exceptions (r.0 ∷ []) + length r.1.now ≤ length tokens.now + 1) }
{
    let (_, name, after) = read!(take_name(alloc, tokens));
    let (_, after) = read!(take_sign(after, sign::OPEN_BRACKET));
    let types = read!(types(alloc, after, ROOM));
    let (_, after) = read!(take_sign(types.rest, sign::CLOSE_BRACKET));
    let (last, rest) = read!(take_sign(after, sign::SEMICOLON));
    Ok((
        Decl::Exception(name, types.value, joined(first, last)),
        rest,
    ))
}

/// A declaration.
fn declaration<'a>(alloc: Global, tokens: &'a [Token]) -> Result<(Decl, &'a [Token]), Failure<'a>>
    ensures read { IfOk result (λ r. IsDecl (decl_tree r.0) tokens.now r.1.now) }
    ensures answers { MatchResult result (λ r. Reads ADecl (Above 0) 100 tokens.now r.1.now) (λ e. FailsAs ADecl (Above 0) 100 tokens.now e) }
    ensures low { IfOk result (λ r. decl_height (decl_tree r.0) ≤ 100) }
    ensures shorter { IfOk result (λ r. length r.1.now < length tokens.now) }
    ensures few { IfOk result (λ r. 5 * exceptions (r.0 ∷ []) + length r.1.now ≤ length tokens.now) }
{
    if let Some((first, after)) = key_here(tokens, key::FUN) {
        let found = read!(group(alloc, first, after));
        return Ok(found);
    }
    if let Some((first, after)) = key_here(tokens, key::LAYOUT) {
        let found = read!(layout_decl(alloc, first, after));
        return Ok(found);
    }
    let (first, after) = read!(take_key(tokens, key::EXCEPTION));
    let found = read!(exception_decl(alloc, first, after));
    Ok(found)
}

/// All declarations.
pub fn declarations<'a>(alloc: Global, tokens: &'a [Token]) -> Result<Vec<Decl>, Failure<'a>>
    ensures read { IfOk result (λ v. IsDecls (map decl_tree v.items) tokens.now []) }
    ensures fails { IfErr result (λ e. FailsAs (Many ADecl) AtEnd 100 tokens.now e) }
    ensures low { IfOk result (λ v. highest_decl (map decl_tree v.items) ≤ 100) }
    ensures few { IfOk result (λ v. 5 * exceptions v.items ≤ length tokens.now) }
{
    let mut found = Vec::new(alloc);
    let mut rest = tokens;
    while !rest.is_empty() {
        let (next, behind) = read!(declaration(alloc, rest));
        rest = behind;
        push!(found, next);
    }
    Ok(found)
}
