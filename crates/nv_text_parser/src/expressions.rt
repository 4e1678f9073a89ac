// Expressions: statements, choices, handlers and lists.
ghost use Rattle.std.specs.Prelude.{◌≡◌, ◌≤◌, ◌<◌, ◌∷◌, ◌+◌, true, length, IfOk, MatchResult, ◌≢◌};
ghost use Rattle.nv_ast.specs.declared.token.Span.{Span};
ghost use Rattle.nv_ast.specs.declared.token.Sort.TheVariants.{Key};
ghost use Rattle.nv_ast.specs.Tokens.{at, mem_key, key_if, key_raise, key_try};
ghost use Rattle.nv_ast.specs.Height.{height, highest, highest_statement, statement_height, pattern_inside, pattern_inside_all, pattern_inside_statement, pattern_inside_statements};
ghost use Rattle.nv_ast.specs.ExprView.{tree_of, statement_tree, list_trees, list_statements};
ghost use Rattle.nv_ast.specs.Grammar.{IsExpr, IsStatement, IsTail, IsArgs};
ghost use Rattle.nv_text_parser.specs.inner.Lists.{ExprsAfter, StatementsAfter};
ghost use Rattle.nv_text_parser.specs.inner.Follow.{Above, sign_rank};
ghost use Rattle.nv_text_parser.specs.inner.Failing.{Anything, Ahead, Many, Reads, FailsAs, Fails};
ghost use Rattle.nv_text_parser.specs.inner.ExprPhrases.{AnExpr, ATail, AStatement, ABody, SomeArgs, NextExpr, Enclosed, Onward, EnclosedBy, StartsStatement, NoStatement};

use crate::codes::{key, sign};
use crate::cursor::{
    Failure, Parsed, joined, key_here, name_here, number_here, push, read, sign_here, take_key,
    take_name, take_number, take_sign,
};
use crate::nodes;
use crate::operands::level;
use crate::patterns::{pattern, patterns};
use crate::starts::{begins_expr, begins_statement, mem_here};
use nv_ast::{Expr, Span, Stmt, Token};
use nv_base::Mem;
use std::alloc::Global;

/// How high a pattern may be.
const PATTERN_ROOM: u8 = 100;

/// An expression of at most this height, which is at least 1: statements and a tail.
#[cycle(expressions)]
pub fn expr<'a>(
    alloc: Global,
    tokens: &'a [Token],
    room: u8,
) -> Result<Parsed<'a, Expr>, Failure<'a>>
    requires { 1 ≤ room }
    ensures read { IfOk result (λ f. IsExpr (tree_of f.value) tokens.now f.rest.now) }
    ensures measured { IfOk result (λ f. f.height ≡ height (tree_of f.value)) }
    ensures low { IfOk result (λ f. f.height ≤ room) }
    ensures inside { IfOk result (λ f. pattern_inside (tree_of f.value) ≤ 100) }
    ensures shorter { IfOk result (λ f. length f.rest.now < length tokens.now) }
    ensures answers { MatchResult result (λ f. Reads AnExpr (Above 9) room tokens.now f.rest.now) (λ e. FailsAs AnExpr (Above 9) room tokens.now e) }
{
    if !begins_statement(tokens) {
        let found = read!(tail(alloc, tokens, room));
        return Ok(found);
    }
    if room < 3 {
        return Err(Failure::Deep(too_high(tokens, room)));
    }
    block(alloc, tokens, room)
}

/// The token at which a block gets too high: its first one, or where that may begin a fetch and there is room for it, the bracket.
fn too_high<'a>(tokens: &'a [Token], room: u8) -> &'a [Token]
    requires room { 1 ≤ room }
    requires small { room < 3 }
    requires starts { StartsStatement tokens.now }
    ensures { Fails AnExpr (Above 9) true room tokens.now result.now }
{
    if room == 1 {
        return tokens;
    }
    let Some((_, _, after)) = mem_here(tokens) else {
        return tokens;
    };
    after
}

/// A statement at least, and a tail.
#[cycle(expressions)]
fn block<'a>(alloc: Global, tokens: &'a [Token], room: u8) -> Result<Parsed<'a, Expr>, Failure<'a>>
    requires room { 3 ≤ room }
    requires starts { StartsStatement tokens.now }
    ensures read { IfOk result (λ f. IsExpr (tree_of f.value) tokens.now f.rest.now) }
    ensures measured { IfOk result (λ f. f.height ≡ height (tree_of f.value)) }
    ensures low { IfOk result (λ f. f.height ≤ room) }
    ensures inside { IfOk result (λ f. pattern_inside (tree_of f.value) ≤ 100) }
    ensures shorter { IfOk result (λ f. length f.rest.now < length tokens.now) }
    ensures answers { MatchResult result (λ f. Reads AnExpr (Above 9) room tokens.now f.rest.now) (λ e. FailsAs AnExpr (Above 9) room tokens.now e) }
{
    let first = read!(statement(alloc, tokens, room - 1));
    let span = nodes::statement_span(&first.value);
    let statements = read!(more_statements(alloc, first.value, first.height, first.rest, room - 1));
    let tail = read!(tail(alloc, statements.rest, room - 1));
    let tall = statements.height.max(tail.height) + 1;
    let Ok(block) = nodes::block(alloc, span, statements.value, tail.value) else {
        return Err(Failure::NoMemory);
    };
    Ok(Parsed {
        value: block,
        height: tall,
        rest: tail.rest,
    })
}

/// The statements that follow a first one.
#[cycle(expressions)]
fn more_statements<'a>(
    alloc: Global,
    first: Stmt,
    tall: u8,
    tokens: &'a [Token],
    room: u8,
) -> Result<Parsed<'a, Vec<Stmt>>, Failure<'a>>
    requires room { 2 ≤ room }
    requires measured { tall ≡ statement_height (statement_tree first) }
    requires low { tall ≤ room }
    requires inside { pattern_inside_statement (statement_tree first) ≤ 100 }
    ensures read { IfOk result (λ f. StatementsAfter (statement_tree first) (list_statements f.value.items) tokens.now f.rest.now) }
    ensures measured { IfOk result (λ f. f.height ≡ highest_statement (list_statements f.value.items)) }
    ensures low { IfOk result (λ f. f.height ≤ room) }
    ensures inside { IfOk result (λ f. pattern_inside_statements (list_statements f.value.items) ≤ 100) }
    ensures shorter { IfOk result (λ f. length f.rest.now ≤ length tokens.now) }
    ensures stopped { IfOk result (λ f. NoStatement f.rest.now) }
    ensures answers { MatchResult result (λ f. Onward ABody ABody (Above 9) room f.rest.now tokens.now) (λ e. FailsAs ABody (Above 9) room tokens.now e) }
{
    let mut highest = tall;
    let mut rest = tokens;
    let mut statements = Vec::new(alloc);
    push!(statements, first);
    while begins_statement(rest) {
        let next = read!(statement(alloc, rest, room));
        highest = highest.max(next.height);
        rest = next.rest;
        push!(statements, next.value);
    }
    Ok(Parsed {
        value: statements,
        height: highest,
        rest,
    })
}

/// A statement.
#[cycle(expressions)]
fn statement<'a>(
    alloc: Global,
    tokens: &'a [Token],
    room: u8,
) -> Result<Parsed<'a, Stmt>, Failure<'a>>
    requires { 2 ≤ room }
    ensures read { IfOk result (λ f. IsStatement (statement_tree f.value) tokens.now f.rest.now) }
    ensures measured { IfOk result (λ f. f.height ≡ statement_height (statement_tree f.value)) }
    ensures low { IfOk result (λ f. f.height ≤ room) }
    ensures inside { IfOk result (λ f. pattern_inside_statement (statement_tree f.value) ≤ 100) }
    ensures shorter { IfOk result (λ f. length f.rest.now < length tokens.now) }
    ensures answers { MatchResult result (λ f. Reads AStatement Anything room tokens.now f.rest.now) (λ e. FailsAs AStatement Anything room tokens.now e) }
{
    let Some((first, after)) = key_here(tokens, key::LET) else {
        let Some((mem, first, after)) = mem_here(tokens) else {
            return Err(Failure::Syntax(tokens));
        };
        return store(alloc, mem, first, after, room);
    };
    let pattern = read!(pattern(alloc, after, PATTERN_ROOM));
    let (_, after) = read!(take_sign(pattern.rest, sign::IS), pattern.value);
    let value = read!(tail(alloc, after, room - 1), pattern.value);
    let (last, rest) = read!(
        take_sign(value.rest, sign::SEMICOLON),
        pattern.value,
        value.value
    );
    Ok(Parsed {
        value: Stmt::Let(pattern.value, value.value, joined(first, last)),
        height: value.height + 1,
        rest,
    })
}

/// What follows the memory of a store.
#[cycle(expressions)]
fn store<'a>(
    alloc: Global,
    mem: Mem,
    first: Span,
    tokens: &'a [Token],
    room: u8,
) -> Result<Parsed<'a, Stmt>, Failure<'a>>
    requires { 2 ≤ room }
    ensures read { IfOk result (λ f. IsStatement (statement_tree f.value) (at first (Key (mem_key mem)) ∷ tokens.now) f.rest.now) }
    ensures measured { IfOk result (λ f. f.height ≡ statement_height (statement_tree f.value)) }
    ensures low { IfOk result (λ f. f.height ≤ room) }
    ensures inside { IfOk result (λ f. pattern_inside_statement (statement_tree f.value) ≤ 100) }
    ensures shorter { IfOk result (λ f. length f.rest.now < length tokens.now) }
    ensures answers { MatchResult result (λ f. Reads AStatement Anything room (at first (Key (mem_key mem)) ∷ tokens.now) f.rest.now) (λ e. FailsAs AStatement Anything room (at first (Key (mem_key mem)) ∷ tokens.now) e) }
{
    let (_, address) = read!(enclosed(alloc, tokens, sign::OPEN, sign::CLOSE, room - 1));
    let (_, after) = read!(take_sign(address.rest, sign::ARROW), address.value);
    let value = read!(tail(alloc, after, room - 1), address.value);
    let (last, rest) = read!(
        take_sign(value.rest, sign::SEMICOLON),
        address.value,
        value.value
    );
    let tall = address.height.max(value.height) + 1;
    Ok(Parsed {
        value: Stmt::Store(mem, address.value, value.value, joined(first, last)),
        height: tall,
        rest,
    })
}

/// An expression between two signs, and the place of the second one.
#[cycle(expressions)]
pub fn enclosed<'a>(
    alloc: Global,
    tokens: &'a [Token],
    opening: u8,
    closing: u8,
    room: u8,
) -> Result<(Span, Parsed<'a, Expr>), Failure<'a>>
    requires room { 1 ≤ room }
    requires closes { 9 < sign_rank closing }
    ensures read { IfOk result (λ r. EnclosedBy opening closing r.0 (tree_of r.1.value) tokens.now r.1.rest.now) }
    ensures measured { IfOk result (λ r. r.1.height ≡ height (tree_of r.1.value)) }
    ensures low { IfOk result (λ r. r.1.height ≤ room) }
    ensures inside { IfOk result (λ r. pattern_inside (tree_of r.1.value) ≤ 100) }
    ensures shorter { IfOk result (λ r. length r.1.rest.now < length tokens.now) }
    ensures answers { MatchResult result (λ r. Reads (Enclosed opening closing) Anything room tokens.now r.1.rest.now) (λ e. FailsAs (Enclosed opening closing) Anything room tokens.now e) }
{
    let (_, after) = read!(take_sign(tokens, opening));
    let inside = read!(expr(alloc, after, room));
    let (last, rest) = read!(take_sign(inside.rest, closing), inside.value);
    let found = Parsed {
        value: inside.value,
        height: inside.height,
        rest,
    };
    Ok((last, found))
}

/// A choice, a raise, a handled expression or operators.
#[cycle(expressions)]
fn tail<'a>(alloc: Global, tokens: &'a [Token], room: u8) -> Result<Parsed<'a, Expr>, Failure<'a>>
    requires { 1 ≤ room }
    ensures read { IfOk result (λ f. IsTail (tree_of f.value) tokens.now f.rest.now) }
    ensures measured { IfOk result (λ f. f.height ≡ height (tree_of f.value)) }
    ensures low { IfOk result (λ f. f.height ≤ room) }
    ensures inside { IfOk result (λ f. pattern_inside (tree_of f.value) ≤ 100) }
    ensures shorter { IfOk result (λ f. length f.rest.now < length tokens.now) }
    ensures answers { MatchResult result (λ f. Reads ATail (Above 9) room tokens.now f.rest.now) (λ e. FailsAs ATail (Above 9) room tokens.now e) }
{
    if let Some((first, after)) = key_here(tokens, key::IF) {
        if room == 1 {
            return Err(Failure::Deep(tokens));
        }
        return if_else(alloc, first, after, room);
    }
    if let Some((first, after)) = key_here(tokens, key::RAISE) {
        return raise(alloc, first, after, room);
    }
    if let Some((first, after)) = key_here(tokens, key::TRY) {
        if room == 1 {
            return Err(Failure::Deep(tokens));
        }
        return try_handle(alloc, first, after, room);
    }
    let found = read!(level(alloc, 8, tokens, room));
    Ok(found)
}

/// What follows an `if`.
#[cycle(expressions)]
fn if_else<'a>(
    alloc: Global,
    first: Span,
    tokens: &'a [Token],
    room: u8,
) -> Result<Parsed<'a, Expr>, Failure<'a>>
    requires { 2 ≤ room }
    ensures read { IfOk result (λ f. IsTail (tree_of f.value) (key_if first ∷ tokens.now) f.rest.now) }
    ensures measured { IfOk result (λ f. f.height ≡ height (tree_of f.value)) }
    ensures low { IfOk result (λ f. f.height ≤ room) }
    ensures inside { IfOk result (λ f. pattern_inside (tree_of f.value) ≤ 100) }
    ensures shorter { IfOk result (λ f. length f.rest.now < length tokens.now) }
    ensures answers { MatchResult result (λ f. Reads ATail (Above 9) room (key_if first ∷ tokens.now) f.rest.now) (λ e. FailsAs ATail (Above 9) room (key_if first ∷ tokens.now) e) }
{
    let (_, condition) = read!(enclosed(alloc, tokens, sign::OPEN, sign::CLOSE, room - 1));
    let yes = read!(expr(alloc, condition.rest, room - 1), condition.value);
    let (_, after) = read!(take_key(yes.rest, key::ELSE), condition.value, yes.value);
    let no_ = read!(expr(alloc, after, room - 1), condition.value, yes.value);
    let tall = condition.height.max(yes.height.max(no_.height)) + 1;
    let Ok(whole) = nodes::if_else(alloc, first, condition.value, yes.value, no_.value) else {
        return Err(Failure::NoMemory);
    };
    Ok(Parsed {
        value: whole,
        height: tall,
        rest: no_.rest,
    })
}

/// What follows a `raise`.
#[cycle(expressions)]
fn raise<'a>(
    alloc: Global,
    first: Span,
    tokens: &'a [Token],
    room: u8,
) -> Result<Parsed<'a, Expr>, Failure<'a>>
    requires { 1 ≤ room }
    ensures read { IfOk result (λ f. IsTail (tree_of f.value) (key_raise first ∷ tokens.now) f.rest.now) }
    ensures measured { IfOk result (λ f. f.height ≡ height (tree_of f.value)) }
    ensures low { IfOk result (λ f. f.height ≤ room) }
    ensures inside { IfOk result (λ f. pattern_inside (tree_of f.value) ≤ 100) }
    ensures shorter { IfOk result (λ f. length f.rest.now < length tokens.now) }
    ensures answers { MatchResult result (λ f. Reads ATail (Above 9) room (key_raise first ∷ tokens.now) f.rest.now) (λ e. FailsAs ATail (Above 9) room (key_raise first ∷ tokens.now) e) }
{
    let (_, name, after) = read!(take_name(alloc, tokens));
    let (_, after) = read!(take_sign(after, sign::OPEN_BRACKET));
    let arguments = read!(args(alloc, after, room - 1));
    let (last, rest) = read!(take_sign(arguments.rest, sign::CLOSE_BRACKET));
    Ok(Parsed {
        value: nodes::raise(joined(first, last), name, arguments.value),
        height: arguments.height + 1,
        rest,
    })
}

/// What follows a `try`.
#[cycle(expressions)]
fn try_handle<'a>(
    alloc: Global,
    first: Span,
    tokens: &'a [Token],
    room: u8,
) -> Result<Parsed<'a, Expr>, Failure<'a>>
    requires { 2 ≤ room }
    ensures read { IfOk result (λ f. IsTail (tree_of f.value) (key_try first ∷ tokens.now) f.rest.now) }
    ensures measured { IfOk result (λ f. f.height ≡ height (tree_of f.value)) }
    ensures low { IfOk result (λ f. f.height ≤ room) }
    ensures inside { IfOk result (λ f. pattern_inside (tree_of f.value) ≤ 100) }
    ensures shorter { IfOk result (λ f. length f.rest.now < length tokens.now) }
    ensures answers { MatchResult result (λ f. Reads ATail (Above 9) room (key_try first ∷ tokens.now) f.rest.now) (λ e. FailsAs ATail (Above 9) room (key_try first ∷ tokens.now) e) }
{
    let (_, body) = read!(enclosed(alloc, tokens, sign::OPEN_BRACE, sign::CLOSE_BRACE, room - 1));
    let (_, after) = read!(take_key(body.rest, key::HANDLE), body.value);
    let (_, name, after) = read!(take_name(alloc, after), body.value);
    let (_, after) = read!(take_sign(after, sign::OPEN_BRACKET), body.value);
    let bound = read!(patterns(alloc, after, PATTERN_ROOM), body.value);
    let (_, after) = read!(take_sign(bound.rest, sign::CLOSE_BRACKET), body.value);
    let (last, handler) = read!(
        enclosed(alloc, after, sign::OPEN_BRACE, sign::CLOSE_BRACE, room - 1),
        body.value
    );
    let tall = body.height.max(handler.height) + 1;
    let span = joined(first, last);
    let Ok(whole) = nodes::try_handle(alloc, span, body.value, name, bound.value, handler.value)
    else {
        return Err(Failure::NoMemory);
    };
    Ok(Parsed {
        value: whole,
        height: tall,
        rest: handler.rest,
    })
}

/// Arguments with commas between them, up to a closing bracket. There may be no room for any.
#[cycle(expressions)]
pub fn args<'a>(
    alloc: Global,
    tokens: &'a [Token],
    room: u8,
) -> Result<Parsed<'a, Vec<Expr>>, Failure<'a>>
    ensures read { IfOk result (λ f. IsArgs (list_trees f.value.items) tokens.now f.rest.now) }
    ensures measured { IfOk result (λ f. f.height ≡ highest (list_trees f.value.items)) }
    ensures low { IfOk result (λ f. f.height ≤ room) }
    ensures inside { IfOk result (λ f. pattern_inside_all (list_trees f.value.items) ≤ 100) }
    ensures shorter { IfOk result (λ f. length f.rest.now ≤ length tokens.now) }
    ensures answers { MatchResult result (λ f. Reads SomeArgs (Ahead 29) room tokens.now f.rest.now) (λ e. FailsAs SomeArgs (Ahead 29) room tokens.now e) }
{
    if let Some(_) = sign_here(tokens, sign::CLOSE_BRACKET) {
        return Ok(Parsed {
            value: Vec::new(alloc),
            height: 0,
            rest: tokens,
        });
    }
    if !begins_expr(tokens) {
        return Err(Failure::Syntax(tokens));
    }
    if room == 0 {
        return Err(Failure::Deep(tokens));
    }
    let first = read!(expr(alloc, tokens, room));
    let all = read!(more_exprs(alloc, first.value, first.height, first.rest, room));
    Ok(all)
}

/// The expressions that follow a first one, each after a comma.
#[cycle(expressions)]
pub fn more_exprs<'a>(
    alloc: Global,
    first: Expr,
    tall: u8,
    tokens: &'a [Token],
    room: u8,
) -> Result<Parsed<'a, Vec<Expr>>, Failure<'a>>
    requires room { 1 ≤ room }
    requires measured { tall ≡ height (tree_of first) }
    requires low { tall ≤ room }
    requires inside { pattern_inside (tree_of first) ≤ 100 }
    ensures read { IfOk result (λ f. ExprsAfter (tree_of first) (list_trees f.value.items) tokens.now f.rest.now) }
    ensures measured { IfOk result (λ f. f.height ≡ highest (list_trees f.value.items)) }
    ensures low { IfOk result (λ f. f.height ≤ room) }
    ensures inside { IfOk result (λ f. pattern_inside_all (list_trees f.value.items) ≤ 100) }
    ensures shorter { IfOk result (λ f. length f.rest.now ≤ length tokens.now) }
    ensures answers { MatchResult result (λ f. Reads (Many NextExpr) (Above 10) room tokens.now f.rest.now) (λ e. FailsAs (Many NextExpr) (Above 10) room tokens.now e) }
{
    let mut highest = tall;
    let mut rest = tokens;
    let mut exprs = Vec::new(alloc);
    push!(exprs, first);
    while let Some((_, after)) = sign_here(rest, sign::COMMA) {
        let next = read!(expr(alloc, after, room));
        highest = highest.max(next.height);
        rest = next.rest;
        push!(exprs, next.value);
    }
    Ok(Parsed {
        value: exprs,
        height: highest,
        rest,
    })
}
