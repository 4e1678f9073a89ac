// Patterns.
ghost use Rattle.std.specs.Prelude.{◌≡◌, ◌≤◌, ◌<◌, ◌∷◌, [], length, IfOk, MatchResult, MatchBool};
ghost use Rattle.nv_ast.specs.declared.token.Span.{Span};
ghost use Rattle.nv_ast.specs.Tokens.{sign_open};
ghost use Rattle.nv_ast.specs.Tree.{TuplePattern};
ghost use Rattle.nv_ast.specs.Height.{pattern_height, highest_pattern};
ghost use Rattle.nv_ast.specs.PatternView.{pattern_tree, list_patterns};
ghost use Rattle.nv_ast.specs.Grammar.{IsPattern, IsPatterns};
ghost use Rattle.nv_text_parser.specs.inner.Cursor.{NotSign};
ghost use Rattle.nv_text_parser.specs.inner.Lists.{PatternsAfter};
ghost use Rattle.nv_text_parser.specs.inner.Failing.{Anything, Ahead, Many, HasRead, Starts, StartsNone, Reads, FailsAs};
ghost use Rattle.nv_text_parser.specs.inner.Phrases.{APattern, SomePatterns, NextPattern};
ghost use Rattle.nv_text_parser.specs.inner.Follow.{Above};

use crate::codes::{key, sign};
use crate::cursor::{
    Failure, Parsed, key_here, name_here, push, read, sign_here, take_name, take_sign,
};
use nv_ast::{Pat, Token};
use std::alloc::Global;

/// A pattern of at most this height, which is at least 1.
#[cycle(patterns)]
pub fn pattern<'a>(
    alloc: Global,
    tokens: &'a [Token],
    room: u8,
) -> Result<Parsed<'a, Pat>, Failure<'a>>
    requires { 1 ≤ room }
    ensures read { IfOk result (λ f. IsPattern (pattern_tree f.value) tokens.now f.rest.now) }
    ensures answers { MatchResult result (λ f. Reads APattern Anything room tokens.now f.rest.now) (λ e. FailsAs APattern Anything room tokens.now e) }
    ensures measured { IfOk result (λ f. f.height ≡ pattern_height (pattern_tree f.value)) }
    ensures low { IfOk result (λ f. f.height ≤ room) }
    ensures shorter { IfOk result (λ f. length f.rest.now < length tokens.now) }
{
    if let Some((_, rest)) = key_here(tokens, key::ANY) {
        return Ok(Parsed {
            value: Pat::Any,
            height: 1,
            rest,
        });
    }
    if let Some((_, rest)) = sign_here(tokens, sign::OPEN) {
        return tuple_pattern(alloc, rest, room);
    }
    let (_, name, rest) = read!(take_name(alloc, tokens));
    Ok(Parsed {
        value: Pat::Name(name),
        height: 1,
        rest,
    })
}

/// Whether a pattern may begin with the token in front.
fn begins_pattern(tokens: &[Token]) -> bool
    ensures { MatchBool result (Starts APattern tokens.now) (StartsNone APattern tokens.now) }
{
    if let Some(_) = key_here(tokens, key::ANY) {
        return true;
    }
    if let Some(_) = sign_here(tokens, sign::OPEN) {
        return true;
    }
    let Some(_) = name_here(tokens) else {
        return false;
    };
    true
}

/// What follows an opening bracket.
#[cycle(patterns)]
fn tuple_pattern<'a>(
    alloc: Global,
    tokens: &'a [Token],
    room: u8,
) -> Result<Parsed<'a, Pat>, Failure<'a>>
    requires { 1 ≤ room }
    ensures read { IfOk result (λ f. (s : Span) → IsPattern (pattern_tree f.value) (sign_open s ∷ tokens.now) f.rest.now) }
    ensures answers { MatchResult result (λ f. (s : Span) → Reads (HasRead (sign_open s ∷ []) APattern) Anything room tokens.now f.rest.now) (λ e. (s : Span) → FailsAs (HasRead (sign_open s ∷ []) APattern) Anything room tokens.now e) }
    ensures measured { IfOk result (λ f. f.height ≡ pattern_height (pattern_tree f.value)) }
    ensures low { IfOk result (λ f. f.height ≤ room) }
    ensures shorter { IfOk result (λ f. length f.rest.now < length tokens.now) }
{
    if let Some((_, rest)) = sign_here(tokens, sign::CLOSE) {
        return Ok(Parsed {
            value: tuple_of(Vec::new(alloc)),
            height: 1,
            rest,
        });
    }
    if !begins_pattern(tokens) {
        return Err(Failure::Syntax(tokens));
    }
    if room == 1 {
        return Err(Failure::Deep(tokens));
    }
    let first = read!(pattern(alloc, tokens, room - 1));
    let Some(_) = sign_here(first.rest, sign::COMMA) else {
        drop(first.value);
        return Err(Failure::Syntax(first.rest));
    };
    let parts = read!(more_patterns(alloc, first.value, first.height, first.rest, room - 1));
    let (_, rest) = read!(take_sign(parts.rest, sign::CLOSE));
    Ok(Parsed {
        value: tuple_of(parts.value),
        height: parts.height + 1,
        rest,
    })
}

/// The patterns that follow a first one, each after a comma.
#[cycle(patterns)]
fn more_patterns<'a>(
    alloc: Global,
    first: Pat,
    height: u8,
    tokens: &'a [Token],
    room: u8,
) -> Result<Parsed<'a, Vec<Pat>>, Failure<'a>>
    requires room { 1 ≤ room }
    requires measured { height ≡ pattern_height (pattern_tree first) }
    requires low { height ≤ room }
    ensures read { IfOk result (λ f. PatternsAfter (pattern_tree first) (list_patterns f.value.items) tokens.now f.rest.now) }
    ensures ends { IfOk result (λ f. NotSign 22 f.rest.now) }
    ensures answers { MatchResult result (λ f. Reads (Many NextPattern) (Above 10) room tokens.now f.rest.now) (λ e. FailsAs (Many NextPattern) (Above 10) room tokens.now e) }
    ensures measured { IfOk result (λ f. f.height ≡ highest_pattern (list_patterns f.value.items)) }
    ensures low { IfOk result (λ f. f.height ≤ room) }
    ensures shorter { IfOk result (λ f. length f.rest.now ≤ length tokens.now) }
{
    let mut highest = height;
    let mut rest = tokens;
    let mut patterns = Vec::new(alloc);
    push!(patterns, first);
    while let Some((_, after)) = sign_here(rest, sign::COMMA) {
        let next = read!(pattern(alloc, after, room));
        highest = highest.max(next.height);
        rest = next.rest;
        push!(patterns, next.value);
    }
    Ok(Parsed {
        value: patterns,
        height: highest,
        rest,
    })
}

/// Patterns with commas between them, up to a closing bracket.
pub fn patterns<'a>(
    alloc: Global,
    tokens: &'a [Token],
    room: u8,
) -> Result<Parsed<'a, Vec<Pat>>, Failure<'a>>
    requires { 1 ≤ room }
    ensures read { IfOk result (λ f. IsPatterns (list_patterns f.value.items) tokens.now f.rest.now) }
    ensures answers { MatchResult result (λ f. Reads SomePatterns (Ahead 29) room tokens.now f.rest.now) (λ e. FailsAs SomePatterns (Ahead 29) room tokens.now e) }
    ensures low { IfOk result (λ f. highest_pattern (list_patterns f.value.items) ≤ room) }
    ensures shorter { IfOk result (λ f. length f.rest.now ≤ length tokens.now) }
{
    if let Some(_) = sign_here(tokens, sign::CLOSE_BRACKET) {
        return Ok(Parsed {
            value: Vec::new(alloc),
            height: 0,
            rest: tokens,
        });
    }
    let first = read!(pattern(alloc, tokens, room));
    let patterns = read!(more_patterns(alloc, first.value, first.height, first.rest, room));
    Ok(patterns)
}

/// A tuple of patterns.
#[tactic(auto, using(crate::proofs::Made::tuple_pattern_made))]
fn tuple_of(parts: Vec<Pat>) -> Pat
    ensures { pattern_tree result ≡ TuplePattern (list_patterns parts.items) }
{
    Pat::Tuple(parts)
}
