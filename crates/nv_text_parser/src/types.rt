// Types.
ghost use Rattle.std.specs.Prelude.{◌≡◌, ℕ, ◌≤◌, ◌<◌, ◌∷◌, [], length, IfOk, MatchResult, MatchBool};
ghost use Rattle.nv_ast.specs.declared.token.Span.{Span};
ghost use Rattle.nv_ast.specs.Tokens.{a_name, key_word, sign_open, sign_close, sign_open_brace};
ghost use Rattle.nv_ast.specs.Tree.{TupleType, RecordType};
ghost use Rattle.nv_ast.specs.Height.{type_height, highest_type, highest_named_type};
ghost use Rattle.nv_ast.specs.TypeView.{type_tree, list_types, list_named_types};
ghost use Rattle.nv_ast.specs.Grammar.{IsType, IsTypes, IsParams};
ghost use Rattle.nv_text_parser.specs.inner.Cursor.{NotSign};
ghost use Rattle.nv_text_parser.specs.inner.Follow.{Above};
ghost use Rattle.nv_text_parser.specs.inner.Lists.{TypesAfter, NamedTypesAfter, InBrackets};
ghost use Rattle.nv_text_parser.specs.inner.Failing.{Anything, Ahead, Many, HasRead, Starts, StartsNone, Reads, FailsAs};
ghost use Rattle.nv_text_parser.specs.inner.Phrases.{AType, SomeTypes, SomeParams, NextType, NextNamedType, NameInBrackets};

use crate::codes::{key, sign};
use crate::cursor::{
    Failure, Parsed, key_here, push, read, sign_here, take_name, take_number, take_sign,
};
use nv_ast::{Name, Token, TyText};
use std::alloc::Global;

/// Whether a type may begin with the token in front.
fn begins_type(tokens: &[Token]) -> bool
    ensures { MatchBool result (Starts AType tokens.now) (StartsNone AType tokens.now) }
{
    if let Some(_) = key_here(tokens, key::WORD) {
        return true;
    }
    if let Some(_) = key_here(tokens, key::BOOL) {
        return true;
    }
    if let Some(_) = key_here(tokens, key::PACKED) {
        return true;
    }
    if let Some(_) = key_here(tokens, key::UNPACKED) {
        return true;
    }
    if let Some(_) = sign_here(tokens, sign::OPEN) {
        return true;
    }
    let Some(_) = sign_here(tokens, sign::OPEN_BRACE) else {
        return false;
    };
    true
}

/// A type of at most this height, which is at least 1.
#[cycle(types)]
pub fn type_text<'a>(
    alloc: Global,
    tokens: &'a [Token],
    room: u8,
) -> Result<Parsed<'a, TyText>, Failure<'a>>
    requires { 1 ≤ room }
    ensures read { IfOk result (λ f. IsType (type_tree f.value) tokens.now f.rest.now) }
    ensures answers { MatchResult result (λ f. Reads AType (Above 0) room tokens.now f.rest.now) (λ e. FailsAs AType (Above 0) room tokens.now e) }
    ensures measured { IfOk result (λ f. f.height ≡ type_height (type_tree f.value)) }
    ensures low { IfOk result (λ f. f.height ≤ room) }
    ensures shorter { IfOk result (λ f. length f.rest.now < length tokens.now) }
{
    if let Some((_, rest)) = key_here(tokens, key::WORD) {
        return words_type(rest);
    }
    if let Some((_, rest)) = key_here(tokens, key::BOOL) {
        return Ok(Parsed {
            value: TyText::Bool,
            height: 1,
            rest,
        });
    }
    if let Some((_, rest)) = key_here(tokens, key::PACKED) {
        let (name, rest) = read!(layout_name(alloc, rest));
        return Ok(Parsed {
            value: TyText::Packed(name),
            height: 1,
            rest,
        });
    }
    if let Some((_, rest)) = key_here(tokens, key::UNPACKED) {
        let (name, rest) = read!(layout_name(alloc, rest));
        return Ok(Parsed {
            value: TyText::Unpacked(name),
            height: 1,
            rest,
        });
    }
    if let Some((_, rest)) = sign_here(tokens, sign::OPEN) {
        return tuple_type(alloc, rest, room);
    }
    let (_, rest) = read!(take_sign(tokens, sign::OPEN_BRACE));
    if room == 1 {
        return Err(Failure::Deep(tokens));
    }
    record_type(alloc, rest, room)
}

/// What follows `word`.
fn words_type<'a>(tokens: &'a [Token]) -> Result<Parsed<'a, TyText>, Failure<'a>>
    ensures read { IfOk result (λ f. (s : Span) → IsType (type_tree f.value) (key_word s ∷ tokens.now) f.rest.now) }
    ensures answers { MatchResult result (λ f. (s : Span) → (room : ℕ) → 1 ≤ room → Reads (HasRead (key_word s ∷ []) AType) (Above 0) room tokens.now f.rest.now) (λ e. (s : Span) → (room : ℕ) → 1 ≤ room → FailsAs (HasRead (key_word s ∷ []) AType) (Above 0) room tokens.now e) }
    ensures measured { IfOk result (λ f. (f.height ≡ 1) × (type_height (type_tree f.value) ≡ 1)) }
    ensures shorter { IfOk result (λ f. length f.rest.now ≤ length tokens.now) }
{
    let Some((_, after)) = sign_here(tokens, sign::OPEN_BRACKET) else {
        return Ok(Parsed {
            value: TyText::Word(1),
            height: 1,
            rest: tokens,
        });
    };
    let (_, words, after) = read!(take_number(after));
    let (_, rest) = read!(take_sign(after, sign::CLOSE_BRACKET));
    Ok(Parsed {
        value: TyText::Word(words),
        height: 1,
        rest,
    })
}

/// A layout's name in round brackets.
fn layout_name<'a>(alloc: Global, tokens: &'a [Token]) -> Result<(Name, &'a [Token]), Failure<'a>>
    ensures read { IfOk result (λ r. InBrackets r.0 tokens.now r.1.now) }
    ensures answers { MatchResult result (λ r. (room : ℕ) → Reads NameInBrackets Anything room tokens.now r.1.now) (λ e. (room : ℕ) → FailsAs NameInBrackets Anything room tokens.now e) }
    ensures shorter { IfOk result (λ r. length r.1.now < length tokens.now) }
{
    let (_, after) = read!(take_sign(tokens, sign::OPEN));
    let (_, name, after) = read!(take_name(alloc, after));
    let (_, rest) = read!(take_sign(after, sign::CLOSE));
    Ok((name, rest))
}

/// What follows an opening bracket.
#[cycle(types)]
fn tuple_type<'a>(
    alloc: Global,
    tokens: &'a [Token],
    room: u8,
) -> Result<Parsed<'a, TyText>, Failure<'a>>
    requires { 1 ≤ room }
    ensures read { IfOk result (λ f. (s : Span) → IsType (type_tree f.value) (sign_open s ∷ tokens.now) f.rest.now) }
    ensures answers { MatchResult result (λ f. (s : Span) → Reads (HasRead (sign_open s ∷ []) AType) (Above 0) room tokens.now f.rest.now) (λ e. (s : Span) → FailsAs (HasRead (sign_open s ∷ []) AType) (Above 0) room tokens.now e) }
    ensures measured { IfOk result (λ f. f.height ≡ type_height (type_tree f.value)) }
    ensures low { IfOk result (λ f. f.height ≤ room) }
    ensures shorter { IfOk result (λ f. length f.rest.now < length tokens.now) }
{
    if let Some((_, rest)) = sign_here(tokens, sign::CLOSE) {
        return Ok(Parsed {
            value: tuple_of(Vec::new(alloc)),
            height: 1,
            rest,
        });
    }
    if !begins_type(tokens) {
        return Err(Failure::Syntax(tokens));
    }
    if room == 1 {
        return Err(Failure::Deep(tokens));
    }
    let first = read!(type_text(alloc, tokens, room - 1));
    let Some(_) = sign_here(first.rest, sign::COMMA) else {
        drop(first.value);
        return Err(Failure::Syntax(first.rest));
    };
    let parts = read!(more_types(alloc, first.value, first.height, first.rest, room - 1));
    let (_, rest) = read!(take_sign(parts.rest, sign::CLOSE));
    Ok(Parsed {
        value: tuple_of(parts.value),
        height: parts.height + 1,
        rest,
    })
}

/// Names with their types after an opening brace.
#[cycle(types)]
fn record_type<'a>(
    alloc: Global,
    tokens: &'a [Token],
    room: u8,
) -> Result<Parsed<'a, TyText>, Failure<'a>>
    requires { 2 ≤ room }
    ensures read { IfOk result (λ f. (s : Span) → IsType (type_tree f.value) (sign_open_brace s ∷ tokens.now) f.rest.now) }
    ensures answers { MatchResult result (λ f. (s : Span) → Reads (HasRead (sign_open_brace s ∷ []) AType) (Above 0) room tokens.now f.rest.now) (λ e. (s : Span) → FailsAs (HasRead (sign_open_brace s ∷ []) AType) (Above 0) room tokens.now e) }
    ensures measured { IfOk result (λ f. f.height ≡ type_height (type_tree f.value)) }
    ensures low { IfOk result (λ f. f.height ≤ room) }
    ensures shorter { IfOk result (λ f. length f.rest.now < length tokens.now) }
{
    let (_, name, after) = read!(take_name(alloc, tokens));
    let (_, after) = read!(take_sign(after, sign::COLON));
    let first = read!(type_text(alloc, after, room - 1));
    let fields = read!(more_named_types(
        alloc,
        name,
        first.value,
        first.height,
        first.rest,
        room - 1
    ));
    let (_, rest) = read!(take_sign(fields.rest, sign::CLOSE_BRACE));
    Ok(Parsed {
        value: record_of(fields.value),
        height: fields.height + 1,
        rest,
    })
}

/// The types that follow a first one, each after a comma.
#[cycle(types)]
fn more_types<'a>(
    alloc: Global,
    first: TyText,
    height: u8,
    tokens: &'a [Token],
    room: u8,
) -> Result<Parsed<'a, Vec<TyText>>, Failure<'a>>
    requires room { 1 ≤ room }
    requires measured { height ≡ type_height (type_tree first) }
    requires low { height ≤ room }
    ensures read { IfOk result (λ f. TypesAfter (type_tree first) (list_types f.value.items) tokens.now f.rest.now) }
    ensures ends { IfOk result (λ f. NotSign 22 f.rest.now) }
    ensures answers { MatchResult result (λ f. Reads (Many NextType) (Above 10) room tokens.now f.rest.now) (λ e. FailsAs (Many NextType) (Above 10) room tokens.now e) }
    ensures measured { IfOk result (λ f. f.height ≡ highest_type (list_types f.value.items)) }
    ensures low { IfOk result (λ f. f.height ≤ room) }
    ensures shorter { IfOk result (λ f. length f.rest.now ≤ length tokens.now) }
{
    let mut highest = height;
    let mut rest = tokens;
    let mut types = Vec::new(alloc);
    push!(types, first);
    while let Some((_, after)) = sign_here(rest, sign::COMMA) {
        let next = read!(type_text(alloc, after, room));
        highest = highest.max(next.height);
        rest = next.rest;
        push!(types, next.value);
    }
    Ok(Parsed {
        value: types,
        height: highest,
        rest,
    })
}

/// The names and types that follow a first one, each after a comma.
#[cycle(types)]
fn more_named_types<'a>(
    alloc: Global,
    name: Name,
    first: TyText,
    height: u8,
    tokens: &'a [Token],
    room: u8,
) -> Result<Parsed<'a, Vec<(Name, TyText)>>, Failure<'a>>
    requires room { 1 ≤ room }
    requires measured { height ≡ type_height (type_tree first) }
    requires low { height ≤ room }
    ensures read { IfOk result (λ f. NamedTypesAfter name (type_tree first) (list_named_types f.value.items) tokens.now f.rest.now) }
    ensures answers { MatchResult result (λ f. Reads (Many NextNamedType) (Above 10) room tokens.now f.rest.now) (λ e. FailsAs (Many NextNamedType) (Above 10) room tokens.now e) }
    ensures measured { IfOk result (λ f. f.height ≡ highest_named_type (list_named_types f.value.items)) }
    ensures low { IfOk result (λ f. f.height ≤ room) }
    ensures shorter { IfOk result (λ f. length f.rest.now ≤ length tokens.now) }
{
    let mut highest = height;
    let mut rest = tokens;
    let mut types = Vec::new(alloc);
    push!(types, (name, first));
    while let Some((_, after)) = sign_here(rest, sign::COMMA) {
        let (_, name, after) = read!(take_name(alloc, after));
        let (_, after) = read!(take_sign(after, sign::COLON));
        let next = read!(type_text(alloc, after, room));
        highest = highest.max(next.height);
        rest = next.rest;
        push!(types, (name, next.value));
    }
    Ok(Parsed {
        value: types,
        height: highest,
        rest,
    })
}

/// Types with commas between them, up to the closing bracket of an exception.
pub fn types<'a>(
    alloc: Global,
    tokens: &'a [Token],
    room: u8,
) -> Result<Parsed<'a, Vec<TyText>>, Failure<'a>>
    requires { 1 ≤ room }
    ensures read { IfOk result (λ f. IsTypes (list_types f.value.items) tokens.now f.rest.now) }
    ensures answers { MatchResult result (λ f. Reads SomeTypes (Ahead 29) room tokens.now f.rest.now) (λ e. FailsAs SomeTypes (Ahead 29) room tokens.now e) }
    ensures low { IfOk result (λ f. highest_type (list_types f.value.items) ≤ room) }
    ensures shorter { IfOk result (λ f. length f.rest.now ≤ length tokens.now) }
{
    if let Some(_) = sign_here(tokens, sign::CLOSE_BRACKET) {
        return Ok(Parsed {
            value: Vec::new(alloc),
            height: 0,
            rest: tokens,
        });
    }
    let first = read!(type_text(alloc, tokens, room));
    let types = read!(more_types(alloc, first.value, first.height, first.rest, room));
    Ok(types)
}

/// The parameters of a function, up to the closing bracket.
pub fn params<'a>(
    alloc: Global,
    tokens: &'a [Token],
    room: u8,
) -> Result<Parsed<'a, Vec<(Name, TyText)>>, Failure<'a>>
    requires { 1 ≤ room }
    ensures read { IfOk result (λ f. IsParams (list_named_types f.value.items) tokens.now f.rest.now) }
    ensures answers { MatchResult result (λ f. Reads SomeParams (Ahead 29) room tokens.now f.rest.now) (λ e. FailsAs SomeParams (Ahead 29) room tokens.now e) }
    ensures low { IfOk result (λ f. highest_named_type (list_named_types f.value.items) ≤ room) }
    ensures shorter { IfOk result (λ f. length f.rest.now ≤ length tokens.now) }
{
    if let Some(_) = sign_here(tokens, sign::CLOSE_BRACKET) {
        return Ok(Parsed {
            value: Vec::new(alloc),
            height: 0,
            rest: tokens,
        });
    }
    let (_, name, after) = read!(take_name(alloc, tokens));
    let (_, after) = read!(take_sign(after, sign::COLON));
    let first = read!(type_text(alloc, after, room));
    let types = read!(more_named_types(alloc, name, first.value, first.height, first.rest, room));
    Ok(types)
}

/// A tuple of types.
#[tactic(auto, using(crate::proofs::Made::tuple_type_made))]
fn tuple_of(parts: Vec<TyText>) -> TyText
    ensures { type_tree result ≡ TupleType (list_types parts.items) }
{
    TyText::Tuple(parts)
}

/// A record of types.
#[tactic(auto, using(crate::proofs::Made::record_type_made))]
fn record_of(parts: Vec<(Name, TyText)>) -> TyText
    ensures { type_tree result ≡ RecordType (list_named_types parts.items) }
{
    TyText::Fields(parts)
}
