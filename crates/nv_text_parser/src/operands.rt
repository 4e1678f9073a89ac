// Operators and operands.
ghost use Rattle.std.specs.Prelude.{◌≡◌, ◌≤◌, ◌<◌, ◌∷◌, ◌+◌, true, ℕ, length, IfOk, MatchResult, ◌≢◌};
ghost use Rattle.nv_ast.specs.declared.token.Span.{Span};
ghost use Rattle.nv_ast.specs.declared.token.Sort.TheVariants.{Key};
ghost use Rattle.nv_ast.specs.Tokens.{at, mem_key, key_unpack, key_pack, sign_open, sign_open_brace, sign_tilde, sign_bang};
ghost use Rattle.nv_ast.specs.Height.{height, highest, highest_named, pattern_inside, pattern_inside_named};
ghost use Rattle.nv_ast.specs.ExprView.{tree_of, list_named_trees};
ghost use Rattle.nv_ast.specs.Grammar.{IsLevel, IsRest, IsUna, IsDots, IsAtom};
ghost use Rattle.nv_text_parser.specs.inner.Lists.{MembersAfter};
ghost use Rattle.nv_text_parser.specs.inner.Follow.{Above};
ghost use Rattle.nv_text_parser.specs.inner.Failing.{Anything, Many, Reads, FailsAs};
ghost use Rattle.nv_text_parser.specs.inner.ExprPhrases.{ALevel, ARest, AnUna, SomeDots, AnAtom, NextMember, LayoutInBrackets, NameInSquare, NoPlainAtom, BeginsName};

use crate::codes::{key, sign};
use crate::cursor::{
    Failure, Parsed, joined, key_here, name_here, number_here, push, read, sign_here, take_key,
    take_name, take_number, take_sign,
};
use crate::expressions::{args, enclosed, expr, more_exprs};
use crate::nodes;
use crate::operators::{operator_here, shift_here};
use crate::starts::{begins_expr, mem_here};
use nv_ast::{Expr, Name, Span, Token};
use nv_base::Mem;
use std::alloc::Global;

/// Operators of a level and those that bind more tightly, with their operands. Level 0 has none of two operands.
#[cycle(expressions)]
pub fn level<'a>(
    alloc: Global,
    l: u8,
    tokens: &'a [Token],
    room: u8,
) -> Result<Parsed<'a, Expr>, Failure<'a>>
    requires known { l ≤ 8 }
    requires room { 1 ≤ room }
    ensures read { IfOk result (λ f. IsLevel l (tree_of f.value) tokens.now f.rest.now) }
    ensures measured { IfOk result (λ f. f.height ≡ height (tree_of f.value)) }
    ensures low { IfOk result (λ f. f.height ≤ room) }
    ensures inside { IfOk result (λ f. pattern_inside (tree_of f.value) ≤ 100) }
    ensures shorter { IfOk result (λ f. length f.rest.now < length tokens.now) }
    ensures answers { MatchResult result (λ f. Reads (ALevel l) (Above (l + 1)) room tokens.now f.rest.now) (λ e. FailsAs (ALevel l) (Above (l + 1)) room tokens.now e) }
{
    if l == 0 {
        let found = read!(una(alloc, tokens, room));
        return Ok(found);
    }
    let left = read!(level(alloc, l - 1, tokens, room));
    if l == 2 {
        let found = read!(shifts(alloc, left.value, left.height, left.rest, room));
        return Ok(found);
    }
    if l == 6 {
        let found = read!(comparison(alloc, left.value, left.height, left.rest, room));
        return Ok(found);
    }
    let found = read!(chain(alloc, l - 1, left.value, left.height, left.rest, room));
    Ok(found)
}

/// The operators of a level and their right operands, after a left one.
#[cycle(expressions)]
fn chain<'a>(
    alloc: Global,
    l: u8,
    first: Expr,
    tall: u8,
    tokens: &'a [Token],
    room: u8,
) -> Result<Parsed<'a, Expr>, Failure<'a>>
    requires known { l ≤ 7 }
    requires many { l ≢ 5 }
    requires operators { l ≢ 1 }
    requires measured { tall ≡ height (tree_of first) }
    requires low { tall ≤ room }
    requires inside { pattern_inside (tree_of first) ≤ 100 }
    ensures read { IfOk result (λ f. IsRest l (tree_of first) (tree_of f.value) tokens.now f.rest.now) }
    ensures measured { IfOk result (λ f. f.height ≡ height (tree_of f.value)) }
    ensures low { IfOk result (λ f. f.height ≤ room) }
    ensures inside { IfOk result (λ f. pattern_inside (tree_of f.value) ≤ 100) }
    ensures shorter { IfOk result (λ f. length f.rest.now ≤ length tokens.now) }
    ensures answers { MatchResult result (λ f. Reads (ARest l (tree_of first)) (Above (l + 2)) room tokens.now f.rest.now) (λ e. FailsAs (ARest l (tree_of first)) (Above (l + 2)) room tokens.now e) }
{
    let mut left = first;
    let mut highest = tall;
    let mut rest = tokens;
    while let Some((op, after)) = operator_here(rest, l) {
        if highest == room {
            drop(left);
            return Err(Failure::Deep(rest));
        }
        let right = read!(level(alloc, l, after, room - 1), left);
        highest = highest.max(right.height) + 1;
        rest = right.rest;
        let Ok(both) = nodes::binary(alloc, op, left, right.value) else {
            return Err(Failure::NoMemory);
        };
        left = both;
    }
    Ok(Parsed {
        value: left,
        height: highest,
        rest,
    })
}

/// A comparison and its right operand, after a left one.
#[cycle(expressions)]
fn comparison<'a>(
    alloc: Global,
    first: Expr,
    tall: u8,
    tokens: &'a [Token],
    room: u8,
) -> Result<Parsed<'a, Expr>, Failure<'a>>
    requires measured { tall ≡ height (tree_of first) }
    requires low { tall ≤ room }
    requires inside { pattern_inside (tree_of first) ≤ 100 }
    ensures read { IfOk result (λ f. IsRest 5 (tree_of first) (tree_of f.value) tokens.now f.rest.now) }
    ensures measured { IfOk result (λ f. f.height ≡ height (tree_of f.value)) }
    ensures low { IfOk result (λ f. f.height ≤ room) }
    ensures inside { IfOk result (λ f. pattern_inside (tree_of f.value) ≤ 100) }
    ensures shorter { IfOk result (λ f. length f.rest.now ≤ length tokens.now) }
    ensures answers { MatchResult result (λ f. Reads (ARest 5 (tree_of first)) (Above 7) room tokens.now f.rest.now) (λ e. FailsAs (ARest 5 (tree_of first)) (Above 7) room tokens.now e) }
{
    let Some((op, after)) = operator_here(tokens, 5) else {
        return Ok(Parsed {
            value: first,
            height: tall,
            rest: tokens,
        });
    };
    if tall == room {
        drop(first);
        return Err(Failure::Deep(tokens));
    }
    let right = read!(level(alloc, 5, after, room - 1), first);
    let highest = tall.max(right.height) + 1;
    let Ok(both) = nodes::binary(alloc, op, first, right.value) else {
        return Err(Failure::NoMemory);
    };
    Ok(Parsed {
        value: both,
        height: highest,
        rest: right.rest,
    })
}

/// The shifts after an operand.
fn shifts<'a>(
    alloc: Global,
    first: Expr,
    tall: u8,
    tokens: &'a [Token],
    room: u8,
) -> Result<Parsed<'a, Expr>, Failure<'a>>
    requires measured { tall ≡ height (tree_of first) }
    requires low { tall ≤ room }
    requires inside { pattern_inside (tree_of first) ≤ 100 }
    ensures read { IfOk result (λ f. IsRest 1 (tree_of first) (tree_of f.value) tokens.now f.rest.now) }
    ensures measured { IfOk result (λ f. f.height ≡ height (tree_of f.value)) }
    ensures low { IfOk result (λ f. f.height ≤ room) }
    ensures inside { IfOk result (λ f. pattern_inside (tree_of f.value) ≤ 100) }
    ensures shorter { IfOk result (λ f. length f.rest.now ≤ length tokens.now) }
    ensures answers { MatchResult result (λ f. Reads (ARest 1 (tree_of first)) (Above 3) room tokens.now f.rest.now) (λ e. FailsAs (ARest 1 (tree_of first)) (Above 3) room tokens.now e) }
{
    let mut left = first;
    let mut highest = tall;
    let mut rest = tokens;
    while let Some((op, after)) = shift_here(rest) {
        if highest == room {
            drop(left);
            return Err(Failure::Deep(rest));
        }
        let (last, count, behind) = read!(take_number(after), left);
        highest += 1;
        rest = behind;
        let Ok(shifted) = nodes::shift(alloc, op, left, count, last) else {
            return Err(Failure::NoMemory);
        };
        left = shifted;
    }
    Ok(Parsed {
        value: left,
        height: highest,
        rest,
    })
}

/// An inverted or negated operand, or one with dots.
#[cycle(expressions)]
fn una<'a>(alloc: Global, tokens: &'a [Token], room: u8) -> Result<Parsed<'a, Expr>, Failure<'a>>
    requires { 1 ≤ room }
    ensures read { IfOk result (λ f. IsUna (tree_of f.value) tokens.now f.rest.now) }
    ensures measured { IfOk result (λ f. f.height ≡ height (tree_of f.value)) }
    ensures low { IfOk result (λ f. f.height ≤ room) }
    ensures inside { IfOk result (λ f. pattern_inside (tree_of f.value) ≤ 100) }
    ensures shorter { IfOk result (λ f. length f.rest.now < length tokens.now) }
    ensures answers { MatchResult result (λ f. Reads AnUna (Above 1) room tokens.now f.rest.now) (λ e. FailsAs AnUna (Above 1) room tokens.now e) }
{
    if let Some((first, after)) = sign_here(tokens, sign::TILDE) {
        if room == 1 {
            return Err(Failure::Deep(tokens));
        }
        return invert(alloc, first, after, room);
    }
    if let Some((first, after)) = sign_here(tokens, sign::BANG) {
        if room == 1 {
            return Err(Failure::Deep(tokens));
        }
        return negate(alloc, first, after, room);
    }
    let atom = read!(atom(alloc, tokens, room));
    let found = read!(dots(alloc, atom.value, atom.height, atom.rest, room));
    Ok(found)
}

/// What follows a `~`.
#[cycle(expressions)]
fn invert<'a>(
    alloc: Global,
    first: Span,
    tokens: &'a [Token],
    room: u8,
) -> Result<Parsed<'a, Expr>, Failure<'a>>
    requires { 2 ≤ room }
    ensures read { IfOk result (λ f. IsUna (tree_of f.value) (sign_tilde first ∷ tokens.now) f.rest.now) }
    ensures measured { IfOk result (λ f. f.height ≡ height (tree_of f.value)) }
    ensures low { IfOk result (λ f. f.height ≤ room) }
    ensures inside { IfOk result (λ f. pattern_inside (tree_of f.value) ≤ 100) }
    ensures shorter { IfOk result (λ f. length f.rest.now < length tokens.now) }
    ensures answers { MatchResult result (λ f. Reads AnUna (Above 1) room (sign_tilde first ∷ tokens.now) f.rest.now) (λ e. FailsAs AnUna (Above 1) room (sign_tilde first ∷ tokens.now) e) }
{
    let inside = read!(una(alloc, tokens, room - 1));
    let Ok(whole) = nodes::invert(alloc, first, inside.value) else {
        return Err(Failure::NoMemory);
    };
    Ok(Parsed {
        value: whole,
        height: inside.height + 1,
        rest: inside.rest,
    })
}

/// What follows a `!`.
#[cycle(expressions)]
fn negate<'a>(
    alloc: Global,
    first: Span,
    tokens: &'a [Token],
    room: u8,
) -> Result<Parsed<'a, Expr>, Failure<'a>>
    requires { 2 ≤ room }
    ensures read { IfOk result (λ f. IsUna (tree_of f.value) (sign_bang first ∷ tokens.now) f.rest.now) }
    ensures measured { IfOk result (λ f. f.height ≡ height (tree_of f.value)) }
    ensures low { IfOk result (λ f. f.height ≤ room) }
    ensures inside { IfOk result (λ f. pattern_inside (tree_of f.value) ≤ 100) }
    ensures shorter { IfOk result (λ f. length f.rest.now < length tokens.now) }
    ensures answers { MatchResult result (λ f. Reads AnUna (Above 1) room (sign_bang first ∷ tokens.now) f.rest.now) (λ e. FailsAs AnUna (Above 1) room (sign_bang first ∷ tokens.now) e) }
{
    let inside = read!(una(alloc, tokens, room - 1));
    let Ok(whole) = nodes::negate(alloc, first, inside.value) else {
        return Err(Failure::NoMemory);
    };
    Ok(Parsed {
        value: whole,
        height: inside.height + 1,
        rest: inside.rest,
    })
}

/// The names of fields after an operand, each after a dot.
fn dots<'a>(
    alloc: Global,
    first: Expr,
    tall: u8,
    tokens: &'a [Token],
    room: u8,
) -> Result<Parsed<'a, Expr>, Failure<'a>>
    requires measured { tall ≡ height (tree_of first) }
    requires low { tall ≤ room }
    requires inside { pattern_inside (tree_of first) ≤ 100 }
    ensures read { IfOk result (λ f. IsDots (tree_of first) (tree_of f.value) tokens.now f.rest.now) }
    ensures measured { IfOk result (λ f. f.height ≡ height (tree_of f.value)) }
    ensures low { IfOk result (λ f. f.height ≤ room) }
    ensures inside { IfOk result (λ f. pattern_inside (tree_of f.value) ≤ 100) }
    ensures shorter { IfOk result (λ f. length f.rest.now ≤ length tokens.now) }
    ensures answers { MatchResult result (λ f. Reads (SomeDots (tree_of first)) (Above 1) room tokens.now f.rest.now) (λ e. FailsAs (SomeDots (tree_of first)) (Above 1) room tokens.now e) }
{
    let mut left = first;
    let mut highest = tall;
    let mut rest = tokens;
    while let Some((_, after)) = sign_here(rest, sign::DOT) {
        if highest == room {
            drop(left);
            return Err(Failure::Deep(rest));
        }
        let (last, name, behind) = read!(take_name(alloc, after), left);
        highest += 1;
        rest = behind;
        let Ok(field) = nodes::dot(alloc, left, name, last) else {
            return Err(Failure::NoMemory);
        };
        left = field;
    }
    Ok(Parsed {
        value: left,
        height: highest,
        rest,
    })
}

/// An operand without operators.
#[cycle(expressions)]
fn atom<'a>(alloc: Global, tokens: &'a [Token], room: u8) -> Result<Parsed<'a, Expr>, Failure<'a>>
    requires { 1 ≤ room }
    ensures read { IfOk result (λ f. IsAtom (tree_of f.value) tokens.now f.rest.now) }
    ensures measured { IfOk result (λ f. f.height ≡ height (tree_of f.value)) }
    ensures low { IfOk result (λ f. f.height ≤ room) }
    ensures inside { IfOk result (λ f. pattern_inside (tree_of f.value) ≤ 100) }
    ensures shorter { IfOk result (λ f. length f.rest.now < length tokens.now) }
    ensures answers { MatchResult result (λ f. Reads AnAtom (Above 0) room tokens.now f.rest.now) (λ e. FailsAs AnAtom (Above 0) room tokens.now e) }
{
    if let Some((span, value, rest)) = number_here(tokens) {
        return Ok(Parsed {
            value: nodes::number(span, value),
            height: 1,
            rest,
        });
    }
    if let Some((span, rest)) = key_here(tokens, key::TRUE) {
        return Ok(Parsed {
            value: nodes::truth(span, true),
            height: 1,
            rest,
        });
    }
    if let Some((span, rest)) = key_here(tokens, key::FALSE) {
        return Ok(Parsed {
            value: nodes::truth(span, false),
            height: 1,
            rest,
        });
    }
    if let Some((first, after)) = sign_here(tokens, sign::OPEN) {
        return bracket(alloc, first, after, room);
    }
    if let Some(_) = name_here(tokens) {
        return named(alloc, tokens, room);
    }
    high_atom(alloc, tokens, room)
}

/// An operand that is at least 2 high: a record, an unpack, a pack or a fetch.
#[cycle(expressions)]
fn high_atom<'a>(
    alloc: Global,
    tokens: &'a [Token],
    room: u8,
) -> Result<Parsed<'a, Expr>, Failure<'a>>
    requires room { 1 ≤ room }
    requires others { NoPlainAtom tokens.now }
    ensures read { IfOk result (λ f. IsAtom (tree_of f.value) tokens.now f.rest.now) }
    ensures measured { IfOk result (λ f. f.height ≡ height (tree_of f.value)) }
    ensures low { IfOk result (λ f. f.height ≤ room) }
    ensures inside { IfOk result (λ f. pattern_inside (tree_of f.value) ≤ 100) }
    ensures shorter { IfOk result (λ f. length f.rest.now < length tokens.now) }
    ensures answers { MatchResult result (λ f. Reads AnAtom (Above 0) room tokens.now f.rest.now) (λ e. FailsAs AnAtom (Above 0) room tokens.now e) }
{
    if let Some((first, after)) = key_here(tokens, key::UNPACK) {
        if room == 1 {
            return Err(Failure::Deep(tokens));
        }
        return unpack(alloc, first, after, room);
    }
    if let Some((first, after)) = key_here(tokens, key::PACK) {
        if room == 1 {
            return Err(Failure::Deep(tokens));
        }
        return pack(alloc, first, after, room);
    }
    if let Some((mem, first, after)) = mem_here(tokens) {
        if room == 1 {
            return Err(Failure::Deep(tokens));
        }
        return fetch(alloc, mem, first, after, room);
    }
    let (first, after) = read!(take_sign(tokens, sign::OPEN_BRACE));
    if room == 1 {
        return Err(Failure::Deep(tokens));
    }
    record_text(alloc, first, after, room)
}

/// What follows an `unpack`.
#[cycle(expressions)]
fn unpack<'a>(
    alloc: Global,
    first: Span,
    tokens: &'a [Token],
    room: u8,
) -> Result<Parsed<'a, Expr>, Failure<'a>>
    requires { 2 ≤ room }
    ensures read { IfOk result (λ f. IsAtom (tree_of f.value) (key_unpack first ∷ tokens.now) f.rest.now) }
    ensures measured { IfOk result (λ f. f.height ≡ height (tree_of f.value)) }
    ensures low { IfOk result (λ f. f.height ≤ room) }
    ensures inside { IfOk result (λ f. pattern_inside (tree_of f.value) ≤ 100) }
    ensures shorter { IfOk result (λ f. length f.rest.now < length tokens.now) }
    ensures answers { MatchResult result (λ f. Reads AnAtom (Above 0) room (key_unpack first ∷ tokens.now) f.rest.now) (λ e. FailsAs AnAtom (Above 0) room (key_unpack first ∷ tokens.now) e) }
{
    let (name, after) = read!(layout_name(alloc, tokens));
    let (last, inside) = read!(enclosed(alloc, after, sign::OPEN, sign::CLOSE, room - 1));
    let Ok(whole) = nodes::unpack(alloc, joined(first, last), name, inside.value) else {
        return Err(Failure::NoMemory);
    };
    Ok(Parsed {
        value: whole,
        height: inside.height + 1,
        rest: inside.rest,
    })
}

/// What follows a `pack`.
#[cycle(expressions)]
fn pack<'a>(
    alloc: Global,
    first: Span,
    tokens: &'a [Token],
    room: u8,
) -> Result<Parsed<'a, Expr>, Failure<'a>>
    requires { 2 ≤ room }
    ensures read { IfOk result (λ f. IsAtom (tree_of f.value) (key_pack first ∷ tokens.now) f.rest.now) }
    ensures measured { IfOk result (λ f. f.height ≡ height (tree_of f.value)) }
    ensures low { IfOk result (λ f. f.height ≤ room) }
    ensures inside { IfOk result (λ f. pattern_inside (tree_of f.value) ≤ 100) }
    ensures shorter { IfOk result (λ f. length f.rest.now < length tokens.now) }
    ensures answers { MatchResult result (λ f. Reads AnAtom (Above 0) room (key_pack first ∷ tokens.now) f.rest.now) (λ e. FailsAs AnAtom (Above 0) room (key_pack first ∷ tokens.now) e) }
{
    let (name, after) = read!(layout_name(alloc, tokens));
    let (last, inside) = read!(enclosed(alloc, after, sign::OPEN, sign::CLOSE, room - 1));
    let Ok(whole) = nodes::pack(alloc, joined(first, last), name, inside.value) else {
        return Err(Failure::NoMemory);
    };
    Ok(Parsed {
        value: whole,
        height: inside.height + 1,
        rest: inside.rest,
    })
}

/// A layout's name in square brackets.
fn layout_name<'a>(alloc: Global, tokens: &'a [Token]) -> Result<(Name, &'a [Token]), Failure<'a>>
    ensures read { IfOk result (λ r. NameInSquare r.0 tokens.now r.1.now) }
    ensures shorter { IfOk result (λ r. length r.1.now < length tokens.now) }
    ensures answers { (n : ℕ) → MatchResult result (λ r. Reads LayoutInBrackets Anything n tokens.now r.1.now) (λ e. FailsAs LayoutInBrackets Anything n tokens.now e) }
{
    let (_, after) = read!(take_sign(tokens, sign::OPEN_BRACKET));
    let (_, name, after) = read!(take_name(alloc, after));
    let (_, rest) = read!(take_sign(after, sign::CLOSE_BRACKET));
    Ok((name, rest))
}

/// What follows the memory of a fetch.
#[cycle(expressions)]
fn fetch<'a>(
    alloc: Global,
    mem: Mem,
    first: Span,
    tokens: &'a [Token],
    room: u8,
) -> Result<Parsed<'a, Expr>, Failure<'a>>
    requires { 2 ≤ room }
    ensures read { IfOk result (λ f. IsAtom (tree_of f.value) (at first (Key (mem_key mem)) ∷ tokens.now) f.rest.now) }
    ensures measured { IfOk result (λ f. f.height ≡ height (tree_of f.value)) }
    ensures low { IfOk result (λ f. f.height ≤ room) }
    ensures inside { IfOk result (λ f. pattern_inside (tree_of f.value) ≤ 100) }
    ensures shorter { IfOk result (λ f. length f.rest.now < length tokens.now) }
    ensures answers { MatchResult result (λ f. Reads AnAtom (Above 0) room (at first (Key (mem_key mem)) ∷ tokens.now) f.rest.now) (λ e. FailsAs AnAtom (Above 0) room (at first (Key (mem_key mem)) ∷ tokens.now) e) }
{
    let (_, after) = read!(take_sign(tokens, sign::OPEN_BRACKET));
    let (_, words, after) = read!(take_number(after));
    let (_, after) = read!(take_sign(after, sign::CLOSE_BRACKET));
    let (last, address) = read!(enclosed(alloc, after, sign::OPEN, sign::CLOSE, room - 1));
    let Ok(whole) = nodes::fetch(alloc, joined(first, last), mem, words, address.value) else {
        return Err(Failure::NoMemory);
    };
    Ok(Parsed {
        value: whole,
        height: address.height + 1,
        rest: address.rest,
    })
}

/// A variable or a call.
#[cycle(expressions)]
fn named<'a>(alloc: Global, tokens: &'a [Token], room: u8) -> Result<Parsed<'a, Expr>, Failure<'a>>
    requires room { 1 ≤ room }
    requires name { BeginsName tokens.now }
    ensures read { IfOk result (λ f. IsAtom (tree_of f.value) tokens.now f.rest.now) }
    ensures measured { IfOk result (λ f. f.height ≡ height (tree_of f.value)) }
    ensures low { IfOk result (λ f. f.height ≤ room) }
    ensures inside { IfOk result (λ f. pattern_inside (tree_of f.value) ≤ 100) }
    ensures shorter { IfOk result (λ f. length f.rest.now < length tokens.now) }
    ensures answers { MatchResult result (λ f. Reads AnAtom (Above 0) room tokens.now f.rest.now) (λ e. FailsAs AnAtom (Above 0) room tokens.now e) }
{
    let (first, name, after) = read!(take_name(alloc, tokens));
    let Some((_, inside)) = sign_here(after, sign::OPEN_BRACKET) else {
        return Ok(Parsed {
            value: nodes::variable(first, name),
            height: 1,
            rest: after,
        });
    };
    let arguments = read!(args(alloc, inside, room - 1));
    let (last, rest) = read!(take_sign(arguments.rest, sign::CLOSE_BRACKET));
    Ok(Parsed {
        value: nodes::call(joined(first, last), name, arguments.value),
        height: arguments.height + 1,
        rest,
    })
}

/// What follows an opening bracket.
#[cycle(expressions)]
fn bracket<'a>(
    alloc: Global,
    first: Span,
    tokens: &'a [Token],
    room: u8,
) -> Result<Parsed<'a, Expr>, Failure<'a>>
    requires { 1 ≤ room }
    ensures read { IfOk result (λ f. IsAtom (tree_of f.value) (sign_open first ∷ tokens.now) f.rest.now) }
    ensures measured { IfOk result (λ f. f.height ≡ height (tree_of f.value)) }
    ensures low { IfOk result (λ f. f.height ≤ room) }
    ensures inside { IfOk result (λ f. pattern_inside (tree_of f.value) ≤ 100) }
    ensures shorter { IfOk result (λ f. length f.rest.now < length tokens.now) }
    ensures answers { MatchResult result (λ f. Reads AnAtom (Above 0) room (sign_open first ∷ tokens.now) f.rest.now) (λ e. FailsAs AnAtom (Above 0) room (sign_open first ∷ tokens.now) e) }
{
    if let Some((last, rest)) = sign_here(tokens, sign::CLOSE) {
        return Ok(Parsed {
            value: nodes::tuple(joined(first, last), Vec::new(alloc)),
            height: 1,
            rest,
        });
    }
    if !begins_expr(tokens) {
        return Err(Failure::Syntax(tokens));
    }
    if room == 1 {
        return Err(Failure::Deep(tokens));
    }
    let inside = read!(expr(alloc, tokens, room - 1));
    if let Some(_) = sign_here(inside.rest, sign::COMMA) {
        let parts = read!(more_exprs(alloc, inside.value, inside.height, inside.rest, room - 1));
        let (last, rest) = read!(take_sign(parts.rest, sign::CLOSE));
        return Ok(Parsed {
            value: nodes::tuple(joined(first, last), parts.value),
            height: parts.height + 1,
            rest,
        });
    }
    let (last, rest) = read!(take_sign(inside.rest, sign::CLOSE), inside.value);
    let Ok(whole) = nodes::paren(alloc, joined(first, last), inside.value) else {
        return Err(Failure::NoMemory);
    };
    Ok(Parsed {
        value: whole,
        height: inside.height + 1,
        rest,
    })
}

/// The fields of a record after its opening brace.
#[cycle(expressions)]
fn record_text<'a>(
    alloc: Global,
    first: Span,
    tokens: &'a [Token],
    room: u8,
) -> Result<Parsed<'a, Expr>, Failure<'a>>
    requires { 2 ≤ room }
    ensures read { IfOk result (λ f. IsAtom (tree_of f.value) (sign_open_brace first ∷ tokens.now) f.rest.now) }
    ensures measured { IfOk result (λ f. f.height ≡ height (tree_of f.value)) }
    ensures low { IfOk result (λ f. f.height ≤ room) }
    ensures inside { IfOk result (λ f. pattern_inside (tree_of f.value) ≤ 100) }
    ensures shorter { IfOk result (λ f. length f.rest.now < length tokens.now) }
    ensures answers { MatchResult result (λ f. Reads AnAtom (Above 0) room (sign_open_brace first ∷ tokens.now) f.rest.now) (λ e. FailsAs AnAtom (Above 0) room (sign_open_brace first ∷ tokens.now) e) }
{
    let (_, name, after) = read!(take_name(alloc, tokens));
    let (_, after) = read!(take_sign(after, sign::IS));
    let value = read!(expr(alloc, after, room - 1));
    let members = read!(more_members(alloc, name, value.value, value.height, value.rest, room - 1));
    let (last, rest) = read!(take_sign(members.rest, sign::CLOSE_BRACE));
    Ok(Parsed {
        value: nodes::fields(joined(first, last), members.value),
        height: members.height + 1,
        rest,
    })
}

/// The fields of a record that follow a first one, each after a comma.
#[cycle(expressions)]
fn more_members<'a>(
    alloc: Global,
    name: Name,
    first: Expr,
    tall: u8,
    tokens: &'a [Token],
    room: u8,
) -> Result<Parsed<'a, Vec<(Name, Expr)>>, Failure<'a>>
    requires room { 1 ≤ room }
    requires measured { tall ≡ height (tree_of first) }
    requires low { tall ≤ room }
    requires inside { pattern_inside (tree_of first) ≤ 100 }
    ensures read { IfOk result (λ f. MembersAfter name (tree_of first) (list_named_trees f.value.items) tokens.now f.rest.now) }
    ensures measured { IfOk result (λ f. f.height ≡ highest_named (list_named_trees f.value.items)) }
    ensures low { IfOk result (λ f. f.height ≤ room) }
    ensures inside { IfOk result (λ f. pattern_inside_named (list_named_trees f.value.items) ≤ 100) }
    ensures shorter { IfOk result (λ f. length f.rest.now ≤ length tokens.now) }
    ensures answers { MatchResult result (λ f. Reads (Many NextMember) (Above 10) room tokens.now f.rest.now) (λ e. FailsAs (Many NextMember) (Above 10) room tokens.now e) }
{
    let mut highest = tall;
    let mut rest = tokens;
    let mut members = Vec::new(alloc);
    push!(members, (name, first));
    while let Some((_, after)) = sign_here(rest, sign::COMMA) {
        let (_, name, after) = read!(take_name(alloc, after));
        let (_, after) = read!(take_sign(after, sign::IS));
        let next = read!(expr(alloc, after, room));
        highest = highest.max(next.height);
        rest = next.rest;
        push!(members, (name, next.value));
    }
    Ok(Parsed {
        value: members,
        height: highest,
        rest,
    })
}
