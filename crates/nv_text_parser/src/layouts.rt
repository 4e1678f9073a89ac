// Layouts.
ghost use Rattle.std.specs.Prelude.{◌≡◌, ◌≤◌, ◌<◌, ◌∷◌, [], length, IfOk, MatchResult};
ghost use Rattle.nv_ast.specs.declared.token.Span.{Span};
ghost use Rattle.nv_ast.specs.Tokens.{key_overlay, sign_open_brace};
ghost use Rattle.nv_ast.specs.Tree.{JoinedLayout, PartsLayout, OverlayField};
ghost use Rattle.nv_ast.specs.Height.{layout_height, field_height, highest_layout, highest_field};
ghost use Rattle.nv_ast.specs.LayoutView.{layout_tree, field_tree, list_layouts, list_fields};
ghost use Rattle.nv_ast.specs.Grammar.{IsLayout, IsLayoutAtom, IsField, IsAlternative};
ghost use Rattle.nv_text_parser.specs.inner.Cursor.{NotSign, NotKey, NotNumber};
ghost use Rattle.nv_text_parser.specs.inner.Follow.{Above};
ghost use Rattle.nv_text_parser.specs.inner.Failing.{Anything, Many, HasRead, Reads, FailsAs};
ghost use Rattle.nv_text_parser.specs.inner.Phrases.{ALayout, ALayoutAtom, AField, AnAlternative, NextLayout, NextField, NextAlternative};
ghost use Rattle.nv_text_parser.specs.inner.Lists.{LayoutsAfter, FieldsAfter, AlternativesAfter};

use crate::codes::{key, sign};
use crate::cursor::{
    Failure, Parsed, key_here, name_here, number_here, push, read, sign_here, take_name, take_sign,
};
use nv_ast::{FieldText, LayoutText, Name, Token};
use std::alloc::Global;

/// A layout of at most this height, which is at least 1.
#[cycle(layouts)]
pub fn layout<'a>(
    alloc: Global,
    tokens: &'a [Token],
    room: u8,
) -> Result<Parsed<'a, LayoutText>, Failure<'a>>
    requires { 1 ≤ room }
    ensures read { IfOk result (λ f. IsLayout (layout_tree f.value) tokens.now f.rest.now) }
    ensures answers { MatchResult result (λ f. Reads ALayout (Above 0) room tokens.now f.rest.now) (λ e. FailsAs ALayout (Above 0) room tokens.now e) }
    ensures measured { IfOk result (λ f. f.height ≡ layout_height (layout_tree f.value)) }
    ensures low { IfOk result (λ f. f.height ≤ room) }
    ensures shorter { IfOk result (λ f. length f.rest.now < length tokens.now) }
{
    let first = read!(layout_atom(alloc, tokens, room));
    let Some(_) = sign_here(first.rest, sign::JOIN) else {
        return Ok(first);
    };
    if first.height == room {
        drop(first.value);
        return Err(Failure::Deep(first.rest));
    }
    let joined = read!(more_layouts(alloc, first.value, first.height, first.rest, room - 1));
    Ok(Parsed {
        value: joined_layout(joined.value),
        height: joined.height + 1,
        rest: joined.rest,
    })
}

/// The layouts that are joined to a first one.
#[cycle(layouts)]
fn more_layouts<'a>(
    alloc: Global,
    first: LayoutText,
    height: u8,
    tokens: &'a [Token],
    room: u8,
) -> Result<Parsed<'a, Vec<LayoutText>>, Failure<'a>>
    requires room { 1 ≤ room }
    requires measured { height ≡ layout_height (layout_tree first) }
    requires low { height ≤ room }
    ensures read { IfOk result (λ f. LayoutsAfter (layout_tree first) (list_layouts f.value.items) tokens.now f.rest.now) }
    ensures answers { MatchResult result (λ f. Reads (Many NextLayout) (Above 0) room tokens.now f.rest.now) (λ e. FailsAs (Many NextLayout) (Above 0) room tokens.now e) }
    ensures measured { IfOk result (λ f. f.height ≡ highest_layout (list_layouts f.value.items)) }
    ensures low { IfOk result (λ f. f.height ≤ room) }
    ensures ends { IfOk result (λ f. NotSign 30 f.rest.now) }
    ensures shorter { IfOk result (λ f. length f.rest.now ≤ length tokens.now) }
{
    let mut highest = height;
    let mut rest = tokens;
    let mut layouts = Vec::new(alloc);
    push!(layouts, first);
    while let Some((_, after)) = sign_here(rest, sign::JOIN) {
        let next = read!(layout_atom(alloc, after, room));
        highest = highest.max(next.height);
        rest = next.rest;
        push!(layouts, next.value);
    }
    Ok(Parsed {
        value: layouts,
        height: highest,
        rest,
    })
}

/// A name, a gap or fields.
#[cycle(layouts)]
fn layout_atom<'a>(
    alloc: Global,
    tokens: &'a [Token],
    room: u8,
) -> Result<Parsed<'a, LayoutText>, Failure<'a>>
    requires { 1 ≤ room }
    ensures read { IfOk result (λ f. IsLayoutAtom (layout_tree f.value) tokens.now f.rest.now) }
    ensures answers { MatchResult result (λ f. Reads ALayoutAtom Anything room tokens.now f.rest.now) (λ e. FailsAs ALayoutAtom Anything room tokens.now e) }
    ensures measured { IfOk result (λ f. f.height ≡ layout_height (layout_tree f.value)) }
    ensures low { IfOk result (λ f. f.height ≤ room) }
    ensures shorter { IfOk result (λ f. length f.rest.now < length tokens.now) }
{
    let Some((_, after)) = sign_here(tokens, sign::OPEN_BRACE) else {
        let (_, name, rest) = read!(take_name(alloc, tokens));
        return Ok(Parsed {
            value: LayoutText::Named(name),
            height: 1,
            rest,
        });
    };
    if let Some((_, bits, rest)) = number_here(after) {
        let (_, rest) = read!(take_sign(rest, sign::CLOSE_BRACE));
        return Ok(Parsed {
            value: LayoutText::Gap(bits),
            height: 1,
            rest,
        });
    }
    let Some(_) = name_here(after) else {
        return Err(Failure::Syntax(after));
    };
    if room == 1 {
        return Err(Failure::Deep(after));
    }
    parts(alloc, after, room)
}

/// Fields after an opening brace.
#[cycle(layouts)]
fn parts<'a>(
    alloc: Global,
    tokens: &'a [Token],
    room: u8,
) -> Result<Parsed<'a, LayoutText>, Failure<'a>>
    requires room { 2 ≤ room }
    requires fields { NotNumber tokens.now }
    ensures read { IfOk result (λ f. (s : Span) → IsLayoutAtom (layout_tree f.value) (sign_open_brace s ∷ tokens.now) f.rest.now) }
    ensures answers { MatchResult result (λ f. (s : Span) → Reads (HasRead (sign_open_brace s ∷ []) ALayoutAtom) Anything room tokens.now f.rest.now) (λ e. (s : Span) → FailsAs (HasRead (sign_open_brace s ∷ []) ALayoutAtom) Anything room tokens.now e) }
    ensures measured { IfOk result (λ f. f.height ≡ layout_height (layout_tree f.value)) }
    ensures low { IfOk result (λ f. f.height ≤ room) }
    ensures shorter { IfOk result (λ f. length f.rest.now < length tokens.now) }
{
    let (_, name, after) = read!(take_name(alloc, tokens));
    let (_, after) = read!(take_sign(after, sign::COLON));
    let first = read!(field(alloc, after, room - 1));
    let fields = read!(more_fields(alloc, name, first.value, first.height, first.rest, room - 1));
    let (_, rest) = read!(take_sign(fields.rest, sign::CLOSE_BRACE));
    Ok(Parsed {
        value: parts_layout(fields.value),
        height: fields.height + 1,
        rest,
    })
}

/// The fields that follow a first one, each after a comma.
#[cycle(layouts)]
fn more_fields<'a>(
    alloc: Global,
    name: Name,
    first: FieldText,
    height: u8,
    tokens: &'a [Token],
    room: u8,
) -> Result<Parsed<'a, Vec<(Name, FieldText)>>, Failure<'a>>
    requires room { 1 ≤ room }
    requires measured { height ≡ field_height (field_tree first) }
    requires low { height ≤ room }
    ensures read { IfOk result (λ f. FieldsAfter name (field_tree first) (list_fields f.value.items) tokens.now f.rest.now) }
    ensures answers { MatchResult result (λ f. Reads (Many NextField) (Above 10) room tokens.now f.rest.now) (λ e. FailsAs (Many NextField) (Above 10) room tokens.now e) }
    ensures measured { IfOk result (λ f. f.height ≡ highest_field (list_fields f.value.items)) }
    ensures low { IfOk result (λ f. f.height ≤ room) }
    ensures shorter { IfOk result (λ f. length f.rest.now ≤ length tokens.now) }
{
    let mut highest = height;
    let mut rest = tokens;
    let mut fields = Vec::new(alloc);
    push!(fields, (name, first));
    while let Some((_, after)) = sign_here(rest, sign::COMMA) {
        let (_, name, after) = read!(take_name(alloc, after));
        let (_, after) = read!(take_sign(after, sign::COLON));
        let next = read!(field(alloc, after, room));
        highest = highest.max(next.height);
        rest = next.rest;
        push!(fields, (name, next.value));
    }
    Ok(Parsed {
        value: fields,
        height: highest,
        rest,
    })
}

/// What a field is: alternatives, bits or a layout.
#[cycle(layouts)]
fn field<'a>(
    alloc: Global,
    tokens: &'a [Token],
    room: u8,
) -> Result<Parsed<'a, FieldText>, Failure<'a>>
    requires { 1 ≤ room }
    ensures read { IfOk result (λ f. IsField (field_tree f.value) tokens.now f.rest.now) }
    ensures answers { MatchResult result (λ f. Reads AField (Above 0) room tokens.now f.rest.now) (λ e. FailsAs AField (Above 0) room tokens.now e) }
    ensures measured { IfOk result (λ f. f.height ≡ field_height (field_tree f.value)) }
    ensures low { IfOk result (λ f. f.height ≤ room) }
    ensures shorter { IfOk result (λ f. length f.rest.now < length tokens.now) }
{
    let Some((_, after)) = key_here(tokens, key::OVERLAY) else {
        return alternative_field(alloc, tokens, room);
    };
    if room == 1 {
        return Err(Failure::Deep(tokens));
    }
    overlay(alloc, after, room)
}

/// A field without an overlay.
#[cycle(layouts)]
fn alternative_field<'a>(
    alloc: Global,
    tokens: &'a [Token],
    room: u8,
) -> Result<Parsed<'a, FieldText>, Failure<'a>>
    requires room { 1 ≤ room }
    requires plain { NotKey 19 tokens.now }
    ensures read { IfOk result (λ f. IsField (field_tree f.value) tokens.now f.rest.now) }
    ensures answers { MatchResult result (λ f. Reads AField (Above 0) room tokens.now f.rest.now) (λ e. FailsAs AField (Above 0) room tokens.now e) }
    ensures measured { IfOk result (λ f. f.height ≡ field_height (field_tree f.value)) }
    ensures low { IfOk result (λ f. f.height ≤ room) }
    ensures shorter { IfOk result (λ f. length f.rest.now < length tokens.now) }
{
    let found = read!(alternative(alloc, tokens, room));
    Ok(found)
}

/// The alternatives after an `overlay`.
#[cycle(layouts)]
fn overlay<'a>(
    alloc: Global,
    tokens: &'a [Token],
    room: u8,
) -> Result<Parsed<'a, FieldText>, Failure<'a>>
    requires { 2 ≤ room }
    ensures read { IfOk result (λ f. (s : Span) → IsField (field_tree f.value) (key_overlay s ∷ tokens.now) f.rest.now) }
    ensures answers { MatchResult result (λ f. (s : Span) → Reads (HasRead (key_overlay s ∷ []) AField) (Above 0) room tokens.now f.rest.now) (λ e. (s : Span) → FailsAs (HasRead (key_overlay s ∷ []) AField) (Above 0) room tokens.now e) }
    ensures measured { IfOk result (λ f. f.height ≡ field_height (field_tree f.value)) }
    ensures low { IfOk result (λ f. f.height ≤ room) }
    ensures shorter { IfOk result (λ f. length f.rest.now < length tokens.now) }
{
    let (_, after) = read!(take_sign(tokens, sign::OPEN_BRACE));
    let (_, name, after) = read!(take_name(alloc, after));
    let (_, after) = read!(take_sign(after, sign::COLON));
    let first = read!(alternative(alloc, after, room - 1));
    let Some(_) = sign_here(first.rest, sign::BAR) else {
        drop(first.value);
        return Err(Failure::Syntax(first.rest));
    };
    let alternatives = read!(more_alternatives(
        alloc,
        name,
        first.value,
        first.height,
        first.rest,
        room - 1
    ));
    let (_, rest) = read!(take_sign(alternatives.rest, sign::CLOSE_BRACE));
    Ok(Parsed {
        value: overlay_field(alternatives.value),
        height: alternatives.height + 1,
        rest,
    })
}

/// The alternatives that follow a first one, each after a bar.
#[cycle(layouts)]
fn more_alternatives<'a>(
    alloc: Global,
    name: Name,
    first: FieldText,
    height: u8,
    tokens: &'a [Token],
    room: u8,
) -> Result<Parsed<'a, Vec<(Name, FieldText)>>, Failure<'a>>
    requires room { 1 ≤ room }
    requires measured { height ≡ field_height (field_tree first) }
    requires low { height ≤ room }
    ensures read { IfOk result (λ f. AlternativesAfter name (field_tree first) (list_fields f.value.items) tokens.now f.rest.now) }
    ensures ends { IfOk result (λ f. NotSign 3 f.rest.now) }
    ensures answers { MatchResult result (λ f. Reads (Many NextAlternative) (Above 10) room tokens.now f.rest.now) (λ e. FailsAs (Many NextAlternative) (Above 10) room tokens.now e) }
    ensures measured { IfOk result (λ f. f.height ≡ highest_field (list_fields f.value.items)) }
    ensures low { IfOk result (λ f. f.height ≤ room) }
    ensures shorter { IfOk result (λ f. length f.rest.now ≤ length tokens.now) }
{
    let mut highest = height;
    let mut rest = tokens;
    let mut alternatives = Vec::new(alloc);
    push!(alternatives, (name, first));
    while let Some((_, after)) = sign_here(rest, sign::BAR) {
        let (_, name, after) = read!(take_name(alloc, after));
        let (_, after) = read!(take_sign(after, sign::COLON));
        let next = read!(alternative(alloc, after, room));
        highest = highest.max(next.height);
        rest = next.rest;
        push!(alternatives, (name, next.value));
    }
    Ok(Parsed {
        value: alternatives,
        height: highest,
        rest,
    })
}

/// Bits or a layout.
#[cycle(layouts)]
fn alternative<'a>(
    alloc: Global,
    tokens: &'a [Token],
    room: u8,
) -> Result<Parsed<'a, FieldText>, Failure<'a>>
    requires { 1 ≤ room }
    ensures read { IfOk result (λ f. IsAlternative (field_tree f.value) tokens.now f.rest.now) }
    ensures answers { MatchResult result (λ f. Reads AnAlternative (Above 0) room tokens.now f.rest.now) (λ e. FailsAs AnAlternative (Above 0) room tokens.now e) }
    ensures measured { IfOk result (λ f. f.height ≡ field_height (field_tree f.value)) }
    ensures low { IfOk result (λ f. f.height ≤ room) }
    ensures shorter { IfOk result (λ f. length f.rest.now < length tokens.now) }
{
    if let Some((_, bits, rest)) = number_here(tokens) {
        return Ok(Parsed {
            value: FieldText::Bits(bits),
            height: 1,
            rest,
        });
    }
    let inner = read!(layout(alloc, tokens, room));
    Ok(Parsed {
        value: FieldText::Inner(inner.value),
        height: inner.height,
        rest: inner.rest,
    })
}

/// Layouts one after another.
#[tactic(auto, using(crate::proofs::Made::joined_made))]
fn joined_layout(parts: Vec<LayoutText>) -> LayoutText
    ensures { layout_tree result ≡ JoinedLayout (list_layouts parts.items) }
{
    LayoutText::Joined(parts)
}

/// Fields in order.
#[tactic(auto, using(crate::proofs::Made::parts_made))]
fn parts_layout(parts: Vec<(Name, FieldText)>) -> LayoutText
    ensures { layout_tree result ≡ PartsLayout (list_fields parts.items) }
{
    LayoutText::Parts(parts)
}

/// Alternatives at one place.
#[tactic(auto, using(crate::proofs::Made::overlay_made))]
fn overlay_field(parts: Vec<(Name, FieldText)>) -> FieldText
    ensures { field_tree result ≡ OverlayField (list_fields parts.items) }
{
    FieldText::Overlay(parts)
}
