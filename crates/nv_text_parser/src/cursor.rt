// The tokens that are left, and what is wrong with the first of them.
ghost use Rattle.std.specs.Prelude.{◌≡◌, ◌∷◌, IfOk, IfErr, IfSome, IfNone, MatchResult, MatchOption};
ghost use Rattle.nv_ast.specs.Tokens.{a_name, a_number, at, to};
ghost use Rattle.nv_ast.specs.declared.token.Sort.TheVariants.{Sign, Key};
ghost use Rattle.nv_text_parser.specs.inner.Cursor.{NotSign, NotKey, NotName, NotNumber, IsSyntax, IsSyntaxOrMemory};

use nv_ast::{Name, Sort, Span, Token};
use std::alloc::Global;

/// Why nothing was read: no memory, or the tokens from the first one that fits nothing,
/// or from the first one that fits only what is too high.
#[derive(Drop)]
pub enum Failure<'a> {
    NoMemory,
    Syntax(&'a [Token]),
    Deep(&'a [Token]),
}

/// What was read, how high it is, and the tokens after it.
#[derive(Drop)]
pub struct Parsed<'a, T> {
    pub value: T,
    pub height: u8,
    pub rest: &'a [Token],
}

/// From the beginning of one span to the end of another.
pub fn joined(first: Span, last: Span) -> Span
    ensures { result ≡ to first last }
{
    Span {
        first: first.first,
        after: last.after,
    }
}

/// The sign in front, if it is this one.
pub fn sign_here<'a>(tokens: &'a [Token], wanted: u8) -> Option<(Span, &'a [Token])>
    ensures { MatchOption result (NotSign wanted tokens.now) (λ r. tokens.now ≡ at r.0 (Sign wanted) ∷ r.1.now) }
{
    let Some((token, rest)) = tokens.split_first() else {
        return None;
    };
    match token.sort {
        Sort::Sign(number) if number == wanted => Some((token.span, rest)),
        _ => None,
    }
}

/// The keyword in front, if it is this one.
pub fn key_here<'a>(tokens: &'a [Token], wanted: u8) -> Option<(Span, &'a [Token])>
    ensures { MatchOption result (NotKey wanted tokens.now) (λ r. tokens.now ≡ at r.0 (Key wanted) ∷ r.1.now) }
{
    let Some((token, rest)) = tokens.split_first() else {
        return None;
    };
    match token.sort {
        Sort::Key(number) if number == wanted => Some((token.span, rest)),
        _ => None,
    }
}

/// The number in front.
pub fn number_here<'a>(tokens: &'a [Token]) -> Option<(Span, u32, &'a [Token])>
    ensures { MatchOption result (NotNumber tokens.now) (λ r. tokens.now ≡ a_number r.0 r.1 ∷ r.2.now) }
{
    let Some((token, rest)) = tokens.split_first() else {
        return None;
    };
    match token.sort {
        Sort::Number(value) => Some((token.span, value, rest)),
        _ => None,
    }
}

/// The name in front.
pub fn name_here<'a>(tokens: &'a [Token]) -> Option<(Span, &'a Name, &'a [Token])>
    ensures { MatchOption result (NotName tokens.now) (λ r. tokens.now ≡ a_name r.0 r.1.now ∷ r.2.now) }
{
    let Some((token, rest)) = tokens.split_first() else {
        return None;
    };
    match &token.sort {
        Sort::Word(name) => Some((token.span, name, rest)),
        _ => None,
    }
}

/// This sign.
pub fn take_sign<'a>(tokens: &'a [Token], wanted: u8) -> Result<(Span, &'a [Token]), Failure<'a>>
    ensures { MatchResult result (λ r. tokens.now ≡ at r.0 (Sign wanted) ∷ r.1.now) (λ e. IsSyntax tokens.now e × NotSign wanted tokens.now) }
{
    match sign_here(tokens, wanted) {
        Some(found) => Ok(found),
        None => Err(Failure::Syntax(tokens)),
    }
}

/// This keyword.
pub fn take_key<'a>(tokens: &'a [Token], wanted: u8) -> Result<(Span, &'a [Token]), Failure<'a>>
    ensures { MatchResult result (λ r. tokens.now ≡ at r.0 (Key wanted) ∷ r.1.now) (λ e. IsSyntax tokens.now e × NotKey wanted tokens.now) }
{
    match key_here(tokens, wanted) {
        Some(found) => Ok(found),
        None => Err(Failure::Syntax(tokens)),
    }
}

/// A number.
pub fn take_number<'a>(tokens: &'a [Token]) -> Result<(Span, u32, &'a [Token]), Failure<'a>>
    ensures { MatchResult result (λ r. tokens.now ≡ a_number r.0 r.1 ∷ r.2.now) (λ e. IsSyntax tokens.now e × NotNumber tokens.now) }
{
    match number_here(tokens) {
        Some(found) => Ok(found),
        None => Err(Failure::Syntax(tokens)),
    }
}

/// A name.
pub fn take_name<'a>(
    alloc: Global,
    tokens: &'a [Token],
) -> Result<(Span, Name, &'a [Token]), Failure<'a>>
    ensures { MatchResult result (λ r. tokens.now ≡ a_name r.0 r.1 ∷ r.2.now) (λ e. IsSyntaxOrMemory (NotName tokens.now) tokens.now e) }
{
    match name_here(tokens) {
        Some((span, name, rest)) => {
            let Ok(copy) = Name::new(alloc, name.bytes()) else {
                return Err(Failure::NoMemory);
            };
            Ok((span, copy, rest))
        }
        None => Err(Failure::Syntax(tokens)),
    }
}

/// What was read, or the failure handed on, once the trees that are held go by a call:
/// a value that goes by itself has all its variants in the proof of the function.
macro_rules! read {
    ($found:expr $(, $held:expr)*) => {
        match $found {
            Ok(found) => found,
            Err(failure) => {
                $(drop($held);)*
                return Err(failure);
            }
        }
    };
}

/// Puts an item at the end of a vector, or answers that there is no memory for it.
macro_rules! push {
    ($items:expr, $item:expr) => {
        match $items.push($item) {
            Ok(()) => {}
            Err(failed) => {
                drop(failed.value);
                return Err(Failure::NoMemory);
            }
        }
    };
}

pub(crate) use push;
pub(crate) use read;
