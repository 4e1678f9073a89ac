// The tokens of a text, from its prefix on.
ghost use Rattle.std.specs.Prelude.{◌≡◌, ℕ, ◌+◌, ◌<◌, ◌≤◌, ◌^◌, List, ◌∷◌, ◌++◌, length, take, drop, Some, IfOk, IfErr, IfSome, IfNone, MatchResult, ◌⊎◌};
ghost use Rattle.std.specs.List.{prefix_len};
ghost use Rattle.nv_ast.specs.declared.token.Token.{Token};
ghost use Rattle.nv_text.specs.declared.spelling.Class.TheVariants.{Line};
ghost use Rattle.nv_text.specs.Limits.{source_limit};
ghost use Rattle.nv_text.specs.Spelling.{sign_of, Fits, is_digit};
ghost use Rattle.nv_text.specs.inner.Classes.{in_class, starts_word};
ghost use Rattle.nv_text.specs.Tokens.{Blank, Longest, IsTokens, TokenFault};
ghost use Rattle.nv_text.specs.inner.Front.{First, LongestSign, NoSign, NoSignOf, MayFail};

use crate::error::TextError;
use crate::spelling::{self, Class};
use crate::tables;
use nv_ast::{Name, Sort, Span, Token};
use std::alloc::Global;

/// The longest name in bytes.
const LONGEST_NAME: usize = 64;

/// How many bytes the comment in front has, or 0 where none begins.
fn comment(bytes: &[u8]) -> usize
    ensures some { 0 < result → bytes.now ≡ 47 ∷ 47 ∷ drop 2 bytes.now }
    ensures line { 0 < result → result ≡ 2 + prefix_len (in_class Line) (drop 2 bytes.now) }
    ensures within { result ≤ length bytes.now }
    ensures none { result ≡ 0 → (rest : List ℕ) → bytes.now ≡ 47 ∷ 47 ∷ rest → ⊥ }
{
    match bytes {
        [b'/', b'/', line @ ..] => 2 + Class::Line.run(line),
        _ => 0,
    }
}

/// How many bytes the blank in front has, or 0 where none begins.
fn blank(bytes: &[u8]) -> usize
    ensures some { 0 < result → Blank bytes.now result }
    ensures within { result ≤ length bytes.now }
    ensures none { result ≡ 0 → (n : ℕ) → Blank bytes.now n → ⊥ }
{
    let Some((first, _)) = bytes.split_first() else {
        return 0;
    };
    if Class::Space.has(*first) {
        return 1;
    }
    comment(bytes)
}

#[tactic(auto, using(crate::proofs::Bytes::sign_below))]
/// The number of the sign of this size in front.
fn sign_of_size(bytes: &[u8], size: usize) -> Option<u8>
    ensures within { IfSome result (λ _. size ≤ length bytes.now) }
    ensures found { IfSome result (λ k. sign_of (take size bytes.now) ≡ Some k) }
    ensures none { IfNone result (NoSignOf size bytes.now) }
{
    if bytes.len() < size {
        return None;
    }
    let Some(number) = tables::sign(&bytes[..size]) else {
        return None;
    };
    Some(number as u8)
}

/// The number and the size of the longest sign in front.
fn longest_sign(bytes: &[u8]) -> Option<(u8, usize)>
    ensures found { IfSome result (λ s. LongestSign bytes.now s.0 s.1) }
    ensures none { IfNone result (NoSign bytes.now) }
{
    if let Some(number) = sign_of_size(bytes, 3) {
        return Some((number, 3));
    }
    if let Some(number) = sign_of_size(bytes, 2) {
        return Some((number, 2));
    }
    let Some(number) = sign_of_size(bytes, 1) else {
        return None;
    };
    Some((number, 1))
}

/// The word or keyword in front, with its size.
fn word(alloc: Global, bytes: &[u8], at: u32) -> Result<(Sort, usize), TextError>
    requires { First starts_word bytes.now }
    ensures found { IfOk result (λ t. Longest bytes.now t.0 t.1) }
    ensures fits { IfOk result (λ t. Fits t.0) }
    ensures fault { IfErr result (λ e. MayFail bytes.now at e) }
{
    let size = Class::Word.run(bytes);
    let text = &bytes[..size];
    if let Some(number) = tables::keyword(text) {
        return Ok((Sort::Key(number as u8), size));
    }
    if size > LONGEST_NAME {
        return Err(TextError::Name(at));
    }
    match Name::new(alloc, text) {
        Ok(name) => Ok((Sort::Word(name), size)),
        Err(_) => Err(TextError::NoMemory),
    }
}

/// The number in front, with its size.
fn number(bytes: &[u8], at: u32) -> Result<(Sort, usize), TextError>
    requires { First is_digit bytes.now }
    ensures found { IfOk result (λ t. Longest bytes.now t.0 t.1) }
    ensures fits { IfOk result (λ t. Fits t.0) }
    ensures fault { IfErr result (λ e. MayFail bytes.now at e) }
{
    let hexadecimal = spelling::hexadecimal_digits(bytes);
    if hexadecimal > 0 {
        let size = 2 + hexadecimal;
        return match spelling::value(16, &bytes[2..size]) {
            Some(value) => Ok((Sort::Number(value), size)),
            None => Err(TextError::Number(at)),
        };
    }
    let size = Class::Digit.run(bytes);
    match spelling::value(10, &bytes[..size]) {
        Some(value) => Ok((Sort::Number(value), size)),
        None => Err(TextError::Number(at)),
    }
}

/// The token in front of bytes that begin with no blank, with its size. The bytes stand at this place.
fn token(alloc: Global, bytes: &[u8], at: u32) -> Result<(Sort, usize), TextError>
    requires some { 0 < length bytes.now }
    requires no_blank { (n : ℕ) → Blank bytes.now n → ⊥ }
    ensures found { IfOk result (λ t. Longest bytes.now t.0 t.1) }
    ensures fits { IfOk result (λ t. Fits t.0) }
    ensures fault { IfErr result (λ e. MayFail bytes.now at e) }
{
    let first = bytes[0];
    if Class::WordStart.has(first) {
        return word(alloc, bytes, at);
    }
    if Class::Digit.has(first) {
        return number(bytes, at);
    }
    match longest_sign(bytes) {
        Some((number, size)) => Ok((Sort::Sign(number), size)),
        None => Err(TextError::Char(at)),
    }
}

/// The tokens of a text in order, each with its place. Blanks part tokens, and each is as long as it can be.
///
/// The first faulty place is answered: a byte that begins no token, a number above 4,294,967,295, or a word
/// of more than 64 bytes.
pub fn tokens(alloc: Global, bytes: &[u8]) -> Result<Vec<Token>, TextError>
    requires { length bytes.now ≤ source_limit }
    ensures ok { IfOk result (λ v. IsTokens bytes.now v.items) }
    ensures fault { IfErr result (λ e. (e ≡ TextError.NoMemory) ⊎ TokenFault bytes.now e) }
    ensures only_tokens { (ts : List Token) → IsTokens bytes.now ts → MatchResult result (λ v. v.items ≡ ts) (λ e. e ≡ TextError.NoMemory) }
    ensures only_fault { (f : TextError) → TokenFault bytes.now f → MatchResult result (λ _. ⊥) (λ e. (e ≡ TextError.NoMemory) ⊎ (e ≡ f)) }
{
    let mut found = Vec::new(alloc);
    let mut at = 0;
    while at < bytes.len() {
        let rest = &bytes[at..];
        let blank = blank(rest);
        if blank > 0 {
            at += blank;
            continue;
        }
        let (sort, size) = match token(alloc, rest, at as u32) {
            Ok(token) => token,
            Err(fault) => return Err(fault),
        };
        let span = Span {
            first: at as u32,
            after: (at + size) as u32,
        };
        let Ok(()) = found.push(Token { span, sort }) else {
            return Err(TextError::NoMemory);
        };
        at += size;
    }
    Ok(found)
}
