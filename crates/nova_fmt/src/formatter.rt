// A text, formatted token by token.
ghost use Rattle.std.specs.Prelude.{◌≡◌, ℕ, ◌+◌, ◌-◌, ◌≤◌, List, length, take, drop, OnOk, IfOk, IfErr, MatchResult, ◌++◌, ◌⊎◌};
ghost use Rattle.nv_ast.specs.declared.token.Token.{Token};
ghost use Rattle.nv_text.specs.Limits.{source_limit};
ghost use Rattle.nv_text.specs.Tokens.{IsTokens, TokenFault};
ghost use Rattle.nova_fmt.specs.Kinds.{kind_of};
ghost use Rattle.nova_fmt.specs.Gaps.{lines, comments};
ghost use Rattle.nova_fmt.specs.Formatting.{outer_level, inner_level, line_level, brackets_after, part, level_here, formatted_token, formatted_text};
ghost use Rattle.nova_fmt.specs.Same.{IsFormatted};

use crate::gap::{blanks, comments};
use crate::kind::Kind;
use nv_ast::Token;
use nv_text::{TextError, tokens};
use std::alloc::{AllocError, Global};

// What stands before the next token: its place, the kind of the last token and the level of its line, and the open brackets,
// each by the level of its line.
#[derive(Drop)]
struct Place {
    at: usize,
    last: Kind,
    level: u32,
    brackets: Vec<u32>,
}

#[tactic(auto, using(std::proofs::lemmas::List::take_min))]
// The bytes from a place to another one.
fn part(text: &[u8], from: usize, to: usize) -> &[u8]
    ensures { result.now ≡ part text.now from to }
{
    let rest = &text[from.min(text.len())..];
    &rest[..to.saturating_sub(from).min(rest.len())]
}

fn outer_level(brackets: &[u32]) -> u32
    ensures { result ≡ outer_level brackets.now }
{
    if brackets.is_empty() {
        return 0;
    }
    brackets[brackets.len() - 1]
}

fn inner_level(brackets: &[u32]) -> u32
    ensures value { result ≡ inner_level brackets.now }
    ensures low { result ≤ 99 }
{
    if brackets.is_empty() {
        return 0;
    }
    outer_level(brackets).min(98) + 1
}

fn line_level(brackets: &[u32], last: Kind, next: Kind) -> u32
    ensures { result ≡ line_level brackets.now last next }
{
    if next.closes() {
        return outer_level(brackets);
    }
    if last.hangs(next) {
        return inner_level(brackets) + 1;
    }
    inner_level(brackets)
}

// Notes a bracket on a line of this level.
fn note(brackets: &mut Vec<u32>, level: u32, next: Kind) -> Result<(), AllocError>
    ensures { OnOk result (brackets.new.items ≡ brackets_after brackets.old.items level next) }
{
    if next.opens() {
        brackets.push(level)?;
    } else if next.closes() {
        brackets.truncate(brackets.len().saturating_sub(1));
    }
    Ok(())
}

impl Place {
    // Writes a token and what stands before it.
    fn write(&mut self, out: &mut Vec<u8>, text: &[u8], token: &Token) -> Result<(), AllocError>
        ensures out { OnOk result (out.new.items ≡ out.old.items ++ formatted_token self.old.last self.old.level self.old.brackets.items (lines (part text.now self.old.at token.now.span.first)) (kind_of token.now.sort) (part text.now token.now.span.first token.now.span.after)) }
        ensures last { OnOk result (self.new.last ≡ kind_of token.now.sort) }
        ensures level { OnOk result (self.new.level ≡ level_here self.old.last self.old.level self.old.brackets.items (lines (part text.now self.old.at token.now.span.first)) (kind_of token.now.sort)) }
        ensures brackets { OnOk result (self.new.brackets.items ≡ brackets_after self.old.brackets.items (level_here self.old.last self.old.level self.old.brackets.items (lines (part text.now self.old.at token.now.span.first)) (kind_of token.now.sort)) (kind_of token.now.sort)) }
        ensures at { OnOk result (self.new.at ≡ token.now.span.after) }
    {
        let next = Kind::of(&token.sort);
        let first = token.span.first as usize;
        let after = token.span.after as usize;
        let own = inner_level(self.brackets.as_slice());
        let ends = comments(out, self.last, own, part(text, self.at, first))?;
        let is_first = self.last.is_start() || ends;
        let level = if is_first {
            line_level(self.brackets.as_slice(), self.last, next)
        } else {
            self.level
        };
        blanks(out, self.last, next, is_first, level)?;
        out.extend_from_slice(part(text, first, after))?;
        note(&mut self.brackets, level, next)?;
        self.level = level;
        self.last = next;
        self.at = after;
        Ok(())
    }

    // Writes what stands after the last token.
    fn end(&self, out: &mut Vec<u8>, text: &[u8]) -> Result<(), AllocError>
        ensures { OnOk result (out.new.items ≡ out.old.items ++ comments self.now.last (inner_level self.now.brackets.items) (lines (drop self.now.at text.now))) }
    {
        let own = inner_level(self.brackets.as_slice());
        comments(out, self.last, own, &text[self.at.min(text.len())..])?;
        Ok(())
    }
}

#[tactic(auto, using(crate::proofs::Writing::written_more, crate::proofs::Writing::written_all))]
// A text with these tokens, formatted.
fn formatted_tokens(alloc: Global, text: &[u8], tokens: &[Token]) -> Result<Vec<u8>, AllocError>
    ensures { IfOk result (λ v. v.items ≡ formatted_text text.now tokens.now) }
{
    let mut out = Vec::new(alloc);
    let mut place = Place {
        at: 0,
        last: Kind::Start,
        level: 0,
        brackets: Vec::new(alloc),
    };
    for token in tokens {
        place.write(&mut out, text, token)?;
    }
    place.end(&mut out, text)?;
    Ok(out)
}

#[tactic(auto, using(crate::proofs::Kept::kept))]
/// A text, formatted: tokens, comments and line ends stay, blanks and indentation are set.
///
/// A text with a faulty token has none; the fault is that of `tokens`.
pub fn formatted(alloc: Global, text: &[u8]) -> Result<Vec<u8>, TextError>
    requires { length text.now ≤ source_limit }
    ensures text { (ts : List Token) → IsTokens text.now ts → MatchResult result (λ v. v.items ≡ formatted_text text.now ts) (λ e. e ≡ TextError.NoMemory) }
    ensures keeps { IfOk result (λ v. IsFormatted text.now v.items) }
    ensures fault { IfErr result (λ e. (e ≡ TextError.NoMemory) ⊎ TokenFault text.now e) }
    ensures only_fault { (f : TextError) → TokenFault text.now f → MatchResult result (λ _. ⊥) (λ e. (e ≡ TextError.NoMemory) ⊎ (e ≡ f)) }
{
    let found = match tokens(alloc, text) {
        Ok(found) => found,
        Err(error) => return Err(error),
    };
    match formatted_tokens(alloc, text, found.as_slice()) {
        Ok(out) => Ok(out),
        Err(_) => Err(TextError::NoMemory),
    }
}
