// What the first tokens begin.
ghost use Rattle.std.specs.Prelude.{◌≡◌, ◌∷◌, MatchOption, MatchBool, ⊤};
ghost use Rattle.nv_ast.specs.Tokens.{at, mem_key};
ghost use Rattle.nv_ast.specs.declared.token.Sort.TheVariants.{Key};
ghost use Rattle.nv_text_parser.specs.inner.Starts.{starts_expr};
ghost use Rattle.nv_text_parser.specs.inner.ExprPhrases.{NotMem, StartsStatement, NoStatement};

use crate::codes::{key, sign};
use crate::cursor::{key_here, sign_here};
use nv_ast::{Sort, Span, Token};
use nv_base::Mem;

/// The keywords with which an expression may begin.
const EXPR_KEYS: [u8; 11] = [
    key::LET,
    key::IF,
    key::UNPACK,
    key::PACK,
    key::RAISE,
    key::TRY,
    key::SRAM,
    key::SDRAM,
    key::SCRATCH,
    key::TRUE,
    key::FALSE,
];

/// The signs with which an expression may begin.
const EXPR_SIGNS: [u8; 4] = [sign::TILDE, sign::BANG, sign::OPEN, sign::OPEN_BRACE];

/// Whether an expression may begin with the token in front.
pub fn begins_expr(tokens: &[Token]) -> bool
    ensures { result ≡ starts_expr tokens.now }
{
    let Some(token) = tokens.first() else {
        return false;
    };
    match &token.sort {
        Sort::Word(_) | Sort::Number(_) => true,
        Sort::Key(number) => EXPR_KEYS.contains(number),
        Sort::Sign(number) => EXPR_SIGNS.contains(number),
    }
}

/// The memory that the keyword in front names.
pub fn mem_here<'a>(tokens: &'a [Token]) -> Option<(Mem, Span, &'a [Token])>
    ensures { MatchOption result (NotMem tokens.now) (λ r. tokens.now ≡ at r.1 (Key (mem_key r.0)) ∷ r.2.now) }
{
    if let Some((span, rest)) = key_here(tokens, key::SRAM) {
        return Some((Mem::Sram, span, rest));
    }
    if let Some((span, rest)) = key_here(tokens, key::SDRAM) {
        return Some((Mem::Sdram, span, rest));
    }
    let Some((span, rest)) = key_here(tokens, key::SCRATCH) else {
        return None;
    };
    Some((Mem::Scratch, span, rest))
}

/// Whether a statement stands in front: a `let`, or a memory with an opening bracket after it.
pub fn begins_statement(tokens: &[Token]) -> bool
    ensures { MatchBool result (StartsStatement tokens.now) (NoStatement tokens.now) }
{
    if let Some(_) = key_here(tokens, key::LET) {
        return true;
    }
    let Some((_, _, after)) = mem_here(tokens) else {
        return false;
    };
    let Some(_) = sign_here(after, sign::OPEN) else {
        return false;
    };
    true
}
