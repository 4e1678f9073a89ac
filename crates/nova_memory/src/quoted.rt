//! Texts in quotes.
ghost use Rattle.std.specs.Prelude.{◌<◌, IfSome, length};

use crate::error::{ReadableError, Reason};
use crate::token::Token;
use hex::FromHex;
use std::alloc::Global;

/// The bytes between the quotes of a token.
pub fn quoted_bytes(alloc: Global, token: &Token, inner: &[u8]) -> Result<Vec<u8>, ReadableError> {
    let mut out = Vec::new(alloc);
    let mut rest = inner;
    while !rest.is_empty() {
        let Some(sign) = sign_of(rest) else {
            return Err(token.bad(Reason::Escape));
        };
        out.push(sign.byte)?;
        rest = sign.after;
    }
    Ok(out)
}

// A byte that the front of a text spells, and what follows.
#[derive(Clone, Copy)]
struct Sign<'a> {
    byte: u8,
    after: &'a [u8],
}

fn sign_of(rest: &[u8]) -> Option<Sign<'_>>
    ensures shorter { IfSome result (λ sign. length sign.after.now < length rest.now) }
{
    match rest {
        [b'\\', b'n', after @ ..] => Some(Sign { byte: b'\n', after }),
        [b'\\', b'r', after @ ..] => Some(Sign { byte: b'\r', after }),
        [b'\\', b't', after @ ..] => Some(Sign { byte: b'\t', after }),
        [b'\\', b'\\', after @ ..] => Some(Sign { byte: b'\\', after }),
        [b'\\', b'x', high, low, after @ ..] => {
            let [byte] = <[u8; 1] as FromHex>::from_hex([*high, *low]).ok()?;
            Some(Sign { byte, after })
        }
        [b'\\', ..] => None,
        [byte, after @ ..] => Some(Sign { byte: *byte, after }),
        [] => None,
    }
}
