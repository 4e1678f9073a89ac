//! The arguments of a readable text.
ghost use Rattle.std.specs.Prelude.{◌≤◌, IfOk, length};

use crate::error::{ReadableError, Reason};
use crate::item::word_of;
use crate::token::Token;
use nv_base::Mem;
use std::alloc::Global;

/// The arguments, and the tokens that follow.
#[derive(Drop)]
pub struct ArgsRead<'t, 'a> {
    pub args: Vec<u32>,
    pub rest: &'t [Token<'a>],
}

/// Reads the arguments, if `args` is the first token.
pub fn read_args<'t, 'a>(
    alloc: Global,
    tokens: &'t [Token<'a>],
) -> Result<ArgsRead<'t, 'a>, ReadableError> {
    match tokens {
        [name, rest @ ..] if name.text == b"args".as_slice() => read_words(alloc, rest),
        _ => Ok(ArgsRead {
            args: Vec::new(alloc),
            rest: tokens,
        }),
    }
}

fn read_words<'t, 'a>(
    alloc: Global,
    tokens: &'t [Token<'a>],
) -> Result<ArgsRead<'t, 'a>, ReadableError>
    ensures few { IfOk result (λ read. length read.args.items ≤ 8) }
{
    let mut args = Vec::new(alloc);
    for token in tokens {
        if is_name(token.text) {
            break;
        }
        if args.len() == 8 {
            return Err(token.bad(Reason::Many));
        }
        args.push(word_of(token)?)?;
    }
    let rest = &tokens[args.len()..];
    Ok(ArgsRead { args, rest })
}

/// Whether a part of the text begins with this token.
pub fn is_name(text: &[u8]) -> bool {
    text == b"memory".as_slice() || text == b"args".as_slice() || Mem::of_name(text).is_some()
}
