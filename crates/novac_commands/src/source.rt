//! Sources, as the commands read them.
ghost use Rattle.std.specs.Prelude.{◌≤◌, ◌⊎◌, length, IfOk, IfErr};
ghost use Rattle.nv_ast.specs.TypedView.{typed_program};
ghost use Rattle.nova_compile.specs.Sources.{IsTypedSource};
ghost use Rattle.novac_words.specs.Limits.{source_limit};
ghost use Rattle.novac_words.specs.Lines.{IsUncaused};
ghost use Rattle.novac_commands.specs.Reading.{SourceRefuses};
ghost use Rattle.novac_commands.specs.inner.Telling.{IsSpelledAs, IsToldAs};

use nova_compile::{FrontError, typed};
use novac_words::Refusal;
use nv_ast::Typed;
use nv_text::TextError;
use std::alloc::Global;

/// The typed program that the bytes are the text of.
pub fn source_of<'a>(alloc: Global, bytes: &[u8]) -> Result<Typed, Refusal<'a>>
    requires { length bytes.now ≤ source_limit }
    ensures source { IfOk result (λ t. IsTypedSource bytes.now (typed_program t)) }
    ensures refused { IfErr result (λ e. IsUncaused e ⊎ SourceRefuses bytes.now e) }
{
    match typed(alloc, bytes) {
        Ok(program) => Ok(program),
        Err(error) => Err(refusal_of(error)),
    }
}

/// Why a source has no typed program, as it is told.
pub fn refusal_of<'a>(error: FrontError) -> Refusal<'a>
    ensures { IsToldAs error result }
{
    match error {
        FrontError::NoMemory => Refusal::NoMemory,
        FrontError::Text(fault) => text_refusal(fault),
        FrontError::Fault(kind, span) => Refusal::SourceType(kind, span),
        FrontError::TooLarge(size) => Refusal::SourceLarge(u64::from(size)),
    }
}

/// Why a source has no program, as it is told.
pub fn text_refusal<'a>(fault: TextError) -> Refusal<'a>
    ensures { IsSpelledAs fault result }
{
    match fault {
        TextError::NoMemory => Refusal::NoMemory,
        TextError::Char(at) => Refusal::SourceChar(at),
        TextError::Number(at) => Refusal::SourceNumber(at),
        TextError::Name(at) => Refusal::SourceName(at),
        TextError::Syntax(at) => Refusal::SourceSyntax(at),
        TextError::Deep(at) => Refusal::SourceDeep(at),
    }
}
