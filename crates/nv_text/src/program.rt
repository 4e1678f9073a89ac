// The program of a text.
ghost use Rattle.std.specs.Prelude.{◌≡◌, ◌≤◌, ◌<◌, length, IfOk, IfErr, MatchResult, ◌⊎◌};
ghost use Rattle.nv_ast.specs.Tree.{ProgramTree};
ghost use Rattle.nv_ast.specs.Height.{highest_decl};
ghost use Rattle.nv_ast.specs.ProgramView.{program_of};
ghost use Rattle.nv_ast.specs.Positions.{place_of};
ghost use Rattle.nv_text.specs.Limits.{source_limit};
ghost use Rattle.nv_text.specs.Program.{IsTextOf, FaultOf};
ghost use Rattle.nv_text.specs.inner.Placing.{Says};

use crate::error::TextError;
use crate::scan::tokens;
use nv_ast::{Program, Token};
use nv_text_parser::{Failure, declarations};
use std::alloc::Global;

/// The most bytes of a text.
pub const MOST_BYTES: usize = 262_144;

/// The first byte of the first token that is left, or the text's length.
fn place(left: &[Token], length: u32) -> u32
    ensures { result ≡ place_of left.now length }
{
    let Some((token, _)) = left.split_first() else {
        return length;
    };
    token.span.first
}

/// The error that says where the parser failed.
fn text_error<'a>(failure: Failure<'a>, length: u32) -> TextError
    ensures { Says failure.entry length result }
{
    match failure {
        Failure::NoMemory => TextError::NoMemory,
        Failure::Syntax(left) => TextError::Syntax(place(left, length)),
        Failure::Deep(left) => TextError::Deep(place(left, length)),
    }
}

/// The program of a text, in which no expression, pattern, type or layout is higher than 100.
///
/// A faulty token anywhere in the text is answered first. `Syntax` has the place of the first token with which
/// the text begins no program, or the text's length; `Deep` that of the first with which each program is too high.
pub fn parse(alloc: Global, bytes: &[u8]) -> Result<Program, TextError>
    requires { length bytes.now ≤ source_limit }
    ensures program { IfOk result (λ p. IsTextOf bytes.now (program_of p)) }
    ensures low { IfOk result (λ p. highest_decl (program_of p).decls ≤ 100) }
    ensures only_program { (q : ProgramTree) → IsTextOf bytes.now q → MatchResult result (λ p. q ≡ program_of p) (λ e. (e ≡ TextError.NoMemory) ⊎ (100 < highest_decl q.decls)) }
    ensures fault { IfErr result (λ e. (e ≡ TextError.NoMemory) ⊎ FaultOf bytes.now e) }
    ensures only_fault { (f : TextError) → FaultOf bytes.now f → MatchResult result (λ _. ⊥) (λ e. (e ≡ TextError.NoMemory) ⊎ (e ≡ f)) }
{
    let found = match tokens(alloc, bytes) {
        Ok(found) => found,
        Err(error) => return Err(error),
    };
    let length = bytes.len() as u32;
    let decls = match declarations(alloc, found.as_slice()) {
        Ok(decls) => decls,
        Err(failure) => return Err(text_error(failure, length)),
    };
    Ok(Program { decls, length })
}
