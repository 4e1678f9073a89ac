// From a text to its programs.

ghost use Rattle.std.specs.Prelude.{◌≡◌, ◌≤◌, ◌+◌, ◌*◌, ◌⊎◌, length, IfOk, IfErr, MatchResult};
ghost use Rattle.nv_base.specs.Meanings.{KeepsOutcomes, AreEqual};
ghost use Rattle.nv_text.specs.Limits.{source_limit};
ghost use Rattle.nv_ast.specs.Sizes.{expanded_size, main_words, room};
ghost use Rattle.nv_ast.specs.Tree.{ProgramTree};
ghost use Rattle.nv_ast.specs.TypedView.{typed_program};
ghost use Rattle.nv_meaning.specs.Meaning.{source};
ghost use Rattle.nv_base.specs.Measures.{IsAtMost, of_size};
ghost use Rattle.flat_ir.specs.Bulk.{bulk};
ghost use Rattle.flat_ir.specs.Meaning.{flat_meaning};
ghost use Rattle.flat_ir.specs.Wide.{wide};
ghost use Rattle.flat_ir.specs.Reached.{params_in, AreReached};
ghost use Rattle.nv_flatten.specs.Functions.{AreFunctionsOf, AreCalledBefore};
ghost use Rattle.nova_compile.specs.Sources.{IsTypedSource, IsCause};

use crate::error::FrontError;
use flat_ir::FlatProgram;
use nv_ast::Typed;
use nv_flatten::flatten;
use nv_text::{TextError, parse};
use nv_types::{TypeError, check};
use std::alloc::Global;

/// The typed program of a text of at most 262,144 bytes.
///
/// A fault of the text is answered first, then the first fault of the program's types, then its size.
pub fn typed(alloc: Global, bytes: &[u8]) -> Result<Typed, FrontError>
    requires { length bytes.now ≤ source_limit }
    ensures program { IfOk result (λ t. IsTypedSource bytes.now (typed_program t)) }
    ensures bounded { IfOk result (λ t. room (typed_program t) ≤ 5 * expanded_size (typed_program t) + 8) }
    ensures only_program { (p : ProgramTree) → IsTypedSource bytes.now p → MatchResult result (λ t. typed_program t ≡ p) (λ e. e ≡ FrontError.NoMemory) }
    ensures refused { IfErr result (λ e. (e ≡ FrontError.NoMemory) ⊎ IsCause bytes.now e) }
    ensures only_refused { (f : FrontError) → IsCause bytes.now f → MatchResult result (λ _. ⊥) (λ e. (e ≡ FrontError.NoMemory) ⊎ (e ≡ f)) }
{
    let program = match parse(alloc, bytes) {
        Ok(program) => program,
        Err(TextError::NoMemory) => return Err(FrontError::NoMemory),
        Err(error) => return Err(FrontError::Text(error)),
    };
    match check(alloc, program) {
        Ok(typed) => Ok(typed),
        Err(TypeError::NoMemory) => Err(FrontError::NoMemory),
        Err(TypeError::Fault(kind, span)) => Err(FrontError::Fault(kind, span)),
        Err(TypeError::TooLarge(size)) => Err(FrontError::TooLarge(size)),
    }
}

/// The typed program of a text of at most 262,144 bytes, and its flat program, with all that
/// `flatten` promises of it. The refusals are those of [`typed`].
pub fn front(alloc: Global, bytes: &[u8]) -> Result<(Typed, FlatProgram), FrontError>
    requires { length bytes.now ≤ source_limit }
    ensures program { IfOk result (λ r. IsTypedSource bytes.now (typed_program r.0)) }
    ensures first { IfOk result (λ r. r.1.main ≡ 0) }
    ensures functions { IfOk result (λ r. AreFunctionsOf (typed_program r.0) r.1.funs.items) }
    ensures order { IfOk result (λ r. AreCalledBefore r.1.funs.items) }
    ensures kept { IfOk result (λ r. KeepsOutcomes (main_words (typed_program r.0)) (params_in r.1.funs.items r.1.main) (source (typed_program r.0)) (flat_meaning r.1.funs.items r.1.main)) }
    ensures equal { IfOk result (λ r. AreEqual (main_words (typed_program r.0)) (source (typed_program r.0)) (flat_meaning r.1.funs.items r.1.main)) }
    ensures reached { IfOk result (λ r. AreReached r.1.funs.items r.1.main) }
    ensures wide { IfOk result (λ r. wide r.1.funs.items r.1.main ≤ room (typed_program r.0)) }
    ensures bounded { IfOk result (λ r. room (typed_program r.0) ≤ 5 * expanded_size (typed_program r.0) + 8) }
    ensures bulk { IfOk result (λ r. IsAtMost (bulk r.1.funs.items r.1.main) (of_size (expanded_size (typed_program r.0)))) }
    ensures only_program { (p : ProgramTree) → IsTypedSource bytes.now p → MatchResult result (λ r. typed_program r.0 ≡ p) (λ e. e ≡ FrontError.NoMemory) }
    ensures refused { IfErr result (λ e. (e ≡ FrontError.NoMemory) ⊎ IsCause bytes.now e) }
    ensures only_refused { (f : FrontError) → IsCause bytes.now f → MatchResult result (λ _. ⊥) (λ e. (e ≡ FrontError.NoMemory) ⊎ (e ≡ f)) }
{
    let program = typed(alloc, bytes)?;
    let flat = flatten(alloc, &program)?;
    Ok((program, flat))
}
