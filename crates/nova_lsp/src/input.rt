//! The input, a byte at a time.
ghost use Rattle.std.specs.Prelude.{◌∷◌, [], IfOk, IfErr};
ghost use Rattle.std.specs.Io.KnownBytes.{Consumes, Keeps};
ghost use Rattle.nova_lsp.specs.Reading.{IsOver};

use std::io::{ErrorKind, Read};

/// Why there is no more to read.
#[derive(Clone, Copy)]
pub enum Short {
    End,
    /// A read failed.
    Failed,
}

#[tactic(auto, using(crate::proofs::Taken::one_byte, crate::proofs::Taken::no_byte))]
/// The next byte. A read that is interrupted is tried again.
pub fn next_byte<R: Read>(input: &mut R) -> Result<u8, Short>
    ensures byte { IfOk result (λ byte. Consumes (R.remaining input.old) (R.remaining input.new) (byte ∷ [])) }
    ensures kept { IfErr result (λ _. Keeps (R.remaining input.old) (R.remaining input.new)) }
    ensures over { IfErr result (IsOver (R.remaining input.new)) }
{
    let mut buffer = [0u8; 1];
    for _ in 0..u64::MAX {
        match input.read(&mut buffer) {
            Ok(0) => return Err(Short::End),
            Ok(_) => return Ok(buffer[0]),
            Err(e) if e.kind() == ErrorKind::Interrupted => {}
            Err(_) => return Err(Short::Failed),
        }
    }
    Err(Short::Failed)
}
