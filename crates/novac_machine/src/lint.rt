//! The command `lint`.
ghost use Rattle.std.specs.Prelude.{◌≡◌, ◌≤◌, ◌⊎◌, length, IfOk, IfErr};
ghost use Rattle.novac_words.specs.Limits.{object_limit};
ghost use Rattle.novac_words.specs.Lines.{IsUncaused};
ghost use Rattle.novac_machine.specs.Machine.{LintRefuses, IsLinted};
ghost use Rattle.novac_words.specs.declared.status.Status.{Status};

use crate::object::{check_lawful, object_of};
use novac_words::{Refusal, Reply, Status, counted_line};
use std::alloc::Global;

/// Tells whether the bytes are an object of lawful code.
pub fn lint_bytes<'a>(alloc: Global, bytes: &[u8]) -> Result<Reply, Refusal<'a>>
    requires { length bytes.now ≤ object_limit }
    ensures ended { IfOk result (λ r. IsLinted bytes.now r.status r.text.items) }
    ensures refused { IfErr result (λ e. IsUncaused e ⊎ LintRefuses bytes.now e) }
    ensures end { IfOk result (λ r. r.status ≡ Status.Done) }
{
    let object = object_of(alloc, bytes)?;
    let code = object.code();
    check_lawful(code)?;
    let text = counted_line(alloc, b"lawful ", code.list().len() as u64)?;
    Ok(Reply {
        status: Status::Done,
        text,
    })
}
