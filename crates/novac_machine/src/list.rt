//! The command `dis`.
ghost use Rattle.std.specs.Prelude.{◌≡◌, ◌⊎◌, ◌≤◌, length, IfOk, IfErr};
ghost use Rattle.novac_machine.specs.Assembly.{IsListed};
ghost use Rattle.novac_words.specs.Limits.{object_limit};
ghost use Rattle.novac_words.specs.Lines.{IsUncaused};
ghost use Rattle.novac_machine.specs.Machine.{IsBadObjectFor};
ghost use Rattle.novac_words.specs.declared.status.Status.{Status};

use crate::object::object_of;
use novac_words::{Refusal, Reply, Status};
use std::alloc::Global;
use uc_asm::print_object;

/// Lists the code of the object that the bytes are, lawful or not, with the starts of its labels.
pub fn list_bytes<'a>(alloc: Global, bytes: &[u8]) -> Result<Reply, Refusal<'a>>
    requires { length bytes.now ≤ object_limit }
    ensures ended { IfOk result (λ r. IsListed bytes.now r.status r.text.items) }
    ensures refused { IfErr result (λ e. IsUncaused e ⊎ IsBadObjectFor bytes.now e) }
    ensures end { IfOk result (λ r. r.status ≡ Status.Done) }
{
    let object = object_of(alloc, bytes)?;
    let text = print_object(alloc, &object)?;
    Ok(Reply {
        status: Status::Done,
        text,
    })
}
