//! The command `exec`.
ghost use Rattle.std.specs.Prelude.{◌≤◌, ◌⊎◌, length, IfOk, IfErr};
ghost use Rattle.novac_commands.specs.Executing.{ExecRefuses, IsExecuted};
ghost use Rattle.novac_words.specs.Limits.{source_limit, memory_limit};
ghost use Rattle.novac_words.specs.Lines.{IsUncaused};
ghost use Rattle.novac_machine.specs.inner.Outcomes.{IsOutcome};

use crate::source::source_of;
use novac_machine::{exec_job, job_of};
use novac_words::{Refusal, Reply};
use std::alloc::Global;

/// Runs the program that the bytes are the text of on the memories and arguments of a memory text, with so many calls.
pub fn exec_bytes<'a>(
    alloc: Global,
    bytes: &[u8],
    text: &[u8],
    calls: u64,
) -> Result<Reply, Refusal<'a>>
    requires source { length bytes.now ≤ source_limit }
    requires memory { length text.now ≤ memory_limit }
    ensures ended { IfOk result (λ r. IsExecuted bytes.now text.now calls r.status r.text.items) }
    ensures refused { IfErr result (λ e. IsUncaused e ⊎ ExecRefuses bytes.now text.now e) }
    ensures end { IfOk result (λ r. IsOutcome r.status) }
{
    let program = source_of(alloc, bytes)?;
    let job = job_of(alloc, text, program.params())?;
    Ok(exec_job(alloc, &program, job, calls)?)
}
