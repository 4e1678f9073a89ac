//! The command `contexts`.
ghost use Rattle.std.specs.Prelude.{◌≡◌, ◌+◌, ◌<◌, ◌≤◌, ◌⊎◌, ◌++◌, ℕ, List, All, Some, length, slice_get, IfOk, IfErr, OnOk};
ghost use Rattle.nv_lines.specs.Line.{text_of};
ghost use Rattle.uc_schedule.specs.ScheduleText.{Gives as GivesTurns, HasWords, IsNamed, entry_limit, steps_of};
ghost use Rattle.uc_contexts.specs.Alone.{lone_runs};
ghost use Rattle.uc_contexts.specs.Turns.{System, entries as entries_of};
ghost use Rattle.uc_contexts.specs.declared.state.Context.{Context};
ghost use Rattle.uc_isa.specs.Lawful.{IsLawful};
ghost use Rattle.uc_object.specs.Object.{IsObject, code_of};
ghost use Rattle.uc_object.specs.declared.object.Object.{Object};
ghost use Rattle.novac_words.specs.Limits.{object_limit, memory_limit, schedule_limit};
ghost use Rattle.novac_words.specs.Lines.{IsUncaused};
ghost use Rattle.novac_words.specs.declared.status.Status.{Status};
ghost use Rattle.novac_machine.specs.Machine.{IsMemoryRefusedFor};
ghost use Rattle.novac_machine.specs.Scheduled.{ContextsRefuse, HaveTakenTurns, IsScheduled, IsScheduleRefusedFor, TellsShared, contexts_status, one_context, system_text};
ghost use Rattle.novac_machine.specs.inner.PacketInputs.{GivesPacket};
ghost use Rattle.novac_machine.specs.inner.Outcomes.{IsOutcome};

use crate::footprints::{feet_of, shared_text};
use crate::object::{check_lawful, object_of};
use crate::simulate::{job_of, status_of};
use novac_words::{Refusal, Reply, Status};
use nv_base::{NoMemory, Outcome, Packet, Words};
use nv_lines::push_decimal;
use nv_memtext::{push_packet, push_run};
use std::alloc::{AllocError, Global};
use uc_contexts::{Contexts, run_schedule};
use uc_isa::Code;
use uc_schedule::{Schedule, ScheduleError, read_schedule};

/// Runs up to four contexts of the code of the object that the bytes are, on the memories of a memory text and the arguments
/// of that text and of a schedule, by that schedule.
pub fn contexts_bytes<'a>(
    alloc: Global,
    bytes: &[u8],
    text: &[u8],
    turns: &[u8],
) -> Result<Reply, Refusal<'a>>
    requires object { length bytes.now ≤ object_limit }
    requires memory { length text.now ≤ memory_limit }
    requires schedule { length turns.now ≤ schedule_limit }
    ensures ended { IfOk result (λ r. IsScheduled bytes.now text.now turns.now r.status r.text.items) }
    ensures refused { IfErr result (λ e. IsUncaused e ⊎ ContextsRefuse bytes.now text.now turns.now e) }
    ensures end { IfOk result (λ r. IsOutcome r.status) }
{
    let object = object_of(alloc, bytes)?;
    let code = object.code();
    check_lawful(code)?;
    contexts_of(alloc, code, text, turns)
}

// Runs contexts of lawful code.
fn contexts_of<'a>(
    alloc: Global,
    code: &Code,
    text: &[u8],
    turns: &[u8],
) -> Result<Reply, Refusal<'a>>
    requires lawful { IsLawful code.now.list }
    requires memory { length text.now ≤ memory_limit }
    requires schedule { length turns.now ≤ schedule_limit }
    ensures ended { (bytes : List ℕ) (o : Object) → IsObject bytes o → code.now ≡ code_of o → IfOk result (λ r. IsScheduled bytes text.now turns.now r.status r.text.items) }
    ensures refused { (bytes : List ℕ) (o : Object) → IsObject bytes o → code.now ≡ code_of o → IfErr result (λ e. IsUncaused e ⊎ ContextsRefuse bytes text.now turns.now e) }
    ensures end { IfOk result (λ r. IsOutcome r.status) }
{
    let job = job_of(alloc, text, code.params())?;
    let schedule = schedule_of(alloc, turns, code.params())?;
    let mut args = schedule.args;
    args.insert(0, job.args)?;
    turns_of(alloc, code, text, &args, job.packet, &schedule.entries)
}

// Runs contexts with these arguments on the memories that the text gives.
fn turns_of<'a>(
    alloc: Global,
    code: &Code,
    text: &[u8],
    args: &[Words],
    packet: Packet,
    entries: &[(u8, u64)],
) -> Result<Reply, Refusal<'a>>
    requires lawful { IsLawful code.now.list }
    requires memory { length text.now ≤ memory_limit }
    requires some { 1 ≤ length args.now }
    requires four { length args.now ≤ 4 }
    requires arguments { All (HasWords code.now.params) args.now }
    requires named { All (IsNamed (length args.now)) entries.now }
    requires few { steps_of entries.now ≤ entry_limit }
    requires given { GivesPacket code.now.params text.now packet }
    ensures turns { IfOk result (λ r. HaveTakenTurns code.now packet args.now (entries_of entries.now) r.status r.text.items) }
    ensures refused { IfErr result (λ e. IsUncaused e ⊎ IsMemoryRefusedFor code.now.params text.now e) }
    ensures end { IfOk result (λ r. IsOutcome r.status) }
{
    let footprints = feet_of(alloc, code, text, args, entries)?;
    let line = shared_text(alloc, &footprints)?;
    Ok(run_turns(alloc, code, args, packet, entries, &line)?)
}

// What a schedule says.
fn schedule_of<'a>(alloc: Global, turns: &[u8], params: u8) -> Result<Schedule, Refusal<'a>>
    requires params { params ≤ 8 }
    requires short { length turns.now ≤ schedule_limit }
    ensures given { IfOk result (λ s. GivesTurns params turns.now s.args.items s.entries.items) }
    ensures four { IfOk result (λ s. length s.args.items < 4) }
    ensures words { IfOk result (λ s. All (HasWords params) s.args.items) }
    ensures named { IfOk result (λ s. All (IsNamed (length s.args.items + 1)) s.entries.items) }
    ensures steps { IfOk result (λ s. steps_of s.entries.items ≤ entry_limit) }
    ensures refused { IfErr result (λ e. IsUncaused e ⊎ IsScheduleRefusedFor params turns.now e) }
{
    match read_schedule(alloc, turns, params) {
        Ok(schedule) => Ok(schedule),
        Err(ScheduleError::NoMemory) => Err(Refusal::NoMemory),
        Err(ScheduleError::Bad(line)) => Err(Refusal::BadSchedule(line)),
    }
}

// Lets contexts with these arguments take their turns, and tells how they stand.
fn run_turns(
    alloc: Global,
    code: &Code,
    args: &[Words],
    packet: Packet,
    entries: &[(u8, u64)],
    line: &[u8],
) -> Result<Reply, NoMemory>
    requires lawful { IsLawful code.now.list }
    requires some { 1 ≤ length args.now }
    requires four { length args.now ≤ 4 }
    requires arguments { All (HasWords code.now.params) args.now }
    requires named { All (IsNamed (length args.now)) entries.now }
    requires few { steps_of entries.now ≤ entry_limit }
    requires tells { TellsShared code.now packet (lone_runs (entries_of entries.now) args.now) line.now }
    ensures turns { IfOk result (λ r. HaveTakenTurns code.now packet args.now (entries_of entries.now) r.status r.text.items) }
    ensures end { IfOk result (λ r. IsOutcome r.status) }
{
    let mut contexts = Contexts::new(alloc, code, args)?;
    let mut packet = packet;
    run_schedule(code, &mut contexts, &mut packet, entries);
    let count = args.len() as u8;
    let text = turns_text(alloc, &contexts, count, line, &packet)?;
    Ok(Reply {
        status: status_of_all(&contexts, count),
        text,
    })
}

// Writes a context's number, how its run stands, and what it wrote.
fn push_context(out: &mut Vec<u8>, contexts: &Contexts, i: u8) -> Result<(), AllocError>
    requires { i < length contexts.now }
    ensures { (x : Context) → slice_get contexts.now i ≡ Some x → OnOk result (out.new.items ≡ out.old.items ++ text_of (one_context i x)) }
{
    out.extend_from_slice(b"context ")?;
    push_decimal(out, u64::from(i))?;
    out.push(b'\n')?;
    push_run(out, &contexts.outcome(i), contexts.log(i))
}

// The text of contexts, of the line that tells whether they can disturb one another, and of the packet.
fn turns_text(
    alloc: Global,
    contexts: &Contexts,
    count: u8,
    line: &[u8],
    packet: &Packet,
) -> Result<Vec<u8>, NoMemory>
    requires { length contexts.now ≡ count }
    ensures { IfOk result (λ text. text.items ≡ system_text (record { contexts = contexts.now; packet = packet.now }) line.now) }
{
    let mut out = Vec::new(alloc);
    for i in 0..count {
        push_context(&mut out, contexts, i)?;
    }
    out.extend_from_slice(line)?;
    out.push(b'\n')?;
    push_packet(&mut out, packet)?;
    Ok(out)
}

// The status of the first context that didn't end.
fn status_of_all(contexts: &Contexts, count: u8) -> Status
    requires { length contexts.now ≡ count }
    ensures status { result ≡ contexts_status contexts.now }
    ensures end { IsOutcome result }
{
    for i in 0..count {
        match contexts.outcome(i) {
            Outcome::Ended(_) => {}
            outcome => return status_of(&outcome),
        }
    }
    Status::Done
}
