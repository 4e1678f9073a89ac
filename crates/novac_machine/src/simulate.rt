//! The command `run`.
ghost use Rattle.std.specs.Prelude.{◌≡◌, ◌≤◌, ◌⊎◌, length, None, Some, IfOk, IfErr, MatchOption};
ghost use Rattle.nv_memtext.specs.MemoryText.{Gives};
ghost use Rattle.uc_isa.specs.Engine.{engine};
ghost use Rattle.uc_isa.specs.Lawful.{IsLawful};
ghost use Rattle.uc_object.specs.Object.{code_of};
ghost use Rattle.novac_words.specs.Limits.{object_limit, memory_limit};
ghost use Rattle.novac_words.specs.Lines.{IsUncaused};
ghost use Rattle.novac_machine.specs.Machine.{RunRefuses, IsMemoryRefusedFor, IsRun, spill_base, raised_name, run_text};
ghost use Rattle.novac_words.specs.Status.{outcome_status};
ghost use Rattle.novac_machine.specs.inner.Outcomes.{IsOutcome};

use crate::object::{check_lawful, object_of};
use novac_words::limits::SPILL_BASE;
use novac_words::{Refusal, Reply, Status};
use nv_base::{NoMemory, Outcome, WriteLog};
use nv_memtext::{Job, MemError, print_named, read_memory};
use std::alloc::Global;
use uc_isa::Engine;
use uc_object::Object;
use uc_sim::simulate;

/// How many writes are kept and shown.
pub const SHOWN_WRITES: u32 = 64;

/// Runs the code of the object that the bytes are on the memories and arguments of a memory text.
pub fn run_bytes<'a>(
    alloc: Global,
    bytes: &[u8],
    text: &[u8],
    steps: u64,
) -> Result<Reply, Refusal<'a>>
    requires steps { steps ≤ 100000000 }
    requires object { length bytes.now ≤ object_limit }
    requires memory { length text.now ≤ memory_limit }
    ensures ended { IfOk result (λ r. IsRun bytes.now text.now steps r.status r.text.items) }
    ensures refused { IfErr result (λ e. IsUncaused e ⊎ RunRefuses bytes.now text.now e) }
    ensures end { IfOk result (λ r. IsOutcome r.status) }
{
    let object = object_of(alloc, bytes)?;
    let code = object.code();
    check_lawful(code)?;
    let job = job_of(alloc, text, code.params())?;
    Ok(run_job(alloc, &object, job, steps)?)
}

/// The memories and arguments that a memory text gives.
pub fn job_of<'a>(alloc: Global, text: &[u8], params: u8) -> Result<Job, Refusal<'a>>
    requires { length text.now ≤ memory_limit }
    ensures given { IfOk result (λ job. Gives params text.now job.packet job.args) }
    ensures refused { IfErr result (λ e. IsUncaused e ⊎ IsMemoryRefusedFor params text.now e) }
{
    match read_memory(alloc, text, params) {
        Ok(job) => Ok(job),
        Err(MemError::NoMemory) => Err(Refusal::NoMemory),
        Err(MemError::Bad(line)) => Err(Refusal::BadMemoryText(line)),
        Err(MemError::TooLarge(size)) => Err(Refusal::TooLarge(size)),
    }
}

// Takes N steps of the lawful code of an object, from its start.
fn run_job(alloc: Global, object: &Object, job: Job, steps: u64) -> Result<Reply, NoMemory>
    requires steps { steps ≤ 100000000 }
    requires lawful { IsLawful (code_of object.now).list }
    ensures ends { IfOk result (λ r. r.status ≡ outcome_status (engine (code_of object.now) job.args spill_base job.packet steps).outcome) }
    ensures end { IfOk result (λ r. IsOutcome r.status) }
    ensures prints { IfOk result (λ r. r.text.items ≡ run_text object.now (engine (code_of object.now) job.args spill_base job.packet steps)) }
{
    let code = object.code();
    // The check has to be told that the code has an instruction, which `list` promises.
    let _list = code.list();
    let mut engine = Engine::start(job.args.list(), SPILL_BASE);
    let mut packet = job.packet;
    let mut log = WriteLog::new(alloc, SHOWN_WRITES)?;
    let outcome = simulate(code, &mut engine, &mut packet, &mut log, steps);
    let name = name_of(object, &outcome);
    let text = print_named(alloc, &outcome, name, &packet, &log)?;
    Ok(Reply {
        status: status_of(&outcome),
        text,
    })
}

// The line and the name that an object has for the exception of an outcome.
fn name_of<'a>(object: &'a Object, outcome: &Outcome) -> Option<(u32, &'a [u8])>
    ensures { MatchOption result (raised_name object.now outcome.now ≡ None) (λ found. raised_name object.now outcome.now ≡ Some (found.0, found.1.now)) }
{
    match outcome {
        Outcome::Raised(number, _) => object.exception(*number),
        Outcome::Ended(_) | Outcome::Fault(_, _) | Outcome::Going => None,
    }
}

/// The status of a run, by how it ended.
pub fn status_of(outcome: &Outcome) -> Status
    ensures status { result ≡ outcome_status outcome.now }
    ensures end { IsOutcome result }
{
    match outcome {
        Outcome::Ended(_) => Status::Done,
        Outcome::Raised(_, _) => Status::Raised,
        Outcome::Fault(_, _) => Status::Fault,
        Outcome::Going => Status::StepsSpent,
    }
}
