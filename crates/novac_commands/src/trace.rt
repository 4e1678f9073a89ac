//! The command `trace`.
ghost use Rattle.std.specs.Prelude.{◌≡◌, ◌≢◌, ◌≤◌, ◌⊎◌, ℕ, length, map, IfOk, IfErr, OnOk};
ghost use Rattle.nv_meaning_values.specs.Chains.{trail_of};
ghost use Rattle.nv_ast.specs.TypedView.{typed_program};
ghost use Rattle.nv_trace.specs.TraceText.{shown, trace_text as text_of_writes};
ghost use Rattle.nv_trace.specs.Unlike.{AgreeAsFar, IsFirstUnlike};
ghost use Rattle.nova_compile.specs.Sources.{IsTypedSource};
ghost use Rattle.uc_isa.specs.Lawful.{IsLawful};
ghost use Rattle.novac_words.specs.Limits.{source_limit, object_limit, memory_limit};
ghost use Rattle.novac_words.specs.Lines.{IsUncaused};
ghost use Rattle.novac_words.specs.declared.refusal.Refusal.TheVariants.{TraceParams, TraceWrite};
ghost use Rattle.novac_words.specs.declared.status.Status.{Status};
ghost use Rattle.novac_machine.specs.inner.Outcomes.{IsOutcome};
ghost use Rattle.novac_commands.specs.Tracing.{IsTraced, IsCompared, TraceRefuses, ObjectRefuses, CodeRefuses, made_writes, code_writes};

use crate::source::source_of;
use novac_machine::{check_lawful, job_of, object_of};
use novac_words::limits::SPILL_BASE;
use novac_words::{Refusal, Reply, Status, Tracing};
use nv_ast::Typed;
use nv_base::{NoMemory, WriteLog};
use nv_memtext::Job;
use nv_trace::{Trace, compare, trace_text, traced};
use std::alloc::Global;
use uc_isa::{Code, Engine};
use uc_sim::simulate;

/// How many writes are kept on each side.
const KEPT_WRITES: u32 = 1024;

/// Tells which statement of a source made each write, and through which calls, where the code of an object writes the same. Both
/// run on the memories and arguments of a memory text.
pub fn trace_bytes<'a>(
    alloc: Global,
    source: &[u8],
    bytes: &[u8],
    text: &[u8],
    tracing: Tracing,
) -> Result<Reply, Refusal<'a>>
    requires source { length source.now ≤ source_limit }
    requires object { length bytes.now ≤ object_limit }
    requires memory { length text.now ≤ memory_limit }
    requires steps { tracing.steps ≤ 100000000 }
    ensures ended { IfOk result (λ r. IsTraced source.now bytes.now text.now tracing.steps tracing.calls tracing.line r.status r.text.items) }
    ensures refused { IfErr result (λ e. IsUncaused e ⊎ TraceRefuses source.now bytes.now text.now tracing.steps tracing.calls e) }
    ensures end { IfOk result (λ r. IsOutcome r.status) }
{
    let program = source_of(alloc, source)?;
    trace_object(alloc, &program, source, bytes, text, tracing)
}

// The same beside the program of the source.
fn trace_object<'a>(
    alloc: Global,
    program: &Typed,
    source: &[u8],
    bytes: &[u8],
    text: &[u8],
    tracing: Tracing,
) -> Result<Reply, Refusal<'a>>
    requires typed { IsTypedSource source.now (typed_program program.now) }
    requires source { length source.now ≤ source_limit }
    requires object { length bytes.now ≤ object_limit }
    requires memory { length text.now ≤ memory_limit }
    requires steps { tracing.steps ≤ 100000000 }
    ensures ended { IfOk result (λ r. IsTraced source.now bytes.now text.now tracing.steps tracing.calls tracing.line r.status r.text.items) }
    ensures refused { IfErr result (λ e. IsUncaused e ⊎ ObjectRefuses (typed_program program.now) bytes.now text.now tracing.steps tracing.calls e) }
    ensures end { IfOk result (λ r. IsOutcome r.status) }
{
    let object = object_of(alloc, bytes)?;
    let code = object.code();
    check_lawful(code)?;
    trace_code(alloc, program, code, source, text, tracing)
}

// The same of lawful code.
fn trace_code<'a>(
    alloc: Global,
    program: &Typed,
    code: &Code,
    source: &[u8],
    text: &[u8],
    tracing: Tracing,
) -> Result<Reply, Refusal<'a>>
    requires lawful { IsLawful code.now.list }
    requires source { length source.now ≤ source_limit }
    requires memory { length text.now ≤ memory_limit }
    requires steps { tracing.steps ≤ 100000000 }
    ensures ended { IfOk result (λ r. IsCompared (typed_program program.now) code.now source.now text.now tracing.steps tracing.calls tracing.line r.status r.text.items) }
    ensures refused { IfErr result (λ e. IsUncaused e ⊎ CodeRefuses (typed_program program.now) text.now tracing.steps tracing.calls code.now e) }
    ensures end { IfOk result (λ r. IsOutcome r.status) }
{
    let job = job_of(alloc, text, program.params())?;
    check_params(code.params(), program.params())?;
    let trace = trace_of(alloc, program, job, tracing.calls)?;
    let job = job_of(alloc, text, program.params())?;
    let log = log_of(alloc, code, job, tracing.steps)?;
    check_writes(&trace, &log)?;
    let out = trace_text(alloc, source, &trace, log.kept().len(), tracing.line)?;
    Ok(Reply {
        status: Status::Done,
        text: out,
    })
}

// Refuses code with another number of parameters than the words of the source's main.
fn check_params<'a>(code: u8, main: u8) -> Result<(), Refusal<'a>>
    ensures same { OnOk result (code ≡ main) }
    ensures refused { IfErr result (λ e. (e ≡ TraceParams code main) × (code ≢ main)) }
{
    if code == main {
        Ok(())
    } else {
        Err(Refusal::TraceParams(code, main))
    }
}

// Refuses writes of code that aren't those of its source, as far as both go.
fn check_writes<'a>(trace: &Trace, log: &WriteLog) -> Result<(), Refusal<'a>>
    ensures agree { OnOk result (AgreeAsFar (map (λ m. m.write) trace.now.kept) log.now.kept) }
    ensures refused { IfErr result (λ e. (i : ℕ) × (e ≡ TraceWrite i) × IsFirstUnlike i (map (λ m. m.write) trace.now.kept) log.now.kept) }
{
    match compare(trace, log) {
        None => Ok(()),
        Some(place) => Err(Refusal::TraceWrite(place)),
    }
}

// The first writes of a program.
fn trace_of(alloc: Global, program: &Typed, job: Job, calls: u64) -> Result<Trace, NoMemory>
    ensures { IfOk result (λ t. (trail_of t).kept ≡ made_writes (typed_program program.now) calls job.args job.packet) }
{
    let mut packet = job.packet;
    let mut trace = Trace::new(alloc, KEPT_WRITES)?;
    traced(
        alloc,
        program,
        job.args.list(),
        &mut packet,
        &mut trace,
        calls,
    )?;
    Ok(trace)
}

// The first writes of so many steps of lawful code.
fn log_of(alloc: Global, code: &Code, job: Job, steps: u64) -> Result<WriteLog, NoMemory>
    requires steps { steps ≤ 100000000 }
    requires lawful { IsLawful code.now.list }
    ensures { IfOk result (λ log. log.kept ≡ code_writes code.now steps job.args job.packet) }
{
    // The check has to be told that the code has an instruction, which `list` promises.
    let _list = code.list();
    let mut engine = Engine::start(job.args.list(), SPILL_BASE);
    let mut packet = job.packet;
    let mut log = WriteLog::new(alloc, KEPT_WRITES)?;
    simulate(code, &mut engine, &mut packet, &mut log, steps);
    Ok(log)
}
