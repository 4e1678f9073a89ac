//! The writes of a source's meaning, each with its line.
ghost use Rattle.std.specs.Prelude.{◌≡◌, ◌≤◌, length};
ghost use Rattle.novac_words.specs.Limits.{memory_limit, source_limit};

use diag_source::Checked;
use nova_compile::{FrontError, typed};
use nova_show::{Answer, Ending, MemoryText, load, load_memory, push_run_refusal};
use nova_words::Tracing;
use novac_machine::job_of;
use novac_words::limits::SOURCE_LIMIT;
use nv_ast::Typed;
use nv_base::NoMemory;
use nv_memtext::Job;
use nv_outside::Files;
use nv_trace::{Trace, trace_text, traced};
use std::alloc::Global;

// So many writes are told.
const KEPT_WRITES: u32 = 1024;

/// Tells which statement of a source made each write, and by which calls, on the memories and arguments of a memory text.
pub fn print_trace<F: Files>(alloc: Global, files: &mut F, words: Tracing, answer: &mut Answer)
    ensures { F.held files.new ≡ F.held files.old }
{
    let Some(source) = load(alloc, files, words.source, SOURCE_LIMIT, answer) else {
        return;
    };
    let Some(memory) = load_memory(alloc, files, words.memory, answer) else {
        return;
    };
    if let Some(program) = program_of(alloc, words.source, &source, answer) {
        trace_program(alloc, words, &source, &program, &memory, answer);
        drop(program)
    }
}

/// The typed program of a source; where there is none, the answer says why.
pub fn program_of(alloc: Global, name: &str, source: &[u8], answer: &mut Answer) -> Option<Typed>
    requires { length source.now ≤ source_limit }
{
    match typed(alloc, source) {
        Ok(program) => return Some(program),
        Err(FrontError::NoMemory) => answer.fail(),
        Err(_) => {
            let it = Checked::new(alloc, name, source);
            if it.push_faults(alloc, &mut answer.err, answer.form) {
                answer.ending = Ending::Failed;
            }
            drop(it)
        }
    }
    None
}

fn trace_program(
    alloc: Global,
    words: Tracing,
    source: &[u8],
    program: &Typed,
    memory: &MemoryText,
    answer: &mut Answer,
)
    requires source { length source.now ≤ source_limit }
    requires memory { length memory.now.text.items ≤ memory_limit }
{
    match job_of(alloc, &memory.text, program.params()) {
        Ok(job) => {
            if push_writes(alloc, words, source, program, job, answer).is_err() {
                answer.fail();
            }
        }
        Err(refusal) => push_run_refusal(
            alloc,
            words.source,
            Some(program.params()),
            words.memory,
            memory,
            refusal,
            answer,
        ),
    }
}

fn push_writes(
    alloc: Global,
    words: Tracing,
    source: &[u8],
    program: &Typed,
    job: Job,
    answer: &mut Answer,
) -> Result<(), NoMemory>
    requires { length source.now ≤ source_limit }
{
    let mut packet = job.packet;
    let mut trace = Trace::new(alloc, KEPT_WRITES)?;
    traced(
        alloc,
        program,
        job.args.list(),
        &mut packet,
        &mut trace,
        u64::from(words.steps),
    )?;
    let text = trace_text(alloc, source, &trace, KEPT_WRITES as usize, words.line)?;
    drop(trace);
    answer.out.bytes(&text);
    Ok(())
}
