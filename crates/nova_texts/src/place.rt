//! Where in its source a run ended.
ghost use Rattle.std.specs.Prelude.{◌≤◌, length};
ghost use Rattle.novac_words.specs.Limits.{memory_limit, source_limit};

use diag_text::finding::{Severity, Source};
use nova_compile::typed;
use nova_show::Answer;
use novac_machine::job_of;
use nv_ast::{Span, Typed};
use nv_memtext::Job;
use nv_trace::{Trace, traced};
use std::alloc::Global;

/// The last expression that the run of a source on a memory text begins, within so many calls. There is none where source or memory
/// text are refused, or memory runs out.
pub fn last_place(alloc: Global, source: &[u8], memory: &[u8], calls: u64) -> Option<Span>
    requires source { length source.now ≤ source_limit }
    requires memory { length memory.now ≤ memory_limit }
{
    match typed(alloc, source) {
        Ok(program) => {
            let found = place_in(alloc, &program, memory, calls);
            drop(program);
            found
        }
        Err(_) => None,
    }
}

/// Tells where in a source an access was outside of its memory, which is a fault.
pub fn push_outside_place(source: Source, span: Span, answer: &mut Answer) {
    let mut it = answer.finding();
    it.severity = Severity::Note;
    it.span = Some(span);
    it.title.put("this access is outside of its memory");
    answer.push_in(source, it)
}

fn place_in(alloc: Global, program: &Typed, memory: &[u8], calls: u64) -> Option<Span>
    requires { length memory.now ≤ memory_limit }
{
    match job_of(alloc, memory, program.params()) {
        Ok(job) => place_of(alloc, program, job, calls),
        Err(_) => None,
    }
}

fn place_of(alloc: Global, program: &Typed, job: Job, calls: u64) -> Option<Span> {
    let mut packet = job.packet;
    let Ok(mut trace) = Trace::new(alloc, 0) else {
        return None;
    };
    let ran = traced(
        alloc,
        program,
        job.args.list(),
        &mut packet,
        &mut trace,
        calls,
    );
    let place = trace.events().last();
    drop(trace);
    match ran {
        Ok(_) => Some(place),
        Err(_) => None,
    }
}
