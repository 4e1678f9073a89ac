//! What the interpreter tells of a run, for the script of a page.

use nova_page::push_page_part;
use novac_machine::job_of;
use novac_words::limits::MEMORY_LIMIT;
use nv_ast::Typed;
use nv_base::NoMemory;
use nv_lines::Message;
use nv_memtext::Job;
use nv_trace::{Trace, push_events, traced};
use std::alloc::{AllocError, Global};

// How many events of a run a page has at most: each takes some five bytes.
const MOST_EVENTS: u32 = 3_000;

/// Appends where the text has each access and call that a program makes on a memory text, within so many calls. A memory text that is
/// refused adds nothing.
pub fn push_trace(
    alloc: Global,
    page: &mut Message,
    typed: &Typed,
    calls: u64,
    number: usize,
    memory: &[u8],
) {
    if memory.len() as u64 > MEMORY_LIMIT {
        return;
    }
    let Ok(job) = job_of(alloc, memory, typed.params()) else {
        return;
    };
    match trace_of(alloc, typed, job, calls) {
        Ok(trace) => {
            let mut events = Message::new(alloc);
            push_events(&mut events, &trace);
            drop(trace);
            match events.into_bytes() {
                Ok(bytes) => push_page_part(page, "events", number, &bytes),
                Err(AllocError) => page.fail(),
            }
        }
        Err(NoMemory) => page.fail(),
    }
}

fn trace_of(alloc: Global, typed: &Typed, job: Job, calls: u64) -> Result<Trace, NoMemory> {
    let mut packet = job.packet;
    let mut trace = Trace::with_events(alloc, 0, MOST_EVENTS)?;
    traced(
        alloc,
        typed,
        job.args.list(),
        &mut packet,
        &mut trace,
        calls,
    )?;
    Ok(trace)
}
