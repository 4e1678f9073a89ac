//! The statements that a run of a source comes to, with the values of their variables.
ghost use Rattle.std.specs.Prelude.{◌≡◌, ◌≤◌, length};
ghost use Rattle.novac_words.specs.Limits.{memory_limit};

use crate::ends::functions_of;
use crate::lines::LineNumbers;
use crate::place::push_outside_place;
use crate::trace::program_of;
use diag_text::finding::Source;
use nova_show::{Answer, Ending, MemoryText, push_run_refusal};
use nova_words::{Run, Until};
use novac_machine::job_of;
use novac_words::limits::SOURCE_LIMIT;
use nv_ast::{Fun, Span, Typed};
use nv_base::{Mem, NoMemory, Outcome, Write};
use nv_lines::{Lines, Message};
use nv_memtext::{Job, push_words};
use nv_trace::{Event, Trace, traced};
use std::alloc::Global;

// So many accesses, calls, variables and raises are told.
const MOST: u32 = 100_000;

/// Prints the accesses, calls, variables and raises of a run of a source on a memory text, each with its line, up to the first that the
/// words ask for.
pub fn print_steps(
    alloc: Global,
    words: Run,
    source: &[u8],
    memory: &MemoryText,
    answer: &mut Answer,
)
    requires memory { length memory.now.text.items ≤ memory_limit }
{
    if source.starts_with(b"NVO") {
        return answer.fault(
            words.program,
            "`--trace` wants a source, and this is an object",
        );
    }
    if words.has_profile || words.counts.is_some() {
        return answer.fault(
            words.program,
            "`--trace` runs no code, so it has neither `--profile` nor `--counts`",
        );
    }
    if source.len() as u64 > SOURCE_LIMIT {
        return answer.fault(words.program, "the source is too long");
    }
    if let Some(program) = program_of(alloc, words.program, source, answer) {
        match job_of(alloc, &memory.text, program.params()) {
            Ok(job) => answer_steps(alloc, words, source, &program, job, answer),
            Err(refusal) => push_run_refusal(
                alloc,
                words.program,
                Some(program.params()),
                words.memory,
                memory,
                refusal,
                answer,
            ),
        }
        drop(program)
    }
}

fn answer_steps(
    alloc: Global,
    words: Run,
    source: &[u8],
    program: &Typed,
    job: Job,
    answer: &mut Answer,
) {
    if push_steps(alloc, words, source, program, job, answer).is_err() {
        answer.fail();
    }
}

fn push_steps(
    alloc: Global,
    words: Run,
    source: &[u8],
    program: &Typed,
    job: Job,
    answer: &mut Answer,
) -> Result<(), NoMemory> {
    let mut packet = job.packet;
    let mut trace = Trace::with_values(alloc, MOST, source.len())?;
    let calls = u64::from(words.steps);
    let outcome = traced(
        alloc,
        program,
        job.args.list(),
        &mut packet,
        &mut trace,
        calls,
    )?;
    let functions = functions_of(alloc, program.program())?;
    let mut said = Message::new(alloc);
    said.message_text(trace.events().said());
    let said = said.into_bytes()?;
    let numbers = LineNumbers::of(alloc, source)?;
    let events = trace.events().list();
    let count = count_until(events, &numbers, words.until);
    let page = Page {
        alloc,
        name: words.program,
        numbers: &numbers,
        functions: &functions,
    };
    push_events(page, &events[..count], &said, &mut answer.out);
    if !is_met(&events[..count], &numbers, words.until) {
        push_end(alloc, words, source, &trace, outcome, answer);
    }
    Ok(())
}

// Whether the last of some events is what is asked for.
fn is_met(events: &[Event], numbers: &LineNumbers, until: Option<Until>) -> bool {
    match (events.last(), until) {
        (Some(event), Some(until)) => is_asked(event, numbers, until),
        _ => false,
    }
}

// How many events come up to the first that is asked for; all, where none is or there is none.
fn count_until(events: &[Event], numbers: &LineNumbers, until: Option<Until>) -> usize
    ensures { result ≤ length events.now }
{
    let Some(until) = until else {
        return events.len();
    };
    let mut count = 0;
    while count < events.len() {
        if is_asked(&events[count], numbers, until) {
            return count + 1;
        }
        count += 1;
    }
    count
}

fn is_asked(event: &Event, numbers: &LineNumbers, until: Until) -> bool {
    match until {
        Until::Write => matches!(event, Event::Store(_, _)),
        Until::Raise => matches!(event, Event::Raised(_)),
        Until::Line(line) => match event {
            Event::Call(_) | Event::Back(_) => false,
            Event::Fetch(span, _, _, _)
            | Event::Store(span, _)
            | Event::Bound(span)
            | Event::Raised(span) => numbers.line(span.first) == line,
        },
    }
}

// What lines of events are made from.
#[derive(Clone, Copy)]
struct Page<'p, 'a> {
    alloc: Global,
    name: &'p str,
    numbers: &'p LineNumbers,
    functions: &'p [&'a Fun],
}

// A line for each event, but for calls and returns. `said` has a line for each event that has values.
fn push_events(page: Page, events: &[Event], said: &[u8], out: &mut Message) {
    let mut said = Lines::of(said);
    // The function that was called last and whose parameters come next.
    let mut called = None;
    for event in events {
        match event {
            Event::Call(place) => called = Some(*place),
            Event::Back(_) => {}
            Event::Fetch(span, mem, at, count) => page.push_fetch(out, *span, *mem, *at, *count),
            Event::Store(span, write) => page.push_store(out, *span, write),
            Event::Bound(span) => {
                page.push_bound(out, *span, called, next_of(&mut said));
                called = None;
            }
            Event::Raised(span) => page.push_raise(out, *span, next_of(&mut said)),
        }
    }
}

// The next line of what is said of values.
fn next_of<'s>(said: &mut Lines<'s>) -> &'s [u8] {
    let none: &'s [u8] = b"";
    said.next_line().unwrap_or(none)
}

impl<'p, 'a> Page<'p, 'a> {
    fn push_fetch(&self, out: &mut Message, span: Span, mem: Mem, at: u32, count: u32) {
        self.push_place(out, span);
        out.bytes(mem.name());
        out.put("[");
        out.number(u64::from(count));
        out.put("](");
        out.number(u64::from(at));
        out.line(")")
    }

    // A store as a write in an outcome text.
    fn push_store(&self, out: &mut Message, span: Span, write: &Write) {
        self.push_place(out, span);
        out.put("write ");
        out.bytes(write.mem.name());
        out.put(" ");
        out.number(u64::from(write.at));
        push_list(self.alloc, out, write.words.list());
        out.line("")
    }

    // Variables, if there are any, or a function with its parameters.
    fn push_bound(&self, out: &mut Message, span: Span, called: Option<u32>, values: &[u8]) {
        match called {
            Some(place) => {
                self.push_place(out, span);
                push_name(out, self.functions, place);
                out.put("[");
                out.bytes(values);
                out.line("]")
            }
            None if values.is_empty() => {}
            None => {
                self.push_place(out, span);
                out.bytes(values);
                out.line("")
            }
        }
    }

    fn push_raise(&self, out: &mut Message, span: Span, values: &[u8]) {
        self.push_place(out, span);
        out.put("raise ");
        out.bytes(values);
        out.line("")
    }

    fn push_place(&self, out: &mut Message, span: Span) {
        out.put(self.name);
        out.put(":");
        out.number(u64::from(self.numbers.line(span.first)));
        out.put(": ")
    }
}

// The function at a place.
fn push_name(out: &mut Message, functions: &[&Fun], place: u32) {
    if let Some(f) = functions.get(place as usize) {
        out.bytes(f.name.bytes());
    }
}

fn push_list(alloc: Global, out: &mut Message, words: &[u32]) {
    let mut text = Vec::new(alloc);
    out.fail_if(push_words(&mut text, words).is_err());
    out.bytes(&text)
}

// How a run ended that is told to its end.
fn push_end(
    alloc: Global,
    words: Run,
    source: &[u8],
    trace: &Trace,
    outcome: Outcome,
    answer: &mut Answer,
) {
    if trace.events().list().len() >= MOST as usize {
        return answer.note(
            words.program,
            "the run goes on, and its trace ends here, after 100000 events",
        );
    }
    if words.until.is_some() {
        answer.note(
            words.program,
            "the run comes to nothing that `--until` asks for",
        );
    }
    match outcome {
        Outcome::Ended(result) => {
            answer.out.put("ended");
            push_list(alloc, &mut answer.out, result.list());
            answer.out.line("")
        }
        Outcome::Raised(_, _) => {
            answer.out.line("raised, and no handler takes it");
            answer.ending = Ending::Failed;
        }
        Outcome::Fault(mem, at) => push_fault(words, source, trace, mem, at, answer),
        Outcome::Going => {
            answer
                .out
                .line("not ended: all calls were made (`--steps N` allows more)");
            answer.ending = Ending::Failed;
        }
    }
}

fn push_fault(words: Run, source: &[u8], trace: &Trace, mem: Mem, at: u64, answer: &mut Answer) {
    answer.out.put("fault ");
    answer.out.bytes(mem.name());
    answer.out.put(" ");
    answer.out.number(at);
    answer.out.line("");
    let source = Source {
        name: words.program,
        bytes: source,
    };
    push_outside_place(source, trace.events().last(), answer)
}
