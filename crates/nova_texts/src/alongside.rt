//! A run of code beside the run of its source: each access of one is an access of the other.
ghost use Rattle.uc_isa.specs.Lawful.{IsLawful};

use crate::points::{Point, Sort, innermost_store};
use crate::ties::Ties;
use nova_show::{Kind, kind_of};
use novac_machine::job_of;
use novac_words::limits::{MEMORY_LIMIT, SPILL_BASE};
use nv_ast::{Span, Typed};
use nv_base::{Mem, NoMemory};
use nv_memtext::{Job, read_memory};
use nv_trace::{Event, Trace, traced};
use std::alloc::Global;
use uc_isa::{Code, Engine, Gpr, Instr, Stepped, lint, step};

// So many events of the source's run are kept, and so many steps of the code's are taken.
const MOST_EVENTS: u32 = 100_000;

const MOST_STEPS: u32 = 1_000_000;

/// What is known of a program.
#[derive(Clone, Copy)]
pub struct Known<'k, 'a> {
    pub typed: &'a Typed,
    pub points: &'k [Point<'a>],
    /// The names of its functions and of its exceptions, in order.
    pub functions: &'k [&'a [u8]],
    pub exceptions: &'k [&'a [u8]],
    /// Where each run ends that raises nothing, if that is one place.
    pub end: Option<u32>,
}

// An access to a memory.
#[derive(Clone, Copy, PartialEq, Eq)]
struct Access {
    is_write: bool,
    mem: Mem,
    at: u64,
    count: usize,
}

/// Ties the places of code to those of its source by a run of each on a memory text. Gives false where the accesses aren't one by one
/// the same; then nothing is tied.
pub fn tie_run<'a>(
    alloc: Global,
    known: Known<'_, 'a>,
    code: &Code,
    memory: &[u8],
    ties: &mut Ties<'a>,
) -> Result<bool, NoMemory> {
    if memory.len() as u64 > MEMORY_LIMIT {
        return Ok(false);
    }
    let Ok(job) = job_of(alloc, memory, known.typed.params()) else {
        return Ok(false);
    };
    let trace = trace_of(alloc, known.typed, job)?;
    let Ok(job) = read_memory(alloc, memory, code.params()) else {
        return Ok(false);
    };
    let mut run = Run::of(alloc, known, &trace)?;
    let is_same = follow_lawful(code, job, known, &trace, &mut run);
    drop(trace);
    if is_same {
        run.push_ties(known, ties);
    }
    drop(run);
    Ok(is_same)
}

fn trace_of(alloc: Global, typed: &Typed, job: Job) -> Result<Trace, NoMemory> {
    let mut packet = job.packet;
    let mut trace = Trace::with_events(alloc, 0, MOST_EVENTS)?;
    traced(
        alloc,
        typed,
        job.args.list(),
        &mut packet,
        &mut trace,
        u64::from(MOST_STEPS),
    )?;
    Ok(trace)
}

// The accesses of a source's run, how many of them its code made so far, and what is tied by them.
#[derive(Drop)]
struct Run {
    accesses: Vec<(Access, u32)>,
    // Whether the source's run had more accesses than are kept.
    is_cut: bool,
    // For each number of accesses that are made the one function that may be in progress and one more, or 0 for several.
    between: Vec<u32>,
    made: usize,
    // Places of the code with places of the text.
    ties: Vec<(usize, u32)>,
    // Places of the code with the functions that were in progress.
    names: Vec<(usize, u32)>,
    is_short: bool,
}

impl Run {
    fn of(alloc: Global, known: Known, trace: &Trace) -> Result<Run, NoMemory> {
        let mut run = Run {
            accesses: Vec::new(alloc),
            is_cut: false,
            between: Vec::new(alloc),
            made: 0,
            ties: Vec::new(alloc),
            names: Vec::new(alloc),
            is_short: false,
        };
        let events = trace.events().list();
        run.is_cut = events.len() >= MOST_EVENTS as usize;
        run.add_events(alloc, main_of(known.functions), events)?;
        Ok(run)
    }

    fn add_events(&mut self, alloc: Global, main: u32, events: &[Event]) -> Result<(), NoMemory> {
        let mut stack = Vec::new(alloc);
        stack.push(main)?;
        let mut now = main;
        for event in events {
            match *event {
                Event::Call(place) => stack.push(place.saturating_add(1))?,
                Event::Back(level) => stack.truncate((level as usize).saturating_add(1)),
                Event::Fetch(span, mem, at, count) => {
                    self.between.push(now)?;
                    self.add_access(false, mem, at, count as usize, span)?;
                    now = top_of(&stack);
                }
                Event::Store(span, write) => {
                    self.between.push(now)?;
                    self.add_access(true, write.mem, write.at, write.words.list().len(), span)?;
                    now = top_of(&stack);
                }
                Event::Bound(_) | Event::Raised(_) => {}
            }
            if now != top_of(&stack) {
                now = 0;
            }
        }
        self.between.push(now)?;
        Ok(())
    }

    fn add_access(
        &mut self,
        is_write: bool,
        mem: Mem,
        at: u32,
        count: usize,
        span: Span,
    ) -> Result<(), NoMemory> {
        let access = Access {
            is_write,
            mem,
            at: u64::from(at),
            count,
        };
        self.accesses.push((access, span.first))?;
        Ok(())
    }

    // The code comes to a place.
    fn come(&mut self, place: usize) {
        if let Some(function) = self.between.get(self.made) {
            if *function > 0 && self.names.push((place, *function)).is_err() {
                self.is_short = true;
            }
        }
    }

    fn tie(&mut self, place: usize, at: u32) {
        if self.ties.push((place, at)).is_err() {
            self.is_short = true;
        }
    }

    // The code makes an access at a place. Gives false where the source doesn't make it next.
    fn make(&mut self, place: usize, access: Access) -> bool {
        match self.accesses.get(self.made) {
            Some((other, at)) if *other == access => {
                let at = *at;
                self.made = self.made.saturating_add(1);
                self.tie(place, at);
                true
            }
            _ => false,
        }
    }

    // Whether all accesses that are kept were made, and there are no others.
    fn is_done(&self) -> bool {
        self.made == self.accesses.len()
    }

    fn push_ties<'a>(&self, known: Known<'_, 'a>, ties: &mut Ties<'a>) {
        for it in self.ties.iter() {
            ties.tie(it.0, it.1);
        }
        for it in self.names.iter() {
            if let Some(name) = known.functions.get((it.1 as usize).saturating_sub(1)) {
                ties.name(it.0, *name);
            }
        }
    }
}

// The number of the function that is in progress.
fn top_of(stack: &[u32]) -> u32 {
    match stack.last() {
        Some(function) => *function,
        None => 0,
    }
}

fn main_of(functions: &[&[u8]]) -> u32 {
    let mut number = 0u32;
    for name in functions {
        number = number.saturating_add(1);
        if *name == b"main".as_slice() {
            return number;
        }
    }
    0
}

// Takes the steps of the code, if it is lawful. Gives false where it isn't, or an access isn't the next one of the source's.
fn follow_lawful(code: &Code, job: Job, known: Known, trace: &Trace, run: &mut Run) -> bool {
    match lint(code) {
        None => follow(code, job, known, trace, run),
        Some(_) => false,
    }
}

// Takes the steps of the code. Gives false where an access isn't the next one of the source's.
fn follow(code: &Code, job: Job, known: Known, trace: &Trace, run: &mut Run) -> bool
    requires { IsLawful code.now.list }
{
    // The check has to be told that the code has an instruction, which `list` promises.
    let _list = code.list();
    let mut engine = Engine::start(job.args.list(), SPILL_BASE);
    let mut packet = job.packet;
    for _ in 0..MOST_STEPS {
        let place = engine.place as usize;
        run.come(place);
        let access = access_at(code, &engine);
        if access.is_some() && run.is_cut && run.is_done() {
            return true;
        }
        match step(code, &mut engine, &mut packet) {
            Stepped::Went | Stepped::Wrote(_) => {
                if let Some(access) = access {
                    if !run.make(place, access) {
                        return false;
                    }
                }
            }
            Stepped::Halted(k, _) => {
                tie_end(known, trace, run, place, k);
                return run.is_done();
            }
            Stepped::Fault(_, _) => return tie_fault(known, trace, run, place, access),
        }
    }
    true
}

// The access of the source that the next instruction makes.
fn access_at(code: &Code, engine: &Engine) -> Option<Access> {
    let i = code.list().get(engine.place as usize)?;
    if kind_of(i) == Kind::Spill {
        return None;
    }
    match i {
        Instr::Read {
            mem,
            r: _,
            n,
            x,
            off,
        } => access_of(engine, false, *mem, *n, x, *off),
        Instr::Write {
            mem,
            r: _,
            n,
            x,
            off,
        } => access_of(engine, true, *mem, *n, x, *off),
        _ => None,
    }
}

fn access_of(engine: &Engine, is_write: bool, mem: Mem, n: u8, x: &Gpr, off: u8) -> Option<Access> {
    let word = match x {
        Gpr::A(r) => engine.a.get(r.number as usize)?,
        Gpr::B(r) => engine.b.get(r.number as usize)?,
    };
    Some(Access {
        is_write,
        mem,
        at: u64::from(*word) + u64::from(off),
        count: n as usize,
    })
}

// Ties the place where the code ended to the raise or the last expression of the source.
fn tie_end(known: Known, trace: &Trace, run: &mut Run, place: usize, k: u16) {
    let events = trace.events();
    if k == 0 {
        if known.end.is_none() {
            run.tie(place, events.here().first);
        }
        return;
    }
    let Some(name) = known.exceptions.get((k as usize).saturating_sub(1)) else {
        return;
    };
    let name = *name;
    let mut found = None;
    for point in known.points {
        if let Sort::Raise(other) = point.sort {
            if other.bytes() == name && point.holds(events.last().first) {
                found = Some(point.span.first);
            }
        }
    }
    if let Some(at) = found {
        run.tie(place, at);
    }
}

// Ties the place of an access outside of its memory. The source notes a fetch before it makes it, and a store behind.
fn tie_fault(
    known: Known,
    trace: &Trace,
    run: &mut Run,
    place: usize,
    access: Option<Access>,
) -> bool {
    match access {
        Some(access) if !access.is_write => run.make(place, access) && run.is_done(),
        Some(_) => {
            if let Some(point) = innermost_store(known.points, trace.events().last().first) {
                run.tie(place, point.span.first);
            }
            run.is_done()
        }
        None => false,
    }
}
