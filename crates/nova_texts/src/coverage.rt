//! Which parts of a source its tests reach.

use crate::points::{Point, Sort, points_of};
use diag_text::finding::{Code, Finding, Severity, Source};
use nova_show::Answer;
use novac_machine::job_of;
use novac_words::limits::MEMORY_LIMIT;
use nv_ast::{Program, Span, Typed};
use nv_base::NoMemory;
use nv_lines::Message;
use nv_memtext::Job;
use nv_trace::{Trace, traced};
use std::alloc::Global;

/// For each byte of a source whether a run began an expression there. It keeps a failed allocation to itself until `push`.
#[derive(Drop)]
pub struct Coverage {
    reached: Vec<bool>,
    is_short: bool,
}

impl Coverage {
    /// Of no source.
    pub fn new(alloc: Global) -> Coverage {
        Coverage {
            reached: Vec::new(alloc),
            is_short: false,
        }
    }

    /// Goes on to a source of so many bytes, of which no run is known.
    pub fn begin(&mut self, alloc: Global, bytes: usize) {
        match vec![in alloc; false; bytes] {
            Ok(reached) => self.reached = reached,
            Err(_) => self.is_short = true,
        }
    }

    /// Adds what the interpreter reaches on a memory text within so many calls, if the source was begun.
    pub fn add(&mut self, alloc: Global, typed: &Typed, memory: &[u8], calls: u64) {
        if self.reached.is_empty() || memory.len() as u64 > MEMORY_LIMIT {
            return;
        }
        if let Ok(job) = job_of(alloc, memory, typed.params()) {
            if self.add_job(alloc, typed, job, calls).is_err() {
                self.is_short = true;
            }
        }
    }

    fn add_job(
        &mut self,
        alloc: Global,
        typed: &Typed,
        job: Job,
        calls: u64,
    ) -> Result<(), NoMemory> {
        let mut packet = job.packet;
        let mut trace = Trace::with_values(alloc, 0, self.reached.len())?;
        let ran = traced(
            alloc,
            typed,
            job.args.list(),
            &mut packet,
            &mut trace,
            calls,
        );
        self.join(trace.events().reached());
        drop(trace);
        match ran {
            Ok(_) => Ok(()),
            Err(NoMemory) => Err(NoMemory),
        }
    }

    fn join(&mut self, reached: &[bool]) {
        for (n, is_reached) in reached.iter().enumerate() {
            if *is_reached {
                if let Some(cell) = self.reached.get_mut(n) {
                    *cell = true;
                }
            }
        }
    }

    fn has(&self, at: u32) -> bool {
        match self.reached.get(at as usize) {
            Some(is_reached) => *is_reached,
            None => false,
        }
    }

    /// Tells each part of a program that no run reaches, but for the parts of such a part; and how many parts are reached, where a line is
    /// wanted.
    pub fn push(
        &self,
        alloc: Global,
        source: Source,
        program: &Program,
        has_line: bool,
        answer: &mut Answer,
    ) {
        match points_of(alloc, program) {
            Ok(points) if !self.is_short => {
                self.push_points(alloc, source, &points, has_line, answer)
            }
            _ => answer.fail(),
        }
    }

    fn push_points(
        &self,
        alloc: Global,
        source: Source,
        points: &[Point],
        has_line: bool,
        answer: &mut Answer,
    ) {
        let mut counts = Counts {
            all: 0,
            reached: 0,
            after: 0,
        };
        for point in points {
            self.push_point(alloc, source, point, &mut counts, answer);
        }
        if has_line {
            push_counts(&mut answer.out, source.name, &counts);
        }
    }

    fn push_point(
        &self,
        alloc: Global,
        source: Source,
        point: &Point,
        counts: &mut Counts,
        answer: &mut Answer,
    ) {
        let Some(title) = title_of(point.sort) else {
            return;
        };
        counts.all = counts.all.saturating_add(1);
        if self.has(point.begin) {
            counts.reached = counts.reached.saturating_add(1);
        } else if point.span.first >= counts.after {
            counts.after = point.span.after;
            answer.tell_in(source, finding_on(alloc, title, point.span));
        }
    }
}

// How many parts there are, how many of them are reached, and the byte after the last part that was told.
#[derive(Drop)]
struct Counts {
    all: u64,
    reached: u64,
    after: u32,
}

fn push_counts(out: &mut Message, name: &str, counts: &Counts) {
    out.put(name);
    out.put(": ");
    out.number(counts.reached);
    out.put(" of ");
    out.counted(counts.all, "part");
    out.line(" reached")
}

fn finding_on(alloc: Global, title: &str, span: Span) -> Finding {
    let mut it = Finding::new(alloc, Severity::Note);
    it.span = Some(span);
    it.title.put("no case reaches ");
    it.title.put(title);
    it.code = Code::Named("coverage");
    it
}

// What is said of a point; nothing of one that isn't counted.
fn title_of(sort: Sort) -> Option<&'static str> {
    match sort {
        Sort::Body(_) => Some("this function"),
        Sort::Let | Sort::Store(_) => Some("this statement"),
        Sort::Then => Some("this arm, where the condition holds"),
        Sort::Else => Some("this arm, where the condition doesn't hold"),
        Sort::Handler => Some("this handler"),
        Sort::Fetch(_, _) | Sort::Raise(_) => None,
    }
}
