// What is noted of a run while it goes on.

ghost use Rattle.std.specs.Prelude.{◌≡◌, None, Some, get_or, OnOk, OnErr, length, IfOk};
ghost use Rattle.nv_base.specs.Memories.{IsAccess, stored};
ghost use Rattle.nv_base.specs.declared.term.Access.{Access};
ghost use Rattle.nv_meaning_values.specs.Running.{Chain, called};
ghost use Rattle.nv_meaning_values.specs.Notes.{Notes as NotesOf, HasRoom, Stores};
ghost use Rattle.nv_meaning_values.specs.Chains.{trail_of};
ghost use Rattle.nv_meaning_values.specs.Callers.{calls_of, IsMark, LieAbove};

use crate::callers::{Caller, Mark, enter, leave, marked};
use crate::events::Event;
use crate::trace::{Made, Trace};
use crate::value::Value;
use nv_ast::{Fun, Name, Pat, Span};
use nv_base::{Access, Mem, NoMemory, Packet, Write, WriteLog};
use std::alloc::Global;
use std::marker::Model;

/// The log and the trace of a run, and the calls in progress. A trace without room needs no calls, and
/// they aren't followed then.
#[derive(Drop)]
pub struct Notes<'a> {
    log: WriteLog,
    trace: Trace,
    groups: Vec<u32>,
    callers: Vec<Caller<'a>>,
}

impl<'a> Model for Notes<'a> {
    ghost use Rattle.nv_meaning_values.specs.Notes.{Notes as NotesOf};
    ghost use Rattle.nv_meaning_values.specs.Chains.{trail_of};
    ghost use Rattle.nv_meaning_values.specs.Callers.{calls_of};

    ghost Value = { NotesOf };

    ghost view = { λ n. record { log = n.log; trail = trail_of n.trace; chain = record { groups = n.groups.items; calls = calls_of n.callers.items } } };
}

impl<'a> Notes<'a> {
    /// Notes in this log and this trace, where the functions in order have these groups, and these calls
    /// are in progress.
    pub fn of(log: WriteLog, trace: Trace, groups: Vec<u32>, callers: Vec<Caller<'a>>) -> Notes<'a>
        ensures { result ≡ record { log = log; trail = trail_of trace; chain = record { groups = groups.items; calls = calls_of callers.entry.items } } }
    {
        Notes {
            log,
            trace,
            groups,
            callers,
        }
    }

    /// The log and the trace.
    pub fn into_parts(self) -> (WriteLog, Trace)
        ensures log { result.0 ≡ self.entry.log }
        ensures trace { trail_of result.1 ≡ self.entry.trail }
    {
        (self.log, self.trace)
    }

    /// The calls in progress, to come back to.
    pub fn mark(&self) -> Mark<'a>
        ensures { IsMark result self.now.chain.calls }
    {
        let events = self.trace.events();
        marked(&self.callers, events.level(), events.here())
    }

    /// Adds a call of the function at a place, in the innermost call's place where it is of the same group. The function and its
    /// arguments are noted for people.
    pub fn follow(
        &mut self,
        name: &'a Name,
        place: usize,
        f: &Fun,
        args: &Vec<Value>,
    ) -> Result<(), NoMemory>
        ensures log { self.new.log ≡ self.old.log }
        ensures trail { self.new.trail ≡ self.old.trail }
        ensures called { OnOk result (HasRoom self.old.trail → self.new.chain ≡ record { groups = self.old.chain.groups; calls = called self.old.chain.calls (name.now, get_or self.old.chain.groups place 0) }) }
        ensures same { OnErr result (self.new ≡ self.old) }
    {
        self.trace.call(place, f, args);
        if !self.trace.has_room() {
            return Ok(());
        }
        let group = group_at(&self.groups, place);
        enter(&mut self.callers, Caller { name, group })
    }

    /// Leaves the calls that were added since the mark.
    pub fn back(&mut self, mark: Mark<'a>)
        ensures log { self.new.log ≡ self.old.log }
        ensures trail { self.new.trail ≡ self.old.trail }
        ensures calls { (c : Chain) → IsMark mark.entry c.calls → c.groups ≡ self.old.chain.groups → LieAbove c.calls self.old.chain.calls → HasRoom self.old.trail → self.new.chain ≡ c }
    {
        self.trace.come_back(mark.level, mark.here);
        if self.trace.has_room() {
            leave(&mut self.callers, mark);
        }
    }

    /// Notes that an expression is begun.
    pub fn set_here(&mut self, here: Span)
        ensures { self.new ≡ self.old }
    {
        self.trace.set_here(here);
    }

    /// Notes that the variables of a pattern get the value of an expression.
    pub fn bound(&mut self, span: Span, p: &Pat, v: &Value)
        ensures { self.new ≡ self.old }
    {
        self.trace.bound(span, p, v);
    }

    /// Notes that an exception is raised.
    pub fn raised(&mut self, x: &Name, vs: &Vec<Value>)
        ensures { self.new ≡ self.old }
    {
        self.trace.raised(x, vs);
    }

    /// Notes that so many words are fetched, before that is done.
    pub fn fetch(&mut self, span: Span, mem: Mem, at: u32, count: u32)
        ensures { self.new ≡ self.old }
    {
        self.trace.access(Event::Fetch(span, mem, at, count));
    }

    /// Makes a write of a store statement, and notes it. `Bad` says that it reaches past the memory: then
    /// nothing changes.
    pub fn store(
        &mut self,
        alloc: Global,
        p: &mut Packet,
        span: Span,
        w: Write,
    ) -> Result<Access, NoMemory>
        requires { IsAccess w.mem (length w.words) }
        ensures done { IfOk result (λ a. a ≡ Access.Done → (stored w.mem w.at w.words p.old ≡ Some p.new) × Stores self.old span w self.new) }
        ensures bad { IfOk result (λ a. a ≡ Access.Bad → (stored w.mem w.at w.words p.old ≡ None) × (p.new ≡ p.old) × (self.new ≡ self.old)) }
        ensures short { OnErr result ((self.new ≡ self.old) × (p.new ≡ p.old)) }
    {
        if self.log.count() >= 1 << 63 || self.trace.count() >= 1 << 63 {
            return Err(NoMemory);
        }
        let chain = self.trace.next_chain(alloc, &self.callers)?;
        let access = p.write(w.mem, w.at as u64, w.words.list());
        if access == Access::Done {
            self.log.note_source(w);
            self.trace.note_source(Made {
                write: w,
                span,
                chain,
            });
        }
        Ok(access)
    }
}

// The group at a place, 0 where there is none.
fn group_at(groups: &[u32], place: usize) -> u32
    ensures { result ≡ get_or groups.now place 0 }
{
    if place < groups.len() {
        groups[place]
    } else {
        0
    }
}
