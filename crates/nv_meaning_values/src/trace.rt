// The first writes of a run, each with where it was made.

ghost use Rattle.std.specs.Prelude.{◌≡◌, ◌<◌, ◌↔◌, ◌^◌, All, [], None, Some, length, map, get_or, slice_get, IfOk, OnOk, MatchOption, IsTrue};
ghost use Rattle.nv_meaning_values.specs.Notes.{HasRoom};
ghost use Rattle.nv_meaning_values.specs.Chains.{Kept, none_kept, kept_one, kept_source, trail_of};
ghost use Rattle.nv_meaning_values.specs.Callers.{calls_of};

use crate::callers::{Caller, names};
use crate::events::{Event, Events};
use crate::value::Value;
use nv_ast::{Fun, Name, Pat, Span};
use nv_base::{Mem, NoMemory, SOURCE_SCRATCH, Write};
use std::alloc::Global;
use std::marker::Model;

/// A write, the place of its store statement in the text, and the number of its chain of calls.
#[derive(Clone, Copy)]
pub struct Made {
    pub write: Write,
    pub span: Span,
    pub chain: u32,
}

/// A trace that counts all writes of a run and keeps the first of them, each with its chain of calls. Its events are for people alone,
/// and aren't in its view.
#[derive(Drop)]
pub struct Trace {
    room: usize,
    first: Vec<Made>,
    all: u64,
    chains: Vec<Vec<Name>>,
    events: Events,
}

impl Model for Trace {
    ghost use Rattle.std.specs.Prelude.{◌≡◌, ◌<◌, ◌≤◌, ◌^◌, map, min, length, All, vec_len, vec_capacity};
    ghost use Rattle.nv_meaning_values.specs.Chains.{Kept};

    ghost Value = { Kept };

    ghost view = { λ t. record { keep = t.room; kept = t.first.items; count = t.all; chains = map (λ c. c.items) t.chains.items } };

    ghost invariant = { λ t. (t.room < 2 ^ 32) × (t.room ≤ vec_capacity t.first) × (vec_len t.first ≡ min t.room t.all) × All (λ m. m.chain < length t.chains.items) t.first.items };
}

impl Trace {
    /// An empty trace that keeps the first `keep` writes.
    pub fn new(alloc: Global, keep: u32) -> Result<Trace, NoMemory>
        ensures { IfOk result (λ t. t ≡ none_kept keep) }
    {
        Trace::with_events(alloc, keep, 0)
    }

    /// An empty trace that keeps the first `keep` writes and, for people, the first `most` events.
    pub fn with_events(alloc: Global, keep: u32, most: u32) -> Result<Trace, NoMemory>
        ensures { IfOk result (λ t. t ≡ none_kept keep) }
    {
        let room = keep as usize;
        let first = Vec::with_capacity(alloc, room)?;
        Ok(Trace {
            room,
            first,
            all: 0,
            chains: Vec::new(alloc),
            events: Events::new(alloc, most as usize),
        })
    }

    /// An empty trace that keeps no write and, for people, the first `most` events with values, and where in a text of so many bytes
    /// expressions are begun.
    pub fn with_values(alloc: Global, most: u32, bytes: usize) -> Result<Trace, NoMemory>
        ensures { IfOk result (λ t. t ≡ none_kept 0) }
    {
        let events = Events::with_values(alloc, most as usize, bytes)?;
        Ok(Trace {
            room: 0,
            first: Vec::new(alloc),
            all: 0,
            chains: Vec::new(alloc),
            events,
        })
    }

    /// What the run did so far.
    pub fn events(&self) -> &Events {
        &self.events
    }

    /// Notes that an expression is begun.
    pub fn set_here(&mut self, here: Span)
        ensures { self.new ≡ self.old }
    {
        self.events.begin(here);
    }

    /// Notes a call of the function at a place with these values.
    pub fn call(&mut self, place: usize, f: &Fun, vs: &[Value])
        ensures { self.new ≡ self.old }
    {
        self.events.call(place);
        self.events.entered(f, vs);
    }

    /// Notes that the variables of a pattern get the value of an expression.
    pub fn bound(&mut self, span: Span, p: &Pat, v: &Value)
        ensures { self.new ≡ self.old }
    {
        self.events.bound(span, p, v);
    }

    /// Notes that an exception is raised.
    pub fn raised(&mut self, x: &Name, vs: &[Value])
        ensures { self.new ≡ self.old }
    {
        self.events.raised(x, vs);
    }

    /// Notes that a run comes back to a level and to a place of the text.
    pub fn come_back(&mut self, level: u32, here: Span)
        ensures { self.new ≡ self.old }
    {
        self.events.come_back(level, here);
    }

    /// Notes an access.
    pub fn access(&mut self, event: Event)
        ensures { self.new ≡ self.old }
    {
        self.events.add(event);
    }

    /// How many writes were noted.
    pub fn count(&self) -> u64
        ensures { result ≡ self.now.count }
    {
        self.all
    }

    /// The write at a place among those that are kept, the first one at 0.
    pub fn at(&self, i: u32) -> Option<&Made>
        ensures { MatchOption result (slice_get self.now.kept i ≡ None) (λ m. slice_get self.now.kept i ≡ Some m.now) }
    {
        self.first.get(i as usize)
    }

    /// The writes that are kept, the first one first.
    pub fn kept(&self) -> &[Made]
        ensures kept { result.now ≡ self.now.kept }
        ensures few { length self.now.kept < 2 ^ 32 }
        ensures chains { All (λ m. m.chain < length self.now.chains) self.now.kept }
    {
        &self.first
    }

    /// The names of a chain, the outermost first.
    pub fn chain(&self, alloc: Global, c: u32) -> Result<Vec<Name>, NoMemory>
        requires { c < length self.now.chains }
        ensures { IfOk result (λ names. names.items ≡ get_or self.now.chains c []) }
    {
        let chain = &self.chains[c as usize];
        let mut names = Vec::with_capacity(alloc, chain.len())?;
        for name in chain {
            names.push(name.clone()?)?;
        }
        Ok(names)
    }

    /// Whether a further write is kept.
    pub fn has_room(&self) -> bool
        ensures { IsTrue result ↔ HasRoom (trail_of self.now) }
    {
        self.first.len() < self.room
    }

    /// The number of a chain with these calls, for a write that is to be made; any number where no
    /// further write is kept.
    pub fn next_chain(&mut self, alloc: Global, callers: &[Caller]) -> Result<u32, NoMemory>
        ensures same { trail_of self.new ≡ trail_of self.old }
        ensures inside { IfOk result (λ c. HasRoom (trail_of self.old) → c < length self.new.chains) }
        ensures names { IfOk result (λ c. HasRoom (trail_of self.old) → get_or self.new.chains c [] ≡ map (λ f. f.0) (calls_of callers.now)) }
    {
        if !self.has_room() {
            return Ok(0);
        }
        let number = self.chains.len();
        if number >= u32::MAX as usize {
            return Err(NoMemory);
        }
        let names = names(alloc, callers)?;
        self.chains.push(names)?;
        Ok(number as u32)
    }

    /// Counts a write, and keeps it where there is room left.
    pub fn note(&mut self, m: Made)
        requires few { self.old.count < 2 ^ 63 }
        requires chain { HasRoom (trail_of self.old) → m.chain < length self.old.chains }
        ensures { self.new ≡ kept_one self.old m }
    {
        if self.first.len() < self.room {
            self.first.push_reserved(m);
        }
        self.all += 1;
    }

    /// Notes a write of the source's; one of the compiler's scratch words isn't noted.
    pub fn note_source(&mut self, m: Made)
        requires few { self.old.count < 2 ^ 63 }
        requires chain { HasRoom (trail_of self.old) → m.chain < length self.old.chains }
        ensures { self.new ≡ kept_source self.old m }
    {
        self.access(Event::Store(m.span, m.write));
        if m.write.mem != Mem::Scratch || m.write.at < SOURCE_SCRATCH {
            self.note(m);
        }
    }
}
