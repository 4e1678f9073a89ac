//! Moves that are still to be done, in a table by the numbers of their targets.

ghost use Rattle.std.specs.Prelude.{ℕ, ◌≡◌, ◌≢◌, ◌+◌, ◌*◌, ◌<◌, ◌≤◌, ◌-◌, ◌^◌, [], ◌∷◌, ◌++◌, None, Some, IfOk, IfSome, IfNone, IsTrue, ◌↔◌, List, length, slice_index, slice_set};
ghost use Rattle.ucode_emit.specs.Moves.{Move, HaveOwnTargets, temporary};
ghost use Rattle.ucode_emit.specs.inner.Pending as inner;
ghost use Rattle.ucode_emit.specs.inner.Pending.{source_at, readings, pending_count, numbers, AreApart, IsPending, Counted, Stands, GoTo, FreeGoTo, Ran, Turned};

use nv_base::NoMemory;
use place_plan::Place;
use std::alloc::Global;

/// The compiler's own register.
const TEMPORARY: Place = Place::A(15);

/// So many numbers there are.
const NUMBERS: usize = 1792;

/// The number of a place.
fn number(p: Place) -> usize
    ensures value { result ≡ inner.number p }
    ensures within { result < numbers }
{
    match p {
        Place::A(k) => 7 * usize::from(k),
        Place::B(k) => 7 * usize::from(k) + 1,
        Place::L(k) => 7 * usize::from(k) + 2,
        Place::LD(k) => 7 * usize::from(k) + 3,
        Place::S(k) => 7 * usize::from(k) + 4,
        Place::SD(k) => 7 * usize::from(k) + 5,
        Place::Slot(k) => 7 * usize::from(k) + 6,
    }
}

/// Puts a source, or none, into the table.
fn set_source(sources: &mut Vec<Option<Place>>, t: Place, source: Option<Place>)
    requires { length sources.old.items ≡ numbers }
    ensures entry { sources.new.items ≡ slice_set sources.old.items (inner.number t) source }
    ensures within { inner.number t < numbers }
{
    sources[number(t)] = source;
}

/// One reader more.
fn read_more(readers: &mut Vec<u16>, p: Place)
    requires wide { length readers.old.items ≡ numbers }
    requires room { slice_index readers.old.items (inner.number p) + 1 < 2 ^ 16 }
    ensures entry { readers.new.items ≡ slice_set readers.old.items (inner.number p) (slice_index readers.old.items (inner.number p) + 1) }
    ensures within { inner.number p < numbers }
{
    let i = number(p);
    readers[i] += 1;
}

/// One reader less.
fn read_less(readers: &mut Vec<u16>, p: Place)
    requires wide { length readers.old.items ≡ numbers }
    requires some { 1 ≤ slice_index readers.old.items (inner.number p) }
    ensures entry { readers.new.items ≡ slice_set readers.old.items (inner.number p) (slice_index readers.old.items (inner.number p) - 1) }
    ensures within { inner.number p < numbers }
{
    let i = number(p);
    readers[i] -= 1;
}

/// Moves that are still to be done, and those that are done.
#[derive(Drop)]
pub struct Pending {
    // by the number of a target the source of the move into it
    sources: Vec<Option<Place>>,
    // by a place's number how many of these moves read it
    readers: Vec<u16>,
    pub done: Vec<(Place, Place)>,
}

impl Pending {
    /// No move.
    fn none(alloc: Global) -> Result<Pending, NoMemory>
        ensures counted { IfOk result (λ p. Counted p.sources.items p.readers.items) }
        ensures sources { IfOk result (λ p. (k : ℕ) → source_at p.sources.items k ≡ None) }
        ensures count { IfOk result (λ p. pending_count p.sources.items ≡ 0) }
        ensures done { IfOk result (λ p. p.done.items ≡ []) }
    {
        Ok(Pending {
            sources: vec![in alloc; None; NUMBERS]?,
            readers: vec![in alloc; 0; NUMBERS]?,
            done: Vec::new(alloc),
        })
    }

    /// All these moves, but those whose ends are one place.
    pub fn new(alloc: Global, moves: &[(Place, Place)]) -> Result<Pending, NoMemory>
        requires { HaveOwnTargets moves.now }
        ensures counted { IfOk result (λ p. Counted p.sources.items p.readers.items) }
        ensures stands { IfOk result (λ p. Stands moves.now p.sources.items p.done.items) }
        ensures done { IfOk result (λ p. p.done.items ≡ []) }
        ensures count { IfOk result (λ p. pending_count p.sources.items ≤ length moves.now) }
    {
        let mut pending = Pending::none(alloc)?;
        for m in moves {
            if number(m.0) != number(m.1) {
                pending.add(m.0, m.1);
            }
        }
        Ok(pending)
    }

    /// One move more.
    fn add(&mut self, s: Place, t: Place)
        requires counted { Counted self.old.sources.items self.old.readers.items }
        requires first { source_at self.old.sources.items (inner.number t) ≡ None }
        ensures counted { Counted self.new.sources.items self.new.readers.items }
        ensures sources { self.new.sources.items ≡ slice_set self.old.sources.items (inner.number t) (Some s) }
        ensures within { inner.number t < length self.old.sources.items }
        ensures done { self.new.done.items ≡ self.old.done.items }
    {
        set_source(&mut self.sources, t, Some(s));
        read_more(&mut self.readers, s);
    }

    /// One move less.
    fn take(&mut self, s: Place, t: Place)
        requires counted { Counted self.old.sources.items self.old.readers.items }
        requires source { source_at self.old.sources.items (inner.number t) ≡ Some s }
        ensures counted { Counted self.new.sources.items self.new.readers.items }
        ensures sources { self.new.sources.items ≡ slice_set self.old.sources.items (inner.number t) None }
        ensures done { self.new.done.items ≡ self.old.done.items }
    {
        set_source(&mut self.sources, t, None);
        read_less(&mut self.readers, s);
    }

    /// The source of the pending move into a place, where there is one.
    pub fn source(&self, t: Place) -> Option<Place>
        requires { Counted self.now.sources.items self.now.readers.items }
        ensures { result ≡ source_at self.now.sources.items (inner.number t) }
    {
        self.sources[number(t)]
    }

    /// The same, where no pending move reads the place.
    fn free(&self, t: Place) -> Option<Place>
        requires { Counted self.now.sources.items self.now.readers.items }
        ensures source { IfSome result (λ s. source_at self.now.sources.items (inner.number t) ≡ Some s) }
        ensures unread { IfSome result (λ _. readings self.now.sources.items (inner.number t) ≡ 0) }
        ensures none { IfNone result (IsPending self.now.sources.items (inner.number t) → readings self.now.sources.items (inner.number t) ≢ 0) }
    {
        if self.readers[number(t)] == 0 {
            self.source(t)
        } else {
            None
        }
    }

    /// Does the move into the place if it can be done, then the one into its source, and so on.
    pub fn run(&mut self, start: Place) -> Result<(), NoMemory>
        requires { Counted self.old.sources.items self.old.readers.items }
        ensures counted { IfOk result (λ _. Counted self.new.sources.items self.new.readers.items) }
        ensures ran { IfOk result (λ _. Ran self.old.sources.items self.old.done.items self.new.sources.items self.new.done.items) }
        ensures free { IfOk result (λ _. (ms : List Move) → FreeGoTo self.old.sources.items ((start, start) ∷ ms) → FreeGoTo self.new.sources.items ms) }
    {
        let mut t = start;
        while let Some(s) = self.free(t) {
            self.done.push((s, t))?;
            self.take(s, t);
            t = s;
        }
        Ok(())
    }

    /// Puts the source aside, so that the moves can be done that end with this one.
    pub fn turn(&mut self, s: Place, t: Place) -> Result<(), NoMemory>
        requires counted { Counted self.old.sources.items self.old.readers.items }
        requires source { source_at self.old.sources.items (inner.number t) ≡ Some s }
        requires apart { s ≢ t }
        requires target { t ≢ temporary }
        requires spare { source_at self.old.sources.items (inner.number temporary) ≡ None }
        requires stuck { FreeGoTo self.old.sources.items [] }
        ensures counted { IfOk result (λ _. Counted self.new.sources.items self.new.readers.items) }
        ensures turned { IfOk result (λ _. Turned (inner.number t) self.old.sources.items self.old.done.items self.new.sources.items self.new.done.items) }
    {
        self.done.push((s, TEMPORARY))?;
        self.take(s, t);
        self.add(TEMPORARY, t);
        self.run(s)
    }
}
