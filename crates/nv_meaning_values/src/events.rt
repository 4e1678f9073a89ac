// What a run does, for people: no contract speaks of it.

use crate::said::{push_parameters, push_values, push_variables};
use crate::value::Value;
use nv_ast::{Fun, Name, Pat, Span};
use nv_base::{Mem, NoMemory, Write};
use nv_lines::Message;
use std::alloc::Global;

/// An event of a run: the function at a place is called, the run comes back to a level, so many words are fetched from an address on,
/// or a write is made, where the text says so.
#[derive(Clone, Copy)]
pub enum Event {
    Call(u32),
    Back(u32),
    Fetch(Span, Mem, u32, u32),
    Store(Span, Write),
    /// Parameters or variables get values, those of the expression there; the next line of what is said has them.
    Bound(Span),
    /// An exception is raised; the next line of what is said has it.
    Raised(Span),
}

/// The first events of a run; the level, which each call raises by one; where the text is evaluated in the function in progress; and
/// the last expression that was begun, in whatever function.
#[derive(Drop)]
pub struct Events {
    most: usize,
    list: Vec<Event>,
    level: u32,
    here: Span,
    last: Span,
    // Whether values are noted, as lines of a text.
    has_values: bool,
    said: Message,
    // For each byte of the text whether an expression was begun there.
    reached: Vec<bool>,
}

impl Events {
    /// No events, of which the first `most` will be kept.
    pub fn new(alloc: Global, most: usize) -> Events {
        Events {
            most,
            list: Vec::new(alloc),
            level: 0,
            here: Span { first: 0, after: 0 },
            last: Span { first: 0, after: 0 },
            has_values: false,
            said: Message::new(alloc),
            reached: Vec::new(alloc),
        }
    }

    /// The same, with the values of variables and raises among the events, and with where in a text of so many bytes expressions are
    /// begun.
    pub fn with_values(alloc: Global, most: usize, bytes: usize) -> Result<Events, NoMemory> {
        let mut events = Events::new(alloc, most);
        events.has_values = true;
        events.reached = vec![in alloc; false; bytes]?;
        Ok(events)
    }

    /// The lines of the events that have values.
    pub fn said(&self) -> &Message {
        &self.said
    }

    /// For each byte of the text whether an expression was begun there; nothing where that isn't noted.
    pub fn reached(&self) -> &[bool] {
        &self.reached
    }

    /// The first events, in order.
    pub fn list(&self) -> &[Event] {
        &self.list
    }

    /// The level now.
    pub fn level(&self) -> u32 {
        self.level
    }

    /// Where the text is evaluated in the function that is in progress.
    pub fn here(&self) -> Span {
        self.here
    }

    /// The last expression that was begun.
    pub fn last(&self) -> Span {
        self.last
    }

    /// An expression is begun.
    pub fn begin(&mut self, span: Span) {
        self.here = span;
        self.last = span;
        if let Some(cell) = self.reached.get_mut(span.first as usize) {
            *cell = true;
        }
    }

    // Whether there is an event more, which has values.
    fn adds(&mut self, event: Event) -> bool {
        if !self.has_values {
            return false;
        }
        let before = self.list.len();
        self.add(event);
        self.list.len() > before
    }

    /// The variables of a pattern get the value of an expression.
    pub fn bound(&mut self, span: Span, p: &Pat, v: &Value) {
        if self.adds(Event::Bound(span)) {
            let mut is_first = true;
            push_variables(&mut self.said, p, v, &mut is_first);
            self.said.line("");
        }
    }

    /// The parameters of a function get values.
    pub fn entered(&mut self, f: &Fun, vs: &[Value]) {
        if self.adds(Event::Bound(f.span)) {
            push_parameters(&mut self.said, f, vs);
            self.said.line("");
        }
    }

    /// An exception is raised.
    pub fn raised(&mut self, x: &Name, vs: &[Value]) {
        let here = self.here;
        if self.adds(Event::Raised(here)) {
            self.said.bytes(x.bytes());
            self.said.put("[");
            push_values(&mut self.said, vs);
            self.said.line("]");
        }
    }

    /// The function at a place is called.
    pub fn call(&mut self, place: usize) {
        if let Ok(place) = u32::try_from(place) {
            self.add(Event::Call(place));
        }
        self.level = self.level.saturating_add(1);
    }

    /// The run comes back to a level and to a place of the text.
    pub fn come_back(&mut self, level: u32, here: Span) {
        self.add(Event::Back(level));
        self.level = level;
        self.here = here;
    }

    /// An event, which is kept where there is room for one more.
    pub fn add(&mut self, event: Event) {
        if self.list.len() < self.most && self.list.push(event).is_err() {
            self.most = 0;
        }
    }
}
