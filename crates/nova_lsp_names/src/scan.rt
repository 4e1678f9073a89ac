//! A scan over tokens that finds definitions and occurrences.

use crate::kind::{Definition, Occurrence, Role};
use crate::mark::Mark;
use diag_text::declared::Scope;
use nv_ast::{Name, Sort, Token};
use nv_lines::Message;
use std::alloc::Global;

/// Where in a program a token stands.
#[derive(Clone, Copy, PartialEq, Eq)]
pub enum Context {
    Outside,
    Layout,
    Exception,
    Header,
    Parameters,
    Type,
    Pattern,
    Body,
}

/// What a frame is of.
#[derive(Clone, Copy, PartialEq, Eq)]
pub enum Opening {
    Bracket,
    Let,
    Store,
    If,
    Else,
}

/// A part that is begun and not yet ended.
#[derive(Clone, Copy)]
pub struct Frame {
    pub opening: Opening,
    pub token: usize,
    /// How many variables were in sight at its beginning.
    pub mark: usize,
    /// What comes back at its end.
    pub context: Context,
    pub owner: Option<usize>,
    pub field: Option<usize>,
    /// The definitions that are in sight after it.
    pub first: usize,
    pub after: usize,
}

/// The state of a scan.
#[derive(Drop)]
pub struct Scan<'a> {
    pub tokens: &'a [Token],
    pub at: usize,
    pub context: Context,
    frames: Vec<Frame>,
    scope: Scope<'a>,
    // The definitions of the variables in sight.
    sight: Vec<usize>,
    pub definitions: Vec<Definition>,
    pub occurrences: Vec<Occurrence>,
    /// Beside each token the bracket that it closes, or itself.
    pub partners: Vec<usize>,
    /// The layout or the field whose parts are read, and the field that is.
    pub owner: Option<usize>,
    pub field: Option<usize>,
    // The declaration that is read.
    current: Option<usize>,
    // The definitions that the next block binds.
    first: usize,
    after: usize,
    pub note: Message,
}

impl<'a> Scan<'a> {
    /// Before the first token.
    pub fn new(alloc: Global, tokens: &'a [Token]) -> Scan<'a> {
        Scan {
            tokens,
            at: 0,
            context: Context::Outside,
            frames: Vec::new(alloc),
            scope: Scope::new(alloc),
            sight: Vec::new(alloc),
            definitions: Vec::new(alloc),
            occurrences: Vec::new(alloc),
            partners: Vec::new(alloc),
            owner: None,
            field: None,
            current: None,
            first: 0,
            after: 0,
            note: Message::new(alloc),
        }
    }

    /// Goes over all tokens.
    pub fn run(&mut self) {
        for n in 0..self.tokens.len() {
            self.at = n;
            self.note.keep(&mut self.partners, n);
            self.step();
        }
        self.at = self.tokens.len();
        self.leave(0);
        self.note.fail_if(self.scope.is_short())
    }

    fn step(&mut self) {
        match self.mark(0) {
            Mark::Word => self.word(),
            Mark::Layout => self.begin(Context::Layout),
            Mark::Exception => self.begin(Context::Exception),
            Mark::Fun | Mark::And => self.begin(Context::Header),
            Mark::Semicolon => self.end_statement(),
            Mark::Comma | Mark::Bar => self.end_part(),
            Mark::OpenRound | Mark::OpenCurly | Mark::OpenSquare => self.open(),
            Mark::CloseRound | Mark::CloseCurly | Mark::CloseSquare => self.close(),
            _ => self.step_in_body(),
        }
    }

    fn step_in_body(&mut self) {
        match self.mark(0) {
            Mark::Let => self.begin_let(),
            Mark::If => self.push(Opening::If),
            Mark::Else => self.begin_else(),
            Mark::Equals => self.begin_value(),
            Mark::Memory => self.begin_store(),
            _ => {}
        }
    }

    /// What the token is that is so many before this one.
    pub fn mark(&self, back: usize) -> Mark {
        match self.at.checked_sub(back) {
            Some(n) => self.mark_at(n),
            None => Mark::Other,
        }
    }

    /// What the token after this one is.
    pub fn next(&self) -> Mark {
        self.mark_at(self.at.saturating_add(1))
    }

    fn mark_at(&self, n: usize) -> Mark {
        match self.tokens.get(n) {
            Some(token) => Mark::of(&token.sort),
            None => Mark::Other,
        }
    }

    /// The name that a token is.
    pub fn name_at(&self, n: usize) -> Option<&'a Name> {
        match self.tokens.get(n) {
            Some(token) => name_of(token),
            None => None,
        }
    }

    /// One more definition at this token; and an occurrence there.
    pub fn define(&mut self, role: Role, owner: Option<usize>) {
        let number = self.definitions.len();
        let it = Definition::new(role, self.at, owner);
        self.note.keep(&mut self.definitions, it);
        self.occur(role, Some(number), self.at);
        if role == Role::Field {
            self.field = Some(number);
        }
        if role.is_global() {
            self.current = Some(number);
        }
    }

    /// The fields that follow are those of the newest definition.
    pub fn own_next(&mut self) {
        self.owner = self.definitions.len().checked_sub(1);
        self.field = None
    }

    /// A layout whose fields the owner has, too.
    pub fn join(&mut self, owner: Option<usize>) {
        let it = Definition::new(Role::Joined, self.at, owner);
        self.note.keep(&mut self.definitions, it);
    }

    /// One more occurrence at this token.
    pub fn occur(&mut self, role: Role, definition: Option<usize>, base: usize) {
        let it = Occurrence {
            token: self.at,
            role,
            definition,
            base,
        };
        self.note.keep(&mut self.occurrences, it);
    }

    /// An occurrence of a variable.
    pub fn variable(&mut self) {
        let at = self.at;
        let definition = match self.name_at(at) {
            Some(name) => self.scope.get(name),
            None => None,
        };
        self.occur(Role::Variable, definition, at)
    }

    /// The bracket around this token.
    pub fn bracket(&self) -> usize {
        for frame in self.frames.iter().rev() {
            if frame.opening == Opening::Bracket {
                return frame.token;
            }
        }
        self.at
    }

    /// The value of the definition at a token has the fields of what is named here.
    pub fn shape(&mut self, back: usize) {
        let token = self.at.saturating_sub(back);
        let shape = self.at;
        if let Some(last) = self.definitions.last_mut() {
            if last.token == token {
                last.shape = Some(shape);
            }
        }
    }

    /// The result of the function that is read has the fields of what is named here.
    pub fn shape_of_current(&mut self) {
        let shape = self.at;
        if let Some(n) = self.current {
            if let Some(it) = self.definitions.get_mut(n) {
                it.shape = Some(shape);
            }
        }
    }

    // A declaration begins.
    fn begin(&mut self, context: Context) {
        self.leave(0);
        self.frames.clear();
        self.context = context;
        self.owner = None;
        self.field = None;
        self.current = None
    }

    fn push(&mut self, opening: Opening) {
        let frame = Frame {
            opening,
            token: self.at,
            mark: self.sight.len(),
            context: self.context,
            owner: self.owner,
            field: self.field,
            first: self.definitions.len(),
            after: self.definitions.len(),
        };
        self.note.keep(&mut self.frames, frame);
    }

    fn begin_let(&mut self) {
        if self.context == Context::Body {
            self.push(Opening::Let);
            self.context = Context::Pattern;
        }
    }

    fn begin_value(&mut self) {
        let after = self.definitions.len();
        if self.context == Context::Pattern {
            if let Some(frame) = self.frames.last_mut() {
                if frame.opening == Opening::Let {
                    frame.after = after;
                    self.context = Context::Body;
                }
            }
        }
    }

    fn begin_store(&mut self) {
        if self.context == Context::Body && self.next() == Mark::OpenRound {
            self.push(Opening::Store)
        }
    }

    fn begin_else(&mut self) {
        for _ in 0..self.frames.len() {
            if self.opening() == Opening::Bracket {
                return;
            }
            if let Some(frame) = self.frames.pop() {
                if frame.opening == Opening::If {
                    self.leave(frame.mark);
                    return self.push(Opening::Else);
                }
            }
        }
    }

    // What the innermost frame is of.
    fn opening(&self) -> Opening {
        match self.frames.last() {
            Some(frame) => frame.opening,
            None => Opening::Bracket,
        }
    }

    fn end_statement(&mut self) {
        if self.frames.is_empty() {
            return self.end_declaration();
        }
        for _ in 0..self.frames.len() {
            if self.opening() == Opening::Bracket {
                return;
            }
            if let Some(frame) = self.frames.pop() {
                if frame.opening == Opening::Let {
                    self.leave(frame.mark);
                    self.context = Context::Body;
                    return self.bind(frame.first, frame.after);
                }
                if frame.opening == Opening::Store {
                    return self.leave(frame.mark);
                }
            }
        }
    }

    fn end_declaration(&mut self) {
        self.end_field();
        self.end_current();
        self.context = Context::Outside
    }

    // The declaration that is read ends here.
    fn end_current(&mut self) {
        let at = self.at;
        if let Some(n) = self.current {
            self.end_definition(n, at)
        }
    }

    fn end_definition(&mut self, n: usize, last: usize) {
        if let Some(it) = self.definitions.get_mut(n) {
            it.last = last;
        }
    }

    fn end_field(&mut self) {
        let last = self.at.saturating_sub(1);
        if let Some(n) = self.field {
            self.end_definition(n, last);
        }
        self.field = None
    }

    // A comma, or the bar of an overlay: what is bound in the part before it is out of sight.
    fn end_part(&mut self) {
        if self.context == Context::Layout || self.context == Context::Type {
            return self.end_field();
        }
        if self.context == Context::Body && self.mark(0) == Mark::Comma {
            self.end_inner_frames()
        }
    }

    // Ends what is begun inside the innermost bracket.
    fn end_inner_frames(&mut self) {
        for _ in 0..self.frames.len() {
            if self.opening() == Opening::Bracket {
                return;
            }
            if let Some(frame) = self.frames.pop() {
                self.leave(frame.mark)
            }
        }
    }

    fn open(&mut self) {
        self.push(Opening::Bracket);
        match self.context {
            Context::Header => self.open_in_header(),
            Context::Exception => self.context = Context::Type,
            Context::Parameters => self.context = Context::Type,
            Context::Layout | Context::Type => self.open_layout(),
            Context::Body => self.open_in_body(),
            _ => {}
        }
    }

    fn open_in_header(&mut self) {
        let before = self.mark(1);
        if before == Mark::Word {
            self.context = Context::Parameters;
            self.first = self.definitions.len();
            self.after = self.first;
        } else if self.mark(0) == Mark::OpenCurly && before != Mark::Colon {
            self.context = Context::Body;
            self.bind_pending()
        } else {
            self.context = Context::Type;
            self.owner = self.current;
            self.field = None
        }
    }

    fn open_layout(&mut self) {
        if self.field.is_some() {
            self.owner = self.field;
            self.field = None
        }
    }

    fn open_in_body(&mut self) {
        if self.mark(0) == Mark::OpenCurly {
            self.bind_pending()
        } else if self.mark(2) == Mark::Handle {
            self.context = Context::Pattern;
            self.first = self.definitions.len();
            self.after = self.first;
        }
    }

    fn close(&mut self) {
        if self.context == Context::Layout || self.context == Context::Type {
            self.end_field();
        }
        for _ in 0..self.frames.len() {
            if let Some(frame) = self.frames.pop() {
                if frame.opening == Opening::Bracket {
                    return self.close_bracket(frame);
                }
            }
        }
    }

    fn close_bracket(&mut self, frame: Frame) {
        let at = self.at;
        if let Some(partner) = self.partners.get_mut(at) {
            *partner = frame.token;
        }
        self.leave(frame.mark);
        let is_list = self.context == Context::Parameters || self.context == Context::Pattern;
        if is_list && frame.context != Context::Pattern {
            self.after = self.definitions.len();
        }
        if self.context == Context::Body && frame.context == Context::Header {
            self.end_current();
        }
        self.context = frame.context;
        self.owner = frame.owner;
        self.field = frame.field
    }

    // Binds what a list of parameters or a handler declares.
    fn bind_pending(&mut self) {
        let first = self.first;
        let after = self.after;
        self.first = after;
        self.bind(first, after)
    }

    fn bind(&mut self, first: usize, after: usize) {
        for n in first..after {
            self.bind_one(n)
        }
    }

    fn bind_one(&mut self, n: usize) {
        let at = self.at;
        let Some(it) = self.definitions.get_mut(n) else {
            return;
        };
        if !it.role.is_local() {
            return;
        }
        it.from = at;
        let token = it.token;
        if let Some(name) = self.name_at(token) {
            self.scope.bind(name, n);
            self.note.keep(&mut self.sight, n)
        }
    }

    // Variables after a mark are no longer in sight.
    fn leave(&mut self, mark: usize) {
        self.scope.leave(mark);
        for _ in mark..self.sight.len() {
            if let Some(n) = self.sight.pop() {
                let at = self.at;
                self.end_definition(n, at)
            }
        }
    }
}

// The name that a token is.
fn name_of(token: &Token) -> Option<&Name> {
    match &token.sort {
        Sort::Word(name) => Some(name),
        _ => None,
    }
}
