//! The state of a walk that collects warnings.

use crate::warning::{Call, Cause, Warning};
use diag_text::declared::{Declared, Scope};
use nv_ast::{Decl, Fun, LayoutText, Name, Program, Span};
use nv_lines::Message;
use std::alloc::Global;

// A variable, and where its name stands.
#[derive(Clone, Copy)]
struct Bound<'a> {
    cause: Cause<'a>,
    span: Span,
    // The number of the read that gives it its value.
    read: Option<usize>,
    // The layout whose fields its value has.
    layout: Option<&'a LayoutText>,
}

// Whether a word of a read is used, or there is a warning that none is.
#[derive(Clone, Copy)]
enum ReadState {
    Unused,
    Used,
    Warned,
}

/// What is declared so far, the variables in sight, and the warnings.
#[derive(Drop)]
pub struct Lint<'a> {
    pub alloc: Global,
    pub layouts: Declared<'a, &'a LayoutText>,
    /// The layouts that are used, the exceptions that are raised, and the calls.
    pub used_layouts: Declared<'a, ()>,
    pub raised: Declared<'a, ()>,
    pub calls: Vec<Call<'a>>,
    /// The function whose body is walked.
    pub current: Option<&'a Name>,
    /// The number of the read whose words are bound.
    pub read: Option<usize>,
    /// The layout whose fields the value has that is bound.
    pub layout: Option<&'a LayoutText>,
    /// The calls of the function by itself with the arguments that it was given, while its body has no access and no other call.
    pub idle: Vec<Span>,
    pub is_idle: bool,
    // The number of the newest variable of each name.
    scope: Scope<'a>,
    variables: Vec<Bound<'a>>,
    // Whether each of them is used.
    used: Vec<bool>,
    reads: Vec<Span>,
    read_states: Vec<ReadState>,
    pub warnings: Vec<Warning<'a>>,
    /// Whether memory ran out.
    pub note: Message,
}

impl<'a> Lint<'a> {
    /// At the start.
    pub fn new(alloc: Global) -> Lint<'a> {
        Lint {
            alloc,
            layouts: Declared::new(alloc),
            used_layouts: Declared::new(alloc),
            raised: Declared::new(alloc),
            calls: Vec::new(alloc),
            current: None,
            read: None,
            layout: None,
            idle: Vec::new(alloc),
            is_idle: true,
            scope: Scope::new(alloc),
            variables: Vec::new(alloc),
            used: Vec::new(alloc),
            reads: Vec::new(alloc),
            read_states: Vec::new(alloc),
            warnings: Vec::new(alloc),
            note: Message::new(alloc),
        }
    }

    /// Goes over a program.
    pub fn program(&mut self, program: &'a Program) {
        for decl in program.decls.iter() {
            self.declaration(decl);
        }
        let reached = self.reached(program);
        for decl in program.decls.iter() {
            self.warn_if_unused(&reached, decl);
        }
    }

    /// Whether memory ran out for anything that the walk keeps.
    pub fn is_short(&self) -> bool {
        self.note.is_short()
            || self.layouts.is_short()
            || self.used_layouts.is_short()
            || self.raised.is_short()
            || self.scope.is_short()
    }

    fn declaration(&mut self, decl: &'a Decl) {
        match decl {
            Decl::Layout(name, text, _) => {
                self.layout_text(text);
                self.layouts.add(name, text)
            }
            Decl::Exception(_, types, _) => self.texts(types),
            Decl::Group(funs) => self.group(funs),
        }
    }

    fn group(&mut self, funs: &'a [Fun]) {
        for fun in funs {
            self.function(fun);
        }
    }

    fn function(&mut self, fun: &'a Fun) {
        self.current = Some(&fun.name);
        self.idle.clear();
        self.is_idle = true;
        self.text(&fun.result);
        for param in fun.params.iter() {
            self.text(&param.1);
            self.bind(Cause::Parameter(&param.0), &param.0, fun.span);
        }
        self.expr(&fun.body);
        self.warn_of_idle();
        self.leave(0)
    }

    // Warns of the calls that never end.
    fn warn_of_idle(&mut self) {
        if self.is_idle {
            for n in 0..self.idle.len() {
                if let Some(span) = self.idle.get(n).copied() {
                    self.warn(Cause::Endless, span);
                }
            }
        }
    }

    /// Whether a name is that of the parameter of a number, which nothing hides.
    pub fn is_parameter(&self, name: &'a Name, number: usize) -> bool {
        let is_first = match self.variables.get(number) {
            Some(bound) => matches!(bound.cause, Cause::Parameter(_)),
            None => false,
        };
        is_first && self.scope.get(name) == Some(number)
    }

    /// The layout whose fields a variable has.
    pub fn layout_of(&self, name: &'a Name) -> Option<&'a LayoutText> {
        let n = self.scope.get(name)?;
        match self.variables.get(n) {
            Some(bound) => bound.layout,
            None => None,
        }
    }

    /// One more warning.
    pub fn warn(&mut self, cause: Cause<'a>, span: Span) {
        self.note.keep(&mut self.warnings, Warning { cause, span })
    }

    /// One more variable. One whose name begins with `_` counts as used.
    pub fn bind(&mut self, cause: Cause<'a>, name: &'a Name, span: Span) {
        let is_used = starts_with_underscore(name);
        let read = self.read;
        let layout = self.layout;
        if is_used {
            self.use_read(read);
        }
        self.scope.bind(name, self.variables.len());
        self.note.keep(
            &mut self.variables,
            Bound {
                cause,
                span,
                read,
                layout,
            },
        );
        self.note.keep(&mut self.used, is_used)
    }

    /// A variable is used: the newest one of the name.
    pub fn use_variable(&mut self, name: &'a Name) {
        let Some(n) = self.scope.get(name) else {
            return;
        };
        if n < self.used.len() {
            self.used[n] = true;
        }
        let read = read_of(&self.variables, n);
        self.use_read(read)
    }

    /// The words of a read are bound next.
    pub fn begin_read(&mut self, span: Span) {
        self.read = Some(self.reads.len());
        self.note.keep(&mut self.reads, span);
        self.note.keep(&mut self.read_states, ReadState::Unused)
    }

    // A word of a read is used.
    fn use_read(&mut self, read: Option<usize>) {
        if let Some(n) = read {
            self.set_read(n, ReadState::Used);
        }
    }

    fn set_read(&mut self, n: usize, state: ReadState) {
        if n < self.read_states.len() {
            self.read_states[n] = state;
        }
    }

    fn read_state(&self, n: usize) -> ReadState {
        match self.read_states.get(n) {
            Some(state) => *state,
            None => ReadState::Used,
        }
    }

    /// How many variables are in sight.
    pub fn mark(&self) -> usize {
        self.variables.len()
    }

    /// Forgets the variables after a mark, and warns of those that aren't used.
    pub fn leave(&mut self, mark: usize) {
        self.scope.leave(mark);
        for _ in mark..self.variables.len() {
            let is_used = self.used.pop().unwrap_or(true);
            match self.variables.pop() {
                Some(bound) if !is_used => self.warn_of_variable(bound),
                _ => {}
            }
        }
    }

    // Warns of a variable that isn't used, or once of the read of which no word is used.
    fn warn_of_variable(&mut self, bound: Bound<'a>) {
        let Some(n) = bound.read else {
            return self.warn(bound.cause, bound.span);
        };
        match self.read_state(n) {
            ReadState::Used => self.warn(bound.cause, bound.span),
            ReadState::Unused => self.warn_of_read(n),
            ReadState::Warned => {}
        }
    }

    /// Warns that no word of a read is used.
    pub fn warn_of_read(&mut self, n: usize) {
        self.set_read(n, ReadState::Warned);
        if let Some(span) = self.reads.get(n).copied() {
            self.warn(Cause::Read, span);
        }
    }
}

// The number of the read that gives a variable its value.
fn read_of(variables: &[Bound], n: usize) -> Option<usize> {
    match variables.get(n) {
        Some(bound) => bound.read,
        None => None,
    }
}

fn starts_with_underscore(name: &Name) -> bool {
    match name.bytes().first() {
        Some(byte) => *byte == b'_',
        None => false,
    }
}
