//! A walk over a program, up to a fault or over the whole of it. It finds the types and sizes that are told of both.
//! What it finds goes into the text that is printed; where the fault lies, `check` has said before.

use diag_text::declared::{Declared, Scope};
use diag_text::types::{BOOL, Part, Types};
use nv_ast::{Decl, Fun, Name, Program, Span, TyText};
use nv_lines::Message;
use nv_types_table::cost::Cost;
use std::alloc::Global;

/// A function: the tuple of its parameters' types, and its result's type.
#[derive(Clone, Copy)]
pub struct Function {
    pub params: usize,
    pub result: usize,
}

/// A layout: its bits, how many bit fields it has, and the record of its unpacked fields.
#[derive(Clone, Copy)]
pub struct Shape {
    pub bits: u64,
    pub fields: u64,
    pub record: usize,
}

impl Shape {
    /// How many words a packed value has.
    pub fn packed_words(self) -> u32 {
        (self.bits.min(1024) as u32).div_ceil(32)
    }
}

/// An expression: the type of its value, if it has one, and what it costs.
#[derive(Clone, Copy)]
pub struct ExprFacts {
    pub value: Option<usize>,
    pub cost: Cost,
}

impl ExprFacts {
    /// Nothing, where a walk is over.
    pub const NONE: ExprFacts = ExprFacts {
        value: None,
        cost: Cost::NONE,
    };
}

/// The state of a walk: what is declared so far, the fault that is looked for, and what is told of it.
#[derive(Drop)]
pub struct Walk<'a> {
    pub alloc: Global,
    /// The types that were met, to which the numbers below belong.
    pub types: Types<'a>,
    pub layouts: Declared<'a, Shape>,
    /// The tuple of each exception's types.
    pub exceptions: Declared<'a, usize>,
    pub functions: Declared<'a, Function>,
    /// What calls of the functions of groups that are behind cost.
    pub costs: Declared<'a, Cost>,
    /// What each function of these groups is by itself.
    pub own: Declared<'a, Cost>,
    pub scope: Scope<'a>,
    /// The function whose body is walked.
    pub current: Option<&'a Name>,
    /// The variables that were written in it so far.
    pub written: Vec<&'a Name>,
    pub kind: u8,
    pub span: Span,
    /// Where the faults lie that were told before: a body that has one of them is passed over.
    told: Vec<Span>,
    /// The kind while the declaration that has the fault is walked, else 0.
    pub inside: u8,
    /// In how many blocks of a `try` the walk is.
    pub tries: u32,
    /// The name that is given twice, where that is told.
    pub culprit: Option<&'a Name>,
    /// Whether the fault is told, and nothing after it is walked.
    pub is_over: bool,
    /// A sentence on the fault, where more is known than the kind.
    pub title: Message,
    /// What is told of the fault.
    pub note: Message,
    /// What helps, where more is known than the kind.
    pub advice: Option<&'static str>,
}

impl<'a> Walk<'a> {
    /// At the start, with a fault that is looked for. Of kind 0 there is none.
    pub fn new(alloc: Global, kind: u8, span: Span) -> Walk<'a> {
        Walk {
            alloc,
            types: Types::new(alloc),
            layouts: Declared::new(alloc),
            exceptions: Declared::new(alloc),
            functions: Declared::new(alloc),
            costs: Declared::new(alloc),
            own: Declared::new(alloc),
            scope: Scope::new(alloc),
            current: None,
            written: Vec::new(alloc),
            kind,
            span,
            told: Vec::new(alloc),
            inside: 0,
            tries: 0,
            culprit: None,
            is_over: false,
            title: Message::new(alloc),
            note: Message::new(alloc),
            advice: None,
        }
    }

    /// Passes over the body that has a fault at a span, since it was told before.
    pub fn pass_over(&mut self, span: Span) {
        self.note.keep(&mut self.told, span)
    }

    /// Whether a body has a fault that was told before.
    pub fn is_passed_over(&self, body: Span) -> bool {
        for span in &self.told {
            if body.first <= span.first && span.after <= body.after {
                return true;
            }
        }
        false
    }

    /// Goes over a program, up to the fault.
    pub fn program(&mut self, program: &'a Program) {
        self.types.begin();
        for decl in program.decls.iter() {
            if self.is_over {
                return;
            }
            self.declaration(decl);
        }
    }

    fn declaration(&mut self, decl: &'a Decl) {
        match decl {
            Decl::Layout(name, text, span) => self.layout(name, text, *span),
            Decl::Exception(name, types, span) => self.exception(name, types, *span),
            Decl::Group(funs) => self.group(funs),
        }
    }

    /// Whether memory ran out for anything that the walk keeps or tells.
    pub fn is_short(&self) -> bool {
        self.note.is_short()
            || self.title.is_short()
            || self.types.is_short()
            || self.scope.is_short()
            || self.layouts.is_short()
            || self.exceptions.is_short()
            || self.functions.is_short()
            || self.costs.is_short()
            || self.own.is_short()
    }

    /// Whether the fault lies at a span, and isn't told yet.
    pub fn is_at(&self, span: Span) -> bool {
        !self.is_over
            && self.kind != 0
            && span.first == self.span.first
            && span.after == self.span.after
    }

    /// Begins a declaration, whose inner faults are told while it is walked.
    pub fn enter(&mut self, span: Span) {
        self.inside = if self.is_at(span) { self.kind } else { 0 };
    }

    /// Ends a declaration: where it has the fault, nothing after it is walked.
    pub fn leave(&mut self, span: Span) {
        self.inside = 0;
        if self.is_at(span) {
            self.is_over = true;
        }
    }

    fn exception(&mut self, name: &'a Name, types: &'a [TyText], span: Span) {
        self.enter(span);
        let parts = self.texts(types);
        let t = self.types.tuple(&parts);
        self.explain_declaration(t);
        self.leave(span);
        self.exceptions.add(name, t)
    }

    // The functions of a group: first the types of all, then the bodies.
    fn group(&mut self, funs: &'a [Fun]) {
        for fun in funs {
            if self.is_over {
                return;
            }
            self.signature(fun);
        }
        let whole = self.bodies(funs);
        if self.is_over {
            return;
        }
        for fun in funs {
            self.costs.add(&fun.name, whole);
        }
    }

    // What the bodies of a group cost.
    fn bodies(&mut self, funs: &'a [Fun]) -> Cost {
        let mut whole = Cost::NONE;
        for fun in funs {
            let cost = self.body(fun);
            if self.is_over {
                return whole;
            }
            self.own.add(&fun.name, cost);
            whole = whole.beside(cost);
        }
        whole
    }

    fn signature(&mut self, fun: &'a Fun) {
        self.enter(fun.span);
        let params = self.parameters(&fun.params);
        let result = self.text(&fun.result);
        self.explain_function(fun, params, result);
        self.leave(fun.span);
        self.functions.add(&fun.name, Function { params, result })
    }

    // The tuple of the types of parameters.
    fn parameters(&mut self, params: &'a [(Name, TyText)]) -> usize {
        let mut parts = Vec::new(self.alloc);
        for param in params {
            let kind = self.text(&param.1);
            self.note.keep(&mut parts, Part { name: None, kind });
        }
        self.types.tuple(&parts)
    }

    /// The types of some type texts.
    #[cycle(texts)]
    pub fn texts(&mut self, texts: &'a [TyText]) -> Vec<Part<'a>> {
        let mut parts = Vec::new(self.alloc);
        for text in texts {
            let kind = self.text(text);
            self.note.keep(&mut parts, Part { name: None, kind });
        }
        parts
    }

    // The types of some named type texts.
    #[cycle(texts)]
    fn named_texts(&mut self, texts: &'a [(Name, TyText)]) -> Vec<Part<'a>> {
        let mut parts = Vec::new(self.alloc);
        for text in texts {
            let kind = self.text(&text.1);
            self.note.keep(&mut parts, Part::named(&text.0, kind));
        }
        parts
    }

    /// The type of a type text.
    #[cycle(texts)]
    pub fn text(&mut self, text: &'a TyText) -> usize {
        let t = self.plain_text(text);
        self.explain_large(t);
        t
    }

    #[cycle(texts)]
    fn plain_text(&mut self, text: &'a TyText) -> usize {
        match text {
            TyText::Word(n) => {
                self.explain_words(*n);
                self.types.of_words(*n)
            }
            TyText::Bool => BOOL,
            TyText::Packed(x) => {
                let shape = self.shape_of(x);
                self.types.of_words(shape.packed_words())
            }
            TyText::Unpacked(x) => self.shape_of(x).record,
            TyText::Tuple(texts) => {
                let parts = self.texts(texts);
                self.types.tuple(&parts)
            }
            TyText::Fields(texts) => {
                let parts = self.named_texts(texts);
                self.explain_twice(8, &parts);
                self.types.record(&parts)
            }
        }
    }

    // The layout of a name in a type.
    fn shape_of(&mut self, name: &'a Name) -> Shape {
        match self.layouts.get(name) {
            Some(shape) => shape,
            None => {
                self.explain_layout_name(8, name);
                Shape {
                    bits: 32,
                    fields: 0,
                    record: 0,
                }
            }
        }
    }
}
