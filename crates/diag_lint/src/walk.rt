//! Expressions, patterns and types in a walk.

use crate::access::is_past_end;
use crate::conditions::decided;
use crate::lint::Lint;
use crate::packing::wide_fields;
use crate::warning::{Call, Cause};
use diag_text::names::add_names;
use nv_ast::{Expr, FieldText, Kind, LayoutText, Name, Pat, Span, Stmt, TyText};
use nv_base::Mem;

impl<'a> Lint<'a> {
    /// The layouts that a type names.
    #[cycle(texts)]
    pub fn text(&mut self, text: &'a TyText) {
        match text {
            TyText::Word(_) | TyText::Bool => {}
            TyText::Packed(x) | TyText::Unpacked(x) => self.use_layout(x),
            TyText::Tuple(texts) => self.texts(texts),
            TyText::Fields(fields) => self.fields_texts(fields),
        }
    }

    /// The same of some types.
    #[cycle(texts)]
    pub fn texts(&mut self, texts: &'a [TyText]) {
        for text in texts {
            self.text(text);
        }
    }

    #[cycle(texts)]
    fn fields_texts(&mut self, fields: &'a [(Name, TyText)]) {
        for field in fields {
            self.text(&field.1);
        }
    }

    fn use_layout(&mut self, name: &'a Name) {
        self.used_layouts.add(name, ())
    }

    /// The layouts that a layout names.
    #[cycle(layouts)]
    pub fn layout_text(&mut self, text: &'a LayoutText) {
        match text {
            LayoutText::Named(x) => self.use_layout(x),
            LayoutText::Gap(_) => {}
            LayoutText::Parts(fields) => self.layout_fields(fields),
            LayoutText::Joined(texts) => {
                for text in texts {
                    self.layout_text(text);
                }
            }
        }
    }

    #[cycle(layouts)]
    fn layout_fields(&mut self, fields: &'a [(Name, FieldText)]) {
        for field in fields {
            match &field.1 {
                FieldText::Bits(_) => {}
                FieldText::Inner(text) => self.layout_text(text),
                FieldText::Overlay(alternatives) => self.layout_fields(alternatives),
            }
        }
    }

    /// An expression.
    #[cycle(walk)]
    pub fn expr(&mut self, e: &'a Expr) {
        match &e.kind {
            Kind::Number(_) | Kind::Truth(_) => {}
            Kind::Var(x) => self.use_variable(x),
            Kind::Paren(inner) | Kind::Dot(inner, _) | Kind::Invert(inner) | Kind::Negate(inner) =>
                self.expr(inner),
            Kind::Shift(_, inner, _) => self.expr(inner),
            Kind::Fetch(mem, n, inner) => {
                self.is_idle = false;
                self.warn_if_past(*mem, u64::from(*n), inner);
                self.expr(inner)
            }
            Kind::Tuple(es) => self.exprs(es),
            Kind::Fields(es) => self.record(es),
            Kind::Binary(_, a, b) => {
                self.expr(a);
                self.expr(b)
            }
            Kind::Call(f, es) => self.call(e.span, f, es),
            Kind::Unpack(l, inner) => {
                self.use_layout(l);
                self.expr(inner)
            }
            Kind::Pack(l, inner) => self.pack(l, inner),
            Kind::Raise(x, es) => {
                self.raised.add(x, ());
                self.exprs(es)
            }
            Kind::If(_, _, _) => self.choice(&e.kind),
            Kind::Try(_, _, _, _) => self.handled(&e.kind),
            Kind::Block(_, _) => self.block(&e.kind),
        }
    }

    #[cycle(walk)]
    fn exprs(&mut self, es: &'a [Expr]) {
        for e in es {
            self.expr(e);
        }
    }

    #[cycle(walk)]
    fn record(&mut self, es: &'a [(Name, Expr)]) {
        for e in es {
            self.expr(&e.1);
        }
    }

    #[cycle(walk)]
    fn call(&mut self, span: Span, callee: &'a Name, es: &'a [Expr]) {
        if let Some(caller) = self.current {
            let call = Call {
                caller,
                callee,
                span,
            };
            self.note.keep(&mut self.calls, call);
            if caller != callee {
                self.is_idle = false;
            } else if self.are_parameters(es) {
                self.note.keep(&mut self.idle, span);
            }
        }
        self.exprs(es)
    }

    // Whether arguments are the parameters in order.
    fn are_parameters(&self, es: &'a [Expr]) -> bool {
        for (n, e) in es.iter().enumerate() {
            match &e.kind {
                Kind::Var(x) if self.is_parameter(x, n) => {}
                _ => return false,
            }
        }
        true
    }

    // Warns of an access behind the end of every memory.
    fn warn_if_past(&mut self, mem: Mem, words: u64, address: &'a Expr) {
        if is_past_end(mem, words, address) {
            self.warn(Cause::Past(mem), address.span);
        }
    }

    #[cycle(walk)]
    fn pack(&mut self, layout: &'a Name, inner: &'a Expr) {
        self.use_layout(layout);
        if let (Some(text), Kind::Fields(es)) = (self.layouts.get(layout), &inner.kind) {
            wide_fields(self, text, es);
        }
        self.expr(inner)
    }

    #[cycle(walk)]
    fn choice(&mut self, kind: &'a Kind) {
        let Kind::If(condition, first, second) = kind else {
            return;
        };
        self.warn_if_decided(condition);
        self.expr(condition);
        self.expr(first);
        self.expr(second)
    }

    fn warn_if_decided(&mut self, condition: &'a Expr) {
        if let Some(is_true) = decided(self, condition) {
            self.warn(Cause::Condition(is_true), condition.span);
        }
    }

    #[cycle(walk)]
    fn handled(&mut self, kind: &'a Kind) {
        let Kind::Try(body, _, patterns, handler) = kind else {
            return;
        };
        self.expr(body);
        let mark = self.mark();
        let head = Span {
            first: body.span.after,
            after: handler.span.first,
        };
        for p in patterns {
            let _ = self.pattern(p, head);
        }
        self.expr(handler);
        self.leave(mark)
    }

    #[cycle(walk)]
    fn block(&mut self, kind: &'a Kind) {
        let Kind::Block(statements, last) = kind else {
            return;
        };
        let mark = self.mark();
        for statement in statements {
            self.statement(statement);
        }
        self.expr(last);
        self.leave(mark)
    }

    #[cycle(walk)]
    fn statement(&mut self, statement: &'a Stmt) {
        match statement {
            Stmt::Let(p, e, span) => {
                self.expr(e);
                self.binding(p, e, *span)
            }
            Stmt::Store(mem, address, e, _) => {
                self.is_idle = false;
                self.warn_if_past(*mem, 1, address);
                self.expr(address);
                self.expr(e)
            }
        }
    }

    // Binds the names of a `let`, at an expression that is walked.
    fn binding(&mut self, p: &'a Pat, e: &'a Expr, span: Span) {
        let head = Span {
            first: span.first,
            after: e.span.first,
        };
        if let Kind::Fetch(_, _, _) = &e.kind {
            self.begin_read(e.span);
        }
        if let (Pat::Name(_), Kind::Unpack(l, _)) = (p, &e.kind) {
            self.layout = self.layouts.get(l);
        }
        let count = self.pattern(p, head);
        match self.read {
            Some(n) if count == 0 => self.warn_of_read(n),
            _ => {}
        }
        self.layout = None;
        self.read = None
    }

    // Binds the names of a pattern, and gives how many there are.
    fn pattern(&mut self, p: &'a Pat, head: Span) -> usize {
        let mut names = Vec::new(self.alloc);
        add_names(&mut self.note, p, &mut names);
        for name in names.iter() {
            self.bind(Cause::Variable(*name), *name, head);
        }
        names.len()
    }
}
