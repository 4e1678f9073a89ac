//! Expressions in a walk.

use crate::walk::{ExprFacts, Function, Walk};
use diag_text::expected::{ExpectedType, Why};
use diag_text::operators::{operand_of, result_of};
use diag_text::types::{BOOL, Part, WORD};
use nv_ast::{Expr, Fun, Kind, Name, Span};
use nv_base::Mem;
use nv_types_table::cost::Cost;

impl<'a> Walk<'a> {
    /// The body of a function: its size and its need.
    pub fn body(&mut self, fun: &'a Fun) -> Cost {
        let Some(function) = self.functions.get(&fun.name) else {
            return Cost::NONE;
        };
        if self.is_passed_over(fun.body.span) {
            return Cost::NONE;
        }
        self.current = Some(&fun.name);
        self.written.clear();
        self.scope.forget_gone();
        let mark = self.scope.mark();
        self.bind_parameters(fun, function.params);
        let expected = ExpectedType::Typed(function.result, Why::Result(&fun.name));
        let found = self.expr(expected, &fun.body);
        self.scope.leave(mark);
        let words = self.types.words_of(function.params);
        Cost {
            words: 0,
            size: found.cost.size.saturating_add(words).saturating_add(1),
            need: found.cost.need.saturating_add(words),
        }
    }

    // Binds parameters at the parts of the tuple of their types.
    fn bind_parameters(&mut self, fun: &'a Fun, types: usize) {
        for (n, param) in fun.params.iter().enumerate() {
            let t = self.types.tuple_part(types, n).unwrap_or(WORD);
            self.scope.bind(&param.0, t);
        }
    }

    /// An expression, of which something is wanted: first its parts from left to right, then itself.
    #[cycle(walk)]
    pub fn expr(&mut self, expected: ExpectedType<'a>, e: &'a Expr) -> ExprFacts {
        if self.is_over {
            return ExprFacts::NONE;
        }
        let found = self.inner(e.span, &e.kind);
        if self.is_at(e.span) {
            self.explain_value(expected, found.value);
            self.is_over = true;
        }
        found
    }

    #[cycle(walk)]
    fn inner(&mut self, span: Span, kind: &'a Kind) -> ExprFacts {
        match kind {
            Kind::Number(_) => self.found(Some(WORD), Cost::NONE),
            Kind::Truth(_) => self.found(Some(BOOL), Cost::NONE),
            Kind::Var(x) => self.variable(x),
            Kind::Paren(inner) => {
                let part = self.expr(ExpectedType::Value, inner);
                self.found(part.value, part.cost)
            }
            Kind::Tuple(es) => self.tuple(es),
            Kind::Fields(es) => self.fields(span, es),
            Kind::Dot(inner, x) => self.dot(inner, x),
            Kind::Invert(inner) => self.unary(WORD, inner),
            Kind::Negate(inner) => self.unary(BOOL, inner),
            Kind::Binary(_, _, _) => self.binary(kind),
            Kind::Shift(_, inner, n) => {
                self.explain_places(span, *n);
                self.unary(WORD, inner)
            }
            Kind::Call(f, es) => self.call(span, f, es),
            Kind::Unpack(l, inner) => self.unpack(l, inner),
            Kind::Pack(l, inner) => self.pack(l, inner),
            Kind::Raise(x, es) => self.raise(span, x, es),
            Kind::If(_, _, _) => self.choice(kind),
            Kind::Try(_, _, _, _) => self.handled(span, kind),
            Kind::Fetch(mem, n, a) => self.fetch(span, *mem, *n, a),
            Kind::Block(_, _) => self.block(kind),
        }
    }

    /// An expression with its parts.
    pub fn found(&self, value: Option<usize>, parts: Cost) -> ExprFacts {
        let words = match value {
            Some(t) => self.types.words_of(t),
            None => 0,
        };
        ExprFacts {
            value,
            cost: Cost::node(words, parts),
        }
    }

    // The walk is over: what is known of the fault is told.
    fn over(&mut self) -> ExprFacts {
        self.is_over = true;
        ExprFacts::NONE
    }

    fn variable(&mut self, name: &'a Name) -> ExprFacts {
        self.note.keep(&mut self.written, name);
        match self.scope.get(name) {
            Some(t) => self.found(Some(t), Cost::NONE),
            None => {
                self.explain_variable(name);
                self.over()
            }
        }
    }

    #[cycle(walk)]
    fn tuple(&mut self, es: &'a [Expr]) -> ExprFacts {
        let mut types = Vec::new(self.alloc);
        let mut parts = Cost::NONE;
        for e in es {
            let part = self.expr(ExpectedType::Value, e);
            let kind = part.value.unwrap_or(WORD);
            self.note.keep(&mut types, Part { name: None, kind });
            parts = parts.beside(part.cost);
        }
        let t = self.types.tuple(&types);
        self.found(Some(t), parts)
    }

    #[cycle(walk)]
    fn fields(&mut self, span: Span, es: &'a [(Name, Expr)]) -> ExprFacts {
        let mut types = Vec::new(self.alloc);
        let mut parts = Cost::NONE;
        for e in es {
            let part = self.expr(ExpectedType::Value, &e.1);
            let kind = part.value.unwrap_or(WORD);
            self.note.keep(&mut types, Part::named(&e.0, kind));
            parts = parts.beside(part.cost);
        }
        self.record(span, &types, parts)
    }

    // A record with these fields.
    fn record(&mut self, span: Span, types: &[Part<'a>], parts: Cost) -> ExprFacts {
        if self.is_at(span) {
            self.inside = self.kind;
            self.explain_twice(18, types);
        }
        let t = self.types.record(types);
        self.found(Some(t), parts)
    }

    #[cycle(walk)]
    fn dot(&mut self, inner: &'a Expr, name: &'a Name) -> ExprFacts {
        let part = self.expr(ExpectedType::Value, inner);
        let t = part.value.unwrap_or(WORD);
        self.field(t, part.cost, name)
    }

    // A field of a value of this type and cost.
    fn field(&mut self, t: usize, cost: Cost, name: &'a Name) -> ExprFacts {
        match self.types.field(self.alloc, &mut self.note, t, name) {
            Some(field) => self.found(Some(field), cost),
            None => {
                self.explain_field(t, name);
                self.over()
            }
        }
    }

    #[cycle(walk)]
    fn unary(&mut self, t: usize, inner: &'a Expr) -> ExprFacts {
        let part = self.expr(ExpectedType::Typed(t, Why::Operand), inner);
        self.found(Some(t), part.cost)
    }

    #[cycle(walk)]
    fn binary(&mut self, kind: &'a Kind) -> ExprFacts {
        let Kind::Binary(op, a, b) = kind else {
            return ExprFacts::NONE;
        };
        let expected = ExpectedType::Typed(operand_of(*op), Why::of_operator(*op));
        let left = self.expr(expected, a);
        let right = self.expr(expected, b);
        self.found(Some(result_of(*op)), left.cost.beside(right.cost))
    }

    // Arguments, of which the parts of a tuple are wanted in turn.
    #[cycle(walk)]
    fn arguments(&mut self, types: usize, why: Why<'a>, es: &'a [Expr]) -> Cost {
        let mut parts = Cost::NONE;
        for (n, e) in es.iter().enumerate() {
            let expected = self.argument(types, why, es.len(), n);
            let part = self.expr(expected, e);
            parts = parts.beside(part.cost);
        }
        parts
    }

    // What is wanted of one of so many arguments.
    fn argument(&self, types: usize, why: Why<'a>, count: usize, n: usize) -> ExpectedType<'a> {
        let as_many = self.types.tuple_length(types) == Some(count);
        match self.types.tuple_part(types, n) {
            Some(t) if as_many => ExpectedType::Typed(t, why),
            _ => ExpectedType::Value,
        }
    }

    #[cycle(walk)]
    fn call(&mut self, span: Span, name: &'a Name, es: &'a [Expr]) -> ExprFacts {
        let known = self.functions.get(name);
        let function = known.unwrap_or(Function {
            params: WORD,
            result: WORD,
        });
        let parts = self.arguments(function.params, Why::Argument(name), es);
        if self.is_at(span) {
            self.explain_call(name, function.params, es.len());
        }
        if known.is_none() {
            return self.over();
        }
        let called = Cost {
            words: 0,
            ..self.costs.get(name).unwrap_or(Cost::NONE)
        };
        self.found(Some(function.result), parts.beside(called))
    }

    #[cycle(walk)]
    fn unpack(&mut self, layout: &'a Name, inner: &'a Expr) -> ExprFacts {
        let Some(shape) = self.layouts.get(layout) else {
            self.expr(ExpectedType::Value, inner);
            self.explain_unknown_layout(layout);
            return self.over();
        };
        let packed = self.types.of_words(shape.packed_words());
        let part = self.expr(ExpectedType::Typed(packed, Why::Packed(layout)), inner);
        self.found(
            Some(shape.record),
            part.cost.beside(fields_cost(shape.fields)),
        )
    }

    #[cycle(walk)]
    fn pack(&mut self, layout: &'a Name, inner: &'a Expr) -> ExprFacts {
        let Some(shape) = self.layouts.get(layout) else {
            self.expr(ExpectedType::Value, inner);
            self.explain_unknown_layout(layout);
            return self.over();
        };
        let expected = ExpectedType::Typed(shape.record, Why::Unpacked(layout));
        let part = self.expr(expected, inner);
        let t = self.types.of_words(shape.packed_words());
        self.found(Some(t), part.cost.beside(fields_cost(shape.fields)))
    }

    #[cycle(walk)]
    fn raise(&mut self, span: Span, name: &'a Name, es: &'a [Expr]) -> ExprFacts {
        let known = self.exceptions.get(name);
        let types = known.unwrap_or(WORD);
        let parts = self.arguments(types, Why::Raised(name), es);
        if self.is_at(span) {
            self.explain_raise(name, types, es.len());
        }
        if known.is_none() {
            return self.over();
        }
        self.found(None, parts)
    }

    #[cycle(walk)]
    fn choice(&mut self, kind: &'a Kind) -> ExprFacts {
        let Kind::If(c, a, b) = kind else {
            return ExprFacts::NONE;
        };
        let condition = self.expr(ExpectedType::Typed(BOOL, Why::Condition), c);
        let first = self.expr(ExpectedType::Anything, a);
        let second = self.expr(ExpectedType::same_as(first.value, Why::Arm), b);
        let parts = condition.cost.beside(first.cost.beside(second.cost));
        self.found(first.value.or(second.value), parts)
    }

    #[cycle(walk)]
    fn handled(&mut self, span: Span, kind: &'a Kind) -> ExprFacts {
        let Kind::Try(body, exception, patterns, handler) = kind else {
            return ExprFacts::NONE;
        };
        self.tries = self.tries.saturating_add(1);
        let tried = self.expr(ExpectedType::Anything, body);
        self.tries = self.tries.saturating_sub(1);
        let mark = self.scope.mark();
        let known = self.exceptions.get(exception);
        let types = known.unwrap_or(WORD);
        if self.is_at(span) {
            self.explain_handler(exception, types, patterns);
        }
        if known.is_none() {
            return self.over();
        }
        self.bind_all(patterns, types);
        let caught = self.expr(ExpectedType::same_as(tried.value, Why::Handled), handler);
        self.scope.leave(mark);
        let raised = Cost {
            words: self.types.words_of(types),
            ..Cost::NONE
        };
        let parts = raised.beside(tried.cost.beside(caught.cost));
        self.found(tried.value.or(caught.value), parts)
    }

    #[cycle(walk)]
    fn fetch(&mut self, span: Span, mem: Mem, n: u32, address: &'a Expr) -> ExprFacts {
        let part = self.expr(ExpectedType::Typed(WORD, Why::Address), address);
        if self.is_at(span) {
            self.explain_access(mem, u64::from(n), address);
        }
        let t = self.types.of_words(n);
        self.found(Some(t), part.cost)
    }
}

// What the fields of an unpack or a pack cost.
fn fields_cost(fields: u64) -> Cost {
    Cost {
        size: fields.saturating_mul(4),
        ..Cost::NONE
    }
}
