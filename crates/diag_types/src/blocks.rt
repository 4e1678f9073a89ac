//! Blocks and patterns in a walk, and the words that the lets of a block hold.

use crate::walk::{ExprFacts, Walk};
use diag_text::expected::{ExpectedType, Why};
use diag_text::types::WORD;
use indexmap::IndexMap;
use nv_ast::{Kind, Name, Pat, Stmt};
use nv_base::NoMemory;
use nv_types_table::cost::Cost;
use nv_types_table::needs::{Step, greatest_need};

// A statement of a block, with its size.
#[derive(Clone, Copy)]
struct Statement<'a> {
    step: Step<'a>,
    size: u64,
}

impl<'a> Statement<'a> {
    // Where a walk is over.
    fn none() -> Statement<'a> {
        Statement {
            step: Step {
                before: 0,
                need: 0,
                pattern: None,
                words: 0,
            },
            size: 0,
        }
    }
}

impl<'a> Walk<'a> {
    /// A block.
    #[cycle(walk)]
    pub fn block(&mut self, kind: &'a Kind) -> ExprFacts {
        let Kind::Block(statements, last) = kind else {
            return ExprFacts::NONE;
        };
        let mark = self.scope.mark();
        let first = self.written.len();
        let mut steps = Vec::new(self.alloc);
        let mut size: u64 = 0;
        for statement in statements {
            let part = self.statement(statement);
            size = size.saturating_add(part.size);
            self.note.keep(&mut steps, part.step);
        }
        let before = self.written.len();
        let result = self.expr(ExpectedType::Anything, last);
        self.scope.leave(mark);
        let need = self.block_need(first, &steps, before, result.cost.need);
        ExprFacts {
            value: result.value,
            cost: block_cost(result.cost, size, need),
        }
    }

    #[cycle(walk)]
    fn statement(&mut self, statement: &'a Stmt) -> Statement<'a> {
        match statement {
            Stmt::Let(_, _, _) => self.binding(statement),
            Stmt::Store(_, _, _, _) => self.store(statement),
        }
    }

    #[cycle(walk)]
    fn binding(&mut self, statement: &'a Stmt) -> Statement<'a> {
        let Stmt::Let(p, e, span) = statement else {
            return Statement::none();
        };
        let before = self.written.len();
        let part = self.expr(ExpectedType::Value, e);
        let t = part.value.unwrap_or(WORD);
        if self.is_at(*span) {
            self.explain_pattern(p, t);
            self.is_over = true;
        }
        self.bind(p, t);
        let step = Step {
            before,
            need: part.cost.words.saturating_add(part.cost.need),
            pattern: Some(p),
            words: part.cost.words,
        };
        let size = part.cost.size.saturating_add(1);
        Statement { step, size }
    }

    #[cycle(walk)]
    fn store(&mut self, statement: &'a Stmt) -> Statement<'a> {
        let Stmt::Store(mem, a, e, span) = statement else {
            return Statement::none();
        };
        let before = self.written.len();
        let address = self.expr(ExpectedType::Typed(WORD, Why::Address), a);
        let stored = self.expr(ExpectedType::Stored, e);
        if self.is_at(*span) {
            self.explain_access(*mem, stored.cost.words, a);
            self.is_over = true;
        }
        let parts = Cost::node(0, address.cost.beside(stored.cost));
        let step = Step {
            before,
            need: parts.need,
            pattern: None,
            words: 0,
        };
        let size = parts.size;
        Statement { step, size }
    }

    // The greatest need of a block's parts, each with the words that earlier lets hold for it and what
    // follows. Its variables are those written from `first` on, those of its tail from `last` on.
    fn block_need(&mut self, first: usize, steps: &[Step<'a>], last: usize, tail_need: u64) -> u64 {
        let ends = self.last_places(first);
        match greatest_need(self.alloc, &ends, steps, last, tail_need) {
            Ok(need) => need,
            Err(NoMemory) => {
                self.note.fail();
                0
            }
        }
    }

    // For each variable that is written from a place on, the place after the last one.
    fn last_places(&mut self, first: usize) -> IndexMap<&'a Name, usize> {
        let mut ends = IndexMap::new(self.alloc);
        for (n, name) in self.written.iter().enumerate() {
            if n >= first {
                let is_short = ends.insert(*name, n.saturating_add(1)).is_err();
                self.note.fail_if(is_short);
            }
        }
        ends
    }

    /// Binds the variables of a pattern at a type.
    #[cycle(bind)]
    pub fn bind(&mut self, p: &'a Pat, t: usize) {
        match p {
            Pat::Name(x) => self.scope.bind(x, t),
            Pat::Any => {}
            Pat::Tuple(ps) => self.bind_all(ps, t),
        }
    }

    /// Binds the variables of patterns at the parts of a tuple.
    #[cycle(bind)]
    pub fn bind_all(&mut self, ps: &'a [Pat], t: usize) {
        for (n, p) in ps.iter().enumerate() {
            let kind = self.types.tuple_part(t, n).unwrap_or(WORD);
            self.bind(p, kind);
        }
    }
}

// What a block costs whose tail costs this and whose statements have this size, with the greatest need of its parts.
fn block_cost(tail: Cost, size: u64, need: u64) -> Cost {
    Cost {
        words: tail.words,
        size: size
            .saturating_add(tail.size)
            .saturating_add(tail.words)
            .saturating_add(1),
        need: need.saturating_add(2),
    }
}
