//! The points of a program that a run comes to.

use nv_ast::{Decl, Expr, Fun, Kind, Name, Program, Span, Stmt};
use nv_base::{Mem, NoMemory};
use std::alloc::Global;

/// What stands at a point.
#[derive(Clone, Copy)]
pub enum Sort<'a> {
    /// The body of the function of this name.
    Body(&'a Name),
    Let,
    Store(Mem),
    Then,
    Else,
    Handler,
    /// So many words are fetched.
    Fetch(Mem, u32),
    Raise(&'a Name),
}

/// A point: what stands there, the part of the text that it is, and the first byte of the expression with which it begins.
#[derive(Clone, Copy)]
pub struct Point<'a> {
    pub sort: Sort<'a>,
    pub span: Span,
    pub begin: u32,
}

/// The points of a program, those that hold others first.
pub fn points_of<'a>(alloc: Global, program: &'a Program) -> Result<Vec<Point<'a>>, NoMemory> {
    let mut walk = Walk {
        points: Vec::new(alloc),
        is_short: false,
    };
    for decl in program.decls.iter() {
        walk.declaration(decl);
    }
    let Walk { points, is_short } = walk;
    if is_short { Err(NoMemory) } else { Ok(points) }
}

// The points so far, and whether memory ran out.
#[derive(Drop)]
struct Walk<'a> {
    points: Vec<Point<'a>>,
    is_short: bool,
}

impl<'a> Walk<'a> {
    fn add(&mut self, sort: Sort<'a>, span: Span, begin: u32) {
        if self.points.push(Point { sort, span, begin }).is_err() {
            self.is_short = true;
        }
    }

    fn declaration(&mut self, decl: &'a Decl) {
        match decl {
            Decl::Group(group) => self.functions(group),
            Decl::Layout(_, _, _) | Decl::Exception(_, _, _) => {}
        }
    }

    fn functions(&mut self, group: &'a [Fun]) {
        for f in group {
            self.add(Sort::Body(&f.name), f.span, f.body.span.first);
            self.expr(&f.body);
        }
    }

    #[cycle(walk)]
    fn expr(&mut self, e: &'a Expr) {
        match &e.kind {
            Kind::Number(_) | Kind::Truth(_) | Kind::Var(_) => {}
            Kind::Paren(a)
            | Kind::Dot(a, _)
            | Kind::Invert(a)
            | Kind::Negate(a)
            | Kind::Shift(_, a, _)
            | Kind::Unpack(_, a)
            | Kind::Pack(_, a) => self.expr(a),
            Kind::Fetch(mem, n, a) => {
                self.add(Sort::Fetch(*mem, *n), e.span, e.span.first);
                self.expr(a)
            }
            Kind::Tuple(es) | Kind::Call(_, es) => self.exprs(es),
            Kind::Fields(es) => self.record(es),
            Kind::Binary(_, a, b) => {
                self.expr(a);
                self.expr(b)
            }
            Kind::Raise(x, es) => {
                self.add(Sort::Raise(x), e.span, e.span.first);
                self.exprs(es)
            }
            Kind::If(c, a, b) => {
                self.expr(c);
                self.arm(Sort::Then, a);
                self.arm(Sort::Else, b)
            }
            Kind::Try(a, _, _, h) => {
                self.expr(a);
                self.arm(Sort::Handler, h)
            }
            Kind::Block(statements, tail) => {
                self.statements(statements);
                self.expr(tail)
            }
        }
    }

    #[cycle(walk)]
    fn arm(&mut self, sort: Sort<'a>, e: &'a Expr) {
        self.add(sort, e.span, e.span.first);
        self.expr(e)
    }

    #[cycle(walk)]
    fn exprs(&mut self, es: &'a [Expr]) {
        for e in es {
            self.expr(e);
        }
    }

    #[cycle(walk)]
    fn record(&mut self, es: &'a [(Name, Expr)]) {
        for e in es {
            self.expr(&e.1);
        }
    }

    #[cycle(walk)]
    fn statements(&mut self, statements: &'a [Stmt]) {
        for it in statements {
            match it {
                Stmt::Let(_, e, span) => {
                    self.add(Sort::Let, *span, e.span.first);
                    self.expr(e)
                }
                Stmt::Store(mem, a, e, span) => {
                    self.add(Sort::Store(*mem), *span, a.span.first);
                    self.expr(a);
                    self.expr(e)
                }
            }
        }
    }
}

impl<'a> Point<'a> {
    /// Whether a byte stands in it.
    pub fn holds(&self, at: u32) -> bool {
        self.span.first <= at && at < self.span.after
    }
}

/// The innermost store that holds a byte.
pub fn innermost_store<'a, 'p>(points: &'p [Point<'a>], at: u32) -> Option<&'p Point<'a>> {
    let mut found = None;
    for point in points {
        if matches!(point.sort, Sort::Store(_)) && point.holds(at) {
            found = Some(point);
        }
    }
    found
}
