// The trees of a program's text.

use crate::token::Span;
use nv_base::{Mem, Name};

/// A declaration. The functions of a group know each other.
#[derive(Drop)]
pub enum Decl {
    Layout(Name, LayoutText, Span),
    Exception(Name, Vec<TyText>, Span),
    Group(Vec<Fun>),
}

/// A function. Its span has neither `fun` nor `and`.
#[derive(Drop)]
pub struct Fun {
    pub name: Name,
    pub params: Vec<(Name, TyText)>,
    pub result: TyText,
    pub body: Expr,
    pub span: Span,
}

/// A layout: a name of another one, bits that are left out, fields in order, or layouts one after another.
#[derive(Drop)]
#[cycle(layout)]
pub enum LayoutText {
    Named(Name),
    Gap(u32),
    Parts(Vec<(Name, FieldText)>),
    Joined(Vec<LayoutText>),
}

/// A field of a layout: a number of bits, a layout, or alternatives that begin at the same bit.
#[derive(Drop)]
#[cycle(layout)]
pub enum FieldText {
    Bits(u32),
    Inner(LayoutText),
    Overlay(Vec<(Name, FieldText)>),
}

/// A type. `Word(n)` is `word[n]`, and `word` is `Word(1)`.
#[derive(Drop)]
pub enum TyText {
    Word(u32),
    Bool,
    Packed(Name),
    Unpacked(Name),
    Tuple(Vec<TyText>),
    Fields(Vec<(Name, TyText)>),
}

/// A pattern.
#[derive(Drop)]
pub enum Pat {
    Name(Name),
    Any,
    Tuple(Vec<Pat>),
}

/// A statement of a block. Its span has the `;`. Of a store the address stands first, then the value.
#[derive(Drop)]
#[cycle(tree)]
pub enum Stmt {
    Let(Pat, Expr, Span),
    Store(Mem, Expr, Expr, Span),
}

/// An expression.
#[derive(Drop)]
#[cycle(tree)]
pub struct Expr {
    pub span: Span,
    pub kind: Kind,
}

/// What an expression is.
#[derive(Drop)]
#[cycle(tree)]
pub enum Kind {
    Number(u32),
    Truth(bool),
    Var(Name),
    Paren(Box<Expr>),
    Tuple(Vec<Expr>),
    Fields(Vec<(Name, Expr)>),
    Dot(Box<Expr>, Name),
    /// `~`
    Invert(Box<Expr>),
    /// `!`
    Negate(Box<Expr>),
    Binary(Op, Box<Expr>, Box<Expr>),
    Shift(ShiftOp, Box<Expr>, u32),
    Call(Name, Vec<Expr>),
    Unpack(Name, Box<Expr>),
    Pack(Name, Box<Expr>),
    Raise(Name, Vec<Expr>),
    If(Box<Expr>, Box<Expr>, Box<Expr>),
    /// The body, the exception with the patterns of its words, and the handler.
    Try(Box<Expr>, Name, Vec<Pat>, Box<Expr>),
    /// N words from an address.
    Fetch(Mem, u32, Box<Expr>),
    Block(Vec<Stmt>, Box<Expr>),
}

/// An operator of two operands. `Both` is `&&` and `Either` is `||`.
#[derive(Clone, Copy)]
pub enum Op {
    Add,
    Sub,
    And,
    Or,
    Xor,
    Eq,
    Ne,
    Lt,
    Le,
    Gt,
    Ge,
    Both,
    Either,
}

/// A shift by a number that stands in the text: `<<`, `>>`, and `<<<`, which rotates left.
#[derive(Clone, Copy)]
pub enum ShiftOp {
    Left,
    Right,
    Rotate,
}
