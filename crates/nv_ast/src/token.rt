// Tokens.

use nv_base::Name;

/// A stretch of the text: its first byte, and the byte after its last one.
#[derive(Clone, Copy, Debug, PartialEq, Eq)]
pub struct Span {
    pub first: u32,
    pub after: u32,
}

/// A token and where it stands.
#[derive(Drop)]
pub struct Token {
    pub span: Span,
    pub sort: Sort,
}

/// What a token is. Keywords and signs are numbered from 0 in the order of the language's list of them.
#[derive(Drop)]
pub enum Sort {
    Word(Name),
    Number(u32),
    Key(u8),
    Sign(u8),
}
