//! What a token is to the scan for names.

use nv_ast::Sort;

/// What a token is to the scan for names. `Memory` is one of the three memories.
#[derive(Clone, Copy, PartialEq, Eq)]
pub enum Mark {
    Word,
    Number,
    Layout,
    Exception,
    Fun,
    And,
    Let,
    If,
    Else,
    Unpack,
    Pack,
    Raise,
    Handle,
    Memory,
    WordType,
    Packed,
    Unpacked,
    Bar,
    Equals,
    Semicolon,
    Colon,
    Comma,
    Dot,
    OpenRound,
    CloseRound,
    OpenCurly,
    CloseCurly,
    OpenSquare,
    CloseSquare,
    Other,
}

impl Mark {
    /// What a token is.
    pub fn of(sort: &Sort) -> Mark {
        match sort {
            Sort::Word(_) => Mark::Word,
            Sort::Number(_) => Mark::Number,
            Sort::Key(number) => key(*number),
            Sort::Sign(number) => sign(*number),
        }
    }

    /// Whether it opens a bracket.
    pub fn opens(self) -> bool {
        matches!(self, Mark::OpenRound | Mark::OpenCurly | Mark::OpenSquare)
    }

    /// Whether it closes a bracket.
    pub fn closes(self) -> bool {
        matches!(
            self,
            Mark::CloseRound | Mark::CloseCurly | Mark::CloseSquare
        )
    }
}

// The keyword of a number.
fn key(number: u8) -> Mark {
    match number {
        0 => Mark::Layout,
        1 => Mark::Exception,
        2 => Mark::Fun,
        3 => Mark::And,
        4 => Mark::Let,
        5 => Mark::If,
        6 => Mark::Else,
        7 => Mark::Unpack,
        8 => Mark::Pack,
        9 => Mark::Raise,
        11 => Mark::Handle,
        12..=14 => Mark::Memory,
        15 => Mark::WordType,
        17 => Mark::Packed,
        18 => Mark::Unpacked,
        _ => Mark::Other,
    }
}

// The sign of a number.
fn sign(number: u8) -> Mark {
    match number {
        3 => Mark::Bar,
        19 => Mark::Equals,
        20 => Mark::Semicolon,
        21 => Mark::Colon,
        22 => Mark::Comma,
        23 => Mark::Dot,
        24 => Mark::OpenRound,
        25 => Mark::CloseRound,
        26 => Mark::OpenCurly,
        27 => Mark::CloseCurly,
        28 => Mark::OpenSquare,
        29 => Mark::CloseSquare,
        _ => Mark::Other,
    }
}
