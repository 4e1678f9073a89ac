// The keywords and signs by name. Each is numbered by its place in the language's list.

pub mod key {
    pub const LAYOUT: u8 = 0;

    pub const EXCEPTION: u8 = 1;

    pub const FUN: u8 = 2;

    pub const AND: u8 = 3;

    pub const LET: u8 = 4;

    pub const IF: u8 = 5;

    pub const ELSE: u8 = 6;

    pub const UNPACK: u8 = 7;

    pub const PACK: u8 = 8;

    pub const RAISE: u8 = 9;

    pub const TRY: u8 = 10;

    pub const HANDLE: u8 = 11;

    pub const SRAM: u8 = 12;

    pub const SDRAM: u8 = 13;

    pub const SCRATCH: u8 = 14;

    pub const WORD: u8 = 15;

    pub const BOOL: u8 = 16;

    pub const PACKED: u8 = 17;

    pub const UNPACKED: u8 = 18;

    pub const OVERLAY: u8 = 19;

    pub const TRUE: u8 = 20;

    pub const FALSE: u8 = 21;

    pub const ANY: u8 = 22;
}

pub mod sign {
    pub const BAR: u8 = 3;

    pub const TILDE: u8 = 5;

    pub const BANG: u8 = 17;

    pub const ARROW: u8 = 18;

    pub const IS: u8 = 19;

    pub const SEMICOLON: u8 = 20;

    pub const COLON: u8 = 21;

    pub const COMMA: u8 = 22;

    pub const DOT: u8 = 23;

    pub const OPEN: u8 = 24;

    pub const CLOSE: u8 = 25;

    pub const OPEN_BRACE: u8 = 26;

    pub const CLOSE_BRACE: u8 = 27;

    pub const OPEN_BRACKET: u8 = 28;

    pub const CLOSE_BRACKET: u8 = 29;

    pub const JOIN: u8 = 30;
}
