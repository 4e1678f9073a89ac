//! Why a text is no readable memory text.

use nv_base::NoMemory;
use std::alloc::{AllocError, AllocFailed};
use thiserror::Error;

/// Why a text is refused.
#[derive(Clone, Copy, Debug, PartialEq, Eq, Error)]
pub enum ReadableError {
    #[error("no memory")]
    NoMemory,
    /// The bytes of the first token that can't stand there, from one place up to another, and why.
    #[error("the bytes {0} to {1} are not of the format")]
    Bad(u32, u32, Reason),
}

/// Why a token can't stand where it does.
#[derive(Clone, Copy, Debug, PartialEq, Eq)]
pub enum Reason {
    /// Something stands before the first `args`, `sram`, `sdram` or `scratch`.
    Nowhere,
    /// `memory` or `args` behind what they stand before.
    Late,
    /// No number follows that can be a size or an address.
    Number,
    /// A size above 65,536.
    Large,
    /// The bytes reach past the end of their memory.
    Outside,
    /// No bytes are spelled so.
    Bytes,
    /// An odd number of hexadecimal digits.
    Odd,
    /// No word is spelled so.
    Word,
    /// A ninth argument.
    Many,
    /// A text that no quote ends on its line.
    Open,
    /// A backslash before a sign that has no meaning there.
    Escape,
    /// Another word for `args`.
    Arguments,
    /// The first word of an outcome text.
    Outcome,
    /// The first word of a source.
    Source,
    /// The first word of an assembly text.
    Assembly,
    /// A comment of another language.
    Comment,
    /// A colon or an equals sign by itself.
    Apart,
    /// A single quote.
    Quote,
    /// A comma or a semicolon at the end.
    Comma,
    /// The name of a memory in another spelling, or joined to its address.
    Memory,
    /// A zero before a decimal number.
    Zero,
    /// A minus sign.
    Negative,
    /// A number of more than 32 bits.
    Above,
    /// Hexadecimal digits without `0x`.
    Prefix,
    /// Digits and points that are no IPv4 address.
    Four,
    /// A length behind an IPv4 address.
    Mask,
    /// Colons or hyphens in what is no address.
    Address,
    /// The offset of a line of a dump.
    Offset,
}

impl Reason {
    /// A sentence.
    pub fn sentence(self) -> &'static str {
        match self {
            Reason::Nowhere => "expected `sram`, `sdram` or `scratch`",
            Reason::Late => "`memory` stands first, then `args`, then the bytes of the memories",
            Reason::Number => "expected a number",
            Reason::Large => "a memory has at most 65,536 words or quadwords",
            Reason::Outside => "the bytes reach past the end of their memory",
            Reason::Bytes => "no bytes are spelled so",
            Reason::Odd => "an odd number of hexadecimal digits",
            Reason::Word => "no word is spelled so",
            Reason::Many => "there are at most eight arguments",
            Reason::Open => "no quote ends the text on its line",
            Reason::Escape => "no sign is spelled so",
            Reason::Arguments => "the arguments begin with `args`",
            Reason::Outcome => "this is an outcome text, and no memory text",
            Reason::Source => "this is a source, and no memory text",
            Reason::Assembly => "this is an assembly text, and no memory text",
            Reason::Comment => "no comment begins so",
            Reason::Apart => "a sign stands by itself",
            Reason::Quote => "a text stands in double quotes",
            Reason::Comma => "a sign ends the token",
            Reason::Memory => "no memory is called so",
            Reason::Zero => "a zero stands before a decimal number",
            Reason::Negative => "a word has no sign",
            Reason::Above => "a word is at most 4,294,967,295, which is `0xffffffff`",
            Reason::Prefix => "`0x` stands before other than eight hexadecimal digits",
            Reason::Four => "no IPv4 address is spelled so",
            Reason::Mask => "a length stands behind an address",
            Reason::Address => "no address is spelled so",
            Reason::Offset => "an offset stands among the bytes",
        }
    }

    /// What helps.
    pub fn advice(self) -> &'static str {
        match self {
            Reason::Nowhere => "A memory begins as `sdram 0:`, and its bytes follow.",
            Reason::Late =>
                "Each of both is given once at most. Without `memory` the sizes are those that the bytes need.",
            Reason::Number => "Numbers are decimal, or hexadecimal behind `0x`.",
            Reason::Large => "The size of SRAM counts words, that of SDRAM quadwords.",
            Reason::Outside =>
                "`memory SRAM SDRAM` gives the sizes. The program's words of scratch are 0 to 511.",
            Reason::Bytes | Reason::Odd =>
                "Bytes are two hexadecimal digits each, addresses as `10.0.0.1`, or a text in quotes.",
            Reason::Word =>
                "An argument is a decimal number, `0x` and digits, eight hexadecimal digits or an address.",
            Reason::Many | Reason::Above | Reason::Assembly => "",
            Reason::Arguments => "Write `args` and the words that `main` takes.",
            Reason::Outcome =>
                "Its lines from `memory` on are a memory text, with a line `args` behind the first of them.",
            Reason::Source => "The words are SRC MEM: the source stands first.",
            Reason::Comment =>
                "A comment begins with `#` or `//`, and goes on up to the line's end.",
            Reason::Apart => "A colon follows its address at once: `sdram 0:`.",
            Reason::Quote => "Write `\"ping\"`.",
            Reason::Comma => "Blanks and line ends part the tokens.",
            Reason::Memory =>
                "A block begins as `sram 0:`, `sdram 0:` or `scratch 0:`, with a blank before its address.",
            Reason::Zero => "Write `10` without it, or `0x10` for 16.",
            Reason::Negative => "Write -1 as `0xffffffff`.",
            Reason::Prefix => "Write `0xff`. Eight digits need no `0x`.",
            Reason::Four => "It is four numbers of 0 to 255: `10.0.0.1`.",
            Reason::Mask => "Write the address and its mask: `10.0.0.0 255.0.0.0`.",
            Reason::Address =>
                "A hardware address has six pairs of digits, as `02:00:5e:10:00:01`, and an IPv6 address is as `2001:db8::1`.",
            Reason::Offset =>
                "Leave the offsets of a dump out: the address of a block says where its bytes begin.",
            Reason::Open => "Write `\\x22` for a quote and `\\n` for a line's end in a text.",
            Reason::Escape =>
                "There are `\\\\`, `\\n`, `\\r`, `\\t` and `\\x` with two digits, as `\\x22` for a quote.",
        }
    }
}

impl From<NoMemory> for ReadableError {
    fn from(_error: NoMemory) -> ReadableError {
        ReadableError::NoMemory
    }
}

impl From<AllocError> for ReadableError {
    fn from(_error: AllocError) -> ReadableError {
        ReadableError::NoMemory
    }
}

impl<T: Drop> From<AllocFailed<T>> for ReadableError {
    fn from(_error: AllocFailed<T>) -> ReadableError {
        ReadableError::NoMemory
    }
}
