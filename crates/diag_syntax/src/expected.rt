//! Which tokens may stand at a place of a text.

use nv_lines::{Message, part};
use nv_text::{MOST_BYTES, Sort, TextError, Token, parse};
use std::alloc::{AllocError, Global};

/// A token of each kind: a name, a number, and each keyword and sign.
const TOKENS: [&str; 56] = [
    "x",
    "1",
    "layout",
    "exception",
    "fun",
    "and",
    "let",
    "if",
    "else",
    "unpack",
    "pack",
    "raise",
    "try",
    "handle",
    "sram",
    "sdram",
    "scratch",
    "word",
    "bool",
    "packed",
    "unpacked",
    "overlay",
    "true",
    "false",
    "_",
    "+",
    "-",
    "&",
    "|",
    "^",
    "~",
    "<<",
    ">>",
    "<<<",
    "==",
    "!=",
    "<",
    "<=",
    ">",
    ">=",
    "&&",
    "||",
    "!",
    "<-",
    "=",
    ";",
    ":",
    ",",
    ".",
    "(",
    ")",
    "{",
    "}",
    "[",
    "]",
    "##",
];

/// The kinds of tokens that may stand at a place.
#[derive(Drop)]
pub struct Expected {
    fitting: Vec<&'static str>,
}

impl Expected {
    /// Those with which the text up to a place still begins a program. Each is tried by reading the text with it.
    pub fn at(
        alloc: Global,
        out: &mut Message,
        bytes: &[u8],
        tokens: &[Token],
        at: usize,
    ) -> Expected {
        let front = part(bytes, declaration_before(tokens, at), at);
        Expected {
            fitting: fitting(alloc, out, front, &TOKENS),
        }
    }

    /// Whether a token of this kind may stand there.
    pub fn has(&self, token: &str) -> bool {
        for it in self.fitting.iter() {
            if it.as_bytes() == token.as_bytes() {
                return true;
            }
        }
        false
    }

    /// Appends what may stand there, in few words.
    pub fn push(&self, alloc: Global, out: &mut Message) {
        let mut words = Vec::new(alloc);
        for group in &GROUPS {
            if self.has(group.mark) {
                out.keep(&mut words, group.name);
            }
        }
        self.keep_others(out, &mut words);
        push_listed(out, &words)
    }

    // Adds the tokens that belong to no group.
    fn keep_others(&self, out: &mut Message, words: &mut Vec<&'static str>) {
        for token in self.fitting.iter() {
            if !self.is_grouped(token) {
                out.keep(words, *token);
            }
        }
    }

    // Whether a token belongs to a group that may stand there.
    fn is_grouped(&self, token: &str) -> bool {
        for group in &GROUPS {
            if self.has(group.mark) && is_one_of(group.tokens, token) {
                return true;
            }
        }
        false
    }
}

// Tokens of one use: where the mark may stand, all of them may, and the name is said in their place.
#[derive(Clone, Copy)]
struct Group {
    mark: &'static str,
    name: &'static str,
    tokens: &'static [&'static str],
}

const GROUPS: [Group; 5] = [
    Group {
        mark: "layout",
        name: "a declaration",
        tokens: &["layout", "exception", "fun", "and"],
    },
    Group {
        mark: "~",
        name: "an expression",
        tokens: &[
            "x", "1", "let", "if", "unpack", "pack", "raise", "try", "sram", "sdram", "scratch",
            "true", "false", "~", "!", "(", "{",
        ],
    },
    Group {
        mark: "&&",
        name: "an operator",
        tokens: &[
            "+", "-", "&", "|", "^", "<<", ">>", "<<<", "==", "!=", "<", "<=", ">", ">=", "&&",
            "||", ".", "[",
        ],
    },
    Group {
        mark: "bool",
        name: "a type",
        tokens: &["word", "bool", "packed", "unpacked", "(", "{"],
    },
    Group {
        mark: "_",
        name: "a pattern",
        tokens: &["x", "_", "("],
    },
];

fn is_one_of(tokens: &[&str], token: &str) -> bool {
    for it in tokens {
        if it.as_bytes() == token.as_bytes() {
            return true;
        }
    }
    false
}

// Appends words with commas and an `or`.
fn push_listed(out: &mut Message, words: &[&str]) {
    if words.is_empty() {
        out.put("nothing");
    }
    for (n, word) in words.iter().enumerate() {
        let is_last = n.saturating_add(1) == words.len();
        out.put(if n == 0 {
            ""
        } else if is_last {
            " or "
        } else {
            ", "
        });
        push_kind(out, word);
    }
}

// Those of some tokens with which a text still begins a program.
fn fitting(
    alloc: Global,
    out: &mut Message,
    front: &[u8],
    tokens: &[&'static str],
) -> Vec<&'static str> {
    let mut fitting = Vec::new(alloc);
    for token in tokens {
        if begins_with(alloc, out, front, token) {
            out.keep(&mut fitting, *token);
        }
    }
    fitting
}

// Appends a group's name, or a kind of tokens.
fn push_kind(out: &mut Message, word: &str) {
    let bytes = word.as_bytes();
    if bytes == b"x".as_slice() {
        out.put("a name")
    } else if bytes == b"1".as_slice() {
        out.put("a number")
    } else if bytes.starts_with(b"a ") || bytes.starts_with(b"an ") {
        out.put(word)
    } else {
        out.quoted(bytes)
    }
}

// The first byte of the last declaration that begins before a place: what stands before it plays no part there.
fn declaration_before(tokens: &[Token], at: usize) -> usize {
    let mut first = 0;
    for token in tokens {
        let place = token.span.first as usize;
        if place < at && begins_declaration(&token.sort) {
            first = place;
        }
    }
    first
}

// Whether a token is `layout`, `exception` or `fun`, the first three keywords, which stand at the prefix of a declaration alone.
fn begins_declaration(sort: &Sort) -> bool {
    match sort {
        Sort::Key(number) => *number < 3,
        _ => false,
    }
}

// Whether a text and after it a token begin a program.
fn begins_with(alloc: Global, out: &mut Message, front: &[u8], token: &str) -> bool {
    let mut text = Message::new(alloc);
    text.bytes(front);
    text.line("");
    text.put(token);
    match text.into_bytes() {
        Ok(text) => begins(alloc, out, &text),
        Err(AllocError) => {
            out.fail();
            false
        }
    }
}

// Whether a text begins a program.
fn begins(alloc: Global, out: &mut Message, text: &[u8]) -> bool {
    if text.len() > MOST_BYTES {
        return false;
    }
    match parse(alloc, text) {
        Ok(_) => true,
        Err(fault) => is_behind(out, fault, text.len()),
    }
}

// Whether a text's fault is that more is wanted after it.
fn is_behind(out: &mut Message, fault: TextError, length: usize) -> bool {
    match fault {
        TextError::Syntax(at) => at as usize >= length,
        TextError::NoMemory => {
            out.fail();
            false
        }
        _ => false,
    }
}
