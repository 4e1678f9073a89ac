//! A place among the tokens of a text, and what stands around it.

use nv_ast::Span;
use nv_lines::part;
use nv_text::{Sort, Token};

/// A token of a text. The tokens before it are counted back from it: 0 is the token itself. After the text's end there is none.
#[derive(Clone, Copy)]
pub struct Place<'a, 't> {
    bytes: &'a [u8],
    tokens: &'t [Token],
    index: usize,
}

impl<'a, 't> Place<'a, 't> {
    /// The first token from a byte on.
    pub fn at(bytes: &'a [u8], tokens: &'t [Token], at: usize) -> Place<'a, 't> {
        Place {
            bytes,
            tokens,
            index: first_from(tokens, at),
        }
    }

    /// The place of a number among the same tokens.
    pub fn moved(&self, index: usize) -> Place<'a, 't> {
        Place {
            bytes: self.bytes,
            tokens: self.tokens,
            index,
        }
    }

    /// The token that is so many after it.
    pub fn later(&self, count: usize) -> Place<'a, 't> {
        self.moved(self.index.saturating_add(count))
    }

    /// Whether the token is a number from 1 to this.
    pub fn is_size(&self, most: u32) -> bool {
        match self.tokens.get(self.index) {
            Some(token) => is_number_to(&token.sort, most),
            None => false,
        }
    }

    /// Whether the token is the name of a parameter.
    pub fn is_parameter(&self) -> bool {
        let is_first = self.is(1, "[") || self.is(1, ",");
        is_first && self.later(1).is(0, ":") && self.is_in_square_brackets()
    }

    /// The number of the token.
    pub fn index(&self) -> usize {
        self.index
    }

    /// The span of the token that is so many before it, or of the byte after the last one.
    pub fn span(&self, back: usize) -> Span {
        let end = self.bytes.len().min(u32::MAX as usize) as u32;
        let after = Span {
            first: end,
            after: end,
        };
        match self.index.checked_sub(back) {
            Some(n) => span_of(self.tokens, n).unwrap_or(after),
            None => after,
        }
    }

    /// The bytes of the token that is so many before it, or none.
    pub fn text(&self, back: usize) -> &'a [u8] {
        let span = self.span(back);
        part(self.bytes, span.first as usize, span.after as usize)
    }

    /// Whether the token that is so many before it is this.
    pub fn is(&self, back: usize, text: &str) -> bool {
        self.text(back) == text.as_bytes()
    }

    /// Whether the token after it is this.
    pub fn next_is(&self, text: &str) -> bool {
        self.later(1).is(0, text)
    }

    /// Whether the token that is so many before it is one of these.
    pub fn is_among(&self, back: usize, texts: &[&str]) -> bool {
        let text = self.text(back);
        for it in texts {
            if text == it.as_bytes() {
                return true;
            }
        }
        false
    }

    /// Whether the token that is so many before it is a keyword or a name.
    pub fn is_word(&self, back: usize) -> bool {
        match self.text(back).first() {
            Some(byte) => byte.is_ascii_alphabetic() || *byte == b'_',
            None => false,
        }
    }

    /// Whether the token that is so many before it is a name, and no keyword.
    pub fn is_name(&self, back: usize) -> bool {
        match self.token(back) {
            Some(token) => matches!(token.sort, Sort::Word(_)),
            None => false,
        }
    }

    fn token(&self, back: usize) -> Option<&'t Token> {
        self.tokens.get(self.index.checked_sub(back)?)
    }

    /// Whether the token that is so many before it is a number.
    pub fn is_number(&self, back: usize) -> bool {
        match self.text(back).first() {
            Some(byte) => byte.is_ascii_digit(),
            None => false,
        }
    }

    /// Whether the token begins right after the one before it.
    pub fn is_joined(&self) -> bool {
        self.span(1).after == self.span(0).first
    }

    /// Whether a line ends between the token and the one before it.
    pub fn is_on_new_line(&self) -> bool {
        let from = self.span(1).after as usize;
        let to = self.span(0).first as usize;
        for byte in part(self.bytes, from, to) {
            if *byte == b'\n' {
                return true;
            }
        }
        false
    }

    /// Whether the text declares a function of the name that is so many tokens before it.
    pub fn declares(&self, back: usize) -> bool {
        let name = self.text(back);
        for n in 0..self.tokens.len() {
            let place = self.moved(n);
            if place.text(0) == name && place.is_among(1, &["fun", "and"]) {
                return true;
            }
        }
        false
    }

    /// Whether the token that is so many before it stands at one place of the text alone.
    pub fn stands_once(&self, back: usize) -> bool {
        let name = self.text(back);
        let mut count: usize = 0;
        for n in 0..self.tokens.len() {
            if self.moved(n).text(0) == name {
                count = count.saturating_add(1);
            }
        }
        count == 1
    }

    /// Whether the token begins a declaration.
    pub fn begins_declaration(&self) -> bool {
        self.is_among(0, &["fun", "layout", "exception"])
    }

    /// Whether the token is a `;` after which a declaration or nothing follows.
    pub fn ends_declaration(&self) -> bool {
        let next = self.later(1);
        self.is(0, ";") && (next.text(0).is_empty() || next.begins_declaration())
    }

    /// Whether the token opens a bracket behind which `<-` stands.
    pub fn is_before_arrow(&self) -> bool {
        let mut open: usize = 0;
        for n in self.index..self.tokens.len() {
            let place = self.moved(n);
            if place.is_among(0, &OPENING) {
                open = open.saturating_add(1);
            } else if place.is_among(0, &CLOSING) {
                open = open.saturating_sub(1);
                if open == 0 {
                    return place.next_is("<-");
                }
            }
        }
        false
    }

    /// Whether the token is in the brackets of the pattern behind a `let`.
    pub fn is_in_pattern(&self) -> bool {
        match self.open_bracket() {
            Some(open) => open.is(0, "(") && (open.is(1, "let") || open.is_in_pattern_of_let()),
            None => false,
        }
    }

    // Whether only brackets and names stand between the token and a `let` before it.
    fn is_in_pattern_of_let(&self) -> bool {
        for n in (0..self.index).rev() {
            let place = self.moved(n);
            if place.is(0, "let") {
                return true;
            }
            if !place.is_among(0, &["(", ",", ")"]) && !place.is_word(0) {
                return false;
            }
        }
        false
    }

    /// Whether the token is in the brackets behind `handle` and a name.
    pub fn is_in_handler(&self) -> bool {
        match self.open_bracket() {
            Some(open) => open.is(0, "[") && open.is(2, "handle"),
            None => false,
        }
    }

    /// Whether an `if` is in the `let` before the token.
    pub fn is_after_choice(&self) -> bool {
        for n in (0..self.index).rev() {
            let place = self.moved(n);
            if place.is(0, "if") {
                return true;
            }
            if place.is_among(0, &["let", ";"]) {
                return false;
            }
        }
        false
    }

    /// The bracket before the token that isn't closed.
    pub fn open_bracket(&self) -> Option<Place<'a, 't>> {
        let mut closed: usize = 0;
        for n in (0..self.index).rev() {
            let place = self.moved(n);
            if place.is_among(0, &CLOSING) {
                closed = closed.saturating_add(1);
            } else if place.is_among(0, &OPENING) {
                if closed == 0 {
                    return Some(place);
                }
                closed = closed.saturating_sub(1);
            }
        }
        None
    }

    /// The last `if` before the token, inside the innermost bracket, that no `else` follows.
    pub fn open_choice(&self) -> Option<Place<'a, 't>> {
        let mut closed: usize = 0;
        let mut arms: usize = 0;
        for n in (0..self.index).rev() {
            let place = self.moved(n);
            if place.is_among(0, &CLOSING) {
                closed = closed.saturating_add(1);
            } else if place.is_among(0, &OPENING) {
                if closed == 0 {
                    return None;
                }
                closed = closed.saturating_sub(1);
            } else if closed == 0 && place.is(0, "else") {
                arms = arms.saturating_add(1);
            } else if closed == 0 && place.is(0, "if") {
                if arms == 0 {
                    return Some(place);
                }
                arms = arms.saturating_sub(1);
            }
        }
        None
    }

    /// Whether the innermost bracket that isn't closed is round or square.
    pub fn is_in_brackets(&self) -> bool {
        let Some(open) = self.open_bracket() else {
            return false;
        };
        !open.is(0, "{")
    }

    /// Whether the token is in a `let`, outside the brackets there.
    pub fn is_in_let(&self) -> bool {
        for n in (0..self.index).rev() {
            let place = self.moved(n);
            if place.is(0, "let") {
                return true;
            }
            if place.is(0, ";") || place.is_among(0, &OPENING) {
                return false;
            }
        }
        false
    }

    /// Whether a comment with a byte stands between the token and the one before it, on the line of that one.
    pub fn is_after_commented(&self, wanted: u8) -> bool {
        let from = self.span(1).after as usize;
        let to = self.span(0).first as usize;
        for byte in part(self.bytes, from, to) {
            if *byte == b'\n' {
                return false;
            }
            if *byte == wanted {
                return true;
            }
        }
        false
    }

    /// The bracket that the token so many before it closes.
    pub fn opened(&self, back: usize) -> Option<Place<'a, 't>> {
        self.moved(self.index.saturating_sub(back)).open_bracket()
    }

    /// Whether the token is the colon between two numbers.
    pub fn is_range(&self) -> bool {
        self.is(0, ":") && self.is_number(1) && self.later(1).is_number(0)
    }

    /// Whether the token is in the declaration of a layout.
    pub fn is_in_layout(&self) -> bool {
        for n in (0..self.index).rev() {
            let place = self.moved(n);
            if place.is(0, "layout") {
                return true;
            }
            if place.is_among(0, &["fun", "exception"]) {
                return false;
            }
        }
        false
    }

    /// Whether the innermost bracket that isn't closed is round.
    pub fn is_in_round_brackets(&self) -> bool {
        match self.open_bracket() {
            Some(open) => open.is(0, "("),
            None => false,
        }
    }

    fn is_in_square_brackets(&self) -> bool {
        let Some(open) = self.open_bracket() else {
            return false;
        };
        open.is(0, "[")
    }

    /// What closes the bracket that the token is.
    pub fn closing(&self) -> &'static str {
        match self.text(0) {
            b"(" => ")",
            b"[" => "]",
            _ => "}",
        }
    }
}

const OPENING: [&str; 3] = ["(", "[", "{"];

const CLOSING: [&str; 3] = [")", "]", "}"];

// The number of the first token from a byte on.
fn first_from(tokens: &[Token], at: usize) -> usize {
    for (n, token) in tokens.iter().enumerate() {
        if token.span.first as usize >= at {
            return n;
        }
    }
    tokens.len()
}

// Whether a token is a number from 1 to a greatest one.
fn is_number_to(sort: &Sort, most: u32) -> bool {
    match sort {
        Sort::Number(n) => *n >= 1 && *n <= most,
        _ => false,
    }
}

fn span_of(tokens: &[Token], n: usize) -> Option<Span> {
    match tokens.get(n) {
        Some(token) => Some(token.span),
        None => None,
    }
}
