//! Keywords that are misspelled.

use crate::expected::Expected;
use crate::place::Place;
use crate::slip::Slip;
use nv_lines::Message;
use std::alloc::Global;
use strsim::generic_damerau_levenshtein;

const NO_KEYWORD: &str = "this word is no keyword";

// Each keyword with what is said where it is meant.
const KEYWORDS: [(&str, &str); 19] = [
    ("layout", "Did you mean `layout`?"),
    ("exception", "Did you mean `exception`?"),
    ("fun", "Did you mean `fun`?"),
    ("let", "Did you mean `let`?"),
    ("if", "Did you mean `if`?"),
    ("else", "Did you mean `else`?"),
    ("unpack", "Did you mean `unpack`?"),
    ("pack", "Did you mean `pack`?"),
    ("raise", "Did you mean `raise`?"),
    ("try", "Did you mean `try`?"),
    ("handle", "Did you mean `handle`?"),
    ("sram", "Did you mean `sram`?"),
    ("sdram", "Did you mean `sdram`?"),
    ("scratch", "Did you mean `scratch`?"),
    ("word", "Did you mean `word`?"),
    ("bool", "Did you mean `bool`?"),
    ("packed", "Did you mean `packed`?"),
    ("unpacked", "Did you mean `unpacked`?"),
    ("overlay", "Did you mean `overlay`?"),
];

/// The slip of a token one edit apart from a keyword that may stand there.
pub fn misspelled_here(
    alloc: Global,
    out: &mut Message,
    place: &Place,
    expected: &Expected,
) -> Option<Slip> {
    if !place.is_name(0) {
        return None;
    }
    for it in &KEYWORDS {
        if expected.has(it.0) && is_near(alloc, out, place.text(0), it.0) {
            return Slip::help(it.1);
        }
    }
    None
}

/// The slip of a word before the token that stands nowhere else, and is one edit apart from a keyword that fits between both.
pub fn misspelled_before(alloc: Global, out: &mut Message, place: &Place) -> Option<Slip> {
    let back = if place.is(0, "(") && place.is(1, "]") && place.is(3, "[") {
        4
    } else {
        1
    };
    if !place.is_name(back) || !place.stands_once(back) {
        return None;
    }
    let help = meant(alloc, out, place.text(back), fitting(place, back))?;
    Slip::before(back, NO_KEYWORD, help)
}

const BEFORE_LAYOUT: &[&str] = &["unpack", "pack", "sdram", "sram", "scratch"];

const BEFORE_BRACE: &[&str] = &["try", "overlay", "else"];

const MEMORIES: &[&str] = &["sdram", "sram", "scratch"];

const BEFORE_CONDITION: &[&str] = &["if"];

const BEFORE_NAME: &[&str] = &["raise", "let"];

// The keywords that may stand so many tokens before a place.
fn fitting(place: &Place, back: usize) -> &'static [&'static str] {
    if back == 4 {
        BEFORE_LAYOUT
    } else if place.is(0, "{") {
        BEFORE_BRACE
    } else if place.is(0, "(") && place.is_before_arrow() {
        MEMORIES
    } else if place.is(0, "(") {
        BEFORE_CONDITION
    } else if place.is_word(0) && place.is_among(2, &["{", ";", "(", ")", "else"]) {
        BEFORE_NAME
    } else {
        &[]
    }
}

// What is said of the first of some keywords that a word is near to.
fn meant(
    alloc: Global,
    out: &mut Message,
    word: &[u8],
    keywords: &[&'static str],
) -> Option<&'static str> {
    for keyword in keywords {
        if is_near(alloc, out, word, keyword) {
            return help_on(keyword);
        }
    }
    None
}

fn help_on(keyword: &str) -> Option<&'static str> {
    for it in &KEYWORDS {
        if it.0.as_bytes() == keyword.as_bytes() {
            return Some(it.1);
        }
    }
    None
}

// Whether a word is another one than a keyword, and one edit leads from the one to the other. Letters of both cases are the same.
fn is_near(alloc: Global, out: &mut Message, word: &[u8], keyword: &str) -> bool {
    let keyword = keyword.as_bytes();
    if word == keyword {
        return false;
    }
    if word.eq_ignore_ascii_case(keyword) {
        return true;
    }
    if word.len() < 3 {
        return false;
    }
    match generic_damerau_levenshtein(alloc, word, keyword) {
        Ok(edits) => edits == 1,
        Err(_) => {
            out.fail();
            false
        }
    }
}
