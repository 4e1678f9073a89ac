//! The command `explain`.

use crate::answer::{Answer, Ending};
use crate::pages::page_of;
use crate::words::push_nearest;
use nova_words::nearest_among;
use nv_lines::Message;
use std::alloc::{AllocError, Global};

/// Tells what a refusal means, of which these words are the name.
pub fn push_page_on(alloc: Global, words: &[String], answer: &mut Answer) {
    let mut name = Message::new(alloc);
    push_joined(&mut name, words);
    match name.into_bytes() {
        Ok(name) => match String::from_utf8(name) {
            Ok(name) => push_page(alloc, name.as_str(), answer),
            Err(_) => answer.fail(),
        },
        Err(AllocError) => answer.fail(),
    }
}

// The words with a blank between them, in place of each `-` and `_`, and between letters and digits. A number alone is that of a type
// fault.
fn push_joined(name: &mut Message, words: &[String]) {
    let mut last = b' ';
    for word in words.iter() {
        if !name.is_empty() {
            name.put(" ");
        }
        for byte in word.as_bytes() {
            if name.is_empty() && byte.is_ascii_digit() {
                name.put("type ");
            } else if last.is_ascii_alphabetic() && byte.is_ascii_digit() {
                name.put(" ");
            }
            let is_blank = matches!(*byte, b'-' | b'_');
            name.byte(if is_blank {
                b' '
            } else {
                byte.to_ascii_lowercase()
            });
            last = *byte;
        }
        last = b' ';
    }
}

// Pages whose names have no number.
const NAMES: [&str; 24] = [
    "syntax char",
    "syntax number",
    "syntax name",
    "syntax syntax",
    "syntax deep",
    "too large",
    "syntax text",
    "syntax label",
    "unlawful",
    "object",
    "memory line",
    "schedule line",
    "weights line",
    "report line",
    "report refused",
    "store",
    "warnings",
    "unused",
    "wide",
    "read",
    "condition",
    "endless",
    "address",
    "size",
];

fn push_page(alloc: Global, name: &str, answer: &mut Answer) {
    match page_of(name.as_bytes()) {
        Some(page) => answer.out.put(page),
        None => {
            push_missing(alloc, name, answer);
            answer.ending = Ending::BadWords
        }
    }
}

fn push_missing(alloc: Global, name: &str, answer: &mut Answer) {
    let mut it = answer.finding();
    it.title.put("there is no page on ");
    it.title.quoted(name.as_bytes());
    let _ = push_nearest(&mut it.title, nearest_among(alloc, &NAMES, name));
    it.help.line(
        "There is one on `type 1` to `type 24`, on `syntax char`, `number`, `name`, `syntax`, `deep`, on `too large`, on `warnings`, and on each status of novac, as `status 9`.",
    );
    answer.push("nova", it)
}
