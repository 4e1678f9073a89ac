// A line of JSON on a packet.
use crate::counts::Cause;
use crate::packet::{Fate, Seen};
use nv_base::Words;
use nv_lines::{Message, push_word};
use std::alloc::Global;
use uc_object::Object;

/// The line that tells what came of a packet.
pub fn line_of(alloc: Global, object: &Object, seen: Seen, fate: &Fate) -> Message {
    let mut out = Message::new(alloc);
    out.put("{\"packet\":");
    out.number(seen.number);
    out.put(",\"interface\":");
    out.number(u64::from(seen.interface));
    out.put(",\"outcome\":");
    push_fate(alloc, object, fate, &mut out);
    out.put(",\"in\":");
    out.number(seen.len as u64);
    out.put(",\"out\":");
    out.number(seen.written as u64);
    out.line("}");
    out
}

fn push_fate(alloc: Global, object: &Object, fate: &Fate, out: &mut Message) {
    match fate {
        Fate::Ended(_, words) => {
            out.put("\"ended\"");
            push_result(alloc, words, out)
        }
        Fate::Raised(number, words, is_kept) => {
            out.put("\"raised\",\"exception\":");
            push_exception(object, *number, out);
            out.put(",\"kept\":");
            out.put(if *is_kept { "true" } else { "false" });
            push_result(alloc, words, out)
        }
        Fate::Trouble(cause) => push_cause(*cause, out),
    }
}

fn push_exception(object: &Object, number: u16, out: &mut Message) {
    match object.exception(number) {
        Some((_, name)) => out.string(name),
        None => out.number(u64::from(number)),
    }
}

fn push_result(alloc: Global, words: &Words, out: &mut Message) {
    out.put(",\"words\":[");
    let mut is_first = true;
    for word in words.list() {
        out.put(if is_first { "\"" } else { ",\"" });
        push_hex(alloc, *word, out);
        out.put("\"");
        is_first = false;
    }
    out.put("]")
}

fn push_hex(alloc: Global, word: u32, out: &mut Message) {
    let mut digits = Vec::new(alloc);
    match push_word(&mut digits, word) {
        Ok(()) => out.bytes(&digits),
        Err(_) => out.fail(),
    }
}

fn push_cause(cause: Cause, out: &mut Message) {
    match cause {
        Cause::Fault(mem, at) => {
            out.put("\"fault\",\"memory\":");
            out.string(mem.name());
            out.put(",\"address\":");
            out.number(at)
        }
        Cause::Steps => out.put("\"out of steps\""),
        Cause::LongIn | Cause::LongOut(_) => out.put("\"too long\""),
    }
}
