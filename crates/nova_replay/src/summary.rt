// What is told of a whole replay.
use crate::copying::Stop;
use crate::counts::{Cause, Counts, Trouble};
use crate::packet::Failure;
use nova_capture::{ReadError, WriteError};
use nova_show::{Answer, Ending};
use nova_words::Replay;
use nv_lines::Message;
use std::io::ErrorKind;
use uc_object::Object;

/// Tells how many packets came to which end, and of the first in trouble what it was.
pub fn push_summary(object: &Object, counts: &Counts, answer: &mut Answer) {
    answer.err.number(counts.forwarded);
    answer.err.put(" forwarded");
    for (place, count) in counts.raised.iter().enumerate() {
        if *count > 0 {
            answer.err.put(", ");
            answer.err.number(*count);
            answer.err.put(" ");
            push_exception(object, place, &mut answer.err);
        }
    }
    push_count(counts.kept, "kept", &mut answer.err);
    push_count(counts.faulted, "faulted", &mut answer.err);
    push_count(counts.spent, "out of steps", &mut answer.err);
    push_count(counts.long, "too long", &mut answer.err);
    answer.err.line("");
    for trouble in &counts.shown {
        push_trouble(*trouble, &mut answer.err);
    }
    let more = counts.troubles().saturating_sub(counts.shown.len() as u64);
    if more > 0 {
        answer.err.put("and ");
        answer.err.counted(more, "packet");
        answer.err.line(" more");
    }
    if counts.has_trouble() {
        answer.ending = Ending::Failed;
    }
}

fn push_exception(object: &Object, place: usize, err: &mut Message) {
    let number = place.min(65_534) as u16 + 1;
    match object.exception(number) {
        Some((_, name)) => err.bytes(name),
        None => {
            err.put("exception ");
            err.number(u64::from(number))
        }
    }
}

fn push_count(count: u64, what: &str, err: &mut Message) {
    if count > 0 {
        err.put(", ");
        err.number(count);
        err.put(" ");
        err.put(what);
    }
}

fn push_trouble(trouble: Trouble, err: &mut Message) {
    err.put("packet ");
    err.number(trouble.packet);
    err.put(", at byte ");
    err.number(trouble.offset);
    err.put(": ");
    match trouble.cause {
        Cause::Fault(mem, at) => {
            err.put("fault, an access to ");
            err.bytes(mem.name());
            err.put(" at ");
            err.number(at);
            err.line("")
        }
        Cause::Steps => err.line("out of steps (`--steps N` allows more)"),
        Cause::LongIn => err.line("it reaches past SDRAM"),
        Cause::LongOut(count) => {
            err.counted(count, "byte");
            err.line(" can't come out")
        }
    }
}

/// Tells why a replay ended before its capture did.
pub fn push_stop(words: &Replay, stop: Stop, answer: &mut Answer) {
    match stop {
        Stop::Failed(Failure::NoMemory)
        | Stop::Failed(Failure::Write(WriteError::NoMemory))
        | Stop::Read(ReadError::NoMemory)
        | Stop::Read(ReadError::Failed(ErrorKind::OutOfMemory)) => answer.fail(),
        Stop::Read(ReadError::Failed(_)) => {
            answer.fault(words.input, "the capture can't be read")
        }
        Stop::Read(ReadError::Broken(broken)) => {
            let mut it = answer.finding();
            it.title.put("packet ");
            it.title.number(broken.packet);
            it.title.put(", at byte ");
            it.title.number(broken.offset);
            it.title.put(": ");
            it.title.put(broken.fault.sentence());
            answer.push(words.input, it)
        }
        Stop::Failed(Failure::Write(_)) => answer.fault(
            words.output,
            "the capture can't be written",
        ),
        Stop::Failed(Failure::Lines) => answer.fault("-", "the lines can't be written"),
    }
}
