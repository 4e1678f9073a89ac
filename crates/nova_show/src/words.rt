//! What is said of words that are no command.

use crate::answer::{Answer, Ending};
use crate::help::push_usage;
use diag_text::finding::Finding;
use nova_words::{Setting, Verb, WordFault, nearest_setting, nearest_verb, verb_with};
use nv_lines::Message;
use std::alloc::{AllocError, Global};

/// Says what is wrong with words.
pub fn push_word_fault(alloc: Global, fault: WordFault, answer: &mut Answer) {
    match fault {
        WordFault::NoMemory => answer.fail(),
        WordFault::NoWords => push_usage(&mut answer.err),
        _ => {
            let mut it = answer.finding();
            explain(alloc, &mut it, fault);
            push_hint(&mut it.help, verb_of(fault));
            answer.push("nova", it)
        }
    }
    answer.ending = Ending::BadWords
}

fn explain(alloc: Global, it: &mut Finding, fault: WordFault) {
    let out = &mut it.title;
    match fault {
        WordFault::NoMemory | WordFault::NoWords => {}
        WordFault::UnknownCommand(word) => push_unknown(alloc, out, word),
        WordFault::UnknownOption(verb, word) => push_unknown_option(alloc, it, verb, word),
        WordFault::NoValue(_, setting) => push_setting(out, setting, "needs a value"),
        WordFault::UnwantedValue(_, setting) => push_setting(out, setting, "takes no value"),
        WordFault::BadNumber(_, setting, value, least, most) => {
            push_number(out, setting, value, least, most)
        }
        WordFault::MissingName(_, what) => {
            out.put("a name is missing: ");
            out.put(what)
        }
        WordFault::ExtraName(_, word) => {
            out.put("unexpected name ");
            out.quoted(word.as_bytes())
        }
    }
}

// The command that the fault is of.
fn verb_of(fault: WordFault) -> Option<Verb> {
    match fault {
        WordFault::NoMemory | WordFault::NoWords | WordFault::UnknownCommand(_) => None,
        WordFault::UnknownOption(verb, _)
        | WordFault::NoValue(verb, _)
        | WordFault::UnwantedValue(verb, _)
        | WordFault::BadNumber(verb, _, _, _, _)
        | WordFault::MissingName(verb, _)
        | WordFault::ExtraName(verb, _) => Some(verb),
    }
}

fn push_hint(out: &mut Message, verb: Option<Verb>) {
    match verb {
        Some(verb) => {
            out.put("`nova help ");
            out.put(verb.name());
            out.line("` prints its options.")
        }
        None => out.line("`nova --help` prints the commands."),
    }
}

fn push_unknown(alloc: Global, out: &mut Message, word: &str) {
    out.put("there is no command ");
    out.quoted(word.as_bytes());
    let _ = push_nearest(out, nearest_verb(alloc, word));
}

fn push_unknown_option(alloc: Global, it: &mut Finding, verb: Verb, word: &str) {
    it.title.put("`");
    it.title.put(verb.name());
    it.title.put("` has no option ");
    it.title.quoted(word.as_bytes());
    if !push_nearest(&mut it.title, nearest_setting(alloc, verb, word)) {
        push_other(&mut it.help, word)
    }
}

// Which command has such an option.
fn push_other(out: &mut Message, word: &str) {
    if let Some(other) = verb_with(word) {
        out.put("`nova ");
        out.put(other.name());
        out.line("` has it.")
    }
}

/// Appends the name that was meant, if one is near, and gives whether one is.
pub fn push_nearest(out: &mut Message, found: Result<Option<&'static str>, AllocError>) -> bool {
    match found {
        Ok(Some(name)) => {
            out.put("; did you mean `");
            out.put(name);
            out.put("`?");
            true
        }
        Ok(None) => false,
        Err(_) => {
            out.fail();
            false
        }
    }
}

fn push_setting(out: &mut Message, setting: Setting, text: &str) {
    out.put("`");
    out.put(setting.name());
    out.put("` ");
    out.put(text)
}

fn push_number(out: &mut Message, setting: Setting, value: &str, least: u32, most: u32) {
    out.put("`");
    out.put(setting.name());
    out.put(if setting == Setting::Until {
        "` needs `write`, `raise` or a line from "
    } else {
        "` needs a number from "
    });
    out.number(u64::from(least));
    out.put(" to ");
    out.number(u64::from(most));
    out.put(", not ");
    out.quoted(value.as_bytes())
}
