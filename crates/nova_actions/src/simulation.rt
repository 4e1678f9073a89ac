//! The command `run`.
ghost use Rattle.std.specs.Prelude.{◌≡◌, ◌≤◌, length};
ghost use Rattle.novac_words.specs.Limits.{object_limit, memory_limit};
ghost use Rattle.nova_words.specs.Limits.{IsBudget};

use crate::compiled::object_of_source;
use diag_text::finding::Source;
use nova_show::{
    Answer, Ending, MemoryText, Saving, Visits, load, load_memory, push_outside, push_profile,
    push_run_refusal, save_counts, visits_of,
};
use nova_texts::{last_place, print_steps, push_outside_place};
use nova_words::Run;
use novac_machine::run_bytes;
use novac_words::limits::OBJECT_LIMIT;
use novac_words::{Reply, Status};
use nv_outside::Files;
use nv_text::MOST_BYTES;
use std::alloc::Global;
use uc_object::{Object, decode};

/// Runs an object, or the code of a source, on a memory text, says how many steps it took, and gives the files that are to be
/// saved.
pub fn simulate_program<F: Files>(
    alloc: Global,
    files: &mut F,
    words: Run,
    answer: &mut Answer,
) -> Vec<Saving>
    requires steps { words.steps ≤ 100000000 }
    requires budget { IsBudget words.budget }
    ensures held { F.held files.new ≡ F.held files.old }
{
    let mut savings = Vec::new(alloc);
    simulate_on(alloc, files, words, &mut savings, answer);
    savings
}

fn simulate_on<F: Files>(
    alloc: Global,
    files: &mut F,
    words: Run,
    savings: &mut Vec<Saving>,
    answer: &mut Answer,
)
    requires steps { words.steps ≤ 100000000 }
    requires budget { IsBudget words.budget }
    ensures held { F.held files.new ≡ F.held files.old }
{
    if !check_names(words, answer) {
        return;
    }
    let Some(program) = load(alloc, files, words.program, OBJECT_LIMIT, answer) else {
        return;
    };
    let Some(memory) = load_memory(alloc, files, words.memory, answer) else {
        return;
    };
    if words.is_traced {
        print_steps(alloc, words, &program, &memory, answer);
    } else if program.starts_with(b"NVO") {
        let _ = run_object(alloc, words, &program, &memory, savings, answer);
    } else {
        run_source(alloc, words, &program, &memory, savings, answer);
    }
}

// Runs the code of a source, and shows where an access was outside of its memory.
fn run_source(
    alloc: Global,
    words: Run,
    source: &[u8],
    memory: &MemoryText,
    savings: &mut Vec<Saving>,
    answer: &mut Answer,
)
    requires steps { words.steps ≤ 100000000 }
    requires budget { IsBudget words.budget }
    requires memory { length memory.now.text.items ≤ memory_limit }
{
    let Some(object) = object_of_source(alloc, words.program, words.budget, source, answer) else {
        return;
    };
    let is_outside = run_object(alloc, words, &object, memory, savings, answer);
    drop(object);
    if is_outside && source.len() <= MOST_BYTES {
        let calls = u64::from(words.steps);
        if let Some(span) = last_place(alloc, source, &memory.text, calls) {
            let source = Source {
                name: words.program,
                bytes: source,
            };
            push_outside_place(source, span, answer);
        }
    }
}

// Refuses to save over an input.
fn check_names(words: Run, answer: &mut Answer) -> bool {
    match words.counts {
        Some(name) if name == words.program || name == words.memory || name.is_empty() => {
            answer.fault("nova", "`--counts` would replace an input, or has no name");
            answer.ending = Ending::BadWords;
            false
        }
        _ => true,
    }
}

/// Runs the code of the object that the bytes are on a memory text, and says how many steps it took. Gives whether an access was
/// outside of its memory.
pub fn run_object(
    alloc: Global,
    words: Run,
    object: &[u8],
    memory: &MemoryText,
    savings: &mut Vec<Saving>,
    answer: &mut Answer,
) -> bool
    requires steps { words.steps ≤ 100000000 }
    requires memory { length memory.now.text.items ≤ memory_limit }
{
    if object.len() as u64 > OBJECT_LIMIT {
        answer.fault(words.program, "the object is too long");
        return false;
    }
    match run_bytes(alloc, object, &memory.text, u64::from(words.steps)) {
        Ok(reply) => {
            let is_outside = reply.status == Status::Fault;
            push_reply(words, reply, answer);
            push_visits(alloc, words, object, &memory.text, savings, answer);
            is_outside
        }
        Err(refusal) => {
            let params = params_of(alloc, object);
            push_run_refusal(
                alloc,
                words.program,
                params,
                words.memory,
                memory,
                refusal,
                answer,
            );
            false
        }
    }
}

// How many words the code of an object takes.
fn params_of(alloc: Global, object: &[u8]) -> Option<u8>
    requires { length object.now ≤ object_limit }
{
    match decode(alloc, object) {
        Ok(object) => {
            let params = object.code().params();
            drop(object);
            Some(params)
        }
        Err(_) => None,
    }
}

// The text of an outcome; only a run that ended is done.
fn push_reply(words: Run, reply: Reply, answer: &mut Answer) {
    let Reply { status, text } = reply;
    answer.out.bytes(&text);
    push_outside(words.program, &text, answer);
    if status != Status::Done {
        answer.ending = Ending::Failed;
    }
}

// What the same run comes to, step by step.
fn push_visits(
    alloc: Global,
    words: Run,
    object: &[u8],
    memory: &[u8],
    savings: &mut Vec<Saving>,
    answer: &mut Answer,
)
    requires object { length object.now ≤ object_limit }
    requires memory { length memory.now ≤ memory_limit }
{
    let Ok(object) = decode(alloc, object) else {
        return answer.fail();
    };
    if let Some(visits) = visits_of(alloc, object.code(), memory, words.steps) {
        push_all(alloc, words, &object, &visits, savings, answer);
    } else {
        answer.fail();
    }
    drop(object)
}

fn push_all(
    alloc: Global,
    words: Run,
    object: &Object,
    visits: &Visits,
    savings: &mut Vec<Saving>,
    answer: &mut Answer,
) {
    push_steps(words, visits.steps, answer);
    if words.has_profile {
        push_profile(alloc, &mut answer.err, object, visits);
    }
    if let Some(name) = words.counts {
        save_counts(alloc, name, object, visits, savings, answer);
    }
}

fn push_steps(words: Run, steps: u32, answer: &mut Answer) {
    answer.err.counted(u64::from(steps), "step");
    if steps < words.steps {
        answer.err.line("")
    } else {
        answer.err.line(", which are all that were allowed (`--steps N` allows more)")
    }
}
