// The command.
ghost use Rattle.std.specs.Prelude.{◌≡◌};
ghost use Rattle.uc_isa.specs.Lawful.{IsLawful};

use crate::copying::{Stop, copy};
use crate::job::job_for;
use crate::packet::{Failure, State};
use crate::plan::Plan;
use crate::streams::Streams;
use crate::summary::{push_stop, push_summary};
use nova_capture::{Reader, Writer};
use nova_show::{Answer, Ending, push_refusal};
use nova_words::Replay;
use novac_machine::{check_lawful, object_of};
use novac_words::limits::OBJECT_LIMIT;
use nv_base::Packet;
use nv_outside::Files;
use std::alloc::{AllocError, Global};
use std::io::{BufReader, BufWriter, Read, Write};
use uc_object::Object;

/// Runs the packets of a capture through the code of the object that the bytes are, and writes a capture of what comes out. A
/// packet's outcome is that of `run_packet` on the memories that the packet before left.
pub fn replay<F: Files, S: Streams>(
    alloc: Global,
    files: &mut F,
    streams: &mut S,
    words: &Replay,
    object: &[u8],
    answer: &mut Answer,
)
    ensures held { F.held files.new ≡ F.held files.old }
{
    if !check_names(words, answer) {
        return;
    }
    if object.len() as u64 > OBJECT_LIMIT {
        return answer.fault(words.program, "the object is too long");
    }
    match object_of(alloc, object) {
        Ok(object) => {
            replay_object(alloc, files, streams, words, &object, answer);
            drop(object)
        }
        Err(refusal) => push_refusal(words.program, refusal, answer),
    }
}

// Refuses to write over an input, and two texts to one output.
fn check_names(words: &Replay, answer: &mut Answer) -> bool {
    let out = words.output;
    let is_input = out == words.input || out == words.program || words.memory == Some(out);
    if out != "-" && (is_input || out.is_empty()) {
        answer.fault("nova", "OUT would replace an input, or has no name");
        answer.ending = Ending::BadWords;
        return false;
    }
    if out == "-" && words.is_json {
        answer.fault(
            "nova",
            "`--json` and OUT can't both go to the standard output",
        );
        answer.ending = Ending::BadWords;
        return false;
    }
    true
}

fn replay_object<F: Files, S: Streams>(
    alloc: Global,
    files: &mut F,
    streams: &mut S,
    words: &Replay,
    object: &Object,
    answer: &mut Answer,
)
    ensures held { F.held files.new ≡ F.held files.old }
{
    let code = object.code();
    if let Err(refusal) = check_lawful(code) {
        return push_refusal(words.program, refusal, answer);
    }
    if !check_length(words, code.params(), answer) {
        return;
    }
    let Some(drops) = drops_of(alloc, words, object, answer) else {
        return;
    };
    let Some(job) = job_for(alloc, files, words, code.params(), answer) else {
        return;
    };
    let plan = Plan {
        object,
        code,
        args: job.args,
        length: words.length.map(|n| n as usize),
        at: words.at,
        steps: words.steps,
        keeps: words.keeps,
        drops: &drops,
        limit: words.limit,
    };
    let state = State::new(alloc, job.packet);
    pass_all(alloc, streams, words, &plan, state, answer)
}

// Refuses the length as an argument that `main` doesn't take.
fn check_length(words: &Replay, params: u8, answer: &mut Answer) -> bool {
    match words.length {
        Some(place) if place >= u32::from(params) => {
            let mut it = answer.finding();
            it.title.put("`--length` names argument ");
            it.title.number(u64::from(place));
            it.title.put(", and `main` takes ");
            it.title.counted(u64::from(params), "word");
            it.help.line("The first argument is argument 0.");
            answer.push("nova", it);
            false
        }
        _ => true,
    }
}

// The numbers of the exceptions that words name. None where the program doesn't declare one, and then the answer says so.
fn drops_of(
    alloc: Global,
    words: &Replay,
    object: &Object,
    answer: &mut Answer,
) -> Option<Vec<u16>> {
    let mut numbers = Vec::new(alloc);
    for name in &words.drops {
        match push_numbers(&mut numbers, object, name.as_bytes()) {
            Ok(true) => {}
            Ok(false) => {
                let mut it = answer.finding();
                it.title.put("the program declares no exception ");
                it.title.quoted(name.as_bytes());
                answer.push(words.program, it);
                return None;
            }
            Err(_) => {
                answer.fail();
                return None;
            }
        }
    }
    Some(numbers)
}

// Appends the numbers of the exceptions of this name. False where there is none.
fn push_numbers(numbers: &mut Vec<u16>, object: &Object, name: &[u8]) -> Result<bool, AllocError> {
    let mut is_found = false;
    for number in 1..=u16::MAX {
        match object.exception(number) {
            Some((_, found)) => {
                if found == name {
                    numbers.push(number)?;
                    is_found = true;
                }
            }
            None => break,
        }
    }
    Ok(is_found)
}

// Opens the captures, passes all packets, and tells what came of them.
fn pass_all<S: Streams>(
    alloc: Global,
    streams: &mut S,
    words: &Replay,
    plan: &Plan,
    state: State,
    answer: &mut Answer,
)
    requires lawful { IsLawful plan.now.code.now.list }
{
    let Ok(input) = streams.open(words.input) else {
        return answer.fault(words.input, "the capture can't be read");
    };
    let Ok(output) = streams.create(words.output) else {
        drop(input);
        return answer.fault(words.output, "the capture can't be written");
    };
    let lines = if words.is_json {
        match streams.create("-") {
            Ok(lines) => Ok(Some(lines)),
            Err(error) => Err(error),
        }
    } else {
        Ok(None)
    };
    let mut state = state;
    let passed = match lines {
        Ok(lines) => pass_streams(alloc, plan, &mut state, input, output, lines),
        Err(_) => {
            drop(input);
            drop(output);
            Err(Stop::Failed(Failure::Lines))
        }
    };
    push_summary(plan.object, &state.counts, answer);
    if let Err(stop) = passed {
        push_stop(words, stop, answer);
    }
    drop(state)
}

fn pass_streams<R: Read + Drop, W: Write + Drop, L: Write + Drop>(
    alloc: Global,
    plan: &Plan,
    state: &mut State,
    input: R,
    output: W,
    lines: Option<L>,
) -> Result<(), Stop>
    requires lawful { IsLawful plan.now.code.now.list }
{
    let Ok(input) = BufReader::new(alloc, input) else {
        return Err(Stop::Failed(Failure::NoMemory));
    };
    let Ok(output) = BufWriter::new(alloc, output) else {
        return Err(Stop::Failed(Failure::NoMemory));
    };
    let mut lines = match lines {
        None => None,
        Some(lines) => match BufWriter::new(alloc, lines) {
            Ok(lines) => Some(lines),
            Err(_) => return Err(Stop::Failed(Failure::NoMemory)),
        },
    };
    let mut reader = Reader::new(alloc, input);
    let mut writer = Writer::new(alloc, output);
    let copied = copy(alloc, plan, state, &mut reader, &mut writer, &mut lines);
    let flushed = writer.flush();
    let told = flush_lines(&mut lines);
    copied?;
    if let Err(error) = flushed {
        return Err(Stop::Failed(Failure::Write(error)));
    }
    match told {
        Ok(()) => Ok(()),
        Err(failure) => Err(Stop::Failed(failure)),
    }
}

fn flush_lines<L: Write>(lines: &mut Option<L>) -> Result<(), Failure> {
    match lines {
        None => Ok(()),
        Some(lines) => match lines.flush() {
            Ok(()) => Ok(()),
            Err(_) => Err(Failure::Lines),
        },
    }
}
