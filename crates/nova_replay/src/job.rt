// The memories before the first packet, and the arguments.
ghost use Rattle.std.specs.Prelude.{◌≡◌};

use crate::table::put_table;
use nova_memory::{ReadableError, memory_of_readable};
use nova_show::{Answer, load_memory, push_memory_fault};
use nova_words::Replay;
use novac_words::limits::MEMORY_LIMIT;
use nv_base::{Packet, PacketError, SIZE_LIMIT, Words};
use nv_memtext::{Job, MemError, read_memory};
use nv_outside::Files;
use std::alloc::{AllocError, AllocFailed, Global};

/// The memories and the arguments that words give, of a program that takes so many words; none where they don't, and then the
/// answer says why.
pub fn job_for<F: Files>(
    alloc: Global,
    files: &mut F,
    words: &Replay,
    params: u8,
    answer: &mut Answer,
) -> Option<Job>
    ensures held { F.held files.new ≡ F.held files.old }
{
    let mut job = first_job(alloc, files, words, params, answer)?;
    if let Some(text) = words.args {
        job.args = args_of(alloc, text, params, answer)?;
    }
    for table in &words.tables {
        if !put_table(alloc, files, table, &mut job.packet, answer) {
            return None;
        }
    }
    Some(job)
}

// Those of the memory text, or the largest memories and zeros.
fn first_job<F: Files>(
    alloc: Global,
    files: &mut F,
    words: &Replay,
    params: u8,
    answer: &mut Answer,
) -> Option<Job>
    ensures held { F.held files.new ≡ F.held files.old }
{
    let Some(name) = words.memory else {
        return blank_job(alloc, params, answer);
    };
    let memory = load_memory(alloc, files, name, answer)?;
    match read_memory(alloc, &memory.text, params) {
        Ok(job) => Some(job),
        Err(fault) => {
            push_memory_fault(alloc, name, &memory, Some(params), fault, answer);
            None
        }
    }
}

fn blank_job(alloc: Global, params: u8, answer: &mut Answer) -> Option<Job> {
    match Packet::new(alloc, SIZE_LIMIT, SIZE_LIMIT) {
        Ok(packet) => Some(Job {
            packet,
            args: zeros(params),
        }),
        Err(PacketError::NoMemory) | Err(PacketError::TooLarge(_)) => {
            answer.fail();
            None
        }
    }
}

fn zeros(params: u8) -> Words {
    let all = [0u32; 8];
    Words::of(&all[..usize::from(params).min(8)])
}

// The words that a text spells as the line of arguments of a readable memory text does.
fn args_of(alloc: Global, text: &str, params: u8, answer: &mut Answer) -> Option<Words> {
    match read_args(alloc, text, params) {
        Ok(job) => Some(job.args),
        Err(ArgsFault::NoMemory) => {
            answer.fail();
            None
        }
        Err(ArgsFault::Count) => {
            let mut it = answer.finding();
            it.title
                .put("`--args` has to give as many words as `main` takes: ");
            it.title.number(u64::from(params));
            answer.push("nova", it);
            None
        }
        Err(ArgsFault::Word(sentence)) => {
            let mut it = answer.finding();
            it.title.put("`--args`: ");
            it.title.put(sentence);
            answer.push("nova", it);
            None
        }
    }
}

// Why a text gives no arguments.
#[derive(Clone, Copy)]
enum ArgsFault {
    NoMemory,
    Count,
    Word(&'static str),
}

impl From<AllocError> for ArgsFault {
    fn from(_error: AllocError) -> ArgsFault {
        ArgsFault::NoMemory
    }
}

impl<T: Drop> From<AllocFailed<T>> for ArgsFault {
    fn from(_failed: AllocFailed<T>) -> ArgsFault {
        ArgsFault::NoMemory
    }
}

fn read_args(alloc: Global, text: &str, params: u8) -> Result<Job, ArgsFault> {
    let mut line = Vec::new(alloc);
    line.extend_from_slice(b"memory 0 0\nargs ")?;
    line.extend_from_slice(text.as_bytes())?;
    line.push(b'\n')?;
    let whole = match memory_of_readable(alloc, &line) {
        Ok(whole) => whole,
        Err(ReadableError::NoMemory) => return Err(ArgsFault::NoMemory),
        Err(ReadableError::Bad(_, _, reason)) => return Err(ArgsFault::Word(reason.sentence())),
    };
    if whole.len() as u64 > MEMORY_LIMIT {
        return Err(ArgsFault::Count);
    }
    match read_memory(alloc, &whole, params) {
        Ok(job) => Ok(job),
        Err(MemError::NoMemory) => Err(ArgsFault::NoMemory),
        Err(_) => Err(ArgsFault::Count),
    }
}
