//! An outcome text, written.

ghost use Rattle.std.specs.Prelude.{◌≡◌, ◌+◌, ◌*◌, ◌/◌, ◌<◌, ◌≤◌, ◌^◌, ◌++◌, ◌∷◌, ◌==◌, [], map, take, length, codes, decimal, IfOk, OnOk, MatchOption};
ghost use Rattle.std.specs.List.{flat_map, list_all};
ghost use Rattle.nv_lines.specs.Line.{text_of};
ghost use Rattle.nv_lines.specs.Number.{hex_word};
ghost use Rattle.nv_base.specs.MemoryNames.{memory_name};
ghost use Rattle.nv_memtext.specs.OutcomeText.{outcome_line, write_line, stretch_line, stretch_lines, memory_lines, sizes_line, log_lines, packet_lines, state_lines, run_lines, name_lines, outcome_text, named_text};

use crate::stretch::start;
use nv_base::{Mem, NoMemory, Outcome, Packet, SOURCE_SCRATCH, Write, WriteLog};
use nv_lines::{push_counted, push_decimal, push_word};
use std::alloc::{AllocError, Global};

/// How many writes an outcome text shows.
const SHOWN: usize = 64;

/// Writes words, each after a space.
pub fn push_words(out: &mut Vec<u8>, words: &[u32]) -> Result<(), AllocError>
    ensures { OnOk result (out.new.items ≡ out.old.items ++ flat_map (λ w. 32 ∷ hex_word w) words.now) }
{
    for word in words {
        out.push(b' ')?;
        push_word(out, *word)?;
    }
    Ok(())
}

/// Writes a line of a memory's name, an address and words.
fn push_stretch(out: &mut Vec<u8>, mem: Mem, at: u64, words: &[u32]) -> Result<(), AllocError>
    ensures { OnOk result (out.new.items ≡ out.old.items ++ (stretch_line mem at words.now ++ 10 ∷ [])) }
{
    out.extend_from_slice(mem.name())?;
    out.push(b' ')?;
    push_decimal(out, at)?;
    push_words(out, words)?;
    out.push(b'\n')?;
    Ok(())
}

/// Writes a line of this text and words.
fn push_listed(out: &mut Vec<u8>, text: &[u8], words: &[u32]) -> Result<(), AllocError>
    ensures { OnOk result (out.new.items ≡ out.old.items ++ (text.now ++ (flat_map (λ w. 32 ∷ hex_word w) words.now ++ 10 ∷ []))) }
{
    out.extend_from_slice(text)?;
    push_words(out, words)?;
    out.push(b'\n')?;
    Ok(())
}

/// Writes the line of an exception that no handler took.
fn push_raised(out: &mut Vec<u8>, number: u16, words: &[u32]) -> Result<(), AllocError>
    ensures { OnOk result (out.new.items ≡ out.old.items ++ (codes "raised " ++ (decimal number ++ (flat_map (λ w. 32 ∷ hex_word w) words.now ++ 10 ∷ [])))) }
{
    out.extend_from_slice(b"raised ")?;
    push_decimal(out, u64::from(number))?;
    push_words(out, words)?;
    out.push(b'\n')?;
    Ok(())
}

/// Writes the line of an access that reached past a memory.
fn push_fault(out: &mut Vec<u8>, mem: Mem, at: u64) -> Result<(), AllocError>
    ensures { OnOk result (out.new.items ≡ out.old.items ++ (codes "fault " ++ (memory_name mem ++ (32 ∷ (decimal at ++ 10 ∷ []))))) }
{
    out.extend_from_slice(b"fault ")?;
    out.extend_from_slice(mem.name())?;
    push_counted(out, b" ", at)
}

/// Writes the line of an outcome.
fn push_outcome(out: &mut Vec<u8>, outcome: &Outcome) -> Result<(), AllocError>
    ensures { OnOk result (out.new.items ≡ out.old.items ++ (outcome_line outcome.now ++ 10 ∷ [])) }
{
    match outcome {
        Outcome::Ended(words) => push_listed(out, b"ended", words.list()),
        Outcome::Raised(number, words) => push_raised(out, *number, words.list()),
        Outcome::Fault(mem, at) => push_fault(out, *mem, *at),
        Outcome::Going => out.extend_from_slice(b"going\n"),
    }
}

/// Writes a line for each write.
fn push_writes(out: &mut Vec<u8>, writes: &[Write]) -> Result<(), AllocError>
    ensures { OnOk result (out.new.items ≡ out.old.items ++ text_of (map write_line writes.now)) }
{
    for write in writes {
        out.extend_from_slice(b"write ")?;
        push_stretch(out, write.mem, u64::from(write.at), write.words.list())?;
    }
    Ok(())
}

/// The first of these, at most so many.
fn front<T>(items: &[T], most: usize) -> &[T]
    ensures { result.now ≡ take most items.now }
{
    if items.len() <= most {
        items
    } else {
        &items[..most]
    }
}

/// Whether all words are 0.
fn is_blank(words: &[u32]) -> bool
    ensures { result ≡ list_all (λ w. w == 0) words.now }
{
    words.iter().all(|w| *w == 0)
}

/// Writes the line of stretch `k`, or nothing where all its words are 0.
fn push_part(out: &mut Vec<u8>, mem: Mem, words: &[u32], k: usize) -> Result<(), AllocError>
    requires inside { 8 * k ≤ length words.now }
    requires small { length words.now ≤ 2 ^ 20 }
    ensures { OnOk result (out.new.items ≡ out.old.items ++ text_of (stretch_lines mem words.now k)) }
{
    let part = front(&words[8 * k..], 8);
    if is_blank(part) {
        return Ok(());
    }
    push_stretch(out, mem, start(mem, k), part)
}

/// Writes the lines of a memory's words.
fn push_memory(out: &mut Vec<u8>, mem: Mem, words: &[u32]) -> Result<(), AllocError>
    requires { length words.now ≤ 2 ^ 20 }
    ensures { OnOk result (out.new.items ≡ out.old.items ++ text_of (memory_lines mem words.now)) }
{
    for k in 0..(words.len() + 7) / 8 {
        push_part(out, mem, words, k)?;
    }
    Ok(())
}

/// Writes the line of the memories' sizes.
fn push_sizes(out: &mut Vec<u8>, packet: &Packet) -> Result<(), AllocError>
    ensures { OnOk result (out.new.items ≡ out.old.items ++ (sizes_line packet.now ++ 10 ∷ [])) }
{
    out.extend_from_slice(b"memory ")?;
    push_decimal(out, u64::from(packet.size(Mem::Sram)))?;
    push_counted(out, b" ", u64::from(packet.size(Mem::Sdram)))
}

/// Writes the line of an exception's name, where the outcome is an exception.
fn push_name(out: &mut Vec<u8>, outcome: &Outcome, line: u32, name: &[u8]) -> Result<(), AllocError>
    ensures { OnOk result (out.new.items ≡ out.old.items ++ text_of (name_lines outcome.now (line, name.now))) }
{
    match outcome {
        Outcome::Raised(_, _) => {
            out.extend_from_slice(b"exception ")?;
            out.extend_from_slice(name)?;
            push_counted(out, b" line ", u64::from(line))
        }
        Outcome::Ended(_) | Outcome::Fault(_, _) | Outcome::Going => Ok(()),
    }
}

/// Writes the lines of a log.
fn push_log(out: &mut Vec<u8>, log: &WriteLog) -> Result<(), AllocError>
    ensures { OnOk result (out.new.items ≡ out.old.items ++ text_of (log_lines log.now)) }
{
    push_counted(out, b"writes ", log.count())?;
    push_writes(out, front(log.kept(), SHOWN))
}

/// Writes the lines after the outcome.
fn push_state(out: &mut Vec<u8>, p: &Packet, log: &WriteLog) -> Result<(), AllocError>
    ensures { OnOk result (out.new.items ≡ out.old.items ++ text_of (state_lines p.now log.now)) }
{
    push_log(out, log)?;
    push_packet(out, p)
}

/// Writes how a run stands, the number of its writes and the first 64 of those that the log kept; without the memories.
pub fn push_run(out: &mut Vec<u8>, o: &Outcome, log: &WriteLog) -> Result<(), AllocError>
    ensures { OnOk result (out.new.items ≡ out.old.items ++ text_of (run_lines o.now log.now)) }
{
    push_outcome(out, o)?;
    push_log(out, log)
}

/// Writes the memories' sizes, and their words that aren't 0.
pub fn push_packet(out: &mut Vec<u8>, p: &Packet) -> Result<(), AllocError>
    ensures { OnOk result (out.new.items ≡ out.old.items ++ text_of (packet_lines p.now)) }
{
    push_sizes(out, p)?;
    push_memory(out, Mem::Sram, p.words(Mem::Sram))?;
    push_memory(out, Mem::Sdram, p.words(Mem::Sdram))?;
    push_memory(
        out,
        Mem::Scratch,
        front(p.words(Mem::Scratch), SOURCE_SCRATCH as usize),
    )?;
    Ok(())
}

/// The text of an outcome: how the run stands, the number of its writes and the first 64 of those that the log kept,
/// and the memories.
pub fn print_outcome(
    alloc: Global,
    o: &Outcome,
    p: &Packet,
    log: &WriteLog,
) -> Result<Vec<u8>, NoMemory>
    ensures { IfOk result (λ text. text.items ≡ outcome_text o.now p.now log.now) }
{
    let mut out = Vec::new(alloc);
    push_outcome(&mut out, o)?;
    push_state(&mut out, p, log)?;
    Ok(out)
}

/// The text of an outcome, and after the line of an exception one with its name and the line of its declaration, where
/// these are given.
pub fn print_named(
    alloc: Global,
    o: &Outcome,
    name: Option<(u32, &[u8])>,
    p: &Packet,
    log: &WriteLog,
) -> Result<Vec<u8>, NoMemory>
    ensures { IfOk result (λ text. MatchOption name.entry (text.items ≡ outcome_text o.now p.now log.now) (λ given. text.items ≡ named_text o.now (given.0, given.1.now) p.now log.now)) }
{
    match name {
        None => print_outcome(alloc, o, p, log),
        Some((line, bytes)) => {
            let mut out = Vec::new(alloc);
            push_outcome(&mut out, o)?;
            push_name(&mut out, o, line, bytes)?;
            push_state(&mut out, p, log)?;
            Ok(out)
        }
    }
}
