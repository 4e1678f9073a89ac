//! A memory text, read.

ghost use Rattle.std.specs.Prelude.{◌≡◌, ◌+◌, ◌<◌, ◌≤◌, ◌^◌, ℕ, List, length, Some, IfOk, IfErr, OnOk};
ghost use Rattle.nv_base.specs.Memories.{Memories, IsAccess, blank, stored, first_word, size_limit, words_at};
ghost use Rattle.nv_memtext.specs.MemoryText.{Gives, IsBad, IsTooLarge};
ghost use Rattle.nv_memtext.specs.Answer.{IsTrueError, AnswersJob, AnswersBad, AnswersTooLarge};
ghost use Rattle.nv_memtext.specs.inner.Reading.{HasFirst, HasLines, HasLengths};
ghost use Rattle.nv_memtext.specs.declared.read.MemError.TheVariants.{NoMemory as WantOfMemory};

use crate::line::{Stretch, args_of, sizes_of, stretch_of};
use crate::size::{Sizes, too_large};
use nv_base::{NoMemory, Packet, PacketError, Words};
use nv_lines::Lines;
use std::alloc::Global;
use thiserror::Error;

/// What a memory text gives: the packet and the arguments of the run.
#[derive(Drop)]
pub struct Job {
    pub packet: Packet,
    pub args: Words,
}

/// Why bytes are refused as a memory text.
#[derive(Clone, Copy, Debug, PartialEq, Eq, Error)]
pub enum MemError {
    #[error("no memory")]
    NoMemory,
    /// The number, from 1, of the first line that isn't of the format.
    #[error("line {0} is not of the format")]
    Bad(u32),
    /// The first size above 65,536, that of SRAM before that of SDRAM.
    #[error("a memory of size {0} is too large")]
    TooLarge(u64),
}

/// Reads line 1.
fn read_sizes(lines: &mut Lines) -> Result<Sizes, MemError>
    ensures ok { IfOk result (λ s. HasFirst lines.old lines.new s.sram s.sdram) }
    ensures err { IfErr result (λ e. (params : ℕ) → IsTrueError params lines.old e) }
{
    let Some(line) = lines.next_line() else {
        return Err(MemError::Bad(1));
    };
    let Some(sizes) = sizes_of(line) else {
        return Err(MemError::Bad(1));
    };
    if let Some(size) = too_large(&sizes) {
        return Err(MemError::TooLarge(size));
    }
    Ok(sizes)
}

/// Reads line 2.
fn read_args(lines: &mut Lines, params: u8) -> Result<Words, MemError>
    ensures ok { IfOk result (λ args. (bytes : List ℕ) (sram sdram : ℕ) → HasFirst bytes lines.old sram sdram → HasLines params sram sdram bytes lines.new (blank sram sdram) args 2) }
    ensures err { IfErr result (λ e. (bytes : List ℕ) (sram sdram : ℕ) → HasFirst bytes lines.old sram sdram → IsTrueError params bytes e) }
    ensures shorter { OnOk result (length lines.new < length lines.old) }
{
    let Some(line) = lines.next_line() else {
        return Err(MemError::Bad(2));
    };
    let Some(args) = args_of(line) else {
        return Err(MemError::Bad(2));
    };
    if args.list().len() != usize::from(params) {
        return Err(MemError::Bad(2));
    }
    Ok(args)
}

/// Puts the words of a stretch, which lies inside its memory.
fn put(packet: &mut Packet, s: &Stretch)
    requires access { IsAccess s.now.mem (length s.now.words) }
    requires inside { first_word s.now.mem s.now.at + length s.now.words ≤ length (words_at s.now.mem packet.old) }
    ensures { stored s.now.mem s.now.at s.now.words packet.old ≡ Some packet.new }
{
    let _ = packet.write(s.mem, s.at, s.words.list());
}

/// Reads all further lines into the packet.
fn read_stretches(lines: &mut Lines, sizes: &Sizes, packet: &mut Packet) -> Result<(), MemError>
    requires short { length lines.old + 8 < 2 ^ 32 }
    requires sram { sizes.now.sram ≤ size_limit }
    requires sdram { sizes.now.sdram ≤ size_limit }
    requires lengths { HasLengths packet.old sizes.now.sram sizes.now.sdram }
    ensures ok { OnOk result ((params : ℕ) (bytes args : List ℕ) → HasLines params sizes.now.sram sizes.now.sdram bytes lines.old packet.old args 2 → Gives params bytes packet.new args) }
    ensures err { IfErr result (λ e. (params : ℕ) (bytes args : List ℕ) → HasLines params sizes.now.sram sizes.now.sdram bytes lines.old packet.old args 2 → IsTrueError params bytes e) }
{
    let mut number = 2;
    while let Some(line) = lines.next_line() {
        number += 1;
        let Some(stretch) = stretch_of(line, sizes) else {
            return Err(MemError::Bad(number));
        };
        put(packet, &stretch);
    }
    if !lines.is_done() {
        return Err(MemError::Bad(number + 1));
    }
    Ok(())
}

/// A packet of zeros.
fn blank_packet(alloc: Global, sizes: &Sizes) -> Result<Packet, NoMemory>
    requires sram { sizes.now.sram ≤ size_limit }
    requires sdram { sizes.now.sdram ≤ size_limit }
    ensures { IfOk result (λ packet. packet ≡ blank sizes.now.sram sizes.now.sdram) }
{
    match Packet::new(alloc, sizes.sram as u32, sizes.sdram as u32) {
        Ok(packet) => Ok(packet),
        Err(PacketError::NoMemory | PacketError::TooLarge(_)) => Err(NoMemory),
    }
}

/// Reads the lines in order.
fn read_text(alloc: Global, bytes: &[u8], params: u8) -> Result<Job, MemError>
    requires { length bytes.now < 2 ^ 32 }
    ensures gives { IfOk result (λ job. Gives params bytes.now job.packet job.args) }
    ensures refuses { IfErr result (IsTrueError params bytes.now) }
{
    let mut lines = Lines::of(bytes);
    let sizes = read_sizes(&mut lines)?;
    let args = read_args(&mut lines, params)?;
    let mut packet = blank_packet(alloc, &sizes)?;
    read_stretches(&mut lines, &sizes, &mut packet)?;
    Ok(Job { packet, args })
}

/// Reads a memory text. `params` is the number of arguments that the code takes.
///
/// Each answer but memory exhaustion, which may come for any text, comes exactly where its clauses say.
pub fn read_memory(alloc: Global, bytes: &[u8], params: u8) -> Result<Job, MemError>
    requires { length bytes.now < 2 ^ 32 }
    ensures gives { IfOk result (λ job. Gives params bytes.now job.packet job.args) }
    ensures refuses { IfErr result (IsTrueError params bytes.now) }

    ensures given { (p : Memories) (args : List ℕ) → Gives params bytes.now p args → AnswersJob result p args }
    ensures bad { (n : ℕ) → IsBad params bytes.now n → AnswersBad result n }
    ensures too_large { (n : ℕ) → IsTooLarge bytes.now n → AnswersTooLarge result n }
{
    read_text(alloc, bytes, params)
}

impl From<NoMemory> for MemError {
    ghost from_gives = { λ _ e. e ≡ WantOfMemory };

    fn from(_error: NoMemory) -> MemError {
        MemError::NoMemory
    }
}
