//! What contexts read and write when each runs alone.
ghost use Rattle.std.specs.Prelude.{◌≡◌, ◌+◌, ◌<◌, ◌≤◌, ◌⊎◌, ℕ, List, All, length, IfOk, IfErr};
ghost use Rattle.nv_base.specs.Memories.{Memories};
ghost use Rattle.nv_memtext.specs.MemoryText.{Gives};
ghost use Rattle.uc_schedule.specs.ScheduleText.{HasWords, entry_limit, steps_of};
ghost use Rattle.uc_contexts.specs.Alone.{lone_runs, own_entries};
ghost use Rattle.uc_contexts.specs.Footprints.{Isolated};
ghost use Rattle.uc_contexts.specs.Marked.{AreFootprints, IsFootprint};
ghost use Rattle.uc_contexts.specs.Turns.{base_of, entries as entries_of};
ghost use Rattle.uc_isa.specs.Code.{CodeView};
ghost use Rattle.uc_isa.specs.Lawful.{IsLawful};
ghost use Rattle.novac_words.specs.Limits.{memory_limit};
ghost use Rattle.novac_words.specs.Lines.{IsUncaused};
ghost use Rattle.novac_machine.specs.Machine.{IsMemoryRefusedFor};
ghost use Rattle.novac_machine.specs.Scheduled.{TellsShared, disjoint_line, shared_line};
ghost use Rattle.novac_machine.specs.inner.Own.{own_of};

use crate::simulate::job_of;
use novac_words::Refusal;
use novac_words::limits::SPILL_BASE;
use nv_base::{Mem, NoMemory, Words};
use nv_lines::push_decimal;
use std::alloc::Global;
use uc_contexts::{Marks, footprint, shared};
use uc_isa::Code;

/// How many words of scratch each context has for itself.
const SPILL_WORDS: u32 = 128;

// How many entries of a pair are those of a context.
fn own_of(entry: &(u8, u64), number: u32) -> u64
    ensures { result ≡ own_of number entry.now }
{
    if u32::from(entry.0) == number {
        entry.1
    } else {
        0
    }
}

// How many entries of a schedule are those of a context.
fn own_steps(entries: &[(u8, u64)], number: u32) -> u64
    requires few { steps_of entries.now ≤ entry_limit }
    ensures own { result ≡ own_entries number (entries_of entries.now) }
    ensures few { result ≤ entry_limit }
{
    let mut steps = 0;
    for entry in entries {
        steps += own_of(entry, number);
    }
    steps
}

// What a context reads and writes alone in as many steps as it has entries, on the memories that the text gives.
fn foot_of<'a>(
    alloc: Global,
    code: &Code,
    text: &[u8],
    args: &Words,
    number: u32,
    entries: &[(u8, u64)],
) -> Result<Marks, Refusal<'a>>
    requires lawful { IsLawful code.now.list }
    requires memory { length text.now ≤ memory_limit }
    requires arguments { length args.now ≡ code.now.params }
    requires there { number < 4 }
    requires few { steps_of entries.now ≤ entry_limit }
    ensures footprint { (p : Memories) (words : List ℕ) → Gives code.now.params text.now p words → IfOk result (IsFootprint code.now p (record { args = args.now; base = base_of number; steps = own_entries number (entries_of entries.now) })) }
    ensures refused { IfErr result (λ e. IsUncaused e ⊎ IsMemoryRefusedFor code.now.params text.now e) }
{
    let job = job_of(alloc, text, code.params())?;
    let mut packet = job.packet;
    let steps = own_steps(entries, number);
    let base = SPILL_BASE + SPILL_WORDS * number;
    Ok(footprint(alloc, code, args.list(), base, &mut packet, steps)?)
}

/// What each context reads and writes alone in as many steps as it has entries, each on memories of its own that the text
/// gives.
pub fn feet_of<'a>(
    alloc: Global,
    code: &Code,
    text: &[u8],
    args: &[Words],
    entries: &[(u8, u64)],
) -> Result<Vec<Marks>, Refusal<'a>>
    requires lawful { IsLawful code.now.list }
    requires memory { length text.now ≤ memory_limit }
    requires arguments { All (HasWords code.now.params) args.now }
    requires four { length args.now ≤ 4 }
    requires few { steps_of entries.now ≤ entry_limit }
    ensures footprints { (p : Memories) (words : List ℕ) → Gives code.now.params text.now p words → IfOk result (λ footprints. AreFootprints code.now p (lone_runs (entries_of entries.now) args.now) footprints.items) }
    ensures refused { IfErr result (λ e. IsUncaused e ⊎ IsMemoryRefusedFor code.now.params text.now e) }
{
    let mut footprints = Vec::new(alloc);
    for (number, words) in args.iter().enumerate() {
        let marks = foot_of(alloc, code, text, words, number as u32, entries)?;
        footprints.push(marks)?;
    }
    Ok(footprints)
}

/// The line that tells whether runs with these marks can disturb one another.
pub fn shared_text(alloc: Global, footprints: &[Marks]) -> Result<Vec<u8>, NoMemory>
    ensures { (c : CodeView) (p : Memories) (runs : List Isolated) → AreFootprints c p runs footprints.now → IfOk result (λ line. TellsShared c p runs line.items) }
{
    match shared(footprints) {
        None => disjoint(alloc),
        Some((mem, at)) => shared_at(alloc, mem, at),
    }
}

// That they can't.
fn disjoint(alloc: Global) -> Result<Vec<u8>, NoMemory>
    ensures { IfOk result (λ line. line.items ≡ disjoint_line) }
{
    let mut line = Vec::new(alloc);
    line.extend_from_slice(b"disjoint")?;
    Ok(line)
}

// The first address at which they can.
fn shared_at(alloc: Global, mem: Mem, at: u32) -> Result<Vec<u8>, NoMemory>
    ensures { IfOk result (λ line. line.items ≡ shared_line mem at) }
{
    let mut line = Vec::new(alloc);
    line.extend_from_slice(b"shared ")?;
    line.extend_from_slice(mem.name())?;
    line.push(b' ')?;
    push_decimal(&mut line, u64::from(at))?;
    Ok(line)
}
