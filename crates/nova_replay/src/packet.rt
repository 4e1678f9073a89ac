// What becomes of one packet.
ghost use Rattle.std.specs.Prelude.{◌≡◌, ◌++◌, ℕ, List, [], OnOk, IfOk, slice_get, unwrap_or};
ghost use Rattle.std.specs.Io.KnownBytes.{Appends};
ghost use Rattle.uc_isa.specs.Lawful.{IsLawful};
ghost use Rattle.nova_replay.specs.declared.packet.Failure.TheVariants.{NoMemory as WantOfMemory};
ghost use Rattle.nova_replay.specs.Fates.{came, came_by, taken};
ghost use Rattle.nova_replay.specs.Replaying.{IsPassed, IsSettled, moment, no_packets, packet_out, tally_of};

use crate::bytes::{push_bytes, set_quadwords};
use crate::counts::{Cause, Counts};
use crate::line::line_of;
use crate::link::link_length;
use crate::plan::Plan;
use crate::run::run_packet;
use nova_capture::{Item, Packet, Position, WriteError, Writer};
use nv_base::{Mem, NoMemory, Outcome, Words, WriteLog};
use std::alloc::{AllocError, AllocFailed, Global};
use std::io::Write;
use uc_object::Object;

/// Why an item isn't handled.
#[derive(Clone, Copy)]
pub enum Failure {
    NoMemory,
    Write(WriteError),
    Lines,
}

impl From<AllocError> for Failure {
    ghost from_gives = { λ _ e. e ≡ WantOfMemory };

    fn from(_error: AllocError) -> Failure {
        Failure::NoMemory
    }
}

impl<T: Drop> From<AllocFailed<T>> for Failure {
    ghost from_gives = { λ _ e. e ≡ WantOfMemory };

    fn from(_error: AllocFailed<T>) -> Failure {
        Failure::NoMemory
    }
}

impl From<NoMemory> for Failure {
    ghost from_gives = { λ _ e. e ≡ WantOfMemory };

    fn from(_error: NoMemory) -> Failure {
        Failure::NoMemory
    }
}

/// What becomes of a packet.
#[derive(Clone, Copy)]
pub enum Fate {
    /// So many bytes come out.
    Ended(usize, Words),
    /// Its exception, and whether it is written as it came.
    Raised(u16, Words, bool),
    Trouble(Cause),
}

/// What stays from one packet to the next, and the bytes of the one that is there.
#[derive(Drop)]
pub struct State {
    /// The memories that the packet before left.
    pub memory: nv_base::Packet,
    pub counts: Counts,
    /// The link types of the interfaces.
    pub links: Vec<u16>,
    /// The packet as it came, with its link header.
    pub frame: Vec<u8>,
    words: Vec<u32>,
    out: Vec<u8>,
}

impl State {
    pub fn new(alloc: Global, memory: nv_base::Packet) -> State
        ensures memory { result.memory ≡ memory }
        ensures counts { tally_of result.counts ≡ no_packets }
        ensures links { result.links.items ≡ [] }
    {
        State {
            memory,
            counts: Counts::new(alloc),
            links: Vec::new(alloc),
            frame: Vec::new(alloc),
            words: Vec::new(alloc),
            out: Vec::new(alloc),
        }
    }
}

/// Runs the packet of the frame, and writes what comes out.
pub fn pass<W: Write, L: Write>(
    alloc: Global,
    plan: &Plan,
    state: &mut State,
    packet: Packet,
    position: Position,
    offset: u64,
    writer: &mut Writer<W>,
    lines: &mut Option<L>,
) -> Result<(), Failure>
    requires lawful { IsLawful plan.now.code.now.list }
    ensures { OnOk result ((w : List ℕ) × Appends (W.contents writer.old.output) (W.contents writer.new.output) w
        × IsPassed plan.now offset (moment position writer.old.state state.old) packet state.old.frame.items (moment position writer.new.state state.new) w) }
{
    let frame = state.frame.as_slice();
    let head = link_length(link_of(&state.links, packet.interface), frame);
    state.out.clear();
    state.out.extend_from_slice(&frame[..head])?;
    let ran = fate_of(
        alloc,
        plan,
        &mut state.memory,
        &mut state.words,
        &frame[head..],
        &mut state.out,
    )?;
    let fate = settle(packet, frame, &state.out, ran, writer)?;
    state.counts.count(position.packets, offset, &fate)?;
    let len = frame.len() - head;
    let seen = Seen {
        number: position.packets,
        interface: packet.interface,
        len,
        written: written_of(&fate, len),
    };
    tell(alloc, plan.object, seen, &fate, lines)
}

// The link type of an interface.
fn link_of(links: &[u16], interface: u32) -> u16
    ensures { result ≡ unwrap_or (slice_get links.now interface) 65535 }
{
    match links.get(interface as usize) {
        Some(link) => *link,
        None => 65535,
    }
}

// Writes the line on a packet, where lines are wanted.
fn tell<L: Write>(
    alloc: Global,
    object: &Object,
    seen: Seen,
    fate: &Fate,
    lines: &mut Option<L>,
) -> Result<(), Failure> {
    let Some(output) = lines else {
        return Ok(());
    };
    let line = line_of(alloc, object, seen, fate).into_bytes()?;
    match output.write_all(&line) {
        Ok(()) => Ok(()),
        Err(_) => Err(Failure::Lines),
    }
}

/// A packet as it is told: its number, its interface, its length, and how many of its bytes were written.
#[derive(Clone, Copy)]
pub struct Seen {
    pub number: u64,
    pub interface: u32,
    pub len: usize,
    pub written: usize,
}

// Runs a packet, and appends what comes out.
#[tactic(auto, using(crate::proofs::Coming::came_long, crate::proofs::Coming::came_ran, crate::proofs::Coming::memory_by))]
fn fate_of(
    alloc: Global,
    plan: &Plan,
    memory: &mut nv_base::Packet,
    words: &mut Vec<u32>,
    packet: &[u8],
    out: &mut Vec<u8>,
) -> Result<Fate, Failure>
    requires lawful { IsLawful plan.now.code.now.list }
    ensures memory { OnOk result (memory.new ≡ (came plan.now memory.old packet.now).memory) }
    ensures fate { IfOk result (λ fate. fate ≡ (came plan.now memory.old packet.now).fate) }
    ensures out { OnOk result (out.new.items ≡ out.old.items ++ (came plan.now memory.old packet.now).out) }
{
    set_quadwords(words, packet)?;
    let mut log = WriteLog::new(alloc, 0)?;
    let args = plan.args_for(packet.len());
    let ran = run_packet(
        plan.code,
        &args,
        plan.at,
        words.as_slice(),
        plan.steps,
        memory,
        &mut log,
    );
    match ran {
        None => Ok(Fate::Trouble(Cause::LongIn)),
        Some(outcome) => fate_by(plan, packet.len(), outcome, memory, out),
    }
}

// The fate of a packet of this length whose run ended so.
fn fate_by(
    plan: &Plan,
    len: usize,
    outcome: Outcome,
    memory: &nv_base::Packet,
    out: &mut Vec<u8>,
) -> Result<Fate, Failure>
    ensures fate { IfOk result (λ fate. fate ≡ (came_by plan.now len memory.now outcome).fate) }
    ensures out { OnOk result (out.new.items ≡ out.old.items ++ (came_by plan.now len memory.now outcome).out) }
{
    match outcome {
        Outcome::Ended(words) => {
            take_out(plan.at, plan.length_out(len, &words), words, memory, out)
        }
        Outcome::Raised(number, words) => { Ok(Fate::Raised(number, words, plan.is_kept(number))) }
        Outcome::Fault(mem, at) => Ok(Fate::Trouble(Cause::Fault(mem, at))),
        Outcome::Going => Ok(Fate::Trouble(Cause::Steps)),
    }
}

// Takes so many bytes out of SDRAM.
#[tactic(auto, using(crate::proofs::Coming::taken_some, crate::proofs::Coming::taken_none))]
fn take_out(
    at: u32,
    count: usize,
    given: Words,
    memory: &nv_base::Packet,
    out: &mut Vec<u8>,
) -> Result<Fate, Failure>
    ensures fate { IfOk result (λ fate. fate ≡ (taken at count given memory.now).fate) }
    ensures out { OnOk result (out.new.items ≡ out.old.items ++ (taken at count given memory.now).out) }
{
    let sdram = memory.words(Mem::Sdram);
    let first = (2 * at as usize).min(sdram.len());
    if push_bytes(&sdram[first..], count, out)? {
        Ok(Fate::Ended(count, given))
    } else {
        Ok(Fate::Trouble(Cause::LongOut(count as u64)))
    }
}

// Writes what comes out, or the frame as it came. What the format has no room for is too long.
fn settle<W: Write>(
    packet: Packet,
    frame: &[u8],
    out: &[u8],
    fate: Fate,
    writer: &mut Writer<W>,
) -> Result<Fate, Failure>
    ensures { IfOk result (λ settled. (w : List ℕ) × Appends (W.contents writer.old.output) (W.contents writer.new.output) w
        × IsSettled writer.old.state packet frame.now out.now fate settled writer.new.state w) }
{
    match fate {
        Fate::Ended(count, _) => {
            let item = Item::Packet(packet_out(packet, out.len()));
            match writer.write_item(item, out) {
                Ok(()) => Ok(fate),
                Err(WriteError::Unfit) => Ok(Fate::Trouble(Cause::LongOut(count as u64))),
                Err(error) => Err(Failure::Write(error)),
            }
        }
        Fate::Raised(_, _, true) => match writer.write_item(Item::Packet(packet), frame) {
            Ok(()) => Ok(fate),
            Err(error) => Err(Failure::Write(error)),
        },
        Fate::Raised(_, _, false) | Fate::Trouble(_) => Ok(fate),
    }
}

// What is told of a packet that comes out.
fn packet_out(packet: Packet, len: usize) -> Packet
    ensures { result ≡ packet_out packet len }
{
    let captured = len.min(u32::MAX as usize) as u32;
    let lost = packet.original.saturating_sub(packet.captured);
    Packet {
        interface: packet.interface,
        time: packet.time,
        captured,
        original: captured.saturating_add(lost),
    }
}

// How many bytes were written of a packet that had so many.
fn written_of(fate: &Fate, len: usize) -> usize {
    match fate {
        Fate::Ended(count, _) => *count,
        Fate::Raised(_, _, true) => len,
        Fate::Raised(_, _, false) | Fate::Trouble(_) => 0,
    }
}
