// A whole capture, item by item.
ghost use Rattle.std.specs.Prelude.{◌≡◌, ℕ, List, OnOk, false};
ghost use Rattle.std.specs.Io.KnownBytes.{Appends};
ghost use Rattle.uc_isa.specs.Lawful.{IsLawful};
ghost use Rattle.nova_replay.specs.Replaying.{IsCopied, IsHandled, Replayed, links_after, moment};

use crate::packet::{Failure, State, pass};
use crate::plan::Plan;
use nova_capture::{Item, Position, ReadError, Reader, Writer};
use std::alloc::{AllocError, Global};
use std::io::{ErrorKind, Read, Write};

/// Why a replay ends before its capture does.
#[derive(Clone, Copy)]
pub enum Stop {
    Read(ReadError),
    Failed(Failure),
}

/// Runs the packets of a capture one after the other, and writes what comes out; the other items are copied. Ends where the capture
/// does, or behind so many packets as the plan allows.
#[tactic(auto, using(crate::proofs::Chain::replay_none, crate::proofs::Chain::replay_item, crate::proofs::Chain::replay_over, crate::proofs::Chain::replay_done, crate::proofs::Chain::replay_broken))]
pub fn copy<R: Read, W: Write, L: Write>(
    alloc: Global,
    plan: &Plan,
    state: &mut State,
    reader: &mut Reader<R>,
    writer: &mut Writer<W>,
    lines: &mut Option<L>,
) -> Result<(), Stop>
    requires lawful { IsLawful plan.now.code.now.list }
    requires going { reader.old.ended ≡ false }
    ensures { Replayed plan.now (moment reader.old.position writer.old.state state.old) (R.remaining reader.old.input) (R.remaining reader.new.input)
        (W.contents writer.old.output) (W.contents writer.new.output) (moment reader.new.position writer.new.state state.new) result }
{
    for _ in 0..u64::MAX {
        let position = reader.position();
        if plan.is_over(position.packets) {
            return Ok(());
        }
        let item = match reader.next_item(&mut state.frame) {
            Ok(Some(item)) => item,
            Ok(None) => return Ok(()),
            Err(error) => return Err(Stop::Read(error)),
        };
        let now = reader.position();
        if let Err(failure) = handle(
            alloc,
            plan,
            state,
            item,
            now,
            position.offset,
            writer,
            lines,
        ) {
            return Err(Stop::Failed(failure));
        }
    }
    Err(Stop::Read(ReadError::Failed(ErrorKind::Other)))
}

// Handles an item whose bytes are the state's frame.
fn handle<W: Write, L: Write>(
    alloc: Global,
    plan: &Plan,
    state: &mut State,
    item: Item,
    position: Position,
    offset: u64,
    writer: &mut Writer<W>,
    lines: &mut Option<L>,
) -> Result<(), Failure>
    requires lawful { IsLawful plan.now.code.now.list }
    ensures { OnOk result ((w : List ℕ) × Appends (W.contents writer.old.output) (W.contents writer.new.output) w
        × IsHandled plan.now offset (moment position writer.old.state state.old) item state.old.frame.items (moment position writer.new.state state.new) w) }
{
    match item {
        Item::Packet(packet) => pass(alloc, plan, state, packet, position, offset, writer, lines),
        Item::Header(_) | Item::Section(_) | Item::Interface(_) | Item::Other(_) => {
            copy_item(state, item, position, writer)
        }
    }
}

// Notes the link type of an interface, and writes what is no packet.
fn copy_item<W: Write>(
    state: &mut State,
    item: Item,
    position: Position,
    writer: &mut Writer<W>,
) -> Result<(), Failure>
    ensures { OnOk result ((w : List ℕ) × Appends (W.contents writer.old.output) (W.contents writer.new.output) w
        × IsCopied (moment position writer.old.state state.old) item state.old.frame.items (moment position writer.new.state state.new) w) }
{
    let _position = position;
    note_link(&mut state.links, item)?;
    match writer.write_item(item, &state.frame) {
        Ok(()) => Ok(()),
        Err(error) => Err(Failure::Write(error)),
    }
}

fn note_link(links: &mut Vec<u16>, item: Item) -> Result<(), AllocError>
    ensures { OnOk result (links.new.items ≡ links_after links.old.items item) }
{
    match item {
        Item::Header(header) => {
            links.clear();
            links.push(header.link)?;
            Ok(())
        }
        Item::Section(_) => {
            links.clear();
            Ok(())
        }
        Item::Interface(interface) => {
            links.push(interface.link)?;
            Ok(())
        }
        Item::Packet(_) | Item::Other(_) => Ok(()),
    }
}
