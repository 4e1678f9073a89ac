//! The moves that fetch a point's operands.

ghost use Rattle.std.specs.Prelude.{◌≡◌, ◌++◌, map, OnOk};
ghost use Rattle.ucode_emit.specs.inner.DraftItems as drafts;
ghost use Rattle.ucode_emit.specs.inner.Given as given;
ghost use Rattle.ucode_emit.specs.inner.EmitContext.{CanAll};
ghost use Rattle.ucode_emit.specs.Pieces.{moved};

use crate::draft::{Draft, push_moves};
use crate::moves::{Move, brought};
use nv_base::NoMemory;
use place_plan::{Place, Serve};
use std::alloc::Global;

// Fetches an operand that is wanted in the compiler's own register.
fn own_fetch(moves: &mut Vec<Move>, l: Option<u8>, serve: Serve) -> Result<(), NoMemory>
    ensures { OnOk result (moves.new.items ≡ moves.old.items ++ drafts.own_fetch l serve) }
{
    if serve.at.is(Place::A(15)) {
        brought(moves, l, serve.from, serve.at)?;
    }
    Ok(())
}

// Fetches an operand from a slot into a read register.
fn slot_fetch(moves: &mut Vec<Move>, serve: Serve) -> Result<(), NoMemory>
    ensures { OnOk result (moves.new.items ≡ moves.old.items ++ drafts.slot_fetch serve) }
{
    if serve.from.is_slot() && serve.at.is_read() {
        moves.push((serve.from, serve.at))?;
    }
    Ok(())
}

// Those that are wanted in the compiler's own register.
fn own_fetches(moves: &mut Vec<Move>, l: Option<u8>, serves: &[Serve]) -> Result<(), NoMemory>
    ensures { OnOk result (moves.new.items ≡ moves.old.items ++ drafts.each_fetch (drafts.own_fetch l) serves.now) }
{
    for serve in serves {
        own_fetch(moves, l, *serve)?;
    }
    Ok(())
}

// Those that come from slots into read registers.
fn slot_fetches(moves: &mut Vec<Move>, serves: &[Serve]) -> Result<(), NoMemory>
    ensures { OnOk result (moves.new.items ≡ moves.old.items ++ drafts.each_fetch drafts.slot_fetch serves.now) }
{
    for serve in serves {
        slot_fetch(moves, *serve)?;
    }
    Ok(())
}

/// Fetches the operands of an instruction.
pub fn fetches(moves: &mut Vec<Move>, l: Option<u8>, serves: &[Serve]) -> Result<(), NoMemory>
    ensures { OnOk result (moves.new.items ≡ moves.old.items ++ drafts.fetches l serves.now) }
{
    own_fetches(moves, l, serves)?;
    slot_fetches(moves, serves)
}

/// Adds the moves that fetch the operands of an instruction.
pub fn push_fetches(
    alloc: Global,
    code: &mut Draft,
    l: Option<u8>,
    serves: &[Serve],
) -> Result<(), NoMemory>
    requires { CanAll (drafts.fetches l serves.now) }
    ensures { OnOk result (code.new ≡ code.old ++ map drafts.draft (moved (drafts.fetches l serves.now))) }
{
    let mut moves = Vec::new(alloc);
    fetches(&mut moves, l, serves)?;
    push_moves(code, &moves)
}

/// Where the operand of a number is wanted.
pub fn served_at(serves: &[Serve], i: usize) -> Place
    ensures { result ≡ given.at_of serves.now i }
{
    match serves.get(i) {
        Some(serve) => serve.at,
        None => Place::Slot(0),
    }
}

/// Brings words to their places; those that are there stay.
pub fn words(moves: &mut Vec<Move>, l: Option<u8>, serves: &[Serve]) -> Result<(), NoMemory>
    ensures { OnOk result (moves.new.items ≡ moves.old.items ++ drafts.each_fetch (drafts.word_fetch l) serves.now) }
{
    for serve in serves {
        brought(moves, l, serve.from, serve.at)?;
    }
    Ok(())
}
