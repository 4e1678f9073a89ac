//! The moves of pieces, one after the other.

ghost use Rattle.std.specs.Prelude.{◌≡◌, ◌++◌, OnOk};
ghost use Rattle.place_plan.specs.declared.place.Place.TheVariants.{Slot};
ghost use Rattle.ucode_emit.specs.Pieces as pieces;

use nv_base::NoMemory;
use place_plan::Place;

/// A move of a word: from the first place to the second.
pub type Move = (Place, Place);

/// The register of a pass.
pub fn named(r: Option<u8>) -> u8
    ensures { result ≡ pieces.named r }
{
    match r {
        Some(k) => k,
        None => 0,
    }
}

// A word of a slot comes by way of a read register.
fn bring_slot(moves: &mut Vec<Move>, l: Option<u8>, k: u8, at: Place) -> Result<(), NoMemory>
    ensures { OnOk result (moves.new.items ≡ moves.old.items ++ pieces.bring l (Slot k) at) }
{
    let register = Place::L(named(l));
    moves.push((Place::Slot(k), register))?;
    moves.push((register, at))?;
    Ok(())
}

/// From a home to a register.
pub fn bring(moves: &mut Vec<Move>, l: Option<u8>, from: Place, at: Place) -> Result<(), NoMemory>
    ensures { OnOk result (moves.new.items ≡ moves.old.items ++ pieces.bring l from at) }
{
    match from {
        Place::Slot(k) => bring_slot(moves, l, k, at)?,
        Place::A(_) => moves.push((from, at))?,
        Place::B(_) => moves.push((from, at))?,
        Place::L(_) => moves.push((from, at))?,
        Place::LD(_) => moves.push((from, at))?,
        Place::S(_) => moves.push((from, at))?,
        Place::SD(_) => moves.push((from, at))?,
    }
    Ok(())
}

/// The same, but nothing where the word is there.
pub fn brought(moves: &mut Vec<Move>, l: Option<u8>, from: Place, at: Place) -> Result<(), NoMemory>
    ensures { OnOk result (moves.new.items ≡ moves.old.items ++ pieces.brought l from at) }
{
    if !from.is(at) {
        bring(moves, l, from, at)?;
    }
    Ok(())
}

/// One copy after a definition; what goes to a slot goes by way of a write register.
pub fn copied(moves: &mut Vec<Move>, s: Option<u8>, from: Place, at: Place) -> Result<(), NoMemory>
    ensures { OnOk result (moves.new.items ≡ moves.old.items ++ pieces.copied s from at) }
{
    if at.is_slot() {
        let register = Place::S(named(s));
        moves.push((from, register))?;
        moves.push((register, at))?;
    } else {
        moves.push((from, at))?;
    }
    Ok(())
}

/// All copies after a definition.
pub fn all_copied(
    moves: &mut Vec<Move>,
    s: Option<u8>,
    from: Place,
    copies: &[Place],
) -> Result<(), NoMemory>
    ensures { OnOk result (moves.new.items ≡ moves.old.items ++ pieces.all_copied s from copies.now) }
{
    for at in copies {
        copied(moves, s, from, *at)?;
    }
    Ok(())
}

/// One of the single moves of a parallel move; what goes to a slot goes by way of a write register.
pub fn single_move(
    moves: &mut Vec<Move>,
    l: Option<u8>,
    from: Place,
    at: Place,
) -> Result<(), NoMemory>
    ensures { OnOk result (moves.new.items ≡ moves.old.items ++ pieces.single_move l from at) }
{
    if at.is_slot() {
        bring(moves, l, from, Place::S(0))?;
        moves.push((Place::S(0), at))?;
    } else {
        bring(moves, l, from, at)?;
    }
    Ok(())
}

/// The single moves of a parallel move.
pub fn single_moves(moves: &mut Vec<Move>, l: Option<u8>, singles: &[Move]) -> Result<(), NoMemory>
    ensures { OnOk result (moves.new.items ≡ moves.old.items ++ pieces.single_moves l singles.now) }
{
    for single in singles {
        single_move(moves, l, single.0, single.1)?;
    }
    Ok(())
}
