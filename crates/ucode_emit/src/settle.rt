//! Instructions whose branches name points are given the places of those points.

ghost use Rattle.std.specs.Prelude.{◌≡◌, slice_index_or, map, IfOk};
ghost use Rattle.ucode_emit.specs.inner.DraftItems as drafts;

use nv_base::NoMemory;
use std::alloc::Global;
use uc_isa::Instr;

/// The place of a point.
fn place_of(places: &[u32], point: u32) -> u32
    ensures { result ≡ slice_index_or places.now point 0 }
{
    match places.get(point as usize) {
        Some(place) => *place,
        None => 0,
    }
}

/// One instruction.
fn settled(i: Instr, places: &[u32]) -> Instr
    ensures { result ≡ drafts.settled places.now i }
{
    match i {
        Instr::Br { cond, target } => Instr::Br {
            cond,
            target: place_of(places, target),
        },
        Instr::Alu {
            dst: _,
            op: _,
            x: _,
            y: _,
        } => i,
        Instr::Un {
            dst: _,
            op: _,
            x: _,
        } => i,
        Instr::Immed { dst: _, v: _, s: _ } => i,
        Instr::Read {
            mem: _,
            r: _,
            n: _,
            x: _,
            off: _,
        } => i,
        Instr::Write {
            mem: _,
            r: _,
            n: _,
            x: _,
            off: _,
        } => i,
        Instr::Halt { k: _, n: _ } => i,
    }
}

/// All of them.
pub fn settle(alloc: Global, draft: &[Instr], places: &[u32]) -> Result<Vec<Instr>, NoMemory>
    ensures { IfOk result (λ r. r.items ≡ map (drafts.settled places.now) draft.now) }
{
    let mut code = Vec::new(alloc);
    for i in draft {
        code.push(settled(*i, places))?;
    }
    Ok(code)
}

/// The places of some points.
pub fn places_of(alloc: Global, points: &[u32], places: &[u32]) -> Result<Vec<u32>, NoMemory>
    ensures { IfOk result (λ r. r.items ≡ map (λ k. slice_index_or places.now k 0) points.now) }
{
    let mut list = Vec::new(alloc);
    for k in points {
        list.push(place_of(places, *k))?;
    }
    Ok(list)
}
