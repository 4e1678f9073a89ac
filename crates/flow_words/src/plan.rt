// How a word is made of slices of variables in the fewest operations. It has no contract: whatever it says, the word that comes of it
// is compared, bit by bit, with the one that was asked for.

use crate::bits::{Bit, atom_bit, is_same, is_zero};
use crate::state::{Known, known_of};
use nv_base::{Atom, Bin, NoMemory, Prim, Una};
use std::alloc::Global;

// A number shifted to the left.
fn left(m: u32, k: u8) -> u32 {
    if k < 32 { m << k } else { 0 }
}

// A number shifted to the right.
fn right(m: u32, k: u8) -> u32 {
    if k < 32 { m >> k } else { 0 }
}

// A step from a word to a word.
#[derive(Clone, Copy)]
enum Turn {
    Left(u8),
    Right(u8),
    Round(u8),
    Mask(u32),
}

// What a step gives of a word.
fn turned(m: u32, t: Turn) -> u32 {
    match t {
        Turn::Left(k) => left(m, k),
        Turn::Right(k) => right(m, k),
        Turn::Round(k) => m.rotate_left(k as u32),
        Turn::Mask(v) => m & v,
    }
}

// Up to three steps, and what they cost.
#[derive(Clone, Copy)]
struct Way {
    cost: u32,
    first: Option<Turn>,
    second: Option<Turn>,
    third: Option<Turn>,
}

// The steps of a slice of a literal: instructions that load it.
fn literal_cost(v: u32) -> u32 {
    if v < 65_536 || (v & 0xff == 0 && (v >> 8) < 65_536) || v & 0xffff == 0 {
        1
    } else {
        3
    }
}

fn turn_cost(t: Option<Turn>) -> u32 {
    match t {
        None => 0,
        Some(Turn::Mask(v)) => literal_cost(v).saturating_add(1),
        Some(_) => 1,
    }
}

fn in_turn(first: Option<Turn>, second: Option<Turn>, third: Option<Turn>) -> Way {
    let cost = turn_cost(first)
        .saturating_add(turn_cost(second))
        .saturating_add(turn_cost(third));
    Way {
        cost,
        first,
        second,
        third,
    }
}

fn after(m: u32, t: Option<Turn>) -> u32 {
    match t {
        None => m,
        Some(t) => turned(m, t),
    }
}

// The cheaper one, where the second makes the bits that are wanted of those that may be there.
fn better(best: Option<Way>, next: Way, possible: u32, wanted: u32) -> Option<Way> {
    if after(after(after(possible, next.first), next.second), next.third) != wanted {
        return best;
    }
    match best {
        Some(b) => if next.cost < b.cost { Some(next) } else { best },
        None => Some(next),
    }
}

// A mask with these bits and without those, cheap to load.
fn mask(wanted: u32, gone: u32) -> u32 {
    let free = !(wanted | gone);
    let mut best = wanted;
    for v in [
        wanted | (free & 0xffff),
        wanted | (free & 0xffff_0000),
        wanted | free,
    ] {
        if literal_cost(v) < literal_cost(best) {
            best = v;
        }
    }
    best
}

// A step and a mask.
fn with_mask(best: Option<Way>, t: Option<Turn>, possible: u32, wanted: u32) -> Option<Way> {
    let m = after(possible, t);
    let next = in_turn(t, Some(Turn::Mask(mask(wanted, m & !wanted))), None);
    better(best, next, possible, wanted)
}

// The steps from the bits of a word that may be there to those that are wanted, `turn` places to the left around.
fn ways(possible: u32, turn: u8, wanted: u32) -> Option<Way> {
    let mut best = better(
        None,
        in_turn(None, None, None),
        if turn == 0 { possible } else { !wanted },
        wanted,
    );
    if turn != 0 && turn < 32 {
        for t in [Turn::Left(turn), Turn::Right(32 - turn), Turn::Round(turn)] {
            best = better(best, in_turn(Some(t), None, None), possible, wanted);
            best = with_mask(best, Some(t), possible, wanted);
        }
    }
    if turn == 0 {
        best = with_mask(best, None, possible, wanted);
    }
    two_shifts(best, possible, turn, wanted)
}

// The same by two shifts, or by three.
fn two_shifts(from: Option<Way>, possible: u32, turn: u8, wanted: u32) -> Option<Way> {
    let mut best = from;
    for b in 1..32u8 {
        let a = (turn.saturating_add(b)) % 32;
        if a != 0 {
            best = better(
                best,
                in_turn(Some(Turn::Left(a)), Some(Turn::Right(b)), None),
                possible,
                wanted,
            );
            best = better(
                best,
                in_turn(Some(Turn::Right(b)), Some(Turn::Left(a)), None),
                possible,
                wanted,
            );
        }
    }
    let low = wanted.trailing_zeros() as u8;
    let high = wanted.leading_zeros() as u8;
    let width = 32u8.saturating_sub(low).saturating_sub(high);
    let from = (low.saturating_add(32).saturating_sub(turn)) % 32;
    let over = 32u8.saturating_sub(from.saturating_add(width));
    let next = in_turn(
        Some(Turn::Left(over)),
        Some(Turn::Right(32u8.saturating_sub(width))),
        Some(Turn::Left(low)),
    );
    if over != 0 && width < 32 && low != 0 && low < 32 {
        better(best, next, possible, wanted)
    } else {
        best
    }
}

// A slice of a variable, or of its bits turned over: the bits that it gives, so many places to the left around.
#[derive(Clone, Copy)]
struct Slice {
    base: u32,
    turn: u8,
    over: bool,
    mask: u32,
}

// A bit more of a slice.
fn add_bit(
    slices: &mut Vec<Slice>,
    base: u32,
    turn: u8,
    over: bool,
    bit: u32,
) -> Result<(), NoMemory> {
    for s in slices.iter_mut() {
        if s.base == base && s.turn == turn && s.over == over {
            s.mask |= bit;
            return Ok(());
        }
    }
    slices.push(Slice {
        base,
        turn,
        over,
        mask: bit,
    })?;
    Ok(())
}

// How far around place j is at place i.
fn distance(i: u8, j: u8) -> u8 {
    (i.saturating_add(32).saturating_sub(j)) % 32
}

// The slices of a word, and its ones; none where a bit isn't known.
fn slices(alloc: Global, bits: &[Bit]) -> Result<Option<(Vec<Slice>, u32)>, NoMemory> {
    let mut found = Vec::new(alloc);
    let mut ones = 0;
    let mut bit = 1u32;
    let mut i = 0u8;
    for b in bits {
        match *b {
            Bit::Unknown => return Ok(None),
            Bit::Zero => {}
            Bit::One => ones |= bit,
            Bit::Of(x, j) => add_bit(&mut found, x, distance(i, j), false, bit)?,
            Bit::Flipped(x, j) => add_bit(&mut found, x, distance(i, j), true, bit)?,
        }
        bit = left(bit, 1);
        i = i.saturating_add(1);
    }
    Ok(Some((found, ones)))
}

// The bits of a variable, or of these turned over, that aren't known to be 0.
fn possible(table: &[Known], x: u32, over: bool) -> u32 {
    let mut found = 0;
    let mut bit = 1u32;
    for i in 0..32u8 {
        let b = atom_bit(table, Atom::Var(x), i);
        let gone = if over {
            is_same(b, Bit::One)
        } else {
            is_zero(b)
        };
        if !gone {
            found |= bit;
        }
        bit = left(bit, 1);
    }
    found
}

// Whether an operand has these bits.
fn has_bits(table: &[Known], a: Atom, bits: &[Bit]) -> bool {
    let mut i = 0u8;
    for b in bits {
        if i >= 32 || !is_same(atom_bit(table, a, i), *b) {
            return false;
        }
        i = i.saturating_add(1);
    }
    true
}

// The operand of a definition that its word is mostly made of, or none.
fn main_operand(table: &[Known], a: Atom) -> Option<Atom> {
    match a {
        Atom::Var(x) => {
            let k = known_of(table, x);
            if !k.live {
                return None;
            }
            match k.made {
                Prim::Same(b) => Some(b),
                Prim::Una(_, b) => Some(b),
                Prim::Bin(_, b, Atom::Lit(_)) => Some(b),
                Prim::Bin(_, Atom::Lit(_), b) => Some(b),
                Prim::Bin(_, _, _) => None,
            }
        }
        Atom::Lit(_) => None,
    }
}

// The operand, or the one that it is made of and so on, that has these bits.
fn with_bits(table: &[Known], a: Atom, bits: &[Bit]) -> Option<Atom> {
    let mut now = a;
    for _ in 0..6u8 {
        if has_bits(table, now, bits) {
            return Some(now);
        }
        match main_operand(table, now) {
            Some(b) => now = b,
            None => return None,
        }
    }
    None
}

// An operand of a primitive, or one that it is made of, that has these bits.
fn operand_with(table: &[Known], p: Prim, bits: &[Bit]) -> Option<Atom> {
    match p {
        Prim::Same(a) => with_bits(table, a, bits),
        Prim::Una(_, a) => with_bits(table, a, bits),
        Prim::Bin(_, a, b) => match with_bits(table, a, bits) {
            Some(c) => Some(c),
            None => with_bits(table, b, bits),
        },
    }
}

// The operand, or the one that it is made of and so on, that is the variable with its bits turned over.
fn not_at(table: &[Known], a: Atom, x: u32) -> Option<Atom> {
    let mut now = a;
    for _ in 0..6u8 {
        if let Atom::Var(y) = now {
            let k = known_of(table, y);
            if let Prim::Una(Una::Not, Atom::Var(z)) = k.made {
                if k.live && z == x {
                    return Some(now);
                }
            }
        }
        match main_operand(table, now) {
            Some(b) => now = b,
            None => return None,
        }
    }
    None
}

fn not_in(table: &[Known], p: Prim, x: u32) -> Option<Atom> {
    match p {
        Prim::Same(a) => not_at(table, a, x),
        Prim::Una(_, a) => not_at(table, a, x),
        Prim::Bin(_, a, b) => match not_at(table, a, x) {
            Some(c) => Some(c),
            None => not_at(table, b, x),
        },
    }
}

// How often a variable is used.
fn count(uses: &[u32], x: u32) -> u32 {
    match uses.get(x as usize) {
        Some(n) => *n,
        None => 1,
    }
}

// Whether a variable is made of bits of others.
fn is_made(table: &[Known], x: u32) -> bool {
    for i in 0..32u8 {
        match atom_bit(table, Atom::Var(x), i) {
            Bit::Of(y, _) => return x != y,
            Bit::Flipped(y, _) => return x != y,
            _ => {}
        }
    }
    true
}

// The cost of a literal; the definition of a variable that nothing else uses is to be looked at.
fn push_operand(
    table: &[Known],
    uses: &[u32],
    pending: &mut Vec<Prim>,
    a: Atom,
) -> Result<u32, NoMemory> {
    match a {
        Atom::Lit(v) => Ok(literal_cost(v)),
        Atom::Var(x) => {
            let k = known_of(table, x);
            if k.live && count(uses, x) <= 1 && is_made(table, x) {
                pending.push(k.made)?;
            }
            Ok(0)
        }
    }
}

// How many instructions go with a primitive that isn't needed any more.
fn cost(alloc: Global, table: &[Known], uses: &[u32], p: Prim) -> Result<u32, NoMemory> {
    let mut pending = Vec::new(alloc);
    pending.push(p)?;
    let mut total = 0u32;
    for _ in 0..16u8 {
        match pending.pop() {
            None => return Ok(total),
            Some(q) => {
                let n = cost_of(table, uses, &mut pending, q)?;
                total = total.saturating_add(n);
            }
        }
    }
    Ok(total)
}

// The same of one primitive, without its operands' definitions.
fn cost_of(
    table: &[Known],
    uses: &[u32],
    pending: &mut Vec<Prim>,
    p: Prim,
) -> Result<u32, NoMemory> {
    match p {
        Prim::Same(a) => push_operand(table, uses, pending, a),
        Prim::Una(_, a) => {
            let n = push_operand(table, uses, pending, a)?;
            Ok(n.saturating_add(1))
        }
        Prim::Bin(_, a, b) => {
            let n = push_operand(table, uses, pending, a)?;
            let m = push_operand(table, uses, pending, b)?;
            Ok(n.saturating_add(m).saturating_add(1))
        }
    }
}

// One definition more; the variable of the answer.
fn then(prims: &mut Vec<Prim>, next: u32, p: Prim) -> Result<Atom, NoMemory> {
    let n = prims.len();
    prims.push(p)?;
    Ok(Atom::Var(next.saturating_add(if n < 1000 { n as u32 } else { 1000 })))
}

fn then_turn(prims: &mut Vec<Prim>, next: u32, a: Atom, t: Option<Turn>) -> Result<Atom, NoMemory> {
    match t {
        None => Ok(a),
        Some(Turn::Left(k)) => then(prims, next, Prim::Una(Una::Shl(k), a)),
        Some(Turn::Right(k)) => then(prims, next, Prim::Una(Una::Shr(k), a)),
        Some(Turn::Round(k)) => then(prims, next, Prim::Una(Una::Rol(k), a)),
        Some(Turn::Mask(v)) => then(prims, next, Prim::Bin(Bin::And, a, Atom::Lit(v))),
    }
}

// A slice, and what it costs; none where there is no way.
fn then_slice(
    table: &[Known],
    prims: &mut Vec<Prim>,
    next: u32,
    p: Prim,
    s: Slice,
) -> Result<Option<(Atom, u32)>, NoMemory> {
    let mut a = Atom::Var(s.base);
    let mut own = 0u32;
    if s.over {
        match not_in(table, p, s.base) {
            Some(b) => a = b,
            None => {
                a = then(prims, next, Prim::Una(Una::Not, a))?;
                own = 1;
            }
        }
    }
    match ways(possible(table, s.base, s.over), s.turn, s.mask) {
        None => Ok(None),
        Some(w) => {
            let b = then_turn(prims, next, a, w.first)?;
            let c = then_turn(prims, next, b, w.second)?;
            let d = then_turn(prims, next, c, w.third)?;
            Ok(Some((d, w.cost.saturating_add(own))))
        }
    }
}

// All slices and the ones joined, and what that costs; none where there is no way.
fn then_all(
    table: &[Known],
    prims: &mut Vec<Prim>,
    next: u32,
    p: Prim,
    slices: &[Slice],
    ones: u32,
) -> Result<Option<u32>, NoMemory> {
    let mut total = 0u32;
    let mut whole = None;
    for s in slices {
        match then_slice(table, prims, next, p, *s)? {
            None => return Ok(None),
            Some((a, n)) => {
                total = total.saturating_add(n);
                match whole {
                    None => whole = Some(a),
                    Some(b) => {
                        whole = Some(then(prims, next, Prim::Bin(Bin::Or, b, a))?);
                        total = total.saturating_add(1);
                    }
                }
            }
        }
    }
    match whole {
        None => then(prims, next, Prim::Same(Atom::Lit(ones)))?,
        Some(a) => {
            if ones != 0 {
                total = total.saturating_add(literal_cost(ones)).saturating_add(1);
                then(prims, next, Prim::Bin(Bin::Or, a, Atom::Lit(ones)))?
            } else if total == 0 {
                then(prims, next, Prim::Same(a))?
            } else {
                a
            }
        }
    };
    Ok(Some(total))
}

/// Primitives the last of which has these bits, as one primitive has, in fewer instructions than that; the others define the
/// variables from `next` on. None where there are none.
pub fn cheapest(
    alloc: Global,
    table: &[Known],
    uses: &[u32],
    next: u32,
    p: Prim,
    bits: &[Bit],
) -> Result<Vec<Prim>, NoMemory> {
    let mut prims = Vec::new(alloc);
    if let Some(a) = operand_with(table, p, bits) {
        prims.push(Prim::Same(a))?;
        return Ok(prims);
    }
    match slices(alloc, bits)? {
        None => Ok(prims),
        Some((found, ones)) => {
            if found.len() > 4 {
                return Ok(prims);
            }
            match then_all(table, &mut prims, next, p, &found, ones)? {
                None => Ok(Vec::new(alloc)),
                Some(n) => {
                    let old = cost(alloc, table, uses, p)?;
                    if n < old {
                        Ok(prims)
                    } else {
                        Ok(Vec::new(alloc))
                    }
                }
            }
        }
    }
}
