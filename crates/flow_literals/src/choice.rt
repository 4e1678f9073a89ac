// Which literals labels of loops are to take. It needs no contract: whatever is wished, the outcomes are the same.

use crate::loops::{Loops, WHOLE};
use crate::turns::{note_address, note_prim, note_test};
use flow_ir::{Label, Tree};
use nv_base::NoMemory;
use std::alloc::Global;

/// The least weight of a literal that is worth a parameter.
const LEAST: u32 = WHOLE / 16 * 9;

/// A literal, and how many instructions of a turn load it.
#[derive(Clone, Copy)]
struct Weighed {
    value: u32,
    weight: u32,
}

/// How many instructions load a literal.
fn cost(v: u32) -> u32 {
    if v < 65536 || v & 0xFF0000FF == 0 || v & 0xFFFF == 0 {
        1
    } else {
        3
    }
}

/// Adds loads of literals.
fn weigh(all: &mut Vec<Weighed>, values: &[u32], weight: u32) -> Result<(), NoMemory> {
    for v in values {
        let more = weight.saturating_mul(cost(*v));
        match all.iter().position(|w| w.value == *v) {
            Some(i) => {
                if i < all.len() {
                    all[i].weight = all[i].weight.saturating_add(more);
                }
            }
            None => all.push(Weighed {
                value: *v,
                weight: more,
            })?,
        }
    }
    Ok(())
}

/// The loads of a tree on its ways that stay in a loop. Of two arms that stay each is taken half the time.
fn weigh_tree(
    alloc: Global,
    loops: &Loops,
    g: usize,
    t: &Tree,
    weight: u32,
    all: &mut Vec<Weighed>,
) -> Result<(), NoMemory> {
    let mut now = weight;
    let mut found = Vec::new(alloc);
    let mut cur = t;
    'spine: loop {
        found.clear();
        match cur {
            Tree::Let(_, p, rest) => {
                note_prim(&mut found, *p)?;
                weigh(all, &found, now)?;
                cur = rest;
            }
            Tree::Read(m, _, a, rest) => {
                note_address(&mut found, *m, *a)?;
                weigh(all, &found, now)?;
                cur = rest;
            }
            Tree::Write(m, a, _, rest) => {
                note_address(&mut found, *m, *a)?;
                weigh(all, &found, now)?;
                cur = rest;
            }
            Tree::If(c, a, b, first, second) => {
                note_test(&mut found, *c, *a, *b)?;
                weigh(all, &found, now)?;
                if loops.stays(g, first) {
                    if loops.stays(g, second) {
                        now = now.wrapping_shr(1);
                        weigh_tree(alloc, loops, g, first, now, all)?;
                        cur = second;
                    } else {
                        cur = first;
                    }
                } else {
                    cur = second;
                }
            }
            Tree::Jump(_, _) => return Ok(()),
            Tree::Halt(_, _) => return Ok(()),
        }
    }
}

/// The place of the heaviest of these.
fn heaviest(all: &[Weighed]) -> usize {
    let mut best = 0;
    let mut weight = 0;
    for (i, w) in all.iter().enumerate() {
        if w.weight > weight {
            best = i;
            weight = w.weight;
        }
    }
    best
}

/// The heaviest of these that are worth a parameter, so many at most.
fn chosen(alloc: Global, mut all: Vec<Weighed>, room: usize) -> Result<Vec<u32>, NoMemory> {
    let mut values = Vec::new(alloc);
    for _ in 0..room {
        let best = heaviest(&all);
        if best < all.len() {
            if all[best].weight < LEAST {
                return Ok(values);
            }
            values.push(all[best].value)?;
            all[best].weight = 0;
        }
    }
    Ok(values)
}

/// The literals that the labels of a loop are to take.
fn wish(
    alloc: Global,
    literals: usize,
    params: usize,
    loops: &Loops,
    labels: &[Label],
    g: usize,
) -> Result<Vec<u32>, NoMemory> {
    let often = loops.frequencies(alloc, labels, g)?;
    let mut all = Vec::new(alloc);
    let mut widest = 0;
    for (l, m) in labels.iter().enumerate() {
        if loops.group(l) == g && l < often.len() {
            weigh_tree(alloc, loops, g, &m.body, often[l], &mut all)?;
            widest = m.params.len().max(widest);
        }
    }
    chosen(alloc, all, literals.min(params.saturating_sub(widest)))
}

/// The literals that each loop is to take, by the number of one of its labels.
#[derive(Drop)]
pub struct Wishes {
    loops: Loops,
    literals: Vec<Vec<u32>>,
}

impl Wishes {
    /// The literals that a label is to take.
    pub fn of(&self, l: u32) -> &[u32] {
        match self.literals.get(self.loops.group(l as usize)) {
            Some(wish) => wish.as_slice(),
            None => &[],
        }
    }
}

/// The wishes for all labels: so many literals at most, and no more than leave so many parameters.
pub fn wished(
    alloc: Global,
    most: usize,
    params: usize,
    labels: &[Label],
) -> Result<Wishes, NoMemory> {
    let loops = Loops::of(alloc, labels)?;
    let mut literals = Vec::new(alloc);
    for l in 0..labels.len() {
        if loops.group(l) == l {
            literals.push(wish(alloc, most, params, &loops, labels, l)?)?;
        } else {
            literals.push(Vec::new(alloc))?;
        }
    }
    Ok(Wishes { loops, literals })
}
