// The loops of a flow: which labels lead to one another, and how often each is come to. Nothing here has a contract: it tells
// only what is worth its place.

use flow_ir::{Label, Tree};
use nv_base::NoMemory;
use std::alloc::Global;

/// No loop.
const NONE: usize = usize::MAX;
/// A share of what is come to, or how often the label is come to that is come to most.
pub const WHOLE: u32 = 64;
/// Where there are more labels, a label that jumps to itself is the only loop.
const MANY: usize = 1024;
/// Rounds in which frequencies settle.
const ROUNDS: usize = 40;

/// A jump, and which share of the runs of its label takes it.
#[derive(Clone, Copy)]
struct Edge {
    from: usize,
    to: usize,
    share: u32,
}

/// The loop of each label, by the number of one of its labels.
#[derive(Drop)]
pub struct Loops {
    groups: Vec<usize>,
}

/// Marks a label. Whether it wasn't.
fn mark(seen: &mut [bool], l: usize) -> bool {
    if l < seen.len() && !seen[l] {
        seen[l] = true;
        return true;
    }
    false
}

/// Marks the labels that a tree jumps to, and puts those that weren't to be looked at.
fn note(t: &Tree, seen: &mut [bool], pending: &mut Vec<usize>) -> Result<(), NoMemory> {
    let mut cur = t;
    'spine: loop {
        match cur {
            Tree::Let(_, _, rest) => cur = rest,
            Tree::Read(_, _, _, rest) => cur = rest,
            Tree::Write(_, _, _, rest) => cur = rest,
            Tree::If(_, _, _, first, second) => {
                note(first, seen, pending)?;
                cur = second;
            }
            Tree::Jump(l, _) => {
                if mark(seen, *l as usize) {
                    pending.push(*l as usize)?;
                }
                return Ok(());
            }
            Tree::Halt(_, _) => return Ok(()),
        }
    }
}

/// The labels that a label leads to by one jump or more.
fn led_to(alloc: Global, labels: &[Label], l: usize) -> Result<Vec<bool>, NoMemory> {
    let mut seen = vec![in alloc; false; labels.len()]?;
    let mut pending = Vec::new(alloc);
    pending.push(l)?;
    for _ in 0..=labels.len() {
        if let Some(k) = pending.pop() {
            if let Some(m) = labels.get(k) {
                note(&m.body, &mut seen, &mut pending)?;
            }
        }
    }
    Ok(seen)
}

/// Whether a label leads to another.
fn leads(table: &[Vec<bool>], from: usize, to: usize) -> bool {
    match table.get(from) {
        Some(row) => row.get(to).copied() == Some(true),
        None => false,
    }
}

/// The first label that a label leads to and that leads to it.
fn group_of(table: &[Vec<bool>], l: usize) -> usize {
    for k in 0..table.len() {
        if leads(table, l, k) && leads(table, k, l) {
            return k;
        }
    }
    NONE
}

/// Whether a tree jumps to a label.
fn goes_to(t: &Tree, l: usize) -> bool {
    let mut cur = t;
    'spine: loop {
        match cur {
            Tree::Let(_, _, rest) => cur = rest,
            Tree::Read(_, _, _, rest) => cur = rest,
            Tree::Write(_, _, _, rest) => cur = rest,
            Tree::If(_, _, _, first, second) => {
                if goes_to(first, l) {
                    return true;
                }
                cur = second;
            }
            Tree::Jump(k, _) => return *k as usize == l,
            Tree::Halt(_, _) => return false,
        }
    }
}

impl Loops {
    /// The loops of these labels.
    pub fn of(alloc: Global, labels: &[Label]) -> Result<Loops, NoMemory> {
        let mut groups = Vec::new(alloc);
        if labels.len() > MANY {
            for (l, m) in labels.iter().enumerate() {
                groups.push(if goes_to(&m.body, l) { l } else { NONE })?;
            }
            return Ok(Loops { groups });
        }
        let mut table = Vec::new(alloc);
        for l in 0..labels.len() {
            table.push(led_to(alloc, labels, l)?)?;
        }
        for l in 0..labels.len() {
            groups.push(group_of(&table, l))?;
        }
        Ok(Loops { groups })
    }

    /// The loop of a label.
    pub fn group(&self, l: usize) -> usize {
        match self.groups.get(l) {
            Some(g) => *g,
            None => NONE,
        }
    }

    /// Whether a tree jumps into a loop.
    pub fn stays(&self, g: usize, t: &Tree) -> bool {
        let mut cur = t;
        'spine: loop {
            match cur {
                Tree::Let(_, _, rest) => cur = rest,
                Tree::Read(_, _, _, rest) => cur = rest,
                Tree::Write(_, _, _, rest) => cur = rest,
                Tree::If(_, _, _, first, second) => {
                    if self.stays(g, first) {
                        return true;
                    }
                    cur = second;
                }
                Tree::Jump(l, _) => return self.group(*l as usize) == g,
                Tree::Halt(_, _) => return false,
            }
        }
    }

    /// Adds the jumps of a tree within a loop. Of two arms that stay each is taken half the time.
    fn survey(
        &self,
        g: usize,
        from: usize,
        t: &Tree,
        share: u32,
        edges: &mut Vec<Edge>,
    ) -> Result<(), NoMemory> {
        let mut now = share;
        let mut cur = t;
        'spine: loop {
            match cur {
                Tree::Let(_, _, rest) => cur = rest,
                Tree::Read(_, _, _, rest) => cur = rest,
                Tree::Write(_, _, _, rest) => cur = rest,
                Tree::If(_, _, _, first, second) => {
                    if self.stays(g, first) {
                        if self.stays(g, second) {
                            now = now.wrapping_shr(1);
                            self.survey(g, from, first, now, edges)?;
                            cur = second;
                        } else {
                            cur = first;
                        }
                    } else {
                        cur = second;
                    }
                }
                Tree::Jump(l, _) => {
                    let to = *l as usize;
                    if self.group(to) == g {
                        edges.push(Edge {
                            from,
                            to,
                            share: now,
                        })?;
                    }
                    return Ok(());
                }
                Tree::Halt(_, _) => return Ok(()),
            }
        }
    }

    /// How often each label of a loop is come to, beside the one that is come to most.
    pub fn frequencies(
        &self,
        alloc: Global,
        labels: &[Label],
        g: usize,
    ) -> Result<Vec<u32>, NoMemory> {
        let mut edges = Vec::new(alloc);
        for (l, m) in labels.iter().enumerate() {
            if self.group(l) == g {
                self.survey(g, l, &m.body, WHOLE, &mut edges)?;
            }
        }
        let mut all = vec![in alloc; WHOLE; labels.len()]?;
        for _ in 0..ROUNDS {
            all = one_round(alloc, &edges, &all)?;
        }
        Ok(all)
    }
}

/// The entry of a label.
fn at(all: &[u32], l: usize) -> u32 {
    match all.get(l) {
        Some(n) => *n,
        None => 0,
    }
}

/// How often labels are come to after one jump more, the most as often as before.
fn one_round(alloc: Global, edges: &[Edge], all: &[u32]) -> Result<Vec<u32>, NoMemory> {
    let mut next = vec![in alloc; 0u32; all.len()]?;
    let mut most = 1;
    for e in edges {
        if e.to < next.len() {
            let more = at(all, e.from).saturating_mul(e.share);
            next[e.to] = next[e.to].saturating_add(more);
            most = most.max(next[e.to]);
        }
    }
    let mut settled = Vec::new(alloc);
    for (l, n) in next.iter().enumerate() {
        let scaled = n.saturating_mul(WHOLE) / most.max(1);
        settled.push(scaled.saturating_add(at(all, l)).wrapping_shr(1))?;
    }
    Ok(settled)
}
