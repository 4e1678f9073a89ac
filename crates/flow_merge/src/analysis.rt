// Which parameters are wanted. It has no contract: whatever it says, what is left of the flow means the same, or
// there is no answer.

use flow_ir::{Label, Tree};
use nv_base::{Atom, NoMemory, Prim};
use std::alloc::Global;

// The rank of a parameter that nothing wants, and the end of a list of jumps.
const NONE: u32 = u32::MAX;

/// For each parameter of each label its rank: 0 where the label uses it, one more than another parameter's where it
/// is handed on for that.
#[derive(Drop)]
pub struct Ranking {
    pub ranks: Vec<Vec<u32>>,
}

impl Ranking {
    /// The ranks of the parameters of these labels. It needs no contract: `prune` gives no flow whose ranks don't show
    /// that each parameter is wanted.
    pub fn new(alloc: Global, labels: &[Label]) -> Result<Ranking, NoMemory> {
        let mut wanted = Ranking {
            ranks: Vec::new(alloc),
        };
        let mut most = labels.len();
        for l in labels {
            wanted.ranks.push(vec![in alloc; NONE; l.params.len()]?)?;
            most = most.saturating_add(l.params.len());
        }
        let mut jumps = Jumps::new(alloc, labels)?;
        for _ in 0..most.saturating_mul(labels.len()) {
            match jumps.pending.pop() {
                Some(l) => {
                    put(&mut jumps.waits, l, false);
                    wanted.visit(labels, l, &mut jumps)?;
                }
                None => return Ok(wanted),
            }
        }
        Ok(wanted)
    }

    // Gives ranks to parameters of a label, and where some are new, looks again at the labels that jump to it.
    fn visit(&mut self, labels: &[Label], l: u32, jumps: &mut Jumps) -> Result<(), NoMemory> {
        if let Some(m) = labels.get(l as usize) {
            if self.mark(l, &m.params, &m.body) {
                jumps.look_again(l)?;
            }
        }
        Ok(())
    }

    // Gives ranks to the parameters that a tree uses, or hands on for wanted ones; whether some are new.
    fn mark(&mut self, l: u32, params: &[u32], t: &Tree) -> bool {
        let mut is_new = false;
        let mut cur = t;
        'spine: loop {
            match cur {
                Tree::Let(_, p, rest) => {
                    is_new = self.use_prim(l, params, *p) || is_new;
                    cur = rest;
                }
                Tree::Read(_, _, a, rest) => {
                    is_new = self.want(l, params, *a, 0) || is_new;
                    cur = rest;
                }
                Tree::Write(_, a, bs, rest) => {
                    is_new = self.want(l, params, *a, 0) || is_new;
                    is_new = self.use_all(l, params, bs) || is_new;
                    cur = rest;
                }
                Tree::If(_, a, b, first, second) => {
                    is_new = self.want(l, params, *a, 0) || is_new;
                    is_new = self.want(l, params, *b, 0) || is_new;
                    is_new = self.mark(l, params, first) || is_new;
                    cur = second;
                }
                Tree::Jump(k, bs) => return self.hand_on(l, params, *k, bs) || is_new,
                Tree::Halt(_, bs) => return self.use_all(l, params, bs) || is_new,
            }
        }
    }

    // Gives a rank to the parameter that an operand is, if it has none.
    fn want(&mut self, l: u32, params: &[u32], a: Atom, rank: u32) -> bool {
        match a {
            Atom::Var(x) => match index_of(params, x) {
                Some(j) => self.set(l, j, rank),
                None => false,
            },
            Atom::Lit(_) => false,
        }
    }

    fn use_prim(&mut self, l: u32, params: &[u32], p: Prim) -> bool {
        match p {
            Prim::Same(a) => self.want(l, params, a, 0),
            Prim::Una(_, a) => self.want(l, params, a, 0),
            Prim::Bin(_, a, b) => {
                let is_new = self.want(l, params, a, 0);
                self.want(l, params, b, 0) || is_new
            }
        }
    }

    fn use_all(&mut self, l: u32, params: &[u32], bs: &[Atom]) -> bool {
        let mut is_new = false;
        for b in bs {
            is_new = self.want(l, params, *b, 0) || is_new;
        }
        is_new
    }

    // The words that are handed on to label k for wanted parameters.
    fn hand_on(&mut self, l: u32, params: &[u32], k: u32, bs: &[Atom]) -> bool {
        let mut is_new = false;
        for (j, b) in bs.iter().enumerate() {
            let rank = self.rank(k, j);
            if rank != NONE {
                is_new = self.want(l, params, *b, rank.saturating_add(1)) || is_new;
            }
        }
        is_new
    }

    fn rank(&self, l: u32, j: usize) -> u32 {
        match self.ranks.get(l as usize) {
            Some(row) => { if j < row.len() { row[j] } else { NONE } }
            None => NONE,
        }
    }

    fn set(&mut self, l: u32, j: usize, rank: u32) -> bool {
        let i = l as usize;
        if i < self.ranks.len() && j < self.ranks[i].len() && self.ranks[i][j] == NONE {
            self.ranks[i][j] = rank;
            return true;
        }
        false
    }
}

// Which parameter of a label a variable is.
fn index_of(params: &[u32], x: u32) -> Option<usize> {
    let i = x as usize;
    if i < params.len() && params[i] == x {
        return Some(i);
    }
    params.iter().position(|p| *p == x)
}

// Puts a value at a place, if it is there.
fn put(values: &mut [bool], l: u32, v: bool) {
    let i = l as usize;
    if i < values.len() {
        values[i] = v;
    }
}

// The number at a place, or none.
fn get(numbers: &[u32], l: u32) -> u32 {
    match numbers.get(l as usize) {
        Some(n) => *n,
        None => NONE,
    }
}

// The jumps to each label as a list, with the label of each and the next one, and the labels that are to be looked at.
#[derive(Drop)]
struct Jumps {
    heads: Vec<u32>,
    from: Vec<u32>,
    next: Vec<u32>,
    pending: Vec<u32>,
    waits: Vec<bool>,
}

impl Jumps {
    fn new(alloc: Global, labels: &[Label]) -> Result<Jumps, NoMemory> {
        let mut jumps = Jumps {
            heads: vec![in alloc; NONE; labels.len()]?,
            from: Vec::new(alloc),
            next: Vec::new(alloc),
            pending: Vec::new(alloc),
            waits: vec![in alloc; true; labels.len()]?,
        };
        let mut own: u32 = 0;
        for l in labels {
            jumps.pending.push(own)?;
            jumps.survey(&l.body, own)?;
            own = own.saturating_add(1);
        }
        Ok(jumps)
    }

    // Adds the jumps of a tree in this label.
    fn survey(&mut self, t: &Tree, own: u32) -> Result<(), NoMemory> {
        let mut cur = t;
        'spine: loop {
            match cur {
                Tree::Let(_, _, rest) => cur = rest,
                Tree::Read(_, _, _, rest) => cur = rest,
                Tree::Write(_, _, _, rest) => cur = rest,
                Tree::If(_, _, _, first, second) => {
                    self.survey(first, own)?;
                    cur = second;
                }
                Tree::Jump(k, _) => return self.add(*k, own),
                Tree::Halt(_, _) => return Ok(()),
            }
        }
    }

    fn add(&mut self, k: u32, own: u32) -> Result<(), NoMemory> {
        let i = k as usize;
        if i < self.heads.len() && self.from.len() < NONE as usize {
            let jump = self.from.len() as u32;
            self.from.push(own)?;
            self.next.push(self.heads[i])?;
            self.heads[i] = jump;
        }
        Ok(())
    }

    // The labels that jump to this one are to be looked at.
    fn look_again(&mut self, l: u32) -> Result<(), NoMemory> {
        let mut jump = get(&self.heads, l);
        for _ in 0..self.from.len() {
            if jump == NONE {
                return Ok(());
            }
            let own = get(&self.from, jump);
            if is_idle(&self.waits, own) {
                put(&mut self.waits, own, true);
                self.pending.push(own)?;
            }
            jump = get(&self.next, jump);
        }
        Ok(())
    }
}

fn is_idle(waits: &[bool], l: u32) -> bool {
    match waits.get(l as usize) {
        Some(waits) => !*waits,
        None => false,
    }
}

/// For each label but 0 the parameters that nothing wants. It needs no contract: `prune` gives no flow without a
/// parameter that is used.
pub fn unwanted(alloc: Global, labels: &[Label]) -> Result<Vec<Vec<u32>>, NoMemory> {
    let ranking = Ranking::new(alloc, labels)?;
    let mut table = Vec::new(alloc);
    let mut i: u32 = 0;
    for l in labels {
        let mut row = Vec::new(alloc);
        for (j, p) in l.params.iter().enumerate() {
            if i != 0 && ranking.rank(i, j) == NONE {
                row.push(*p)?;
            }
        }
        table.push(row)?;
        i = i.saturating_add(1);
    }
    Ok(table)
}
