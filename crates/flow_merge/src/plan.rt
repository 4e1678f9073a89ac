// Which labels are put in the place of jumps, and the numbers of those that stay. A plan is only a wish: whatever it
// says, the copies mean the same, or there are none.

ghost use Rattle.std.specs.Prelude.{◌≡◌};
ghost use Rattle.flow_merge.specs.inner.Numbered.{numbering, rank_of};
ghost use Rattle.flow_merge.specs.inner.Sizes as sizes;

use flow_ir::{Label, Tree};
use nv_base::NoMemory;
use std::alloc::Global;

// No label.
const NONE: u32 = u32::MAX;

/// For each label its rank, 0 where it isn't put in the place of jumps, how much code there is in it and in those
/// inside it, whether it stays, and its new number. A label stands in another one of a higher rank.
#[derive(Drop)]
pub struct Plan {
    ranks: Vec<u32>,
    weights: Vec<u32>,
    stays: Vec<bool>,
    to: Vec<u32>,
    // the labels that are put in the place of those jumps alone whose words decide their first choice
    choosy: Vec<bool>,
}

impl Plan {
    /// The rank of a label, 0 where it isn't put in the place of jumps.
    pub fn rank(&self, l: u32) -> u32
        ensures { result ≡ rank_of self.now l }
    {
        at(&self.ranks, l)
    }

    /// Whether a label stays. Label 0 does.
    pub fn stays(&self, i: usize) -> bool
        ensures { result ≡ (numbering self.now).stays i }
    {
        i == 0 || (i < self.stays.len() && self.stays[i])
    }

    /// The new number of a label.
    pub fn to(&self, i: usize) -> u32
        ensures { result ≡ (numbering self.now).to i }
    {
        if i < self.to.len() { self.to[i] } else { 0 }
    }

    // How much code comes in the place of a jump.
    fn weight(&self, rank: u32, l: u32) -> u32 {
        let own = self.rank(l);
        if own == 0 || rank <= own {
            0
        } else {
            at(&self.weights, l)
        }
    }

    /// The plan for these labels. It needs no contract: each plan gives copies with the same outcomes, or none, and
    /// `merge_labels` tests that its result is contracted.
    pub fn new(alloc: Global, labels: &[Label]) -> Result<Plan, NoMemory> {
        let mut jumps = Jumps::new(alloc, labels)?;
        let mut weights = vec![in alloc; 0u32; labels.len()]?;
        let mut ranks = vec![in alloc; 0u32; labels.len()]?;
        weigh(labels, &mut weights);
        let next = rank_bare(alloc, labels, &jumps, &mut ranks)?;
        count_twice(&jumps.from, &ranks, &mut jumps.counts);
        let order = inner_order(alloc, &jumps)?;
        rank_single(&order, next, &jumps, &mut ranks, &mut weights);
        let (stays, to) = numbers(alloc, &jumps, &ranks)?;
        Ok(Plan {
            ranks,
            weights,
            stays,
            to,
            choosy: Vec::new(alloc),
        })
    }

    /// The plan by which each label stays, and some are put in the place of jumps to them too: those of rank 1, once.
    /// It needs no contract: each plan gives copies with the same outcomes, or none.
    pub fn of_copies(
        alloc: Global,
        labels: &[Label],
        ranks: Vec<u32>,
        choosy: Vec<bool>,
    ) -> Result<Plan, NoMemory> {
        let mut weights = vec![in alloc; 0u32; labels.len()]?;
        weigh(labels, &mut weights);
        let mut to = Vec::new(alloc);
        let mut l: u32 = 0;
        for _ in labels {
            to.push(l)?;
            l = l.saturating_add(1);
        }
        let stays = vec![in alloc; true; labels.len()]?;
        Ok(Plan {
            ranks,
            weights,
            stays,
            to,
            choosy,
        })
    }

    /// Whether a label is only put in the place of jumps whose words decide its first choice. It needs no contract.
    pub fn is_choosy(&self, l: u32) -> bool {
        match self.choosy.get(l as usize) {
            Some(is_choosy) => *is_choosy,
            None => false,
        }
    }
}

// The number at a place, or 0.
fn at(numbers: &[u32], l: u32) -> u32
    ensures { result ≡ sizes.at numbers.now l }
{
    let i = l as usize;
    if i < numbers.len() { numbers[i] } else { 0 }
}

// The number at a place, or none.
fn get(numbers: &[u32], l: u32) -> u32 {
    match numbers.get(l as usize) {
        Some(n) => *n,
        None => NONE,
    }
}

/// Puts a number at a place, if it is there.
pub fn put(numbers: &mut [u32], l: u32, n: u32) {
    let i = l as usize;
    if i < numbers.len() {
        numbers[i] = n;
    }
}

/// Adds to the number at a place, if it is there.
pub fn raise(numbers: &mut [u32], l: u32, n: u32) {
    let i = l as usize;
    if i < numbers.len() {
        numbers[i] = numbers[i].saturating_add(n);
    }
}

// For each label how many jumps lead to it from labels that label 0 leads to, and from which of these the last
// one does; and such labels whose jumps aren't counted yet.
#[derive(Drop)]
struct Jumps {
    counts: Vec<u32>,
    from: Vec<u32>,
    pending: Vec<u32>,
}

impl Jumps {
    fn new(alloc: Global, labels: &[Label]) -> Result<Jumps, NoMemory> {
        let mut jumps = Jumps {
            counts: vec![in alloc; 0u32; labels.len()]?,
            from: vec![in alloc; NONE; labels.len()]?,
            pending: Vec::new(alloc),
        };
        jumps.pending.push(0)?;
        for _ in labels {
            if let Some(l) = jumps.pending.pop() {
                if let Some(m) = labels.get(l as usize) {
                    jumps.survey(&m.body, l)?;
                }
            }
        }
        Ok(jumps)
    }

    // Counts the jumps of a tree in this label.
    fn survey(&mut self, t: &Tree, own: u32) -> Result<(), NoMemory> {
        let mut cur = t;
        'spine: loop {
            match cur {
                Tree::Let(_, _, rest) => cur = rest,
                Tree::Read(_, _, _, rest) => cur = rest,
                Tree::Write(_, _, _, rest) => cur = rest,
                Tree::If(_, _, _, first, second) => {
                    self.survey(first, own)?;
                    cur = second;
                }
                Tree::Jump(l, _) => return self.note(*l, own),
                Tree::Halt(_, _) => return Ok(()),
            }
        }
    }

    // Counts a jump.
    fn note(&mut self, l: u32, own: u32) -> Result<(), NoMemory> {
        if at(&self.counts, l) == 0 {
            self.pending.push(l)?;
        }
        raise(&mut self.counts, l, 1);
        put(&mut self.from, l, own);
        Ok(())
    }

    // The label of the one jump to a label other than 0.
    fn only_from(&self, l: u32) -> Option<u32> {
        let from = get(&self.from, l);
        if l == 0 || at(&self.counts, l) != 1 || from == l || from == NONE {
            None
        } else {
            Some(from)
        }
    }
}

// A jump of a label that is put in the place of several jumps counts twice.
fn count_twice(from: &[u32], ranks: &[u32], counts: &mut [u32]) {
    let mut l: u32 = 0;
    for k in from {
        if at(ranks, *k) != 0 {
            raise(counts, l, 1);
        }
        l = l.saturating_add(1);
    }
}

// Adds the nodes of each label.
fn weigh(labels: &[Label], weights: &mut [u32]) {
    let mut l: u32 = 0;
    for m in labels {
        raise(weights, l, nodes(&m.body));
        l = l.saturating_add(1);
    }
}

/// The nodes of a tree.
pub fn nodes(t: &Tree) -> u32 {
    let mut n: u32 = 0;
    let mut cur = t;
    'spine: loop {
        n = n.saturating_add(1);
        match cur {
            Tree::Let(_, _, rest) => cur = rest,
            Tree::Read(_, _, _, rest) => cur = rest,
            Tree::Write(_, _, _, rest) => cur = rest,
            Tree::If(_, _, _, first, second) => {
                n = n.saturating_add(nodes(first));
                cur = second;
            }
            Tree::Jump(_, _) => return n,
            Tree::Halt(_, _) => return n,
        }
    }
}

// Where the whole body of a label leads, if several jumps lead to it: to another label, or nowhere, which is NONE.
fn bare_target(labels: &[Label], jumps: &Jumps, l: u32) -> Option<u32> {
    if l == 0 || at(&jumps.counts, l) < 2 {
        return None;
    }
    match labels.get(l as usize) {
        Some(m) => match &m.body {
            Tree::Jump(k, _) => { if *k == l { None } else { Some(*k) } }
            Tree::Halt(_, _) => Some(NONE),
            _ => None,
        },
        None => None,
    }
}

// The labels from one on that are ends and nothing else, each leading to the next; they are seen from then on. The
// answer is the label after the last of them.
fn follow_bare(
    labels: &[Label],
    jumps: &Jumps,
    first: u32,
    seen: &mut [u32],
    chain: &mut Vec<u32>,
) -> Result<u32, NoMemory> {
    let mut l = first;
    for _ in labels {
        if at(seen, l) != 0 {
            return Ok(l);
        }
        match bare_target(labels, jumps, l) {
            Some(k) => {
                put(seen, l, 1);
                chain.push(l)?;
                l = k;
            }
            None => return Ok(l),
        }
    }
    Ok(l)
}

// Gives ranks to the labels that are ends and nothing else, each above the one that it leads to. One at which they
// would go round in a circle stays. The answer is a rank above all.
fn rank_bare(
    alloc: Global,
    labels: &[Label],
    jumps: &Jumps,
    ranks: &mut [u32],
) -> Result<u32, NoMemory> {
    let mut seen = vec![in alloc; 0u32; labels.len()]?;
    let mut chain = Vec::new(alloc);
    let mut next: u32 = 1;
    let mut first: u32 = 0;
    for _ in labels {
        let last = follow_bare(labels, jumps, first, &mut seen, &mut chain)?;
        if at(&seen, last) == 1 && at(ranks, last) == 0 {
            put(&mut seen, last, 2);
        }
        while let Some(k) = chain.pop() {
            if at(&seen, k) == 1 {
                put(ranks, k, next);
                next = next.saturating_add(1);
            }
        }
        first = first.saturating_add(1);
    }
    Ok(next)
}

// The labels to which one jump leads, each after the label of that jump.
fn inner_order(alloc: Global, jumps: &Jumps) -> Result<Vec<u32>, NoMemory> {
    let mut heads = vec![in alloc; NONE; jumps.counts.len()]?;
    let mut siblings = vec![in alloc; NONE; jumps.counts.len()]?;
    let mut order = Vec::new(alloc);
    let mut l: u32 = 0;
    for _ in &jumps.counts {
        if let Some(k) = jumps.only_from(l) {
            let next = get(&heads, k);
            put(&mut siblings, l, next);
            put(&mut heads, k, l);
        }
        l = l.saturating_add(1);
    }
    let mut root: u32 = 0;
    for _ in &jumps.counts {
        if jumps.only_from(root).is_none() {
            follow(root, &heads, &siblings, &mut order)?;
        }
        root = root.saturating_add(1);
    }
    Ok(order)
}

// Adds the labels inside one, and inside these.
fn follow(
    root: u32,
    heads: &[u32],
    siblings: &[u32],
    order: &mut Vec<u32>,
) -> Result<(), NoMemory> {
    let mut next = order.len();
    let mut owner = root;
    for _ in heads {
        let mut l = get(heads, owner);
        for _ in heads {
            if l == NONE {
                break;
            }
            order.push(l)?;
            l = get(siblings, l);
        }
        match order.get(next) {
            Some(k) => owner = *k,
            None => return Ok(()),
        }
        next = next.saturating_add(1);
    }
    Ok(())
}

// Gives ranks to those labels, the higher the earlier, and adds the code of each to the label that it stands in.
fn rank_single(order: &[u32], first: u32, jumps: &Jumps, ranks: &mut [u32], weights: &mut [u32]) {
    let mut rank = first;
    for l in order.iter().rev() {
        put(ranks, *l, rank);
        rank = rank.saturating_add(1);
        if let Some(k) = jumps.only_from(*l) {
            let own = at(weights, *l);
            raise(weights, k, own);
        }
    }
}

// Which labels stay, and their numbers.
fn numbers(alloc: Global, jumps: &Jumps, ranks: &[u32]) -> Result<(Vec<bool>, Vec<u32>), NoMemory> {
    let mut stays = Vec::new(alloc);
    let mut to = Vec::new(alloc);
    let mut next: u32 = 0;
    let mut l: u32 = 0;
    for r in ranks {
        let is_there = l == 0 || (*r == 0 && at(&jumps.counts, l) != 0);
        stays.push(is_there)?;
        to.push(next)?;
        if is_there {
            next = next.saturating_add(1);
        }
        l = l.saturating_add(1);
    }
    Ok((stays, to))
}

// What is left of a number after the code of a tree is taken off, which stands in a label of this rank.
fn lighter(t: &Tree, plan: &Plan, rank: u32, room: u32) -> u32 {
    let mut left = room;
    let mut cur = t;
    'spine: loop {
        if left == 0 {
            return 0;
        }
        left -= 1;
        match cur {
            Tree::Let(_, _, rest) => cur = rest,
            Tree::Read(_, _, _, rest) => cur = rest,
            Tree::Write(_, _, _, rest) => cur = rest,
            Tree::If(_, _, _, first, second) => {
                left = lighter(first, plan, rank, left);
                cur = second;
            }
            Tree::Jump(l, _) => return left.saturating_sub(plan.weight(rank, *l)),
            Tree::Halt(_, _) => return left,
        }
    }
}

/// Whether there is more code in the first of two trees, both in a label of this rank. It looks at no more than
/// twice the lesser one. It needs no contract: in either order of the arms a copy means the same.
pub fn is_heavier(a: &Tree, b: &Tree, plan: &Plan, rank: u32) -> bool {
    let mut room: u32 = 8;
    for _ in 0..29 {
        let left = lighter(a, plan, rank, room);
        let right = lighter(b, plan, rank, room);
        if left != 0 || right != 0 {
            return left < right;
        }
        room = room.saturating_mul(2);
    }
    false
}
