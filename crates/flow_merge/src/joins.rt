// The plan by which labels are copied to the jumps that lead to them. Nothing here has a contract: each plan gives copies
// with the same outcomes, or none.

use crate::checks::{count, jumps};
use crate::heads::decides;
use crate::plan::{Plan, nodes, put, raise};
use flow_ir::{Label, Tree};
use nv_base::NoMemory;
use std::alloc::Global;

// How many nodes a short label has at most.
const SHORT: u32 = 4;
// How many nodes copies of short labels may add, beside an eighth of all.
const SHORT_ROOM: u32 = 60;
// How many nodes a label has at most that is copied to the jumps whose words decide its first choice.
const HEAD: u32 = 30;
// How many nodes such copies may add, beside a quarter of all.
const HEAD_ROOM: u32 = 500;

// Whether a tree jumps to a label.
fn goes_to(t: &Tree, l: u32) -> bool {
    let mut cur = t;
    'spine: loop {
        match cur {
            Tree::Let(_, _, rest) => cur = rest,
            Tree::Read(_, _, _, rest) => cur = rest,
            Tree::Write(_, _, _, rest) => cur = rest,
            Tree::If(_, _, _, first, second) => {
                if goes_to(first, l) {
                    return true;
                }
                cur = second;
            }
            Tree::Jump(k, _) => return *k == l,
            Tree::Halt(_, _) => return false,
        }
    }
}

// Counts the jumps of a tree whose words decide the first choice of their label.
fn count_decided(labels: &[Label], t: &Tree, counts: &mut [u32]) {
    let mut cur = t;
    'spine: loop {
        match cur {
            Tree::Let(_, _, rest) => cur = rest,
            Tree::Read(_, _, _, rest) => cur = rest,
            Tree::Write(_, _, _, rest) => cur = rest,
            Tree::If(_, _, _, first, second) => {
                count_decided(labels, first, counts);
                cur = second;
            }
            Tree::Jump(l, bs) => {
                if let Some(m) = labels.get(*l as usize) {
                    if decides(m, bs) {
                        raise(counts, *l, 1);
                    }
                }
                return;
            }
            Tree::Halt(_, _) => return,
        }
    }
}

// The nodes of all labels.
fn all_nodes(labels: &[Label]) -> u32 {
    let mut n: u32 = 0;
    for l in labels {
        n = n.saturating_add(nodes(&l.body));
    }
    n
}

/// Short labels are put in the place of each jump to them, as long as there is room. Others that aren't long are put in
/// the place of those jumps alone whose words decide their first choice, as long as there is room. None that jumps to
/// itself is.
pub fn plan_of_joins(alloc: Global, labels: &[Label]) -> Result<Plan, NoMemory> {
    let counts = jumps(alloc, labels)?;
    let mut decided = vec![in alloc; 0u32; labels.len()]?;
    for m in labels {
        count_decided(labels, &m.body, &mut decided);
    }
    let mut ranks = vec![in alloc; 0u32; labels.len()]?;
    let mut choosy = vec![in alloc; false; labels.len()]?;
    let nodes_now = all_nodes(labels);
    let mut room = (nodes_now / 8).saturating_add(SHORT_ROOM);
    let mut head_room = (nodes_now / 4).saturating_add(HEAD_ROOM);
    let mut l: u32 = 0;
    for m in labels {
        let size = nodes(&m.body);
        if l != 0 && size <= HEAD && !goes_to(&m.body, l) {
            let more = size.saturating_mul(count(&counts, l as usize).saturating_sub(1));
            let some = size.saturating_mul(count(&decided, l as usize));
            if size <= SHORT && more <= room {
                room -= more;
                put(&mut ranks, l, 1);
            } else if some != 0 && some <= head_room {
                head_room -= some;
                put(&mut ranks, l, 1);
                choose(&mut choosy, l);
            }
        }
        l = l.saturating_add(1);
    }
    Plan::of_copies(alloc, labels, ranks, choosy)
}

// Marks a label, if it is there.
fn choose(choosy: &mut [bool], l: u32) {
    let i = l as usize;
    if i < choosy.len() {
        choosy[i] = true;
    }
}
