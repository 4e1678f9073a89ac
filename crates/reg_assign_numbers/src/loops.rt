//! The labels of loops: those that a run may come to from themselves.

use nv_base::NoMemory;
use std::alloc::Global;

/// Of each label those that it jumps to, and those that jump to it.
#[derive(Drop)]
pub struct Jumps {
    next: Vec<Vec<usize>>,
    before: Vec<Vec<usize>>,
}

/// No label is in a group yet.
const NONE: usize = usize::MAX;

/// An empty list for each label.
fn lists(alloc: Global, count: usize) -> Result<Vec<Vec<usize>>, NoMemory> {
    let mut all = Vec::new(alloc);
    for _ in 0..count {
        all.push(Vec::new(alloc))?;
    }
    Ok(all)
}

/// Puts a label into a list, if that is there.
fn put(all: &mut [Vec<usize>], l: usize, other: usize) -> Result<(), NoMemory> {
    if let Some(list) = all.get_mut(l) {
        list.push(other)?;
    }
    Ok(())
}

/// A label of a list, from a place on.
fn entry(all: &[Vec<usize>], l: usize, k: usize) -> Option<usize> {
    match all.get(l) {
        Some(list) => list.get(k).copied(),
        None => None,
    }
}

/// Whether the group of a label is this one.
fn is_in(groups: &[usize], l: usize, group: usize) -> bool {
    groups.get(l).copied() == Some(group)
}

/// Puts a label into a group, where it is in none. Whether it was in none.
fn join(groups: &mut [usize], l: usize, group: usize) -> bool {
    if let Some(it) = groups.get_mut(l) {
        if *it == NONE {
            *it = group;
            return true;
        }
    }
    false
}

impl Jumps {
    /// No jumps between so many labels.
    pub fn new(alloc: Global, count: usize) -> Result<Jumps, NoMemory> {
        Ok(Jumps {
            next: lists(alloc, count)?,
            before: lists(alloc, count)?,
        })
    }

    /// A jump from a label to a label.
    pub fn add(&mut self, from: usize, to: usize) -> Result<(), NoMemory> {
        put(&mut self.next, from, to)?;
        put(&mut self.before, to, from)
    }

    /// Goes from a label, depth first. The labels that are seen for the first time come into the order when all behind them were seen.
    fn visit(
        &self,
        alloc: Global,
        root: usize,
        groups: &mut [usize],
        order: &mut Vec<usize>,
    ) -> Result<(), NoMemory> {
        let mut path = Vec::new(alloc);
        if join(groups, root, root) {
            path.push((root, 0usize))?;
        }
        for _ in 0..usize::MAX {
            let Some((l, k)) = path.pop() else {
                return Ok(());
            };
            match entry(&self.next, l, k) {
                Some(to) => {
                    path.push((l, k.saturating_add(1)))?;
                    if join(groups, to, root) {
                        path.push((to, 0))?;
                    }
                }
                None => order.push(l)?,
            }
        }
        Ok(())
    }

    /// The labels, each behind those that a depth-first walk comes to from it.
    fn order(&self, alloc: Global) -> Result<Vec<usize>, NoMemory> {
        let mut groups = vec![in alloc; NONE; self.next.len()]?;
        let mut order = Vec::new(alloc);
        for root in 0..self.next.len() {
            self.visit(alloc, root, &mut groups, &mut order)?;
        }
        Ok(order)
    }

    /// Puts a label into a group of its own, with those that are in none and come to it.
    fn gather(&self, alloc: Global, root: usize, groups: &mut [usize]) -> Result<(), NoMemory> {
        let mut work = Vec::new(alloc);
        if join(groups, root, root) {
            work.push(root)?;
        }
        for _ in 0..usize::MAX {
            let Some(l) = work.pop() else {
                return Ok(());
            };
            if let Some(from) = self.before.get(l) {
                for other in from {
                    if join(groups, *other, root) {
                        work.push(*other)?;
                    }
                }
            }
        }
        Ok(())
    }

    /// Of each label its group: two labels are in one where each may be come to from the other.
    fn groups(&self, alloc: Global) -> Result<Vec<usize>, NoMemory> {
        let mut groups = vec![in alloc; NONE; self.next.len()]?;
        let order = self.order(alloc)?;
        for root in order.iter().rev() {
            self.gather(alloc, *root, &mut groups)?;
        }
        Ok(groups)
    }

    /// Whether a label jumps into its group.
    fn jumps_within(&self, groups: &[usize], l: usize) -> bool {
        match (self.next.get(l), groups.get(l)) {
            (Some(next), Some(group)) => next.iter().any(|to| is_in(groups, *to, *group)),
            _ => false,
        }
    }

    /// Of each label whether it is in a loop.
    pub fn in_loops(&self, alloc: Global) -> Result<Vec<bool>, NoMemory> {
        let groups = self.groups(alloc)?;
        let mut found = Vec::new(alloc);
        for l in 0..self.next.len() {
            found.push(self.jumps_within(&groups, l))?;
        }
        Ok(found)
    }
}
