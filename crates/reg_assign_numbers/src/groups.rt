//! Groups of values that share a number: no two of them are ever held together.

use crate::hinted::PairWish;
use crate::values::Values;
use nv_base::NoMemory;
use std::alloc::Global;

/// How many pairs of values are looked at, of which both can't have one number, before no more groups are joined.
const EFFORT: usize = 16_777_216;

/// The group of each value, and the values of each group, by their places.
#[derive(Drop)]
pub struct Groups {
    groups: Vec<usize>,
    members: Vec<Vec<usize>>,
    effort: usize,
}

impl Groups {
    /// The group of the value at a place.
    pub fn group(&self, i: usize) -> Option<usize> {
        self.groups.get(i).copied()
    }

    /// The places of the values of a group.
    pub fn members(&self, g: usize) -> &[usize] {
        match self.members.get(g) {
            Some(places) => places,
            None => &[],
        }
    }

    /// Whether the value at a place can't have the number of some value of a group.
    fn is_beside(&self, values: &Values, i: usize, g: usize) -> bool {
        for j in values.beside(i) {
            if self.group(*j) == Some(g) {
                return true;
            }
        }
        false
    }

    /// Whether two groups can have one number. Where the effort is spent, they are taken to have two.
    fn can_share(&mut self, values: &Values, few: usize, many: usize) -> bool {
        let mut left = self.effort;
        let mut apart = false;
        for i in self.members(few) {
            left = left.saturating_sub(values.beside(*i).len());
            if left == 0 || self.is_beside(values, *i, many) {
                apart = true;
                break;
            }
        }
        self.effort = left;
        !apart
    }

    /// The values of one group go to another.
    fn put_into(&mut self, alloc: Global, few: usize, many: usize) -> Result<(), NoMemory> {
        let moved = self.members(few).to_vec(alloc)?;
        for i in &moved {
            if let Some(group) = self.groups.get_mut(*i) {
                *group = many;
            }
            if let Some(places) = self.members.get_mut(many) {
                places.push(*i)?;
            }
        }
        if let Some(places) = self.members.get_mut(few) {
            places.clear();
        }
        Ok(())
    }

    /// Joins two groups, where they can have one number.
    fn join(&mut self, alloc: Global, values: &Values, g: usize, h: usize) -> Result<(), NoMemory> {
        let (few, many) = if self.members(g).len() < self.members(h).len() {
            (g, h)
        } else {
            (h, g)
        };
        if g != h && self.can_share(values, few, many) {
            self.put_into(alloc, few, many)?;
        }
        Ok(())
    }

    /// Joins the groups of two values that want one number.
    fn join_values(
        &mut self,
        alloc: Global,
        values: &Values,
        x: u32,
        y: u32,
    ) -> Result<(), NoMemory> {
        match (values.place(x), values.place(y)) {
            (Some(i), Some(j)) => match (self.group(i), self.group(j)) {
                (Some(g), Some(h)) => self.join(alloc, values, g, h),
                _ => Ok(()),
            },
            _ => Ok(()),
        }
    }
}

/// A group for each value.
fn one_each(alloc: Global, count: usize) -> Result<Groups, NoMemory> {
    let mut groups = Vec::new(alloc);
    let mut members = Vec::new(alloc);
    for i in 0..count {
        groups.push(i)?;
        members.push(vec![in alloc; i; 1]?)?;
    }
    Ok(Groups {
        groups,
        members,
        effort: EFFORT,
    })
}

/// Groups by these pairs of values that want one number, the dearest first.
pub fn groups_of(alloc: Global, values: &Values, pairs: &[PairWish]) -> Result<Groups, NoMemory> {
    let mut groups = one_each(alloc, values.len())?;
    for wish in pairs {
        groups.join_values(alloc, values, wish.value, wish.other)?;
    }
    Ok(groups)
}
