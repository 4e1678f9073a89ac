// What each label wants.

ghost use Rattle.std.specs.Prelude.{◌≡◌, ◌==◌, ℕ, true, nat_eq, IfOk, map, length, Some};
ghost use Rattle.std.specs.HashMap as hash;
ghost use Rattle.cps_ir.specs.View.{label_view};
ghost use Rattle.cps_close.specs.inner.Closed as inner;
ghost use Rattle.cps_close.specs.inner.View.{table_view};

use crate::uses::{bound_by, grown, push_used};
use cps_ir::Cont;
use nv_base::NoMemory;
use std::alloc::Global;
use std::collections::HashMap;

/// At which index each label stands among the labels of its function, and what the label at each index
/// wants.
#[derive(Drop)]
pub struct Table {
    indices: HashMap<u32, u32>,
    lists: Vec<Vec<u32>>,
}

impl Table {
    /// What a label wants.
    pub fn needed(&self, label: u32) -> &[u32]
        ensures { result.now ≡ inner.needed (table_view self.now) label }
    {
        match self.indices.get(&label) {
            Some(i) => match self.lists.get(*i as usize) {
                Some(v) => v,
                None => &[],
            },
            None => &[],
        }
    }

    /// The number of a label in the flow.
    pub fn number(&self, label: u32) -> Result<u32, NoMemory>
        ensures { IfOk result (λ n. n ≡ inner.number (table_view self.now) label) }
    {
        match self.indices.get(&label) {
            Some(i) => match i.checked_add(1) {
                Some(n) => Ok(n),
                None => Err(NoMemory),
            },
            None => Ok(0),
        }
    }

    /// What the label at an index wants.
    pub fn needed_at(&self, i: usize) -> &[u32]
        ensures { result.now ≡ inner.needed_there (table_view self.now).lists (Some i) }
    {
        match self.lists.get(i) {
            Some(v) => v,
            None => &[],
        }
    }

    // Sets what the label at an index wants, if there is one.
    fn set(&mut self, i: usize, needed: Vec<u32>)
        ensures { table_view self.new ≡ inner.with_list (table_view self.old) i needed.items }
    {
        if i < self.lists.len() {
            self.lists[i] = needed;
        }
    }
}

/// A table in which all labels are settled.
pub fn table_of(alloc: Global, conts: &[&Cont]) -> Result<Table, NoMemory>
    ensures { IfOk result (λ t. inner.IsTable (map (λ c. label_view c.now) conts.now) (table_view t)) }
{
    let mut table = Table {
        indices: indices_of(alloc, conts)?,
        lists: empty_lists(alloc, conts)?,
    };
    for _round in 0..u32::MAX {
        if sweep(alloc, conts, &mut table)? {
            return Ok(table);
        }
    }
    Err(NoMemory)
}

// The index of each label.
fn indices_of(alloc: Global, conts: &[&Cont]) -> Result<HashMap<u32, u32>, NoMemory>
    ensures { IfOk result (λ m. (l : ℕ) → hash.get nat_eq m l ≡ inner.index_of 0 (map (λ c. label_view c.now) conts.now) l) }
{
    let mut indices = HashMap::new(alloc);
    let mut next: u32 = 0;
    for c in conts {
        indices.insert(c.label, next)?;
        match next.checked_add(1) {
            Some(n) => next = n,
            None => return Err(NoMemory),
        }
    }
    Ok(indices)
}

// A list with nothing for each label.
fn empty_lists(alloc: Global, conts: &[&Cont]) -> Result<Vec<Vec<u32>>, NoMemory>
    ensures { IfOk result (λ v. map (λ w. w.items) v.items ≡ inner.none_wanted (map (λ c. label_view c.now) conts.now)) }
{
    let mut lists = Vec::new(alloc);
    for _c in conts {
        lists.push(Vec::new(alloc))?;
    }
    Ok(lists)
}

// Settles each label in turn, and says whether each was settled already.
fn sweep(alloc: Global, conts: &[&Cont], table: &mut Table) -> Result<bool, NoMemory>
    requires { inner.IsReached (map (λ c. label_view c.now) conts.now) (table_view table.old) }
    ensures reached { IfOk result (λ s. inner.IsReached (map (λ c. label_view c.now) conts.now) (table_view table.new)) }
    ensures still { IfOk result (λ s. s ≡ true → (i : ℕ) → inner.IsStill (map (λ c. label_view c.now) conts.now) (table_view table.new) i) }
{
    let mut same = true;
    for i in 0..conts.len() {
        let kept = settle(alloc, conts[i], i, table)?;
        same = same && kept;
    }
    Ok(same)
}

// Adds to what a label wants all that it uses, and says whether that was nothing.
fn settle(alloc: Global, c: &Cont, i: usize, table: &mut Table) -> Result<bool, NoMemory>
    ensures step { IfOk result (λ s. table_view table.new ≡ inner.step (table_view table.old) (label_view c.now) i) }
    ensures same { IfOk result (λ s. s ≡ (length (inner.grown (table_view table.old) (label_view c.now) i) == length (inner.needed_there (table_view table.old).lists (Some i)))) }
{
    let gone = bound_by(alloc, c)?;
    let mut used = Vec::new(alloc);
    push_used(&mut used, &c.body, table)?;
    let needed = grown(alloc, &gone, table.needed_at(i), &used)?;
    let same = needed.len() == table.needed_at(i).len();
    table.set(i, needed);
    Ok(same)
}
