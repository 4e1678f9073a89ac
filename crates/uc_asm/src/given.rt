//! What an item gives, by the first declaration of each name.
ghost use Rattle.std.specs.Prelude.{◌≡◌, List, length};
ghost use Rattle.uc_asm.specs.inner.First.{NotesFirst, noted};
ghost use Rattle.uc_asm.specs.Items.{Stands, Item as TheItem};
ghost use Rattle.uc_asm.specs.inner.Gives.{Gives};
ghost use Rattle.uc_asm.specs.inner.Seen.{seen};

use crate::Item;
use indexmap::IndexMap;
use uc_isa::Instr;

/// The item that declares a label, as an index among the items, and the label's place.
#[derive(Clone, Copy)]
pub struct Declared {
    pub index: usize,
    pub place: u32,
}

/// The first declaration of each label.
pub type Labels<'a> = IndexMap<&'a [u8], Declared>;

/// The declaration of this name.
pub fn find(labels: &Labels, name: &[u8]) -> Option<Declared>
    ensures { result ≡ noted labels.now name.now }
{
    labels.get(&name).copied()
}

/// What an item gives.
#[derive(Clone, Copy)]
pub enum Resolved {
    Instruction(Instr),
    /// A label that is declared here first.
    Nothing,
    /// A label that is declared before, or a target that isn't declared.
    Misnamed,
}

/// What the item with this index gives.
pub fn resolved_item(item: &Item, index: usize, labels: &Labels) -> Resolved
    ensures { (all front back : List TheItem) → NotesFirst labels.now all → Stands all front (seen item.now) back → length front ≡ index → Gives all front (seen item.now) result }
{
    match item {
        Item::Label(name) => match find(labels, name) {
            Some(first) if first.index == index => Resolved::Nothing,
            _ => Resolved::Misnamed,
        },
        Item::Plain(i) => Resolved::Instruction(*i),
        Item::Jump(cond, name) => match find(labels, name) {
            Some(first) => Resolved::Instruction(Instr::Br {
                cond: *cond,
                target: first.place,
            }),
            None => Resolved::Misnamed,
        },
    }
}
