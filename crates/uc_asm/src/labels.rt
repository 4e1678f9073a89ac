//! Where the labels of a text are declared.
ghost use Rattle.std.specs.Prelude.{◌≡◌, ◌<◌, ◌^◌, ℕ, List, length, nat_eq, IfOk, OnOk, None, Some, if◌then◌else◌};
ghost use Rattle.std.specs.Cmp.Lexicographic.{pointwise};
ghost use Rattle.uc_asm.specs.inner.First.{NotesFirst, noted, or_else};
ghost use Rattle.uc_asm.specs.inner.Seen.{all_seen};

use crate::given::{Declared, Labels};
use crate::item::Item;
use indexmap::IndexMap;
use nv_base::NoMemory;
use std::alloc::Global;

/// The first declaration of each label.
pub fn declarations<'a>(alloc: Global, items: &[Item<'a>]) -> Result<Labels<'a>, NoMemory>
    requires { length items.now < 2 ^ 31 }
    ensures { IfOk result (λ labels. NotesFirst labels (all_seen items.now)) }
{
    let mut labels = IndexMap::new(alloc);
    let mut place = 0;
    for (index, item) in items.iter().enumerate() {
        match item {
            Item::Label(name) => declare(&mut labels, name, Declared { index, place })?,
            Item::Plain(_) | Item::Jump(_, _) => place += 1,
        }
    }
    Ok(labels)
}

// Notes a declaration, where there is none of this name yet.
fn declare<'a>(labels: &mut Labels<'a>, name: &'a [u8], declared: Declared) -> Result<(), NoMemory>
    ensures { OnOk result ((other : List ℕ) → noted labels.new other ≡ or_else (noted labels.old other) (if pointwise nat_eq other name.now then Some declared else None)) }
{
    if labels.get(&name).is_none() {
        labels.insert(name, declared)?;
    }
    Ok(())
}
