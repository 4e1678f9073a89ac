//! The items of a text: what its lines after the first are.
ghost use Rattle.std.specs.Prelude.{◌≡◌, ◌≤◌, ◌↔◌, IsTrue, true, false};
ghost use Rattle.uc_asm.specs.Items.{IsInstruction, count};
ghost use Rattle.uc_asm.specs.inner.Seen.{all_seen, seen};

use uc_isa::{Cond, Instr};

/// What a line after the first is.
#[derive(Clone, Copy)]
pub enum Item<'a> {
    Label(&'a [u8]),
    Plain(Instr),
    /// A branch to a label.
    Jump(Cond, &'a [u8]),
}

/// Whether the item isn't a label.
pub fn is_instruction(item: &Item) -> bool
    ensures { IsTrue result ↔ IsInstruction (seen item.now) }
{
    match item {
        Item::Label(_) => false,
        Item::Plain(_) | Item::Jump(_, _) => true,
    }
}

/// Whether one of the items isn't a label.
pub fn has_instruction(items: &[Item]) -> bool
    ensures some { result ≡ true → 1 ≤ count (all_seen items.now) }
    ensures none { result ≡ false → count (all_seen items.now) ≡ 0 }
{
    for item in items {
        if is_instruction(item) {
            return true;
        }
    }
    false
}
