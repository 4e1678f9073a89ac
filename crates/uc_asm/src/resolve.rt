//! The instructions of items, each label in its place.
ghost use Rattle.std.specs.Prelude.{◌≡◌, ◌+◌, ◌<◌, ◌^◌, length, IfOk, IfErr};
ghost use Rattle.uc_asm.specs.inner.First.{NotesFirst};
ghost use Rattle.uc_asm.specs.Items.{count};
ghost use Rattle.uc_asm.specs.Labels.{AreNamed, AreResolved};
ghost use Rattle.uc_asm.specs.inner.Resolving.{IsNameError, IsLineOf};
ghost use Rattle.uc_asm.specs.inner.Seen.{all_seen};

use crate::AsmError;
use crate::given::{Labels, Resolved, resolved_item};
use crate::item::{Item, is_instruction};
use std::alloc::Global;
use uc_isa::{Dst, Gpr, Instr, Src};

/// The line of the item with this index.
pub fn line_at(index: usize) -> u32
    requires { index < 2 ^ 31 }
    ensures { result ≡ index + 2 }
{
    index as u32 + 2
}

/// The instructions of the items, by the first declaration of each label.
pub fn instructions(alloc: Global, items: &[Item], labels: &Labels) -> Result<Vec<Instr>, AsmError>
    requires few { length items.now < 2 ^ 31 }
    requires labels { NotesFirst labels.now (all_seen items.now) }
    ensures named { IfOk result (λ list. AreNamed (all_seen items.now)) }
    ensures resolved { IfOk result (λ list. AreResolved (all_seen items.now) (all_seen items.now) list.items) }
    ensures error { IfErr result (IsNameError (all_seen items.now)) }
{
    // The check wants the parts of an instruction named where a list of them is dropped.
    let _named: Option<(Dst, Gpr, Src)> = None;
    let mut list = Vec::new(alloc);
    for (index, item) in items.iter().enumerate() {
        match resolved_item(item, index, labels) {
            Resolved::Instruction(i) => list.push(i)?,
            Resolved::Nothing => {}
            Resolved::Misnamed => return Err(AsmError::Label(line_at(index))),
        }
    }
    Ok(list)
}

/// The line of the instruction at a place.
pub fn line_of(items: &[Item], place: u32) -> u32
    requires few { length items.now < 2 ^ 31 }
    requires inside { place < count (all_seen items.now) }
    ensures { IsLineOf (all_seen items.now) place result }
{
    let mut left = place;
    for (index, item) in items.iter().enumerate() {
        if is_instruction(item) {
            if left == 0 {
                return line_at(index);
            }
            left -= 1;
        }
    }
    line_at(items.len())
}
