//! The lines of an assembly text, each by itself.
ghost use Rattle.std.specs.Prelude.{◌≡◌, ◌≢◌, ◌<◌, ◌≤◌, ◌^◌, ℕ, List, [], ◌∷◌, ◌++◌, codes, IfSome, IfNone, MatchOption};
ghost use Rattle.uc_asm.specs.Words.{condition_name, operands};
ghost use Rattle.uc_asm.specs.Items.{IsItem, IsName, item_line, params_line, Item as TheItem};
ghost use Rattle.uc_asm.specs.inner.Seen.{IsBranch, seen};
ghost use Rattle.uc_isa.specs.declared.instruction.Cond.{Cond};
ghost use Rattle.uc_isa.specs.declared.instruction.Instr.{Instr};

use crate::condition::condition_of;
use crate::item::Item;
use crate::name::is_name;
use crate::reading::read_instruction;
use nv_lines::{Parts, read_decimal, split_once, strip};
use uc_isa::{Cond, Instr};

/// The number of parameters of a first line.
pub fn params_of(line: &[u8]) -> Option<u8>
    ensures some { IfSome result (λ n. (n ≤ 8) × (line.now ≡ params_line n)) }
    ensures none { IfNone result ((n : ℕ) → n ≤ 8 → line.now ≢ params_line n) }
{
    let mut parts = Parts::of(line);
    if !parts.next_is(b"params") {
        return None;
    }
    let params = parts.next_decimal(8)?;
    if !parts.is_done() {
        return None;
    }
    Some(params as u8)
}

/// What a line after the first is.
pub fn item_of(line: &[u8]) -> Option<Item<'_>>
    ensures some { IfSome result (λ item. IsItem (seen item) × (line.now ≡ item_line (seen item))) }
    ensures none { IfNone result ((item : TheItem) → IsItem item → line.now ≢ item_line item) }
{
    if let Some(name) = label_of(line) {
        return Some(Item::Label(name));
    }
    let mut parts = Parts::of(line);
    let kind = parts.next_part()?;
    if kind == b"br".as_slice() {
        return branch(parts);
    }
    match read_instruction(kind, parts) {
        Some(i) => Some(Item::Plain(i)),
        None => None,
    }
}

// The name that a line declares.
fn label_of(line: &[u8]) -> Option<&[u8]>
    ensures some { IfSome result (λ name. IsName name.now × (line.now ≡ name.now ++ codes ":")) }
    ensures none { IfNone result ((name : List ℕ) → IsName name → line.now ≢ name ++ codes ":") }
{
    let (name, rest) = split_once(line, b':')?;
    if !rest.is_empty() {
        return None;
    }
    if !is_name(name) {
        return None;
    }
    Some(name)
}

// Takes the next part, a condition.
fn next_condition(parts: &mut Parts) -> Option<Cond>
    ensures { MatchOption result ((cond : Cond) (ps : List (List ℕ)) → parts.old ≢ condition_name cond ∷ ps) (λ cond. parts.old ≡ condition_name cond ∷ parts.new) }
{
    condition_of(parts.next_part()?)
}

// A branch to a place or to a label.
fn branch<'a>(parts: Parts<'a>) -> Option<Item<'a>>
    ensures some { IfSome result (λ item. IsBranch (codes "br" ∷ parts.entry) (seen item)) }
    ensures place { IfNone result ((cond : Cond) (place : ℕ) → place < 2 ^ 32 → parts.entry ≢ operands (Instr.Br cond place)) }
    ensures name { IfNone result ((cond : Cond) (name : List ℕ) → IsName name → parts.entry ≢ condition_name cond ∷ name ∷ []) }
{
    let mut parts = parts;
    let cond = next_condition(&mut parts)?;
    let target = parts.next_part()?;
    if !parts.is_done() {
        return None;
    }
    match strip(target, b"@") {
        Some(digits) => {
            let place = read_decimal(digits, 4_294_967_295)?;
            Some(Item::Plain(Instr::Br {
                cond,
                target: place as u32,
            }))
        }
        None if is_name(target) => Some(Item::Jump(cond, target)),
        None => None,
    }
}
