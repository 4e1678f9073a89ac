//! Words that a line spells.
ghost use Rattle.std.specs.Prelude.{◌≤◌, ℕ, List, length, IfSome, IfNone};
ghost use Rattle.nv_memtext.specs.Spelling.{SpellWords};

use nv_base::Words;
use nv_lines::{Parts, read_word};

/// The words of these parts, at most eight.
pub fn words_of(parts: Parts) -> Option<Words>
    ensures some { IfSome result (λ ws. SpellWords parts.entry ws × (length ws ≤ 8)) }
    ensures none { IfNone result ((ws : List ℕ) → length ws ≤ 8 → ¬ SpellWords parts.entry ws) }
{
    let mut parts = parts;
    let mut words = [0; 8];
    let mut count = 0;
    while let Some(part) = parts.next_part() {
        if count == 8 {
            return None;
        }
        words[count] = read_word(part)?;
        count += 1;
    }
    Some(Words::of(&words[..count]))
}
