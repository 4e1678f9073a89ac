//! The lines of a schedule, each by itself.
ghost use Rattle.std.specs.Prelude.{◌≡◌, ◌<◌, ◌≤◌, ℕ, List, IfSome, IfNone};
ghost use Rattle.uc_schedule.specs.ScheduleText.{SpellsArgs, SpellsCount, SpellsEntries, entry_limit};

use nv_base::Words;
use nv_lines::Parts;
use nv_memtext::words_of;

/// The number of contexts of a first line.
pub fn count_of(line: &[u8]) -> Option<u8>
    ensures some { IfSome result (SpellsCount line.now) }
    ensures none { IfNone result ((k : ℕ) → ¬ SpellsCount line.now k) }
{
    let mut parts = Parts::of(line);
    if !parts.next_is(b"contexts") {
        return None;
    }
    let count = parts.next_decimal(4)?;
    if count == 0 {
        return None;
    }
    if !parts.is_done() {
        return None;
    }
    Some(count as u8)
}

/// The words of a line of arguments.
pub fn args_of(line: &[u8], params: u8) -> Option<Words>
    requires { params ≤ 8 }
    ensures some { IfSome result (SpellsArgs params line.now) }
    ensures none { IfNone result ((args : List ℕ) → ¬ SpellsArgs params line.now args) }
{
    let mut parts = Parts::of(line);
    if !parts.next_is(b"args") {
        return None;
    }
    let words = words_of(parts)?;
    if words.list().len() != usize::from(params) {
        return None;
    }
    Some(words)
}

/// The context's number and the number of entries of a further line, of which so many are left.
pub fn entries_of(line: &[u8], count: u8, left: u64) -> Option<(u8, u64)>
    requires contexts { (1 ≤ count) × (count ≤ 4) }
    requires few { left ≤ entry_limit }
    ensures some { IfSome result (SpellsEntries count left line.now) }
    ensures none { IfNone result ((entry : ℕ × ℕ) → ¬ SpellsEntries count left line.now entry) }
{
    let mut parts = Parts::of(line);
    if !parts.next_is(b"run") {
        return None;
    }
    let number = parts.next_decimal(u64::from(count) - 1)?;
    let entries = parts.next_decimal(left)?;
    if entries == 0 {
        return None;
    }
    if !parts.is_done() {
        return None;
    }
    Some((number as u8, entries))
}
