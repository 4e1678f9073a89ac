//! The lines of a memory text, each by itself.

ghost use Rattle.std.specs.Prelude.{◌≤◌, ℕ, List, IfSome, IfNone};
ghost use Rattle.nv_base.specs.Memories.{size_limit};
ghost use Rattle.nv_memtext.specs.MemoryText.{SpellsSizes, SpellsArgs, SpellsStretch};
ghost use Rattle.nv_memtext.specs.declared.line.Stretch.{Stretch};

use crate::access::{is_access, is_inside};
use crate::size::Sizes;
use crate::words::words_of;
use nv_base::{Mem, Words};
use nv_lines::Parts;

/// The greatest number of at most ten digits.
const TEN_DIGITS: u64 = 9_999_999_999;

/// Words that a line gives to a memory, from an address on.
#[derive(Clone, Copy)]
pub struct Stretch {
    pub mem: Mem,
    pub at: u64,
    pub words: Words,
}

/// The sizes of a first line.
pub fn sizes_of(line: &[u8]) -> Option<Sizes>
    ensures some { IfSome result (λ s. SpellsSizes line.now s.sram s.sdram) }
    ensures none { IfNone result ((sram sdram : ℕ) → ¬ SpellsSizes line.now sram sdram) }
{
    let mut parts = Parts::of(line);
    if !parts.next_is(b"memory") {
        return None;
    }
    let sram = parts.next_decimal(TEN_DIGITS)?;
    let sdram = parts.next_decimal(TEN_DIGITS)?;
    if !parts.is_done() {
        return None;
    }
    Some(Sizes { sram, sdram })
}

/// The arguments of a second line.
pub fn args_of(line: &[u8]) -> Option<Words>
    ensures some { IfSome result (SpellsArgs line.now) }
    ensures none { IfNone result ((args : List ℕ) → ¬ SpellsArgs line.now args) }
{
    let mut parts = Parts::of(line);
    if !parts.next_is(b"args") {
        return None;
    }
    words_of(parts)
}

/// The stretch of a further line.
pub fn stretch_of(line: &[u8], sizes: &Sizes) -> Option<Stretch>
    requires sram { sizes.now.sram ≤ size_limit }
    requires sdram { sizes.now.sdram ≤ size_limit }
    ensures some { IfSome result (SpellsStretch sizes.now.sram sizes.now.sdram line.now) }
    ensures none { IfNone result ((s : Stretch) → ¬ SpellsStretch sizes.now.sram sizes.now.sdram line.now s) }
{
    let mut parts = Parts::of(line);
    let mem = Mem::of_name(parts.next_part()?)?;
    let at = parts.next_decimal(TEN_DIGITS)?;
    let words = words_of(parts)?;
    let count = words.list().len();
    if !is_access(mem, count) {
        return None;
    }
    if !is_inside(sizes, mem, at, count) {
        return None;
    }
    Some(Stretch { mem, at, words })
}
