//! Addresses that several runs share.
ghost use Rattle.std.specs.Prelude.{◌≡◌, ◌<◌, ◌≤◌, ◌↔◌, ℕ, Some, slice_get, IfNone, IfSome, IsNone, IsTrue};
ghost use Rattle.nv_base.specs.declared.term.Mem.{Mem};
ghost use Rattle.uc_contexts.specs.declared.alone.Marks.{Marks};
ghost use Rattle.uc_contexts.specs.Marked.{IsFirstShared, IsMarked, IsMarkedByOther, IsMarkedWritten, IsShared};

use crate::alone::Marks;
use nv_base::Mem;

// Whether a run's marks have the address, as read or as written.
fn is_marked(f: &Marks, m: Mem, a: u32) -> bool
    ensures { IsTrue result ↔ IsMarked f.now m a }
{
    f.read.contains(m, a) || f.written.contains(m, a)
}

// Whether a run with another number reads or writes the address.
fn is_marked_by_other(footprints: &[Marks], writer: usize, m: Mem, a: u32) -> bool
    ensures { IsTrue result ↔ IsMarkedByOther footprints.now writer m a }
{
    for (number, f) in footprints.iter().enumerate() {
        if number != writer && is_marked(f, m, a) {
            return true;
        }
    }
    false
}

// Whether one run writes the address, and another reads or writes it.
fn is_shared(footprints: &[Marks], m: Mem, a: u32) -> bool
    ensures { IsTrue result ↔ IsShared footprints.now m a }
{
    for (number, f) in footprints.iter().enumerate() {
        if f.written.contains(m, a) && is_marked_by_other(footprints, number, m, a) {
            return true;
        }
    }
    false
}

// A number from which on no run writes an address of a memory.
fn end_of_writes(footprints: &[Marks], m: Mem) -> u32
    ensures { (i : ℕ) (f : Marks) → slice_get footprints.now i ≡ Some f → (a : ℕ) → result ≤ a → ¬ IsMarkedWritten f m a }
{
    let mut end = 0;
    for f in footprints {
        end = f.written.size(m).max(end);
    }
    end
}

// The first address of a memory that is shared.
fn first_shared(footprints: &[Marks], m: Mem) -> Option<u32>
    ensures none { IfNone result ((a : ℕ) → ¬ IsShared footprints.now m a) }
    ensures shared { IfSome result (λ a. IsShared footprints.now m a) }
    ensures first { IfSome result (λ a. (b : ℕ) → b < a → ¬ IsShared footprints.now m b) }
{
    for a in 0..end_of_writes(footprints, m) {
        if is_shared(footprints, m, a) {
            return Some(a);
        }
    }
    None
}

/// The first address, SRAM before SDRAM before scratch, that one run writes and another reads or writes.
pub fn shared(footprints: &[Marks]) -> Option<(Mem, u32)>
    ensures none { IfNone result ((m : Mem) (a : ℕ) → ¬ IsShared footprints.now m a) }
    ensures none_only { ((m : Mem) (a : ℕ) → ¬ IsShared footprints.now m a) → IsNone result }
    ensures first { IfSome result (λ found. IsFirstShared footprints.now found.0 found.1) }
{
    if let Some(a) = first_shared(footprints, Mem::Sram) {
        return Some((Mem::Sram, a));
    }
    if let Some(a) = first_shared(footprints, Mem::Sdram) {
        return Some((Mem::Sdram, a));
    }
    if let Some(a) = first_shared(footprints, Mem::Scratch) {
        return Some((Mem::Scratch, a));
    }
    None
}
