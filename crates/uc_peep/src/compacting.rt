// Code without the places that are gone.

ghost use Rattle.std.specs.Prelude.{◌≡◌, ◌+◌, ◌<◌, ◌≤◌, ℕ, List, true, false, IfOk, OnOk, All, length, map, slice_index, drop, ◌++◌, ◌∷◌, [], if◌then◌else◌};
ghost use Rattle.uc_isa.specs.Lawful.{Rule5};
ghost use Rattle.uc_peep.specs.Draft.{AreMarked};
ghost use Rattle.uc_peep.specs.Kept.{compacted, is_gone, kept_before};
ghost use Rattle.uc_isa.specs.Relocated.{relocated};
ghost use Rattle.uc_isa.specs.StraightCode.{IsEntered};
ghost use Rattle.uc_isa.specs.Starts.{IsLabelStart};

use std::alloc::{AllocError, Global};
use uc_isa::Instr;

// One more where the place is kept.
fn counted(n: u32, gone: bool) -> u32
    requires { n < 2147483648 }
    ensures { result ≡ (if gone then n else (n + 1)) }
{
    if gone { n } else { n + 1 }
}

/// For each place, and the one after all, how many places before it are kept.
pub fn counts(alloc: Global, gone: &[bool]) -> Result<Vec<u32>, AllocError>
    requires { length gone.now < 2147483648 }
    ensures size { IfOk result (λ v. length v.items ≡ length gone.now + 1) }
    ensures counts { IfOk result (λ v. (x : ℕ) → x ≤ length gone.now → slice_index v.items x ≡ kept_before gone.now x) }
{
    let mut v = Vec::with_capacity(alloc, gone.len() + 1)?;
    let mut n = 0;
    for g in gone {
        v.push(n)?;
        n = counted(n, *g);
    }
    v.push(n)?;
    Ok(v)
}

// The instruction with its branch going where its target is then.
fn relocate(i: &Instr, counts: &[u32]) -> Instr
    requires { Rule5 (length counts.now) i.now }
    ensures { result ≡ relocated (λ x. slice_index counts.now x) i.now }
{
    match i {
        Instr::Br { cond, target } => Instr::Br {
            cond: *cond,
            target: counts[*target as usize],
        },
        _ => *i,
    }
}

/// The instructions that are kept.
pub fn compact(
    alloc: Global,
    code: &[Instr],
    gone: &[bool],
    counts: &[u32],
) -> Result<Vec<Instr>, AllocError>
    requires size { length gone.now ≡ length code.now }
    requires targets { All (Rule5 (length counts.now)) code.now }
    ensures { IfOk result (λ v. v.items ≡ compacted (λ x. slice_index counts.now x) gone.now code.now) }
{
    let mut v = Vec::with_capacity(alloc, code.len())?;
    for x in 0..code.len() {
        if !gone[x] {
            v.push(relocate(&code[x], counts))?;
        }
    }
    Ok(v)
}

/// Where the starts are then.
pub fn move_starts(alloc: Global, starts: &[u32], counts: &[u32]) -> Result<Vec<u32>, AllocError>
    requires { All (λ s. s < length counts.now) starts.now }
    ensures { IfOk result (λ v. v.items ≡ map (λ s. slice_index counts.now s) starts.now) }
{
    let mut v = Vec::new(alloc);
    for s in starts {
        v.push(counts[*s as usize])?;
    }
    Ok(v)
}

/// Marks where branches go.
pub fn mark_entered(code: &[Instr], marks: &mut [bool])
    requires targets { All (Rule5 (length marks.old)) code.now }
    requires none { (y : ℕ) → is_gone marks.old y ≡ false }
    ensures { AreMarked marks.new (IsEntered code.now) }
{
    for x in 0..code.len() {
        if let Instr::Br { target, .. } = code[x] {
            marks[target as usize] = true;
        }
    }
}

/// Marks where labels start.
pub fn mark_starts(starts: &[u32], marks: &mut [bool])
    requires inside { All (λ s. s < length marks.old) starts.now }
    requires none { (y : ℕ) → is_gone marks.old y ≡ false }
    ensures { AreMarked marks.new (IsLabelStart starts.now) }
{
    for s in starts {
        marks[*s as usize] = true;
    }
}
