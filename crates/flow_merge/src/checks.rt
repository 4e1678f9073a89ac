// Whether a flow is contracted.

ghost use Rattle.std.specs.Prelude.{◌≡◌, ◌≤◌, ◌<◌, ◌+◌, ◌↔◌, ℕ, true, IfOk, map, length, min, nat_eq, if◌then◌else◌};
ghost use Rattle.flow_ir.specs.View.{tree_view, label_view};
ghost use Rattle.flow_merge.specs.Contracted as spec;
ghost use Rattle.flow_merge.specs.Contracted.{jumps_to, all_jumps_to, AreMerged};
ghost use Rattle.flow_merge.specs.inner.Sizes as inner;
ghost use Rattle.flow_merge.specs.inner.Sizes.{at};

use flow_ir::{Label, Tree};
use nv_base::{Atom, NoMemory};
use std::alloc::Global;

// Counts a jump, as long as there is room.
fn note(counts: &mut Vec<u32>, l: u32)
    ensures length { length counts.new.items ≡ length counts.old.items }
    ensures most { (k : ℕ) → at counts.new.items k ≤ at counts.old.items k + (if nat_eq l k then 1 else 0) }
    ensures least { (k : ℕ) → k < length counts.old.items → min (at counts.old.items k + (if nat_eq l k then 1 else 0)) u32.MAX ≤ at counts.new.items k }
{
    let i = l as usize;
    if i < counts.len() {
        counts[i] = counts[i].saturating_add(1);
    }
}

// Counts the jumps of a tree.
fn note_all(counts: &mut Vec<u32>, t: &Tree)
    ensures length { length counts.new.items ≡ length counts.old.items }
    ensures most { (k : ℕ) → at counts.new.items k ≤ at counts.old.items k + jumps_to k (tree_view t.now) }
    ensures least { (k : ℕ) → k < length counts.old.items → min (at counts.old.items k + jumps_to k (tree_view t.now)) u32.MAX ≤ at counts.new.items k }
{
    let mut cur = t;
    'spine: loop {
        match cur {
            Tree::Let(_, _, rest) => cur = rest,
            Tree::Read(_, _, _, rest) => cur = rest,
            Tree::Write(_, _, _, rest) => cur = rest,
            Tree::If(_, _, _, first, second) => {
                note_all(counts, first);
                cur = second;
            }
            Tree::Jump(l, _) => {
                note(counts, *l);
                return;
            }
            Tree::Halt(_, _) => return,
        }
    }
}

/// How many jumps lead to each label, or the greatest number that there is room for.
pub fn jumps(alloc: Global, labels: &[Label]) -> Result<Vec<u32>, NoMemory>
    ensures most { IfOk result (λ v. (k : ℕ) → at v.items k ≤ all_jumps_to k (map label_view labels.now)) }
    ensures least { IfOk result (λ v. (k : ℕ) → k < length labels.now → min (all_jumps_to k (map label_view labels.now)) u32.MAX ≤ at v.items k) }
{
    let mut counts = vec![in alloc; 0u32; labels.len()]?;
    for l in labels {
        note_all(&mut counts, &l.body);
    }
    Ok(counts)
}

/// The number at a place, or 0.
pub fn count(counts: &[u32], i: usize) -> u32
    ensures { result ≡ at counts.now i }
{
    if i < counts.len() { counts[i] } else { 0 }
}

// Whether a body is an end and nothing else, and no jump to its own label.
fn is_bare(i: usize, t: &Tree) -> bool
    ensures { result ≡ spec.is_bare i (tree_view t.now) }
{
    match t {
        Tree::Jump(k, _) => *k as usize != i,
        Tree::Halt(_, _) => true,
        _ => false,
    }
}

/// Whether an operand is a literal.
pub fn is_literal(a: Atom) -> bool
    ensures { result ≡ spec.is_literal a }
{
    match a {
        Atom::Var(_) => false,
        Atom::Lit(_) => true,
    }
}

// Whether no `If` compares two literals.
fn is_undecided(t: &Tree) -> bool
    ensures { result ≡ spec.is_undecided (tree_view t.now) }
{
    let mut cur = t;
    'spine: loop {
        match cur {
            Tree::Let(_, _, rest) => cur = rest,
            Tree::Read(_, _, _, rest) => cur = rest,
            Tree::Write(_, _, _, rest) => cur = rest,
            Tree::If(_, a, b, first, second) => {
                if is_literal(*a) && is_literal(*b) || !is_undecided(first) {
                    return false;
                }
                cur = second;
            }
            Tree::Jump(_, _) => return true,
            Tree::Halt(_, _) => return true,
        }
    }
}

// Whether a label may stay.
fn fits(counts: &[u32], i: usize, l: &Label) -> bool
    ensures { result ≡ inner.fits counts.now i (label_view l.now) }
{
    is_undecided(&l.body) && (i == 0 || (2 <= count(counts, i) && !is_bare(i, &l.body)))
}

// Whether all may.
fn all_fit(counts: &[u32], labels: &[Label]) -> bool
    ensures { result ≡ inner.all_fit counts.now 0 (map label_view labels.now) }
{
    for (i, l) in labels.iter().enumerate() {
        if !fits(counts, i, l) {
            return false;
        }
    }
    true
}

/// Whether labels are contracted.
pub fn are_merged(alloc: Global, labels: &[Label]) -> Result<bool, NoMemory>
    ensures { IfOk result (λ b. b ≡ true ↔ AreMerged (map label_view labels.now)) }
{
    let counts = jumps(alloc, labels)?;
    Ok(all_fit(&counts, labels))
}
