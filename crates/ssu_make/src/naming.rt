// Names of operands and values.

ghost use Rattle.std.specs.Prelude.{◌≡◌, ℕ, ◌+◌, ◌<◌, ◌^◌, map, IfOk, OnOk};
ghost use Rattle.nv_base.specs.declared.term.Atom.TheVariants.{Var, Lit};
ghost use Rattle.ssu_ir.specs.Single.{is_narrow};
ghost use Rattle.ssu_make.specs.inner.Making.{counted};
ghost use Rattle.ssu_make.specs.Made.{name, names, value, all_taken};
ghost use Rattle.ssu_make.specs.Made as made;
ghost use Rattle.ssu_make.specs.Uses.{here, occurs};

use crate::counts::Counts;
use nv_base::{Atom, NoMemory};
use std::alloc::Global;

/// A sum, or memory exhaustion where there are too many names.
pub fn plus(a: u32, b: u32) -> Result<u32, NoMemory>
    ensures { IfOk result (λ n. n ≡ a + b) }
{
    match a.checked_add(b) {
        Some(n) => Ok(n),
        None => Err(NoMemory),
    }
}

/// Whether a literal fits a node: a number below 2^16, shifted to the left by 0, 8 or 16.
pub fn is_literal(v: u32) -> bool
    ensures { result ≡ is_narrow v }
{
    v < 65536 || (v % 256 == 0 && v / 256 < 65536) || v % 65536 == 0
}

/// How many new names an operand takes.
pub fn taken(a: Atom) -> u32
    ensures { result ≡ made.taken a }
{
    match a {
        Atom::Var(_) => 0,
        Atom::Lit(v) => { if is_literal(v) { 1 } else { 3 } }
    }
}

// The next name of a variable: where `counts` has the uses that follow, and then this one too.
fn next_use(bases: &Counts, counts: &mut Counts, x: u32) -> Result<u32, NoMemory>
    ensures name { IfOk result (λ z. z ≡ counted bases.now x + counted counts.old x) }
    ensures counts { OnOk result ((y : ℕ) → counted counts.new y ≡ here (Var x) y + counted counts.old y) }
{
    let n = counts.at(x);
    counts.put(x, plus(n, 1)?)?;
    plus(bases.at(x), n)
}

// The name of a literal whose names begin at n: the last of them.
fn literal_name(n: u32, v: u32) -> Result<u32, NoMemory>
    ensures { IfOk result (λ z. z ≡ name (λ y. 0) (λ y. 0) n (Lit v)) }
{
    if is_literal(v) { Ok(n) } else { plus(n, 2) }
}

// The name of an operand whose new names begin at n, where `counts` has the uses that follow, and
// then this one too.
fn operand(bases: &Counts, counts: &mut Counts, n: u32, a: Atom) -> Result<u32, NoMemory>
    ensures name { IfOk result (λ z. z ≡ name (counted bases.now) (counted counts.old) n a) }
    ensures counts { OnOk result ((y : ℕ) → counted counts.new y ≡ here a y + counted counts.old y) }
{
    match a {
        Atom::Var(x) => next_use(bases, counts, x),
        Atom::Lit(v) => literal_name(n, v),
    }
}

/// The names of operands, where `counts` has the uses that follow, and then these too, and new names
/// go on at `fresh`.
pub fn operands(
    alloc: Global,
    bases: &Counts,
    counts: &mut Counts,
    fresh: &mut u32,
    list: &[Atom],
) -> Result<Vec<u32>, NoMemory>
    ensures names { IfOk result (λ v. v.items ≡ names (counted bases.now) (counted counts.old) fresh.old list.now) }
    ensures counts { OnOk result ((y : ℕ) → counted counts.new y ≡ occurs list.now y + counted counts.old y) }
    ensures fresh { OnOk result (fresh.new ≡ fresh.old + all_taken list.now) }
{
    let mut v = Vec::new(alloc);
    let mut i = list.len();
    while i > 0 {
        i -= 1;
        v.push(operand(bases, counts, *fresh, list[i])?)?;
        *fresh = plus(*fresh, taken(list[i]))?;
    }
    v.reverse();
    Ok(v)
}

/// The name of a value, where `counts` has its uses.
pub fn value_name(bases: &Counts, counts: &Counts, x: u32) -> Result<u32, NoMemory>
    ensures { IfOk result (λ z. z ≡ value (counted bases.now) (counted counts.now) x) }
{
    let n = counts.at(x);
    let first = bases.at(x);
    if n > 1 { plus(first, n) } else { Ok(first) }
}

/// The names of values.
pub fn values(
    alloc: Global,
    bases: &Counts,
    counts: &Counts,
    xs: &[u32],
) -> Result<Vec<u32>, NoMemory>
    ensures { IfOk result (λ v. v.items ≡ map (value (counted bases.now) (counted counts.now)) xs.now) }
{
    let mut v = Vec::new(alloc);
    for x in xs {
        v.push(value_name(bases, counts, *x)?)?;
    }
    Ok(v)
}
