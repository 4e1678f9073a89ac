// Bounds of words, and what they tell of comparisons.

ghost use Rattle.std.specs.Prelude.{◌≡◌, ◌+◌, ◌-◌, nat_eq, min, if◌then◌else◌};
ghost use Rattle.nv_base.specs.declared.term.Bin.TheVariants as bin;
ghost use Rattle.flow_paths.specs.Ranges as spec;

use nv_base::{Bin, Cmp, Una};

/// A word is at least the one number, and at most the other.
#[derive(Clone, Copy)]
pub struct Range {
    pub low: u32,
    pub high: u32,
}

// The greatest word.
const MOST: u32 = u32::MAX;

/// All words.
pub fn all_words() -> Range
    ensures { result ≡ spec.all_words }
{
    Range { low: 0, high: MOST }
}

/// The words that are in both.
pub fn met(r: Range, s: Range) -> Range
    ensures { result ≡ spec.met r s }
{
    Range {
        low: r.low.max(s.low),
        high: r.high.min(s.high),
    }
}

/// Whether all words are within bounds.
pub fn says_nothing(r: Range) -> bool
    ensures { result ≡ spec.says_nothing r }
{
    r.low == 0 && MOST <= r.high
}

// Whether a word is less than another.
fn less(a: Range, b: Range) -> Option<bool>
    ensures { result ≡ spec.less a b }
{
    if a.high < b.low {
        Some(true)
    } else if b.high <= a.low {
        Some(false)
    } else {
        None
    }
}

// Whether two words are equal.
fn equal(a: Range, b: Range) -> Option<bool>
    ensures { result ≡ spec.equal a b }
{
    if a.high < b.low || b.high < a.low {
        Some(false)
    } else if a.high <= b.low && b.high <= a.low {
        Some(true)
    } else {
        None
    }
}

// The other answer.
fn turned(r: Option<bool>) -> Option<bool>
    ensures { result ≡ spec.turned r }
{
    match r {
        Some(b) => Some(!b),
        None => None,
    }
}

/// Whether a comparison holds, where the words are the same or their bounds tell.
pub fn tells(same: bool, a: Range, b: Range, c: Cmp) -> Option<bool>
    ensures { result ≡ spec.tells same a b c }
{
    match c {
        Cmp::Eq => if same { Some(true) } else { equal(a, b) },
        Cmp::Ne => if same {
            Some(false)
        } else {
            turned(equal(a, b))
        },
        Cmp::Lt => if same { Some(false) } else { less(a, b) },
        Cmp::Ge => if same { Some(true) } else { turned(less(a, b)) },
    }
}

// The lower end without a word.
fn low_without(low: u32, v: u32) -> u32
    ensures { result ≡ (if nat_eq low v then min (low + 1) spec.most else low) }
{
    if low == v { low.saturating_add(1) } else { low }
}

// The upper end without it.
fn high_without(high: u32, v: u32) -> u32
    ensures { result ≡ (if nat_eq high v then high - 1 else high) }
{
    if high == v {
        high.saturating_sub(1)
    } else {
        high
    }
}

// A range without the only word of another, at its ends.
fn without(a: Range, b: Range) -> Range
    ensures { result ≡ spec.without a b }
{
    if b.low == b.high {
        Range {
            low: low_without(a.low, b.low),
            high: high_without(a.high, b.low),
        }
    } else {
        a
    }
}

/// The bounds of the first word where a comparison holds.
pub fn of_first(c: Cmp, a: Range, b: Range) -> Range
    ensures { result ≡ spec.of_first c a b }
{
    match c {
        Cmp::Eq => b,
        Cmp::Ne => without(a, b),
        Cmp::Lt => Range {
            low: 0,
            high: b.high.saturating_sub(1),
        },
        Cmp::Ge => Range {
            low: b.low,
            high: MOST,
        },
    }
}

/// The bounds of the second word.
pub fn of_second(c: Cmp, a: Range, b: Range) -> Range
    ensures { result ≡ spec.of_second c a b }
{
    match c {
        Cmp::Eq => a,
        Cmp::Ne => without(b, a),
        Cmp::Lt => Range {
            low: a.low.saturating_add(1),
            high: MOST,
        },
        Cmp::Ge => Range {
            low: 0,
            high: a.high,
        },
    }
}

/// The bounds of an operation on one word.
pub fn of_una(op: Una, a: Range) -> Range
    ensures { result ≡ spec.of_una op a }
{
    match op {
        Una::Not => all_words(),
        Una::Shl(_) => all_words(),
        Una::Shr(k) => if k < 32 {
            Range {
                low: a.low >> k,
                high: a.high >> k,
            }
        } else {
            all_words()
        },
        Una::Rol(_) => all_words(),
    }
}

// The bounds of a sum.
fn sum(a: Range, b: Range) -> Range
    ensures { result ≡ spec.of_bin bin.Add a b }
{
    match a.high.checked_add(b.high) {
        Some(high) => Range {
            low: a.low.saturating_add(b.low),
            high,
        },
        None => all_words(),
    }
}

// The bounds of a difference.
fn difference(a: Range, b: Range) -> Range
    ensures { result ≡ spec.of_bin bin.Sub a b }
{
    if b.high <= a.low {
        Range {
            low: a.low - b.high,
            high: a.high.saturating_sub(b.low),
        }
    } else {
        all_words()
    }
}

/// The bounds of an operation on two words.
pub fn of_bin(op: Bin, a: Range, b: Range) -> Range
    ensures { result ≡ spec.of_bin op a b }
{
    match op {
        Bin::Add => sum(a, b),
        Bin::Sub => difference(a, b),
        Bin::And => Range {
            low: 0,
            high: a.high.min(b.high),
        },
        Bin::Or => all_words(),
        Bin::Xor => all_words(),
    }
}
