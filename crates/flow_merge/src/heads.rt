// Choices with which labels begin, where the words of a jump decide them. Nothing here has a contract: in the place of
// each jump a copy of its label means the same.

ghost use Rattle.std.specs.Prelude.{◌≡◌, true};
ghost use Rattle.nv_base.specs.Words.{HasCount};

use flow_ir::{Label, Tree};
use nv_base::{Atom, Prim, Una};

// How many definitions may stand before a choice.
const MOST: u32 = 4;

/// Whether a label begins with a few definitions and then a choice that these words for its parameters decide.
pub fn decides(m: &Label, words: &[Atom]) -> bool {
    let mut cur = &m.body;
    for _ in 0..=MOST {
        match cur {
            Tree::Let(_, _, rest) => cur = rest,
            Tree::If(_, a, b, _, _) => {
                return literal(m, words, *a, MOST).is_some()
                    && literal(m, words, *b, MOST).is_some();
            }
            _ => return false,
        }
    }
    false
}

// The literal that an operand of the label's first nodes is.
#[cycle(literals)]
fn literal(m: &Label, words: &[Atom], a: Atom, depth: u32) -> Option<u32> {
    match a {
        Atom::Lit(v) => Some(v),
        Atom::Var(x) => match m.params.iter().position(|p| *p == x) {
            Some(i) => word(words, i),
            None => defined(m, words, x, depth),
        },
    }
}

// The literal among words at a place.
fn word(words: &[Atom], i: usize) -> Option<u32> {
    match words.get(i) {
        Some(Atom::Lit(v)) => Some(*v),
        _ => None,
    }
}

// The literal that a variable of the first nodes is defined as.
#[cycle(literals)]
fn defined(m: &Label, words: &[Atom], x: u32, depth: u32) -> Option<u32> {
    if depth == 0 {
        return None;
    }
    let mut cur = &m.body;
    for _ in 0..=MOST {
        match cur {
            Tree::Let(y, p, rest) => {
                if *y == x {
                    return value(m, words, *p, depth - 1);
                }
                cur = rest;
            }
            _ => return None,
        }
    }
    None
}

// The literal that a primitive is.
#[cycle(literals)]
fn value(m: &Label, words: &[Atom], p: Prim, depth: u32) -> Option<u32> {
    match p {
        Prim::Same(a) => literal(m, words, a, depth),
        Prim::Una(op, a) => {
            if !has_count(op) {
                return None;
            }
            match literal(m, words, a, depth) {
                Some(v) => Some(op.apply(v)),
                None => None,
            }
        }
        Prim::Bin(op, a, b) => match (literal(m, words, a, depth), literal(m, words, b, depth)) {
            (Some(v), Some(w)) => Some(op.apply(v, w)),
            _ => None,
        },
    }
}

// Whether the count of a shift is 1 to 31.
fn has_count(op: Una) -> bool
    ensures { result ≡ true → HasCount op }
{
    match op {
        Una::Not => true,
        Una::Shl(k) => 1 <= k && k <= 31,
        Una::Shr(k) => 1 <= k && k <= 31,
        Una::Rol(k) => 1 <= k && k <= 31,
    }
}
