// Sums of the halves of a word, recognized by the definitions in view.

ghost use Rattle.std.specs.Prelude.{◌≡◌};
ghost use Rattle.flow_words.specs.Tables as tables;
ghost use Rattle.flow_words.specs.Tables.{look};
ghost use Rattle.flow_words.specs.Sums as spec;

use crate::state::{Known, known_of};
use nv_base::{Atom, Bin, Prim, Una};

/// The definition of an operand, or just the operand.
pub fn definition(table: &[Known], a: Atom) -> Prim
    ensures { result ≡ tables.definition (look table.now) a }
{
    match a {
        Atom::Var(x) => {
            let k = known_of(table, x);
            if k.live { k.made } else { Prim::Same(a) }
        }
        Atom::Lit(_) => Prim::Same(a),
    }
}

// Whether two operands are the same.
fn is_operand(a: Atom, b: Atom) -> bool
    ensures { result ≡ spec.is_operand a b }
{
    match (a, b) {
        (Atom::Var(x), Atom::Var(y)) => x == y,
        (Atom::Lit(v), Atom::Lit(w)) => v == w,
        _ => false,
    }
}

// The word whose upper half this is.
fn high(p: Prim) -> Option<Atom>
    ensures { result ≡ spec.high p }
{
    match p {
        Prim::Una(Una::Shr(k), a) => if k == 16 { Some(a) } else { None },
        _ => None,
    }
}

// The first operand, where the second is the mask of a lower half.
fn masked(a: Atom, b: Atom) -> Option<Atom>
    ensures { result ≡ spec.masked a b }
{
    match b {
        Atom::Lit(v) => if v == 0xffff { Some(a) } else { None },
        Atom::Var(_) => None,
    }
}

// The first answer, or the second where there is none.
fn first(a: Option<Atom>, b: Option<Atom>) -> Option<Atom>
    ensures { result ≡ spec.first a b }
{
    match a {
        Some(x) => Some(x),
        None => b,
    }
}

// The word whose lower half this is.
fn low(p: Prim) -> Option<Atom>
    ensures { result ≡ spec.low p }
{
    match p {
        Prim::Bin(Bin::And, a, b) => first(masked(a, b), masked(b, a)),
        _ => None,
    }
}

// The word whose upper half is the first and whose lower half is the second.
fn halved(p: Prim, q: Prim) -> Option<Atom>
    ensures { result ≡ spec.halved p q }
{
    match (high(p), low(q)) {
        (Some(x), Some(y)) => if is_operand(x, y) { Some(x) } else { None },
        _ => None,
    }
}

// The word the sum of whose halves this is.
fn halves(table: &[Known], p: Prim) -> Option<Atom>
    ensures { result ≡ spec.halves (look table.now) p }
{
    match p {
        Prim::Bin(Bin::Add, a, b) => {
            let x = definition(table, a);
            let y = definition(table, b);
            first(halved(x, y), halved(y, x))
        }
        _ => None,
    }
}

/// The word the sum of whose halves has this as the sum of its halves.
pub fn twice(table: &[Known], p: Prim) -> Option<Atom>
    ensures { result ≡ spec.twice (look table.now) p }
{
    match halves(table, p) {
        Some(x) => halves(table, definition(table, x)),
        None => None,
    }
}
