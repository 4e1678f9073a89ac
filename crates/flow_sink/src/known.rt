// The primitives that stand above, with the variables that have their words.

ghost use Rattle.std.specs.Prelude.{◌≡◌, ◌-◌, drop, length};
ghost use Rattle.flow_sink.specs.Values as spec;
ghost use Rattle.flow_sink.specs.inner.Above as inner;
ghost use Rattle.flow_sink.specs.inner.Above.{entries};

use nv_base::{Atom, Bin, Prim, Una};

/// A variable that has the word of a primitive.
#[derive(Clone, Copy)]
pub struct Known {
    pub prim: Prim,
    pub variable: u32,
}

// How many of the primitives above are looked at, the nearest ones.
const WINDOW: usize = 256;

fn is_same_atom(a: Atom, b: Atom) -> bool
    ensures { result ≡ spec.same_atom a b }
{
    match (a, b) {
        (Atom::Var(x), Atom::Var(y)) => x == y,
        (Atom::Lit(v), Atom::Lit(w)) => v == w,
        (Atom::Var(_), Atom::Lit(_)) => false,
        (Atom::Lit(_), Atom::Var(_)) => false,
    }
}

// The kind of an operation on one word, and its count of places.
fn una_code(op: Una) -> (u32, u8)
    ensures { result ≡ spec.una_code op }
{
    match op {
        Una::Not => (0, 0),
        Una::Shl(k) => (1, k),
        Una::Shr(k) => (2, k),
        Una::Rol(k) => (3, k),
    }
}

// The kind of an operation on two words.
fn bin_code(op: Bin) -> u32
    ensures { result ≡ spec.bin_code op }
{
    match op {
        Bin::Add => 0,
        Bin::Sub => 1,
        Bin::And => 2,
        Bin::Or => 3,
        Bin::Xor => 4,
    }
}

fn is_same_una(a: Una, b: Una) -> bool
    ensures { result ≡ spec.same_una a b }
{
    let (kind, count) = una_code(a);
    let (other, places) = una_code(b);
    kind == other && count == places
}

fn is_same_bin(a: Bin, b: Bin) -> bool
    ensures { result ≡ spec.same_bin a b }
{
    bin_code(a) == bin_code(b)
}

/// Whether two primitives are the same.
pub fn is_same(p: Prim, q: Prim) -> bool
    ensures { result ≡ spec.same p q }
{
    match (p, q) {
        (Prim::Same(a), Prim::Same(b)) => is_same_atom(a, b),
        (Prim::Una(op, a), Prim::Una(other, b)) => is_same_una(op, other) && is_same_atom(a, b),
        (Prim::Bin(op, a, b), Prim::Bin(other, c, d)) => {
            is_same_bin(op, other) && is_same_atom(a, c) && is_same_atom(b, d)
        }
        _ => false,
    }
}

// The nearest ones.
fn window(above: &[Known]) -> &[Known]
    ensures { result.now ≡ drop (length above.now - 256) above.now }
{
    &above[above.len().saturating_sub(WINDOW)..]
}

// The first of these variables that has the word of a primitive.
fn first(near: &[Known], p: Prim) -> Option<u32>
    ensures { result ≡ inner.first (entries near.now) p }
{
    for k in near {
        if is_same(k.prim, p) {
            return Some(k.variable);
        }
    }
    None
}

/// The variable of a primitive that stands near above in its place, else the primitive itself.
pub fn answer(above: &[Known], p: Prim) -> Prim
    ensures { result ≡ inner.answer (entries above.now) p }
{
    match first(window(above), p) {
        Some(y) => Prim::Same(Atom::Var(y)),
        None => p,
    }
}
