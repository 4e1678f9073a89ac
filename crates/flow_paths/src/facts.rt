// What is known above: bounds of the words of variables.

ghost use Rattle.std.specs.Prelude.{◌≡◌, ◌-◌, ◌++◌, drop, length, OnOk};
ghost use Rattle.flow_paths.specs.Decided as spec;
ghost use Rattle.flow_paths.specs.Ranges as ranges;
ghost use Rattle.nv_base.specs.Words.{word};

use crate::ranges::{
    Range, all_words, met, of_bin, of_first, of_second, of_una, says_nothing, tells,
};
use nv_base::{Atom, Cmp, NoMemory, Prim};

/// A variable whose word is within bounds.
#[derive(Clone, Copy)]
pub struct Fact {
    pub variable: u32,
    pub range: Range,
}

// How many of the facts above are looked at, the nearest ones.
const WINDOW: usize = 256;

// The nearest ones.
fn near(above: &[Fact]) -> &[Fact]
    ensures { result.now ≡ spec.near above.now }
{
    &above[above.len().saturating_sub(WINDOW)..]
}

// A variable's range by one fact more.
fn narrowed(x: u32, r: Range, k: Fact) -> Range
    ensures { result ≡ spec.narrowed x r k }
{
    if k.variable == x { met(r, k.range) } else { r }
}

// What all facts say of a variable.
fn among(facts: &[Fact], x: u32) -> Range
    ensures { result ≡ spec.among facts.now x ranges.all_words }
{
    let mut r = all_words();
    for k in facts {
        r = narrowed(x, r, *k);
    }
    r
}

// The only word of a literal.
fn single(v: u32) -> Range
    ensures { result ≡ ranges.from (word v) (word v) }
{
    Range { low: v, high: v }
}

// The bounds of an operand.
fn range_of(above: &[Fact], a: Atom) -> Range
    ensures { result ≡ spec.range_of above.now a }
{
    match a {
        Atom::Var(x) => among(near(above), x),
        Atom::Lit(v) => single(v),
    }
}

// Whether two operands are the same variable.
fn is_same(a: Atom, b: Atom) -> bool
    ensures { result ≡ spec.is_same a b }
{
    match (a, b) {
        (Atom::Var(x), Atom::Var(y)) => x == y,
        (Atom::Var(_), Atom::Lit(_)) => false,
        (Atom::Lit(_), _) => false,
    }
}

/// Whether a comparison holds, where the facts tell.
pub fn decided(above: &[Fact], c: Cmp, a: Atom, b: Atom) -> Option<bool>
    ensures { result ≡ spec.decided above.now c a b }
{
    tells(is_same(a, b), range_of(above, a), range_of(above, b), c)
}

// One fact more, if it says anything.
fn learn(above: &mut Vec<Fact>, a: Atom, r: Range) -> Result<(), NoMemory>
    ensures { OnOk result (above.new.items ≡ above.old.items ++ spec.bound a r) }
{
    if let Atom::Var(x) = a {
        if !says_nothing(r) {
            above.push(Fact {
                variable: x,
                range: r,
            })?;
        }
    }
    Ok(())
}

/// A comparison holds.
pub fn tell(above: &mut Vec<Fact>, c: Cmp, a: Atom, b: Atom) -> Result<(), NoMemory>
    ensures { OnOk result (above.new.items ≡ above.old.items ++ spec.told above.old.items c a b) }
{
    let first = range_of(above, a);
    let second = range_of(above, b);
    learn(above, a, of_first(c, first, second))?;
    learn(above, b, of_second(c, first, second))
}

/// A memory was accessed at this address.
pub fn access(above: &mut Vec<Fact>, a: Atom) -> Result<(), NoMemory>
    ensures { OnOk result (above.new.items ≡ above.old.items ++ spec.accessed a) }
{
    learn(
        above,
        a,
        Range {
            low: 0,
            high: 65_535,
        },
    )
}

// The bounds of a primitive.
fn of_prim(above: &[Fact], p: Prim) -> Range
    ensures { result ≡ spec.of_prim above.now p }
{
    match p {
        Prim::Same(a) => range_of(above, a),
        Prim::Una(op, a) => of_una(op, range_of(above, a)),
        Prim::Bin(op, a, b) => of_bin(op, range_of(above, a), range_of(above, b)),
    }
}

/// A variable has the word of a primitive.
pub fn define(above: &mut Vec<Fact>, x: u32, p: Prim) -> Result<(), NoMemory>
    ensures { OnOk result (above.new.items ≡ above.old.items ++ spec.defined above.old.items x p) }
{
    let r = of_prim(above, p);
    learn(above, Atom::Var(x), r)
}
