// The bits of words, each by a bit of a variable.

ghost use Rattle.std.specs.Prelude.{◌≡◌, ◌<◌, ◌+◌, ◌↔◌, ◌||◌, true, map, if◌then◌else◌};
ghost use Rattle.std.specs.List.{range_with_len};
ghost use Rattle.flow_words.specs.Tables.{look};
ghost use Rattle.flow_words.specs.Bits as spec;

use crate::state::{Known, both, known_of};
use nv_base::{Atom, Bin, Prim, Una};

/// A bit of a word.
#[derive(Clone, Copy)]
pub enum Bit {
    /// Nothing is known of it.
    Unknown,
    Zero,
    One,
    /// The bit of a variable at a place.
    Of(u32, u8),
    /// The other one than that.
    Flipped(u32, u8),
}

// The other bit.
fn flipped(b: Bit) -> Bit
    ensures { result ≡ spec.flipped b }
{
    match b {
        Bit::Unknown => Bit::Unknown,
        Bit::Zero => Bit::One,
        Bit::One => Bit::Zero,
        Bit::Of(x, j) => Bit::Flipped(x, j),
        Bit::Flipped(x, j) => Bit::Of(x, j),
    }
}

/// Whether two bits are known to be the same.
pub fn is_same(a: Bit, b: Bit) -> bool
    ensures { result ≡ spec.is_same a b }
{
    match (a, b) {
        (Bit::Zero, Bit::Zero) => true,
        (Bit::One, Bit::One) => true,
        (Bit::Of(x, i), Bit::Of(y, j)) => x == y && i == j,
        (Bit::Flipped(x, i), Bit::Flipped(y, j)) => x == y && i == j,
        _ => false,
    }
}

/// Whether a bit is known to be 0.
pub fn is_zero(a: Bit) -> bool
    ensures { result ≡ spec.is_zero a }
{
    match a {
        Bit::Zero => true,
        _ => false,
    }
}

/// Whether a bit is known to be 1.
fn is_one(a: Bit) -> bool
    ensures { result ≡ spec.is_one a }
{
    match a {
        Bit::One => true,
        _ => false,
    }
}

// The bit that both have.
fn common(a: Bit, b: Bit) -> Bit
    ensures { result ≡ spec.common a b }
{
    if is_zero(a) || is_zero(b) {
        Bit::Zero
    } else if is_one(a) {
        b
    } else if is_one(b) || is_same(a, b) {
        a
    } else {
        Bit::Unknown
    }
}

// The bit that one or both have.
fn either(a: Bit, b: Bit) -> Bit
    ensures { result ≡ spec.either a b }
{
    if is_zero(a) {
        b
    } else if is_zero(b) || is_same(a, b) {
        a
    } else if is_one(a) || is_one(b) {
        Bit::One
    } else {
        Bit::Unknown
    }
}

// The bit that exactly one has.
fn differing(a: Bit, b: Bit) -> Bit
    ensures { result ≡ spec.differing a b }
{
    if is_zero(a) {
        b
    } else if is_zero(b) {
        a
    } else if is_one(a) {
        flipped(b)
    } else if is_one(b) {
        flipped(a)
    } else if is_same(a, b) {
        Bit::Zero
    } else {
        Bit::Unknown
    }
}

// The bit of a variable at a place, where this is known of it.
fn own(x: u32, i: u8, b: Bit) -> Bit
    ensures { result ≡ spec.own x i b }
{
    match b {
        Bit::Unknown => Bit::Of(x, i),
        _ => b,
    }
}

// The bit of a number at a place.
fn literal_bit(v: u32, i: u8) -> Bit
    requires { i < 32 }
    ensures { result ≡ spec.literal_bit v i }
{
    if (v >> i) & 1 == 1 {
        Bit::One
    } else {
        Bit::Zero
    }
}

/// The bit of an operand at a place.
pub fn atom_bit(table: &[Known], a: Atom, i: u8) -> Bit
    requires { i < 32 }
    ensures { result ≡ spec.atom_bit (look table.now) a i }
{
    match a {
        Atom::Var(x) => {
            let k = known_of(table, x);
            if k.live {
                own(x, i, k.bits[i as usize])
            } else {
                Bit::Of(x, i)
            }
        }
        Atom::Lit(v) => literal_bit(v, i),
    }
}

// The bit of an operation on one word.
fn una_bit(table: &[Known], op: Una, a: Atom, i: u8) -> Bit
    requires { i < 32 }
    ensures { result ≡ spec.una_bit (look table.now) op a i }
{
    match op {
        Una::Not => flipped(atom_bit(table, a, i)),
        Una::Shl(k) => if i < k {
            Bit::Zero
        } else {
            atom_bit(table, a, i - k)
        },
        Una::Shr(k) => if k < 32 - i {
            atom_bit(table, a, i + k)
        } else {
            Bit::Zero
        },
        Una::Rol(k) => {
            if k <= i {
                atom_bit(table, a, i - k)
            } else if k <= 32 {
                atom_bit(table, a, i + (32 - k))
            } else {
                Bit::Unknown
            }
        }
    }
}

// The bit of an operation on two words but a sum.
fn bin_bit(op: Bin, a: Bit, b: Bit) -> Bit
    ensures { result ≡ spec.bin_bit op a b }
{
    match op {
        Bin::Add => Bit::Unknown,
        Bin::Sub => Bit::Unknown,
        Bin::And => common(a, b),
        Bin::Or => either(a, b),
        Bin::Xor => differing(a, b),
    }
}

// The bit at a place of a primitive that is no sum.
fn plain_bit(table: &[Known], p: Prim, i: u8) -> Bit
    requires { i < 32 }
    ensures { result ≡ spec.plain_bit (look table.now) p i }
{
    match p {
        Prim::Same(a) => atom_bit(table, a, i),
        Prim::Una(op, a) => una_bit(table, op, a, i),
        Prim::Bin(op, a, b) => bin_bit(op, atom_bit(table, a, i), atom_bit(table, b, i)),
    }
}

// All bits of a primitive that is no sum.
fn plain_bits(table: &[Known], p: Prim) -> [Bit; 32]
    ensures { result ≡ map (spec.plain_bit (look table.now) p) (range_with_len 0 32) }
{
    let mut bits = [Bit::Unknown; 32];
    for i in 0..32u8 {
        bits[i as usize] = plain_bit(table, p, i);
    }
    bits
}

// The places above the highest bit, with one place more.
fn raised(top: u8, i: u8, gone: bool) -> u8
    requires { i < 32 }
    ensures { result ≡ (if gone then top else i + 1) }
{
    if gone { top } else { i + 1 }
}

// The places above the highest bit of two operands.
fn above(table: &[Known], a: Atom, b: Atom) -> u8
    ensures { result ≡ spec.above (look table.now) a b 32 }
{
    let mut top = 0;
    for i in 0..32u8 {
        let gone = both(
            is_zero(atom_bit(table, a, i)),
            is_zero(atom_bit(table, b, i)),
        );
        top = raised(top, i, gone);
    }
    top
}

// The bit of a sum at a place, by whether there is no carry into it and the places above both operands.
fn sum_bit(table: &[Known], a: Atom, b: Atom, i: u8, free: bool, top: u8) -> Bit
    requires place { i < 32 }
    requires free { free ≡ spec.is_free (look table.now) a b i }
    requires top { top ≡ spec.above (look table.now) a b 32 }
    ensures { result ≡ spec.sum_bit (look table.now) a b i }
{
    if free {
        differing(atom_bit(table, a, i), atom_bit(table, b, i))
    } else if top < i {
        Bit::Zero
    } else {
        Bit::Unknown
    }
}

// Whether one of two holds.
fn one(a: bool, b: bool) -> bool
    ensures { result ≡ (a || b) }
{
    a || b
}

// All bits of a sum.
fn sum_bits(table: &[Known], a: Atom, b: Atom) -> [Bit; 32]
    ensures { result ≡ map (spec.sum_bit (look table.now) a b) (range_with_len 0 32) }
{
    let top = above(table, a, b);
    let mut bits = [Bit::Unknown; 32];
    let mut free = true;
    for i in 0..32u8 {
        bits[i as usize] = sum_bit(table, a, b, i, free, top);
        let apart = one(
            is_zero(atom_bit(table, a, i)),
            is_zero(atom_bit(table, b, i)),
        );
        free = both(free, apart);
    }
    bits
}

/// All bits of a primitive.
pub fn bits_of(table: &[Known], p: Prim) -> [Bit; 32]
    ensures { result ≡ spec.bits_of (look table.now) p }
{
    match p {
        Prim::Same(_) => plain_bits(table, p),
        Prim::Una(_, _) => plain_bits(table, p),
        Prim::Bin(op, a, b) => match op {
            Bin::Add => sum_bits(table, a, b),
            Bin::Sub => plain_bits(table, p),
            Bin::And => plain_bits(table, p),
            Bin::Or => plain_bits(table, p),
            Bin::Xor => plain_bits(table, p),
        },
    }
}

/// Whether these bits are all known, and those of an operand.
pub fn has_bits(table: &[Known], bits: &[Bit; 32], a: Atom) -> bool
    ensures { result ≡ true ↔ spec.AreBitsOf (look table.now) bits.now a }
{
    for i in 0..32u8 {
        if !is_same(bits[i as usize], atom_bit(table, a, i)) {
            return false;
        }
    }
    true
}

/// Whether bits are all known and the same.
pub fn are_same(bits: &[Bit; 32], others: &[Bit; 32]) -> bool
    ensures { result ≡ true → spec.AreSame bits.now others.now }
{
    for i in 0..32usize {
        if !is_same(bits[i], others[i]) {
            return false;
        }
    }
    true
}

/// The primitive, or an operand that has its bits.
pub fn settled(table: &[Known], q: Prim) -> Prim
    ensures needed { spec.IsNeeded (look table.now) result }
    ensures same { spec.IsSettledFrom (look table.now) q result }
{
    match q {
        Prim::Same(_) => q,
        Prim::Una(_, a) => {
            let bits = bits_of(table, q);
            if has_bits(table, &bits, a) {
                Prim::Same(a)
            } else {
                q
            }
        }
        Prim::Bin(_, a, b) => {
            let bits = bits_of(table, q);
            if has_bits(table, &bits, a) {
                Prim::Same(a)
            } else if has_bits(table, &bits, b) {
                Prim::Same(b)
            } else {
                q
            }
        }
    }
}
