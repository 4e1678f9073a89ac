//! The operations on words: modulo 2^32, or bit by bit.
ghost use Rattle.std.specs.Prelude.{◌≡◌, ◌≤◌, bit_and, bit_or, bit_xor};
ghost use Rattle.nv_base.specs.Words.{word_sum, word_difference, word_not, shifted_left, shifted_right, rotated_left};

/// The sum modulo 2^32.
pub fn add(x: u32, y: u32) -> u32
    ensures { result ≡ word_sum x y }
{
    x.wrapping_add(y)
}

/// The difference modulo 2^32.
pub fn sub(x: u32, y: u32) -> u32
    ensures { result ≡ word_difference x y }
{
    x.wrapping_sub(y)
}

/// The bits that both have.
pub fn and(x: u32, y: u32) -> u32
    ensures { result ≡ bit_and x y }
{
    x & y
}

/// The bits that one or both have.
pub fn or(x: u32, y: u32) -> u32
    ensures { result ≡ bit_or x y }
{
    x | y
}

/// The bits that exactly one has.
pub fn xor(x: u32, y: u32) -> u32
    ensures { result ≡ bit_xor x y }
{
    x ^ y
}

/// The bits that it does not have.
pub fn not(x: u32) -> u32
    ensures { result ≡ word_not x }
{
    !x
}

/// Shifted `k` places to the left, with zeros from the right.
pub fn shl(x: u32, k: u8) -> u32
    requires { k ≤ 31 }
    ensures { result ≡ shifted_left k x }
{
    x << k
}

/// Shifted `k` places to the right, with zeros from the left.
pub fn shr(x: u32, k: u8) -> u32
    requires { k ≤ 31 }
    ensures { result ≡ shifted_right k x }
{
    x >> k
}

/// Rotated `k` places to the left.
pub fn rol(x: u32, k: u8) -> u32
    requires { k ≤ 31 }
    ensures { result ≡ rotated_left k x }
{
    x.rotate_left(k as u32)
}
