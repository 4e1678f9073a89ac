// Fields of packed words, read and written.

ghost use Rattle.std.specs.Prelude.{◌≡◌, ◌+◌, ◌-◌, ◌*◌, ◌/◌, ◌%◌, ◌^◌, ◌≤◌, ◌<◌, length, slice_index};
ghost use Rattle.nv_ast.specs.Bits.{bits, number, packed, slice, replaced};

use crate::outline::Field;

/// The number in a field.
pub fn extract(f: Field, words: &[u32]) -> u32
    requires some { 1 ≤ f.bits }
    requires word { f.bits ≤ 32 }
    requires inside { f.first + f.bits ≤ 32 * length words.now }
    ensures { result ≡ number (slice f.first f.bits (packed words.now)) }
{
    let at = (f.first / 32) as usize;
    let below = 64 - f.first % 32 - f.bits as u32;
    let both = window(words, at);
    ((both >> below) & low_bits(f.bits)) as u32
}

// The word at a place and the next one, or 0 where there is none.
fn window(words: &[u32], at: usize) -> u64
    requires { at < length words.now }
    ensures value { result ≡ slice_index words.now at * 2 ^ 32 + slice_index words.now (at + 1) }
    ensures fits { slice_index words.now (at + 1) < 2 ^ 32 }
{
    let next = if at + 1 < words.len() {
        words[at + 1]
    } else {
        0
    };
    ((words[at] as u64) << 32) | next as u64
}

// The number with its n lowest bits set.
fn low_bits(n: u8) -> u64
    requires { n ≤ 32 }
    ensures { result ≡ 2 ^ n - 1 }
{
    (1u64 << n) - 1
}

/// Writes a number into a field, modulo 2 to the field's width, and changes no other bit.
pub fn insert(f: Field, v: u32, words: &mut [u32])
    requires some { 1 ≤ f.bits }
    requires word { f.bits ≤ 32 }
    requires inside { f.first + f.bits ≤ 32 * length words.old }
    ensures { packed words.new ≡ replaced f.first (bits f.bits v) (packed words.old) }
{
    let at = (f.first / 32) as usize;
    let below = 64 - f.first % 32 - f.bits as u32;
    let both = window(words, at);
    let new = with_bits(both, below, f.bits as u32, v);
    words[at] = (new >> 32) as u32;
    if at + 1 < words.len() {
        words[at + 1] = (new & 0xffff_ffff) as u32;
    }
}

// A number with n of its bits replaced, above the lowest `below`.
fn with_bits(both: u64, below: u32, n: u32, v: u32) -> u64
    requires some { 1 ≤ n }
    requires word { n ≤ 32 }
    requires inside { below + n ≤ 64 }
    ensures { result ≡ (both / 2 ^ (below + n) * 2 ^ n + v % 2 ^ n) * 2 ^ below + both % 2 ^ below }
{
    let high = ((both >> below) >> n) << n;
    let field = v as u64 & ((1u64 << n) - 1);
    let low = both & ((1u64 << below) - 1);
    ((high | field) << below) | low
}
