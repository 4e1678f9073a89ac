//! Numbers, read from their whole spelling.

ghost use Rattle.std.specs.Prelude.{◌≡◌, ◌≢◌, ◌↔◌, ◌*◌, ◌+◌, IsTrue, length, slice_index, ◌≤◌, ◌<◌, ◌^◌, ◌≤ℤ◌, ◌<ℤ◌, pos, neg_ℤ, ◌∷◌, ℕ, ℤ, IfSome, IfNone, decimal};
ghost use Rattle.std.specs.Char.{digit_value};
ghost use Rattle.std.specs.Fmt.{signed_decimal};
ghost use Rattle.nv_lines.specs.Number.{SpellsWord};

use crate::lines::strip;

/// The value of a decimal digit.
fn digit_of(byte: u8) -> Option<u64>
    ensures some { IfSome result (λ d. digit_value byte ≡ d) }
    ensures below { IfSome result (λ d. d < 10) }
    ensures none { IfNone result (10 ≤ digit_value byte) }
{
    match byte {
        b'0'..=b'9' => Some(u64::from(byte - b'0')),
        _ => None,
    }
}

/// The number with one digit more, where it is at most `most`.
fn with_digit(value: u64, digit: u64, most: u64) -> Option<u64>
    ensures some { IfSome result (λ n. n ≡ value * 10 + digit) }
    ensures within { IfSome result (λ n. n ≤ most) }
    ensures none { IfNone result (most < value * 10 + digit) }
{
    match value.checked_mul(10)?.checked_add(digit) {
        Some(n) if n <= most => Some(n),
        _ => None,
    }
}

/// Whether a zero stands before further bytes.
fn is_padded(spelling: &[u8]) -> bool
    ensures { IsTrue result ↔ ((slice_index spelling.now 0 ≡ 48) × (1 < length spelling.now)) }
{
    spelling.len() > 1 && spelling[0] == b'0'
}

/// The number of at most `most` whose decimal spelling, without leading zeros, these bytes are.
pub fn read_decimal(spelling: &[u8], most: u64) -> Option<u64>
    ensures spelled { IfSome result (λ n. spelling.now ≡ decimal n) }
    ensures within { IfSome result (λ n. n ≤ most) }
    ensures none { IfNone result ((n : ℕ) → n ≤ most → spelling.now ≢ decimal n) }
{
    if spelling.is_empty() {
        return None;
    }
    if is_padded(spelling) {
        return None;
    }
    let mut value = 0;
    for byte in spelling {
        let digit = digit_of(*byte)?;
        value = with_digit(value, digit, most)?;
    }
    Some(value)
}

/// The greatest absolute value of an `i32`.
const MOST: u64 = 1 << 31;

/// The negative number of whose spelling these bytes are the digits.
fn negative(digits: &[u8]) -> Option<i64>
    ensures spelled { IfSome result (λ z. 45 ∷ digits.now ≡ signed_decimal z) }
    ensures from { IfSome result (λ z. neg_ℤ (pos MOST) ≤ℤ z) }
    ensures to { IfSome result (λ z. z ≤ℤ pos MOST) }
    ensures none { IfNone result ((z : ℤ) → neg_ℤ (pos MOST) ≤ℤ z → z ≤ℤ pos MOST → 45 ∷ digits.now ≢ signed_decimal z) }
{
    let n = read_decimal(digits, MOST)?;
    if n == 0 { None } else { Some(-(n as i64)) }
}

/// The number, of absolute value at most `MOST`, whose spelling these bytes are.
fn signed_value(spelling: &[u8]) -> Option<i64>
    ensures spelled { IfSome result (λ z. spelling.now ≡ signed_decimal z) }
    ensures from { IfSome result (λ z. neg_ℤ (pos MOST) ≤ℤ z) }
    ensures to { IfSome result (λ z. z ≤ℤ pos MOST) }
    ensures none { IfNone result ((z : ℤ) → neg_ℤ (pos MOST) ≤ℤ z → z ≤ℤ pos MOST → spelling.now ≢ signed_decimal z) }
{
    if let Some(digits) = strip(spelling, b"-") {
        return negative(digits);
    }
    let n = read_decimal(spelling, MOST)?;
    Some(n as i64)
}

/// The number from `low` to `high` whose decimal spelling these bytes are: `-` before a negative one, no leading
/// zeros, and no `-0`.
pub fn read_signed(spelling: &[u8], low: i32, high: i32) -> Option<i32>
    ensures spelled { IfSome result (λ z. spelling.now ≡ signed_decimal z) }
    ensures from { IfSome result (λ z. low ≤ℤ z) }
    ensures to { IfSome result (λ z. z ≤ℤ high) }
    ensures none { IfNone result ((z : ℤ) → low ≤ℤ z → z ≤ℤ high → spelling.now ≢ signed_decimal z) }
{
    let z = signed_value(spelling)?;
    if i64::from(low) <= z && z <= i64::from(high) {
        Some(z as i32)
    } else {
        None
    }
}

/// The value of a hexadecimal digit of either case.
fn hex_digit_of(byte: u8) -> Option<u32>
    ensures some { IfSome result (λ d. digit_value byte ≡ d) }
    ensures below { IfSome result (λ d. d < 16) }
    ensures none { IfNone result (16 ≤ digit_value byte) }
{
    match byte {
        b'0'..=b'9' => Some(u32::from(byte - b'0')),
        b'a'..=b'f' => Some(u32::from(byte - b'a') + 10),
        b'A'..=b'F' => Some(u32::from(byte - b'A') + 10),
        _ => None,
    }
}

/// The word that eight hexadecimal digits, of either case, write.
pub fn read_word(spelling: &[u8]) -> Option<u32>
    ensures spelled { IfSome result (λ n. SpellsWord spelling.now n) }
    ensures none { IfNone result ((n : ℕ) → ¬ SpellsWord spelling.now n) }
{
    if spelling.len() != 8 {
        return None;
    }
    let mut value = 0u32;
    for byte in spelling {
        let digit = hex_digit_of(*byte)?;
        value = value * 16 + digit;
    }
    Some(value)
}
