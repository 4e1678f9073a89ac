//! Numbers among the words.
ghost use Rattle.std.specs.Prelude.{◌≡◌, ◌≢◌, ◌≤◌, ℕ, decimal, IfSome, IfNone};

use nv_lines::read_decimal;

/// The number from one to another that a text spells in decimal, without zeros in front.
pub fn read_number(text: &str, least: u32, most: u32) -> Option<u32>
    ensures spelled { IfSome result (λ n. text.now ≡ decimal n) }
    ensures least { IfSome result (λ n. least ≤ n) }
    ensures most { IfSome result (λ n. n ≤ most) }
    ensures none { IfNone result ((n : ℕ) → least ≤ n → n ≤ most → text.now ≢ decimal n) }
{
    let n = read_decimal(text.as_bytes(), u64::from(most))?;
    if n < u64::from(least) {
        None
    } else {
        Some(n as u32)
    }
}
