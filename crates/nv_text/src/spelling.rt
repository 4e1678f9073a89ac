// How far a token reaches, and what its bytes spell.
ghost use Rattle.std.specs.Prelude.{◌≡◌, ℕ, ◌+◌, ◌<◌, ◌≤◌, ◌^◌, ◌∷◌, List, MatchOption, false, drop, length};
ghost use Rattle.std.specs.List.{prefix_len};
ghost use Rattle.nv_text.specs.Spelling.{digit_value, number_after, is_hexadecimal};
ghost use Rattle.nv_text.specs.inner.Classes.{in_class};

/// A set of bytes that a token is made of.
#[derive(Clone, Copy)]
pub enum Class {
    WordStart,
    Word,
    Digit,
    Hexadecimal,
    Space,
    Line,
}

impl Class {
    /// Whether the byte is in the class.
    pub fn has(self, byte: u8) -> bool
        ensures { result ≡ in_class self byte }
    {
        match self {
            Class::WordStart => matches!(byte, b'a'..=b'z' | b'A'..=b'Z' | b'_'),
            Class::Word => matches!(byte, b'a'..=b'z' | b'A'..=b'Z' | b'_' | b'0'..=b'9'),
            Class::Digit => byte.is_ascii_digit(),
            Class::Hexadecimal => matches!(byte, b'0'..=b'9' | b'A'..=b'F' | b'a'..=b'f'),
            Class::Space => matches!(byte, b' ' | b'\t' | b'\r' | b'\n'),
            Class::Line => byte != b'\n',
        }
    }

    /// How many bytes in front are in the class.
    pub fn run(self, bytes: &[u8]) -> usize
        ensures exact { result ≡ prefix_len (in_class self) bytes.now }
        ensures within { result ≤ length bytes.now }
    {
        for (n, byte) in bytes.iter().enumerate() {
            if !self.has(*byte) {
                return n;
            }
        }
        bytes.len()
    }
}

/// What a digit counts.
fn digit(byte: u8) -> u8
    ensures { result ≡ digit_value byte }
{
    match byte {
        ..=b'9' => byte.saturating_sub(b'0'),
        ..=b'F' => byte.saturating_sub(b'A' - 10),
        _ => byte.saturating_sub(b'a' - 10),
    }
}

#[tactic(auto, using(crate::proofs::Runs::number_step, crate::proofs::Runs::number_grows))]
/// The number that the digits give in a base, or none from 2 ^ 32 on.
pub fn value(base: u8, digits: &[u8]) -> Option<u32>
    requires { 0 < base }
    ensures { MatchOption result (2 ^ 32 ≤ number_after base 0 digits.now) (λ v. v ≡ number_after base 0 digits.now) }
{
    let mut value: u32 = 0;
    for byte in digits {
        let next = u64::from(value) * u64::from(base) + u64::from(digit(*byte));
        if next > u64::from(u32::MAX) {
            return None;
        }
        value = next as u32;
    }
    Some(value)
}

/// How many hexadecimal digits stand after a `0x` in front.
pub fn hexadecimal_digits(bytes: &[u8]) -> usize
    ensures some { 0 < result → bytes.now ≡ 48 ∷ 120 ∷ drop 2 bytes.now }
    ensures digits { 0 < result → result ≡ prefix_len is_hexadecimal (drop 2 bytes.now) }
    ensures within { 0 < result → 2 + result ≤ length bytes.now }
    ensures none { result ≡ 0 → (d : ℕ) (rest : List ℕ) → bytes.now ≡ 48 ∷ 120 ∷ d ∷ rest → is_hexadecimal d ≡ false }
{
    match bytes {
        [b'0', b'x', digits @ ..] => Class::Hexadecimal.run(digits),
        _ => 0,
    }
}
