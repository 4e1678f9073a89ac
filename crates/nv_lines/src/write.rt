//! Numbers, and lines of a text and a number, appended to a text.

ghost use Rattle.std.specs.Prelude.{◌≡◌, ◌++◌, ◌∷◌, ◌%◌, [], OnOk, OnErr, decimal};
ghost use Rattle.std.specs.Char.{digit_char};
ghost use Rattle.std.specs.Fmt.{signed_decimal};
ghost use Rattle.nv_lines.specs.Number.{hex_word};

use itoa::Buffer;
use std::alloc::AllocError;

/// Appends the decimal spelling of a number.
pub fn push_decimal(out: &mut Vec<u8>, n: u64) -> Result<(), AllocError>
    ensures ok { OnOk result (out.new.items ≡ out.old.items ++ decimal n) }
    ensures err { OnErr result (out.new.items ≡ out.old.items) }
{
    let mut buffer = Buffer::new();
    out.extend_from_slice(buffer.format(n).as_bytes())
}

/// Appends the decimal spelling of a signed number.
pub fn push_signed(out: &mut Vec<u8>, z: i32) -> Result<(), AllocError>
    ensures ok { OnOk result (out.new.items ≡ out.old.items ++ signed_decimal z) }
    ensures err { OnErr result (out.new.items ≡ out.old.items) }
{
    let mut buffer = Buffer::new();
    out.extend_from_slice(buffer.format(z).as_bytes())
}

/// Appends a line of this text and a number.
pub fn push_counted(out: &mut Vec<u8>, text: &[u8], n: u64) -> Result<(), AllocError>
    ensures { OnOk result (out.new.items ≡ out.old.items ++ (text.now ++ (decimal n ++ 10 ∷ []))) }
{
    out.extend_from_slice(text)?;
    push_decimal(out, n)?;
    out.push(b'\n')?;
    Ok(())
}

/// The last hexadecimal digit of a number.
fn last_digit(n: u32) -> u8
    ensures { result ≡ digit_char (n % 16) }
{
    match (n % 16) as u8 {
        d @ 0..=9 => b'0' + d,
        d => b'a' + (d - 10),
    }
}

/// The eight digits of a word, from the highest.
fn word_digits(n: u32) -> [u8; 8]
    ensures { result ≡ hex_word n }
{
    [
        last_digit(n >> 28),
        last_digit(n >> 24),
        last_digit(n >> 20),
        last_digit(n >> 16),
        last_digit(n >> 12),
        last_digit(n >> 8),
        last_digit(n >> 4),
        last_digit(n),
    ]
}

/// Appends a word as eight hexadecimal digits in lower case.
pub fn push_word(out: &mut Vec<u8>, n: u32) -> Result<(), AllocError>
    ensures ok { OnOk result (out.new.items ≡ out.old.items ++ hex_word n) }
    ensures err { OnErr result (out.new.items ≡ out.old.items) }
{
    out.extend_from_slice(&word_digits(n))
}
