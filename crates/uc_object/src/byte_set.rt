//! Which bytes may stand at each place of an object.
ghost use Rattle.std.specs.Prelude.{◌≡◌, ◌↔◌, IsTrue};
ghost use Rattle.uc_object.specs.Columns.{Allows, row_columns as columns_of_row, header_columns as columns_of_header, exception_columns as columns_of_exception};

use Column::{Between, First, Further, Source, Target};

/// The bytes that may stand at one place.
#[derive(Clone, Copy)]
pub enum Column {
    Between(u8, u8),
    Source,
    Target,
    /// The first byte of a name.
    First,
    /// Another byte of a name.
    Further,
}

impl Column {
    /// Whether this byte may stand there.
    pub fn allows(self, byte: u8) -> bool
        ensures { IsTrue result ↔ Allows self byte }
    {
        match self {
            Between(low, high) => low <= byte && byte <= high,
            Source => matches!(byte, 0..=39 | 48..=55),
            Target => matches!(byte, 0..=31 | 64..=71 | 80..=87 | 96),
            First => matches!(byte, b'A'..=b'Z' | b'a'..=b'z' | b'_'),
            Further => matches!(byte, b'0'..=b'9' | b'A'..=b'Z' | b'a'..=b'z' | b'_'),
        }
    }
}

// Only this byte.
fn only(byte: u8) -> Column
    ensures { result ≡ Column.Between byte byte }
{
    Between(byte, byte)
}

const ANY: Column = Between(0, 255);

/// The places of a row, by its first two bytes.
pub fn row_columns(kind: u8, operation: u8) -> [Column; 8]
    ensures { result ≡ columns_of_row kind operation }
{
    let zero = only(0);
    let kinds = Between(0, 6);
    match kind {
        0 => [
            kinds,
            Between(0, 4),
            Target,
            Source,
            Source,
            zero,
            zero,
            zero,
        ],
        1 => {
            let count = if operation < 2 { zero } else { ANY };
            [
                kinds,
                Between(0, 4),
                Target,
                Source,
                count,
                zero,
                zero,
                zero,
            ]
        }
        2 => [kinds, ANY, Target, zero, ANY, ANY, zero, zero],
        3 => [kinds, Between(0, 4), zero, zero, ANY, ANY, ANY, ANY],
        4 | 5 => [
            kinds,
            Between(0, 2),
            ANY,
            ANY,
            Between(0, 31),
            ANY,
            zero,
            zero,
        ],
        _ => [kinds, ANY, ANY, ANY, zero, zero, zero, zero],
    }
}

/// The places of a header, by the first three bytes of its count.
pub fn header_columns(a: u8, b: u8, c: u8) -> [Column; 12]
    ensures { result ≡ columns_of_header a b c }
{
    let zero = only(0);
    let least = if a == 0 && b == 0 && c == 0 { 1 } else { 0 };
    [
        only(b'N'),
        only(b'V'),
        only(b'O'),
        Between(b'1', b'2'),
        Between(0, 8),
        zero,
        zero,
        zero,
        ANY,
        ANY,
        ANY,
        Between(least, 127),
    ]
}

/// The places of an exception with the longest name. A shorter one has the first of them.
pub fn exception_columns() -> [Column; 69]
    ensures { result ≡ columns_of_exception 64 }
{
    let mut columns = [Further; 69];
    columns[0] = ANY;
    columns[1] = ANY;
    columns[2] = ANY;
    columns[3] = ANY;
    columns[4] = Between(1, 64);
    columns[5] = First;
    columns
}
