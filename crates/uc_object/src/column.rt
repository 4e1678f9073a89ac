// Where bytes first don't fit their places.
ghost use Rattle.std.specs.Prelude.{◌≡◌, slice_index, IfSome, IfNone};
ghost use Rattle.uc_object.specs.Columns.{Fit, IsFault};

use crate::byte_set::Column;

// The first place whose byte isn't there or may not stand there.
pub fn first_fault(columns: &[Column], bytes: &[u8]) -> Option<usize>
    ensures none { IfNone result (Fit columns.now bytes.now) }
    ensures first { IfSome result (IsFault columns.now bytes.now) }
{
    for (at, column) in columns.iter().enumerate() {
        match bytes.get(at) {
            Some(byte) if column.allows(*byte) => {}
            _ => return Some(at),
        }
    }
    None
}

// A byte, or 0 past the end.
pub fn byte_at(bytes: &[u8], i: usize) -> u8
    ensures { result ≡ slice_index bytes.now i }
{
    bytes.get(i).copied().unwrap_or(0)
}
