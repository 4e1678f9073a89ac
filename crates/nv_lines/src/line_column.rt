//! Lines and columns.

ghost use Rattle.std.specs.Prelude.{◌≡◌, ◌==◌, ◌-◌, ◌≤◌, length, take, drop, take_while, reverse, count_by, not};
ghost use Rattle.nv_lines.specs.LineColumn.{line_at, column_at};

/// The line of the byte at a place, counted from 1: one more than the line feeds before it.
pub fn line_of(bytes: &[u8], at: usize) -> usize
    ensures { result ≡ line_at bytes.now at }
{
    line_ends(front(bytes, at)) + 1
}

/// The line of the byte at a place, where `line` is that of the byte at another one: where this one lies after it, the bytes
/// between them alone are read.
pub fn line_after(bytes: &[u8], from: usize, line: usize, at: usize) -> usize
    requires { line ≡ line_at bytes.now from }
    ensures { result ≡ line_at bytes.now at }
{
    if at < from {
        return line_of(bytes, at);
    }
    line + line_ends(between(bytes, from, at))
}

/// The column of the byte at a place, counted from 1: the bytes since the last line feed before it, plus one.
pub fn column_of(bytes: &[u8], at: usize) -> usize
    ensures { result ≡ column_at bytes.now at }
{
    last_line(front(bytes, at)) + 1
}

#[tactic(auto, using(std::proofs::lemmas::List::take_min))]
// The bytes before a place.
fn front(bytes: &[u8], at: usize) -> &[u8]
    ensures { result.now ≡ take at bytes.now }
{
    &bytes[..at.min(bytes.len())]
}

// The bytes from a place to one after it.
fn between(bytes: &[u8], from: usize, to: usize) -> &[u8]
    requires { from ≤ to }
    ensures { result.now ≡ take (to - from) (drop from bytes.now) }
{
    let behind = &bytes[from.min(bytes.len())..];
    front(behind, to - from)
}

// How many line feeds there are.
fn line_ends(bytes: &[u8]) -> usize
    ensures counted { result ≡ count_by (λ byte. byte == 10) bytes.now }
    ensures within { result ≤ length bytes.now }
{
    bytes.iter().filter(|byte| **byte == b'\n').count()
}

// How many bytes there are after the last line feed.
fn last_line(bytes: &[u8]) -> usize
    ensures counted { result ≡ length (take_while (λ byte. not (byte == 10)) (reverse bytes.now)) }
    ensures within { result ≤ length bytes.now }
{
    bytes
        .iter()
        .rev()
        .take_while(|byte| **byte != b'\n')
        .count()
}
