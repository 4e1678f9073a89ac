// Lines of a text.

ghost use Rattle.std.specs.Prelude.{◌≡◌, ◌<◌, ◌≤◌, ◌^◌, ◌-◌, length};
ghost use Rattle.nv_lines.specs.LineColumn.{line_at};

/// The line of the byte at a place, counted from 1.
pub fn line_of(bytes: &[u8], at: u32) -> u32
    requires inside { at ≤ length bytes.now }
    requires small { at < 2 ^ 32 - 1 }
    ensures { result ≡ line_at bytes.now at }
{
    nv_lines::line_of(bytes, at as usize) as u32
}
