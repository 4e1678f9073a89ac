//! The draws of a made source.

ghost use Rattle.std.specs.Prelude.{◌≡◌, ◌<◌};
ghost use Rattle.nv_generate.specs.Made.{after_draw, drawn, name_back, line_at, after_line};

/// What is drawn for a line: an operator by its number below 5, and the names on its two sides, counted from the
/// oldest.
#[derive(Clone, Copy)]
pub struct Line {
    pub operator: u32,
    pub left: u32,
    pub right: u32,
}

/// The number that the next draw begins with.
#[derive(Clone, Copy)]
pub struct Draws {
    pub state: u32,
}

impl Draws {
    /// Sixteen bits.
    fn draw(&mut self) -> u32
        ensures drawn { result ≡ drawn self.old.state }
        ensures after { self.new.state ≡ after_draw self.old.state }
    {
        self.state = self.state.wrapping_mul(1664525).wrapping_add(1013904223);
        self.state >> 16
    }

    /// One of the newest names in front of a line.
    fn name(&mut self, line: u32) -> u32
        requires { line < 500 }
        ensures name { result ≡ name_back line (drawn self.old.state) }
        ensures after { self.new.state ≡ after_draw self.old.state }
    {
        line + 1 - self.draw() % (line + 2).min(8)
    }

    /// What stands in a line.
    pub fn line(&mut self, line: u32) -> Line
        requires { line < 500 }
        ensures line { result ≡ line_at line self.old.state }
        ensures after { self.new.state ≡ after_line self.old.state }
    {
        let operator = self.draw() % 5;
        let left = self.name(line);
        let right = self.name(line);
        Line {
            operator,
            left,
            right,
        }
    }
}
