// Files that are read and written piece by piece.

use std::io;
use std::io::{Read, Write};

/// Where captures come from and go to. As an input `-` is the standard input, as an output the standard output.
pub trait Streams {
    type Input: Read + Drop;

    type Output: Write + Drop;

    /// A file from its beginning.
    fn open(&mut self, name: &str) -> io::Result<Self::Input>;

    /// A file that has no bytes yet, whatever it had.
    fn create(&mut self, name: &str) -> io::Result<Self::Output>;
}
