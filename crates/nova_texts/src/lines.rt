//! The line of each byte of a text.

use nv_base::NoMemory;
use std::alloc::Global;

/// The line of each byte of a text, counted from 1.
#[derive(Drop)]
pub struct LineNumbers {
    lines: Vec<u32>,
    last: u32,
}

impl LineNumbers {
    /// Those of a text.
    pub fn of(alloc: Global, text: &[u8]) -> Result<LineNumbers, NoMemory> {
        let mut lines = Vec::with_capacity(alloc, text.len())?;
        let mut last = 1u32;
        for byte in text {
            lines.push(last)?;
            if *byte == b'\n' {
                last = last.saturating_add(1);
            }
        }
        Ok(LineNumbers { lines, last })
    }

    /// The line of a byte; behind the text, the last one.
    pub fn line(&self, at: u32) -> u32 {
        match self.lines.get(at as usize) {
            Some(line) => *line,
            None => self.last,
        }
    }
}
