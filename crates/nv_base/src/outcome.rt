// A write to a packet's memory, and how a run stands.
use crate::term::Mem;
use crate::words::Words;

/// A write: the memory, the first address, and the words in order.
#[derive(Clone, Copy, PartialEq, Eq)]
pub struct Write {
    pub mem: Mem,
    pub at: u32,
    pub words: Words,
}

/// How a run ended, or that it goes on.
#[derive(Clone, Copy, PartialEq, Eq)]
pub enum Outcome {
    /// The run gave these words.
    Ended(Words),
    /// No handler took the exception of this number, with these words.
    Raised(u16, Words),
    /// An access at this first address reached past the memory.
    Fault(Mem, u64),
    /// The steps or calls that were allowed ran out before the run ended.
    Going,
}
