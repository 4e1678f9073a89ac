//! The texts of a run: a memory text gives a packet's memories and the arguments; an outcome text says how a run ended,
//! what it wrote and what the memories hold then.
#![tactic(auto)]

mod access;
pub mod laws;
mod line;
mod print;
mod read;
mod size;
mod stretch;
mod words;

pub use access::{is_access, is_inside};
pub use print::{print_named, print_outcome, push_packet, push_run, push_words};
pub use read::{Job, MemError, read_memory};
pub use size::{Sizes, too_large};
pub use stretch::start;
pub use words::words_of;
