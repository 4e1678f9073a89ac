//! What all crates of the compiler speak of: names, words and their operations, primitives, the
//! packet's memories, writes and their log, and the outcome of a run.
#![tactic(auto)]

mod error;
pub mod laws;
mod log;
mod name;
mod outcome;
mod packet;
mod term;
pub mod word;
mod words;

pub use error::{NoMemory, PacketError};
pub use log::{SOURCE_SCRATCH, WriteLog};
pub use name::Name;
pub use outcome::{Outcome, Write};
pub use packet::{Packet, SIZE_LIMIT};
pub use term::{Access, Args, Atom, Bin, Cmp, Mem, Primitive, Primitive as Prim, Una, Vars};
pub use words::Words;
