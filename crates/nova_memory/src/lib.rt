//! Memory texts in a form for people: bytes in any grouping, addresses in their own spelling, text in quotes, comments, and the
//! memories' sizes by themselves. A readable text is made into a memory text, and memories into a dump that is a readable text.
#![tactic(auto)]

mod args;
mod blocks;
mod dump;
mod error;
mod fields;
mod item;
mod lines;
mod quoted;
mod reading;
mod sizes;
mod token;
mod told;

pub use dump::dump_of;
pub use error::{ReadableError, Reason};
pub use lines::first_word;
pub use reading::{args_place, memory_of_readable};
