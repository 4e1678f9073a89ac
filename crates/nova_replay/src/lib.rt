//! The command `replay`: the packets of a capture through compiled code, each on the memories that the one before left.
#![tactic(auto)]

mod bytes;
mod command;
mod copying;
mod counts;
mod job;
mod line;
mod link;
mod packet;
mod plan;
mod run;
mod streams;
mod summary;
mod table;

pub use command::replay;
pub use streams::Streams;
