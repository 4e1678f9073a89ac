//! The commands of the program `nova`: `run` does what the words of a command line say, over any files and streams and any two
//! sinks, of which the second takes faults and remarks.
#![tactic(auto)]

mod banks;
mod build;
mod check;
mod compare;
mod compiled;
mod folders;
mod forms;
mod found;
mod listing;
mod page;
mod replaying;
mod simulation;
mod testing;
mod top;
mod traces;
mod verdict;

pub use folders::{FolderError, Folders};
pub use nova_show::Ending;
pub use top::run;
