//! Where a program's files are and where its output goes: the traits, a store and a sink in memory
//! that tell what they hold, and the system's own, which tell nothing.
//!
//! A regular file is replaced by writing a new one beside it, which is synced and then takes its name (write and rename).
//! So a run that is killed leaves the old file or the new one. Programs are generic over the traits, which makes the
//! system's files and those of a test one code (dependency injection).
#![tactic(auto)]

mod disk;
mod files;
mod memory;
mod output;
pub mod saving;
mod sink;
pub mod stream;

pub use disk::DiskFiles;
pub use files::{Files, Loaded, Saved};
pub use memory::{MemFiles, MemSink};
pub use output::StdSink;
pub use sink::{Put, Sink};
