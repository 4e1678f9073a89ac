//! The meaning of a program, and an interpreter that has it.
#![tactic(auto)]

mod arguments;
pub mod laws;
mod memory;
mod pack;
mod parts;
mod program;
mod run;
mod scope;
mod step;
mod unpack;

pub use program::{exec, traced};
