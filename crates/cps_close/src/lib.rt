//! From programs whose one function goes on by jumps alone to flows: each label gets all that it uses
//! as parameters.
//!
//! Lambda lifting: each free variable of a label becomes a parameter, and each jump hands it on. Which variables a label
//! wants is the least solution of an equation over the jumps (the same as liveness at the label's entry), found by rounds
//! until nothing changes. The result is static single assignment with parameters in place of phi functions.
#![tactic(auto)]

mod collect;
mod program;
mod table;
mod trees;
mod uses;

pub use program::close;
