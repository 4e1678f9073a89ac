//! Every call is replaced by copies of what it calls, so that a program is one function of labels and
//! jumps.
//!
//! Procedure integration without a choice: the machine has no stack, so each call of another group is a copy of that group.
//! Calls inside a group are in tail position, and so they are jumps. The copies are numbered apart by a base for each,
//! which takes the place of renaming.
#![tactic(auto)]

mod copying;
mod moving;
mod program;
mod span;
mod stepping;

pub use program::inline;
