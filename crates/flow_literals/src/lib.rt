//! Loop-invariant code motion of literals: a label of a loop takes them as parameters.
//!
//! The machine loads a literal by an instruction of its own at each use. A loop whose labels have the literals as parameters
//! loads them once, at the jumps that enter it.
#![tactic(auto)]

mod choice;
mod hoisting;
mod loops;
mod names;
mod program;
mod rows;
mod turns;

pub use program::hoist_literals;
