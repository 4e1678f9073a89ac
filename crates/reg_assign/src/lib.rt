//! Registers and slots for the values of a form, by a vector of its bank program, and the vector of a placement.
//!
//! The second half of register allocation: the vector has chosen the bank of each value, so what is left is a number within
//! it. The rows of the program keep each bank within its room at each point, and that a number is free for each value
//! follows, since values of a form in single use live along a tree.
#![tactic(auto)]

mod assigned;
mod chosen;
mod given;
mod homes;
mod places;
mod plan_columns;
mod serves;

pub use assigned::{assign, assign_by};
pub use chosen::{from_placement, vector_of};
