//! Flows: labels that jump to one another, without calls. Each label has all that it uses as
//! parameters.
#![tactic(auto)]

mod flow;
pub mod laws;
pub mod names;
mod prune;
mod spine;
pub mod uses;

pub use flow::{Flow, Label, Tree};
pub use prune::{drop_unreached, pruned};
pub use spine::{Step, join, joined, push_step, short_atoms, short_numbers};
