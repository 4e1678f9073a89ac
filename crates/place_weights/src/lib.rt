//! Weights of labels, and their text: how often each label of a program was entered, read as weights and printed.
#![tactic(auto)]

pub mod laws;
mod print;
mod read;
pub mod text_laws;
pub mod weights;

pub use print::print_counts;
pub use read::{WeightsError, read_weights};
pub use weights::Weights;
