//! What is said of a source: its faults, each with the line and what helps, or its sizes.
#![tactic(auto)]

mod checked;
mod elsewhere;
mod fields;
mod large;
mod narrow;
mod refusal;
pub mod sizes;
mod source;

pub use checked::{Checked, Verdict};
