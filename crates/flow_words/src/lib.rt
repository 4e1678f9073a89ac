//! Operations on words are made simpler by what is known of their operands: definitions in view and bits.
#![tactic(auto)]

mod bits;
mod plan;
mod program;
mod state;
mod sums;
mod uses;
mod walk;

pub use program::{fold_sums, simpler_words};
