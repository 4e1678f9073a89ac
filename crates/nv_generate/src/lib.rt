//! Sources that a seed makes, for measuring and for tests.
#![tactic(auto)]

mod draws;
pub mod laws;
mod text;

pub use text::made_text;
