//! The middle of the compiler: from flat programs to flows, and to the single-use form. Its measures say how many words a flow wants
//! at once.
#![tactic(auto)]

mod bounds;
mod improve;
mod last;
pub mod laws;
mod parts;
mod places;
mod program;
mod rows;
mod rules;
mod simple;

pub use last::{last_flow, middle};
pub use places::wide;
pub use program::to_flow;
pub use rules::simplified;
