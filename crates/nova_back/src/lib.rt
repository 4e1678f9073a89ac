//! The back end: from the single-use form to code, with banks chosen by a 0-1 program.
#![tactic(auto)]

mod built;
mod choice;
mod error;
mod paired;
mod search;
mod start;

pub use built::{Built, back, back_within};
pub use error::BackError;
