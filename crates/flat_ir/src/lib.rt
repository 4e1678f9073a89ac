//! Flat programs: functions over words, what a typed program becomes.
#![tactic(auto)]

mod flat;
pub mod laws;
mod spine;

pub use flat::{Flat, FlatFun, FlatProgram};
pub use spine::{Step, join};
