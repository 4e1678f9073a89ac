//! Passes over microcode that go by what holds on every way to a place: words are read where they came from, instructions whose
//! effect stands already are removed, and branches over a jump are turned into one branch.
#![tactic(auto)]

mod branches;
mod closed;
mod equal;
mod fact;
mod flow;
mod idle;
mod idle_targets;
mod paid;
mod repeats;
mod reread;
mod solve;
mod sources;
mod turned;

pub use branches::with_turned_branches;
pub use fact::{Fact, Facts, Part};
pub use repeats::without_repeats;
pub use sources::with_sources;
