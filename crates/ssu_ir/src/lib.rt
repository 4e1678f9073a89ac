//! The single-use form: labels whose nodes lie in a slab under numbers, each value used at most
//! once on each path, and cloned where it is used more often.
#![tactic(auto)]

mod build;
pub mod laws;
mod measure;
mod node;
mod pieces;
mod places;
mod run;
mod search;
mod single_use;
mod ssu;
mod step;
mod variables;
pub mod walk;

pub use build::SsuBuild;
pub use measure::size;
pub use node::{NodeId, SsuLabel, SsuNode};
pub use pieces::{NextNodes, successors, uses, values};
pub use run::enter;
pub use single_use::single;
pub use ssu::Ssu;
