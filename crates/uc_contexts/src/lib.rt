//! Up to four contexts that run one code on one packet by a schedule, and when they can't disturb one another.
#![tactic(auto)]

mod addresses;
mod alone;
mod bits;
mod compare;
pub mod laws;
mod schedule;
mod state;

pub use addresses::AddressSet;
pub use alone::{Marks, footprint};
pub use compare::shared;
pub use schedule::run_schedule;
pub use state::{Context, Contexts};
