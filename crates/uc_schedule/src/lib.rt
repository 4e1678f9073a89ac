//! The text of a schedule of contexts.
#![tactic(auto)]

mod line;
mod read;

pub use read::{Schedule, ScheduleError, read_schedule};
