//! Vectors that rounding finds: a dive, and exchanges that make a vector cheaper.
//!
//! They work on the state of a search of a 0-1 program: the fixed columns with the sums of all rows, the best vector, and the
//! choice of the column to branch on.
#![tactic(auto)]

pub mod best;
mod dive;
mod exchange;
mod first;
mod fixing;
mod needless;
pub mod pick;
mod reach;
mod region;
pub mod sums;
pub mod tables;

pub use best::{Best, costs_as_much};
pub use dive::Way;
pub use first::{begin, dive_below, improve_again, needed};
pub use pick::{Pick, first_choice};
pub use reach::{is_row_met, ones_vector};
pub use sums::Sums;
