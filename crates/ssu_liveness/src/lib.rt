//! The live values at each point of a form in single use, and numbers by which they differ.
//!
//! Liveness by one sweep backward over each label: labels hand on all that they need as parameters, so nothing is live into a
//! label but those, and no rounds are needed. Numbers for values are a greedy colouring of the interference that the rows
//! show, in the order of the points.
#![tactic(auto)]

mod copies;
mod numbers;
mod point_ids;
mod row;
mod rows;
mod slots;

pub use copies::{Copies, copies_of, value_of};
pub use numbers::row_numbers;
pub use point_ids::{PointId, point_ids_of};
pub use rows::{all_rows, held, longest_row, peak};
pub use slots::{Slots, slots_for};
