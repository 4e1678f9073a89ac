//! Depth-first branch and bound for 0-1 programs: each answer comes with the tree that was searched.
#![tactic(auto)]

pub mod bound;
pub mod reported;
pub mod search;

pub use bound::{Bounded, lower_bound};
pub use reported::report_of;
pub use search::{Solved, solve, solve_by};
pub use zo_cert_tree::Fixed;
pub use zo_solve_branch::Order;
pub use zo_solve_dive::{Pick, Sums, first_choice};
