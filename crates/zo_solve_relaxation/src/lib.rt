//! Rounds of a first-order method for the linear relaxation of a 0-1 program, with the sums of its rows while columns are fixed.
#![tactic(auto)]

mod activities;
mod column;
mod dual;
mod due;
pub mod long;
mod matrix;
mod places;
mod rounds;
mod terms;
mod undo;
mod window;

pub use due::put;
pub use rounds::{ONE, Rounds, quotient};
pub use terms::Terms;
pub use undo::Log;
