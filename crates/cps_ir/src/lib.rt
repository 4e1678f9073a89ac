//! Programs in continuation-passing style: functions whose calls name the labels that take their
//! words and their exceptions.
#![tactic(auto)]

pub mod laws;
mod program;
mod spine;
mod term;

pub use program::{Cps, CpsFun};
pub use spine::{Step, join};
pub use term::{Cont, Term};
