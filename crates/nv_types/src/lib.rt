//! The typing of programs: the first fault of a program, or its sizes.
//!
//! Bidirectional checking in one walk: what is wanted of an expression goes down, its type comes up. Nothing is inferred
//! across a `let`, so there is no unification: each type is known where it is met, by its number in a table of types that
//! holds each once (hash consing). Sizes are counted in the same walk. The walk ends at the first fault.
#![tactic(auto)]

mod declarations;
mod faults;
pub mod handlers;
pub mod lets;
mod limits;
pub mod main_sizes;
mod program;
pub mod signatures;
mod walk;

pub use faults::{Fault, faults_of, judge};
pub use limits::fitting_size;
pub use nv_types_table::error::TypeError;
pub use program::check;
