//! Pure 0-1 programs: minimise the cost of the columns that are 1, under rows that demand a least sum.
#![tactic(auto)]

pub mod error;
pub mod laws;
pub mod program;
pub mod read_text;
pub mod text;

pub use error::{NoMemory, ZoError};
pub use program::{Assignment, Row, ZeroOne, cost, feasible, is_valid};
pub use read_text::{Reader, counted_of, read_counted, read_program, read_program_lines};
pub use text::{print_program, push_program};
