//! From the text of a 0-1 program to the text of a true report on it, and the same of files.
#![tactic(auto)]

mod solved;

pub use solved::{Failure, solve_file, solve_text};
