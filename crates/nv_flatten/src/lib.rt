//! Flattening: bools, tuples, records, packed values, patterns and blocks become words.
//!
//! Scalar replacement: a record or tuple is a list of words from here on, and none of it is ever built in a memory. A name
//! is a symbol for its words (symbolic evaluation), so patterns, fields and blocks cost no code. A condition becomes jumps
//! to its two arms, as in short-circuit code.
#![tactic(auto)]

mod endings;
mod made_code;
mod made_values;
mod program;
mod values;
mod want;

pub use program::flatten;
