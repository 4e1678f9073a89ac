//! Nova's source text: its tokens and the one program that they spell.
#![tactic(auto)]

mod error;
pub mod laws;
mod program;
mod scan;
mod spelling;
mod tables;

pub use error::TextError;
pub use nv_ast::{Sort, Token};
pub use program::{MOST_BYTES, parse};
pub use scan::tokens;
