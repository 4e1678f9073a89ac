//! Layouts of packed words: their outlines, sizes and fields, and the numbers in the fields.
//! The interpreter calls `extract` and `insert`. `shape`, `size` and `fields` are for other users of the library: here only tests call them.
#![tactic(auto)]

mod bits;
mod error;
mod extent;
mod outline;
mod record;
mod walk;

pub use bits::{extract, insert};
pub use error::LayoutError;
pub use extent::{fields, size};
pub use outline::{Field, Outline};
pub use walk::shape;
