//! What each name of a source stands for. It is found from the tokens alone, so that a text with faults has it, too.
#![tactic(auto)]

mod fields;
mod kind;
mod mark;
mod names;
mod scan;
mod words;

pub use kind::{Definition, Occurrence, Role};
pub use mark::Mark;
pub use names::Names;
