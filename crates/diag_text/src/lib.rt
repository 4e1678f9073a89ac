//! Parts of an explanation: what is found in a source with its excerpt, the text that grows, types by number, what is declared and
//! what is expected, names like another one, and a sentence on each kind of type fault.
#![tactic(auto)]

pub mod declared;
mod excerpt;
pub mod expected;
pub mod finding;
pub mod kinds;
pub mod names;
pub mod nearest;
pub mod operators;
pub mod types;
