//! The state of a walk of typing, and its steps below expressions: types, layouts and patterns, what an expression has
//! beside its parts, and declarations without the bodies of functions.
#![tactic(auto)]

pub mod declared;
pub mod expected;
pub mod functions;
pub mod heads;
pub mod layouts;
pub mod nodes;
mod packing;
pub mod patterns;
pub mod scope;
pub mod texts;
