//! From flows to the single-use form: each literal is made before the node that uses it, and each
//! value has a clone for each of its uses where it has several.
//!
//! Static single use, the dual of static single assignment: after this each value is used once, and a value of several uses
//! has a clone for each. So where a copy stands is a choice that a placement can make for each use, and a move between banks
//! is a clone. The trees are made from their ends up, since uses are counted that way.
#![tactic(auto)]

mod bases;
mod counts;
mod naming;
mod nodes;
mod program;
mod tree;

pub use program::make;
