//! The nodes of a search tree: the leaf that the rounds' multipliers close, and the column to branch on.
#![tactic(auto)]

mod core_set;
mod leaf;
pub mod node;
pub mod order;
mod pick;
mod probe;
mod tree;

pub use order::Order;
