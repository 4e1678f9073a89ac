//! Stored rules for primitives, and the pass that applies them to a flow.
//!
//! Constant folding, copy propagation and dead-code elimination in one sweep down and one back. On the way down each
//! variable that is just another operand is replaced, and a rule is asked about each primitive; on the way back a
//! definition without a use goes. A rule is stored with the proof that its answer has the same word.
#![tactic(auto)]

mod fold;
mod marks;
mod program;
mod rewrite;
mod spine;

pub use program::simplify;
pub use rewrite::{Both, Rewrite, Rule};
