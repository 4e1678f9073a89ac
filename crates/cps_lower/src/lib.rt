//! From flat programs to continuation-passing style.
//!
//! The one-pass conversion of higher-order languages, over first-order code: the label or function that takes the words
//! of an expression is known when its code is made, so no administrative redex arises. A handler is one more label: to
//! raise is to jump or to throw to it.
#![tactic(auto)]

mod function;
mod lowering;
mod program;
mod scan;

pub use program::lower;
