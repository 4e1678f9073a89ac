//! Choices that the tests, accesses and definitions above them decide.
//!
//! Interval analysis down each tree: a test bounds the words that it compares, and so do an access and some operations. A
//! choice whose comparison the bounds decide is its arm.
#![tactic(auto)]

mod facts;
mod program;
mod ranges;
mod trees;

pub use program::decide_choices;
