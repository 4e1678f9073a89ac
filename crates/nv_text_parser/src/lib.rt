//! From tokens to trees: the declarations that a list of tokens spells, by descent along the grammar, or where it ceases to spell any.
//!
//! Recursive descent with one token of look-ahead, and precedence climbing for operators: a call reads the operators of one
//! level, and asks the next level for its operands. What is too high for the stack is refused before it is read. Statements
//! and lists are loops, so a long text takes no more stack than a short one.
#![tactic(auto)]

mod codes;
mod cursor;
mod expressions;
mod layouts;
mod nodes;
mod operands;
mod operators;
mod patterns;
mod program;
mod starts;
mod types;

pub use cursor::Failure;
pub use program::declarations;
