//! A walk over a program, up to a fault or over the whole of it: it finds the types and sizes, and tells what it knows of
//! the fault.
#![tactic(auto)]

mod blocks;
mod explain;
mod expressions;
mod layouts;
mod records;
mod walk;

pub use walk::{Function, Shape, Walk};
