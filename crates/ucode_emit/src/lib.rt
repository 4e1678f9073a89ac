//! Code of a form in single use under a placement.
//!
//! Instruction selection by a table: each node of a form is an operation of the machine, or a short sequence of them. Moves
//! before and after it are a parallel copy of the placement's choices. Branches name points first, and are given places
//! at the end (backpatching).
//!
//! A parallel copy becomes single moves that do at once what it says: a move goes first whose target no other move still
//! reads. What is left then are cycles, and each is opened through one spare register. So a cycle of n moves takes n + 1, and
//! the others one each.
#![tactic(auto)]

mod access;
mod code;
mod cursor;
mod draft;
mod drafted;
mod emit_context;
mod fetch;
pub mod laws;
mod leave;
mod moves;
mod operation;
mod order;
mod pending;
mod piece;
mod point_ids;
mod registers;
mod sequences;
mod settle;
mod together;
mod walk;

pub use code::{Emitted, emit};
pub use order::sequence;
