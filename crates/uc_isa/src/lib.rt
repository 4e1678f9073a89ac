//! The microengine: its instructions, which code is lawful, and what the engine does.
//!
//! Laws of its runs stand here too: what instructions read and write, liveness, runs in step, starts and relocation.
#![tactic(auto)]

mod code;
mod engine;
pub mod executions_laws;
mod instruction;
pub mod laws;
pub mod pieces;
mod registers;
mod rules;

pub use code::Code;
pub use engine::{Engine, Stepped, step};
pub use instruction::{Cond, Dst, Gpr, Instr, Src, UnOp};
pub use registers::{RegA, RegB, RegL, RegLD, RegS, RegSD};
pub use rules::{broken, lint};
