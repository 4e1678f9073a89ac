//! Assembly text: the assembler, and the listings of code and objects.
//!
//! Two passes: the first gives each label its place, the second makes the instructions. So a branch may name a label that is
//! declared below it, and a name that is declared twice is told at its second line.
#![tactic(auto)]

mod assembler;
mod condition;
mod error;
mod given;
mod item;
mod labels;
pub mod laws;
mod line;
mod listing;
mod name;
mod part;
mod reading;
mod resolve;
mod starts;
mod words;
mod writing;

pub use assembler::assemble;
pub use condition::condition_of;
pub use error::AsmError;
pub use given::{Declared, Labels, Resolved, find, resolved_item};
pub use item::{Item, has_instruction, is_instruction};
pub use listing::print;
pub use name::is_name;
pub use reading::read_instruction;
pub use starts::print_object;
pub use words::push_words;
pub use writing::{
    push_access, push_alu, push_branch, push_halt, push_immed, push_number, push_un,
};
