//! Why a memory text or an assembly text is refused: what is wrong with the line that its reader names, at which column, and
//! what helps.
#![tactic(auto)]

mod assembly;
mod blanks;
mod instruction;
mod labels;
mod memory;
mod nearest;
mod number;
mod operand;
mod place;
mod rules;
mod stretch;
mod whole;
mod word;

pub use assembly::explain_assembly;
pub use memory::explain_memory;
