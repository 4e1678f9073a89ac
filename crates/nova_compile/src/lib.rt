//! The driver of the compiler: `compile_text` leads from a text to its code and the report on its banks, `object_of` from
//! code to its object. The front end is `front`: from the bytes of a text to its typed program and its flat program.
#![tactic(auto)]

mod build;
mod error;
mod naming;
mod object;
mod texts;

pub use build::{CompileError, Compiled, compile_text, compile_text_within, no_weights};
pub use error::FrontError;
pub use object::object_of;
pub use place_weights::Weights;
pub use texts::{front, typed};
