//! What the walk over programs, `nv_flatten`, is made of.
//!
//! Values: their symbols, what names stand for, and records and packed values as words. Declarations: the types of an
//! exception's values, and records in and out of packed words by the name of a layout. Branches: code that does one part or
//! another.
#![tactic(auto)]

pub mod arms;
pub mod branches;
mod declarations_want;
pub mod forms;
pub mod layouts;
pub mod names;
pub mod pack;
pub mod parts;
pub mod scope;
pub mod source;
pub mod symbol;
pub mod unpack;
mod want;
