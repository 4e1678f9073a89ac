//! Types, layouts' forms and lists of them by number, each kept once in a table.
//!
//! Hash consing: equal types have one number, so two types are compared as numbers, whatever their size. Each entry has
//! its words and height, so a limit is tested without a walk.
#![tactic(auto)]

pub mod cost;
pub mod error;
mod fields;
pub mod limits;
pub mod names;
pub mod needs;
pub mod record_fields;
pub mod shapes;
pub mod table;
