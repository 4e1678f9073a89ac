//! The 0-1 program that chooses where the values of a program in single-use form stand: its columns with their costs, its
//! rows, bounds on its size, and a vector to start the search from.
//!
//! An integer linear program in place of a heuristic: register banks, spilling and the moves between banks are one choice, by
//! 0-1 columns over the points of a program in single use. A row says that a value is somewhere, that a use is served from
//! where it is, or that a bank is full. The cost counts moves and accesses to slots, under a weight for each label.
//!
//! The start is a choice by next use, for forms that hold more values than fit a bank: the farthest next use goes out first,
//! as in Belady's rule for caches and in linear-scan allocation. It costs a sweep over the points. It is a guess: whoever takes
//! it tests it first.
#![tactic(auto)]

mod all_rows;
pub mod capacity;
mod columns;
pub mod early;
pub mod error;
mod homes;
pub mod laws;
pub mod operands;
pub mod program;
mod registers;
pub mod size_laws;
mod tables;
mod vector;
mod weighing;

pub use bank_prog_form::{
    Access, Bank, Column, Form, Numbers, Origin, PointSummary, Role, Service, Tables, Use, Value,
    form_of, number, services,
};
pub use error::BankError;
pub use program::{build, program_of};
pub use tables::{BankTables, bank_tables_of, with_columns};
pub use vector::by_next_use;
pub use weighing::defining_points;
