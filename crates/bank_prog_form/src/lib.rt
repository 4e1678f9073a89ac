//! Columns by name and single-use forms in tables, of which the program of the banks is made, and rows over such columns.
#![tactic(auto)]

pub mod column;
pub mod coverings;
pub mod form;
pub mod lines;
pub mod names;
pub mod numbers;
pub mod runs;
pub mod services;
pub mod tables;
mod terms;

pub use column::{Bank, Column, Service};
pub use form::{Access, Form, Origin, PointSummary, Tables, Value, form_of};
pub use numbers::{Numbers, number};
pub use place_plan::{Role, Use};
