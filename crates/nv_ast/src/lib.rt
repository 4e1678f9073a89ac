//! The syntax trees of Nova, and the definitions of its grammar, layouts, types and sizes.
#![tactic(auto)]

pub mod laws;
mod program;
mod token;
mod tree;
mod typed;

pub use nv_base::Name;
pub use program::Program;
pub use token::{Sort, Span, Token};
pub use tree::{Decl, Expr, FieldText, Fun, Kind, LayoutText, Op, Pat, ShiftOp, Stmt, TyText};
pub use typed::Typed;
