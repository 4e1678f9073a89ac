//! Why a text has no program: the token at which it ceases to be one, what is expected there, and the usual slip that ends so.
#![tactic(auto)]

mod address;
mod alike;
mod calls;
mod expected;
mod expression_slips;
mod foreign;
mod head_slips;
mod misspelled;
pub mod place;
mod slip;
mod slips;
mod syntax;

pub use syntax::explain_text;
