//! The inner forms of a program as text, for people: each form has its printer, over a page that grows line by line.
#![tactic(auto)]

mod continuations;
mod flat;
mod flow;
mod page;
mod single_use;

pub use continuations::print_cps;
pub use flat::print_flat;
pub use flow::print_flow;
pub use page::Page;
pub use single_use::{print_measures, print_single_use};
