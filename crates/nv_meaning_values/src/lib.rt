//! The values of programs, the operators on them, what is fetched and noted, and what a program declares,
//! each as its meaning says; and the writes of a run, with the statements and the calls that made them.
#![tactic(auto)]

mod callers;
mod events;
mod exceptions;
mod grouping;
mod memory;
mod notes;
mod operators;
mod said;
mod sizes;
mod stop;
mod table;
mod trace;
mod value;

pub use callers::{Caller, Mark};
pub use events::{Event, Events};
pub use exceptions::exception_at;
pub use grouping::groups;
pub use memory::{can_move, fetched};
pub use notes::Notes;
pub use operators::{combined, shifted};
pub use stop::Interruption;
pub use table::Table;
pub use trace::{Made, Trace};
pub use value::{Field, Value, first_words, is_true, truth_in, value_of_words, word_in};
