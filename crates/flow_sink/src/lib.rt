//! Where definitions stand in a flow, and which of them are needed.
//!
//! Code sinking: a definition that one arm alone of the choice below it uses moves to the head of that arm. Local value
//! numbering: a primitive that stands above on the same path isn't computed again. Scheduling: in a run of definitions
//! those of a loop's next values stand last, and behind them those that a choice compares with 0.
#![tactic(auto)]

mod choices;
mod known;
mod order_program;
mod ordering;
mod program;
mod ranks;
mod sinking;
mod trees;
mod values_program;

pub use order_program::order_lets;
pub use program::sink_lets;
pub use values_program::share_values;
