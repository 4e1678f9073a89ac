//! Needless instructions of straight code, removed by stored rules.
//!
//! A peephole optimiser over live registers and flags. Liveness is a backward data-flow analysis by a work list over bit
//! sets; it is tested closed afterwards, and the proofs rest on the test alone. A rule is a slice pattern with a proof that
//! its answer does the same; passes go on until no rule has an answer at any window.
#![tactic(auto)]

mod compacting;
mod draft;
mod held_literals;
mod jump_threading;
mod live_set;
mod liveness;
mod needless;
mod peephole;
mod repeated_tests;
mod shorter_code;
mod window;
mod windows;
mod zero_tests;

pub use compacting::{mark_entered, mark_starts};
pub use live_set::LiveSet;
pub use liveness::{live, written_by};
pub use needless::without_needless;
pub use peephole::{Listing, Peeped, peep, without_gone};
pub use repeated_tests::is_same_source;
pub use shorter_code::Shorter;
pub use window::{Pair, Window, WindowRule};
