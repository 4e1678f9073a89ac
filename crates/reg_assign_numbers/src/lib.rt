//! Numbers of registers and slots for the homes of values. Those of registers go by what the values want: a word that
//! a jump hands on wants the register of the parameter that takes it.
//!
//! Graph colouring with aggressive coalescing: a word and the parameter that takes it are joined while they don't interfere,
//! and then each group takes the least number that no neighbour has. Fixed numbers are wishes too. The colours are found
//! without a proof and tested; where they fail, numbers without wishes are taken.
//!
//! How often a point is come to is guessed from the form's shape. Nothing rests on the guess: it tells where a copy is cheap.
#![tactic(auto)]

mod allocation_hints;
mod apart;
mod colours;
mod exchange;
mod groups;
mod hinted;
mod homes;
mod loops;
mod points;
mod values;

pub use hinted::{FixedWish, Hints, PairWish, wished_numbers};
pub use homes::number_homes;
pub use points::{Frequencies, ONCE, frequencies_of};
