//! What texts of lines share: lines that end with LF, parts of a line that one space separates, numbers in their one
//! decimal spelling or as eight hexadecimal digits, and the line and column of a byte. Readers go over a slice and take no
//! memory; writers append to a `Vec`. `Message` is a text for people, which keeps an allocation failure to its end.
#![tactic(auto)]

mod json;
pub mod laws;
mod line_column;
mod lines;
mod message;
mod number;
mod write;

pub use line_column::{column_of, line_after, line_of};
pub use lines::{Lines, Parts, split_once, strip};
pub use message::{Message, part};
pub use number::{read_decimal, read_signed, read_word};
pub use write::{push_counted, push_decimal, push_signed, push_word};
