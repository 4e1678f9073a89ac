//! A source that is open in an editor, and what is told of it by its names alone.
#![tactic(auto)]

mod completion;
mod document;
mod fetches;
mod hints;
mod json;
mod places;
mod positions;
mod signature;
mod sizes;
mod symbols;

pub use completion::push_completion;
pub use document::Document;
pub use hints::push_hints;
pub use json::{list_at, number_at, position_of, push_comma, push_signed, text_at};
pub use places::{
    definition_at, is_of, name_at, push_definition, push_highlights, push_references,
};
pub use positions::{Encoding, Position};
pub use signature::push_signature;
pub use sizes::{header, size_line};
pub use symbols::{push_folds, push_symbols};
