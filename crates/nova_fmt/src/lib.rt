//! The formatter of Nova's sources: blanks and indentation are set, while tokens, comments and line ends stay.
#![tactic(auto)]

mod formatter;
mod gap;
mod kind;

pub use formatter::formatted;
pub use kind::Kind;
