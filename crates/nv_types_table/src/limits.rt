//! The limits of types and layouts.

/// The greatest height of a layout or a type.
pub const HIGHEST: u64 = 100;

/// The most words of a type.
pub const MOST_WORDS: u32 = 1024;
