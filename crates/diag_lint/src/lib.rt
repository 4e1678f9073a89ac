//! Warnings on a program without a fault: names that nobody uses, numbers that don't fit their field, reads whose words
//! nobody uses, and conditions that are always one way.
#![tactic(auto)]

mod access;
mod conditions;
mod fields;
mod lint;
mod packing;
mod ranges;
mod uses;
mod walk;
mod warning;
mod warnings;

pub use warnings::{WARNING_NAMES, push_warnings_as, unknown_warning};
