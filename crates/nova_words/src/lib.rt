//! The words of the program `nova`: which command they are, with which options, or what is wrong with them.
#![tactic(auto)]

mod command;
mod fault;
mod nearest;
mod number;
mod parts;
mod setting;
mod verb;

pub use command::{
    Asm, Build, Check, Command, Format, Forms, Listing, Page, Replay, Run, Test, TestReport,
    Tracing, Until, Warnings, command_of,
};
pub use fault::WordFault;
pub use nearest::{nearest_among, nearest_setting, nearest_verb, verb_with};
pub use setting::Setting;
pub use verb::Verb;
