//! What the words of a command line say, within which limits; and the status and the line with which a command ends or is refused.
#![tactic(auto)]

mod command;
mod input;
pub mod limits;
mod refusal;
mod reply;
mod status;

pub use command::{Command, Options, Tracing};
pub use input::Input;
pub use refusal::{
    Refusal, compiled_line, counted_line, line, named_line, peeped_line, push_verdict,
};
pub use reply::Reply;
pub use status::Status;
