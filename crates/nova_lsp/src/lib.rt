//! The language server: what an editor is answered on a source of Nova.
//!
//! Messages of the Language Server Protocol come in frames; some of them want an answer, and each answer is a text.
#![tactic(auto)]

mod check;
mod diagnostics;
mod documents;
mod edits;
mod envelope;
mod fixes;
mod frame;
mod head;
mod hover;
mod input;
mod kind;
mod method;
mod rename;
mod requests;
mod sending;
mod server;
mod session;
mod stage;

pub use envelope::{
    Fault, INVALID, NO_DOCUMENT, NO_JSON, NO_LENGTH, NO_MEMORY, NO_METHOD, NOT_INITIALIZED, Reply,
    TOO_LONG, answered, notice, refused, refused_null,
};
pub use frame::{Incoming, next_message};
pub use sending::send;
pub use server::{Ended, serve};
