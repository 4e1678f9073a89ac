//! How far a session is.
ghost use Rattle.std.specs.Prelude.{◌≡◌, ℤ, IfSome, IfNone};
ghost use Rattle.nova_lsp.specs.Stages.{IsAfterRequest, IsAfterNotice, Refuses, IsFault, IsGoing};

use crate::method::Method;
use crate::{Fault, INVALID, NO_METHOD, NOT_INITIALIZED};

/// How far a session is.
#[derive(Clone, Copy, PartialEq, Eq)]
pub enum Stage {
    /// Before `initialize`.
    New,
    Ready,
    /// After `shutdown`.
    ShutDown,
    /// After `exit`, and whether `shutdown` came before.
    Over(bool),
}

impl Stage {
    /// The stage after a request.
    pub fn after_request(self, method: &str) -> Stage
        ensures { IsAfterRequest self method.now result }
    {
        match self {
            Stage::New => {
                if method == "initialize" {
                    Stage::Ready
                } else {
                    Stage::New
                }
            }
            Stage::Ready => {
                if method == "shutdown" {
                    Stage::ShutDown
                } else {
                    Stage::Ready
                }
            }
            Stage::ShutDown | Stage::Over(_) => self,
        }
    }

    /// The stage after a notice.
    pub fn after_notice(self, method: &str) -> Stage
        ensures { IsAfterNotice self method.now result }
    {
        if method == "exit" {
            Stage::Over(matches!(self, Stage::ShutDown))
        } else {
            self
        }
    }

    /// Whether `shutdown` came before `exit`, where `exit` came.
    pub fn over(self) -> Option<bool>
        ensures over { IfSome result (λ is_done. self ≡ Stage.Over is_done) }
        ensures going { IfNone result (IsGoing self) }
    {
        match self {
            Stage::Over(is_done) => Some(is_done),
            Stage::New | Stage::Ready | Stage::ShutDown => None,
        }
    }

    /// Why a request is refused, whatever its parameters are.
    pub fn refusal(self, method: &str) -> Option<Fault>
        ensures { (code : ℤ) → Refuses self method.now code → IsFault result code }
    {
        match self {
            Stage::New => {
                if method == "initialize" {
                    None
                } else {
                    Some(NOT_INITIALIZED)
                }
            }
            Stage::Ready => refusal_when_ready(method),
            Stage::ShutDown | Stage::Over(_) => Some(INVALID),
        }
    }
}

fn refusal_when_ready(method: &str) -> Option<Fault>
    ensures { (code : ℤ) → Refuses Stage.Ready method.now code → IsFault result code }
{
    if method == "initialize" {
        return Some(INVALID);
    }
    if method == "shutdown" || Method::named(method).is_some() {
        None
    } else {
        Some(NO_METHOD)
    }
}
