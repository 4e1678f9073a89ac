//! The server, from its first message to its end.
ghost use Rattle.std.specs.Prelude.{◌≡◌, IfOk, IfErr};
ghost use Rattle.nova_lsp.specs.Exchanges.{IsReplyTo, IsEndBy, Served};
ghost use Rattle.nova_lsp.specs.declared.stage.Stage.TheVariants.{New};

use crate::session::Session;
use crate::{Incoming, NO_LENGTH, Reply, TOO_LONG, next_message, refused_null, send};
use nv_outside::Sink;
use std::alloc::Global;
use std::io::Read;

/// How a session ended.
#[derive(Clone, Copy)]
pub enum Ended {
    /// By `exit`, and whether `shutdown` came before.
    Exit(bool),
    /// The input ended before `exit`.
    InputEnded,
    /// A read or a write failed.
    Failed,
}

/// Answers an editor until it says `exit`, the input ends, or a read or a write fails.
pub fn serve<R: Read, K: Sink>(alloc: Global, input: &mut R, out: &mut K) -> Ended
    ensures { K.tells → Served result (R.remaining input.old) (R.remaining input.new) (K.written out.old) (K.written out.new) }
{
    let mut session = Session::new(alloc);
    let ended = serve_session(alloc, &mut session, input, out);
    drop(session);
    ended
}

fn serve_session<R: Read, K: Sink>(
    alloc: Global,
    session: &mut Session,
    input: &mut R,
    out: &mut K,
) -> Ended
    requires { session.old.stage ≡ New }
    ensures { K.tells → Served result (R.remaining input.old) (R.remaining input.new) (K.written out.old) (K.written out.new) }
{
    for _ in 0..u64::MAX {
        let message = next_message(alloc, input);
        let reply = match reply_to(alloc, session, message) {
            Ok(reply) => reply,
            Err(ended) => return ended,
        };
        if !send(out, reply) {
            return Ended::Failed;
        }
        match session.stage.over() {
            Some(is_done) => return Ended::Exit(is_done),
            None => {}
        }
    }
    Ended::Failed
}

// What is sent for what came, or how the session ended.
#[tactic(auto, using(crate::proofs::Readings::passed_over))]
fn reply_to(alloc: Global, session: &mut Session, message: Incoming) -> Result<Reply, Ended>
    ensures reply { IfOk result (λ reply. IsReplyTo session.old.stage message reply session.new.stage) }
    ensures end { IfErr result (λ ended. IsEndBy message ended) }
{
    match message {
        Incoming::Content(content) => {
            let reply = session.respond(alloc, &content);
            drop(content);
            Ok(reply)
        }
        Incoming::NoLength => Ok(refused_null(alloc, NO_LENGTH)),
        Incoming::TooLong => Ok(refused_null(alloc, TOO_LONG)),
        Incoming::NoMemory => Ok(Reply::NoMemory),
        Incoming::End => Err(Ended::InputEnded),
        Incoming::Failed => Err(Ended::Failed),
    }
}
