//! The command `replay`.
ghost use Rattle.std.specs.Prelude.{◌≡◌};

use crate::compiled::object_of_source;
use nova_replay::{Streams, replay};
use nova_show::{Answer, load};
use nova_words::Replay;
use novac_words::limits::OBJECT_LIMIT;
use nv_outside::Files;
use std::alloc::Global;

/// Runs the packets of a capture through an object, or the code of a source, and writes what comes out.
pub fn replay_capture<F: Files, S: Streams>(
    alloc: Global,
    files: &mut F,
    streams: &mut S,
    words: &Replay,
    answer: &mut Answer,
)
    ensures held { F.held files.new ≡ F.held files.old }
{
    let Some(program) = load(alloc, files, words.program, OBJECT_LIMIT, answer) else {
        return;
    };
    if program.starts_with(b"NVO") {
        return replay(alloc, files, streams, words, &program, answer);
    }
    if let Some(object) = object_of_source(alloc, words.program, None, &program, answer) {
        replay(alloc, files, streams, words, &object, answer);
    }
}
