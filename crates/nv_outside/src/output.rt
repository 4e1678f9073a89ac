// The standard output.
ghost use Rattle.std.specs.Prelude.{◌≡◌, ℕ, List, []};
ghost use Rattle.nv_outside.specs.System.{output_count};

use crate::sink::{Put, Sink};
use std::io::{Print, Write};

/// The standard output, over the runtime that `main` is given. It tells nothing of what was written.
#[derive(Drop)]
pub struct StdSink<'a, R: Print> {
    rt: &'a R,
    faults: u64,
}

impl<'a, R: Print> StdSink<'a, R> {
    /// The standard output of this runtime.
    pub fn new(rt: &'a R) -> StdSink<'a, R>
        ensures { output_count result ≡ 0 }
    {
        StdSink { rt, faults: 0 }
    }
}

impl<'a, R: Print> Sink for StdSink<'a, R> {
    ghost tells = { ⊥ };

    ghost written = { λ _. [] };

    ghost faults = { output_count };

    fn put(&mut self, bytes: &[u8]) -> Put {
        match self.rt.write_all(bytes) {
            Ok(()) => Put::Done,
            Err(_) => {
                self.faults = self.faults.saturating_add(1);
                Put::Failed
            }
        }
    }
}
