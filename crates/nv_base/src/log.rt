// The log of a run's writes.
ghost use Rattle.std.specs.Prelude.{◌≡◌, ◌<◌, ◌≤◌, ◌^◌, [], ◌∷◌, IfOk, length, min};
ghost use Rattle.nv_base.specs.Log.{Log, empty_log, noted, noted_all};
ghost use Rattle.nv_base.specs.Meanings.{source_writes};

use crate::error::NoMemory;
use crate::outcome::Write;
use crate::term::Mem;
use std::alloc::Global;
use std::marker::Model;

/// How many words of scratch a source may use: those from there on belong to the compiler.
pub const SOURCE_SCRATCH: u32 = 512;

/// A log that counts all writes of a run and keeps the first of them. Its room is taken when it is
/// made, so noting a write needs no memory.
#[derive(Drop)]
pub struct WriteLog {
    room: usize,
    first: Vec<Write>,
    all: u64,
}

impl Model for WriteLog {
    ghost use Rattle.std.specs.Prelude.{◌≡◌, ◌<◌, ◌≤◌, ◌^◌, min, vec_len, vec_capacity};
    ghost use Rattle.nv_base.specs.Log.{Log};

    ghost Value = { Log };

    ghost view = { λ l. record { keep = l.room; kept = l.first.items; count = l.all } };

    ghost invariant = { λ l. (l.room < 2 ^ 32) × (l.room ≤ vec_capacity l.first) × (vec_len l.first ≡ min l.room l.all) };
}

impl WriteLog {
    /// An empty log that keeps the first `keep` writes.
    pub fn new(alloc: Global, keep: u32) -> Result<WriteLog, NoMemory>
        ensures { IfOk result (λ log. log ≡ empty_log keep) }
    {
        let room = keep as usize;
        let first = Vec::with_capacity(alloc, room)?;
        Ok(WriteLog {
            room,
            first,
            all: 0,
        })
    }

    /// Counts a write, and keeps it where there is room left.
    pub fn note(&mut self, w: Write)
        requires { self.old.count < 2 ^ 63 }
        ensures { self.new ≡ noted self.old w }
    {
        if self.first.len() < self.room {
            self.first.push_reserved(w);
        }
        self.all += 1;
    }

    /// Notes a write of the source's; one of the compiler's scratch words isn't noted.
    pub fn note_source(&mut self, w: Write)
        requires { self.old.count < 2 ^ 63 }
        ensures { self.new ≡ noted_all self.old (source_writes (w ∷ [])) }
    {
        if w.mem != Mem::Scratch || w.at < SOURCE_SCRATCH {
            self.note(w);
        }
    }

    /// How many writes were noted.
    pub fn count(&self) -> u64
        ensures { result ≡ self.now.count }
    {
        self.all
    }

    /// The writes that were kept, the first one first.
    pub fn kept(&self) -> &[Write]
        ensures kept { result.now ≡ self.now.kept }
        ensures number { length self.now.kept ≡ min self.now.keep self.now.count }
    {
        &self.first
    }
}
