// Where output goes.
ghost use Rattle.std.specs.Prelude.{◌≡◌, ℕ, List, ◌++◌, ◌≤◌};
ghost use Rattle.nv_outside.specs.Causes.{Rose};
ghost use Rattle.nv_outside.specs.Holding.{AppendsFront};
ghost use Rattle.nv_outside.specs.declared.sink.Put.{Put};

/// What came of writing a piece.
#[derive(Clone, Copy, Debug, PartialEq, Eq)]
pub enum Put {
    /// The whole piece was written.
    Done,
    /// The piece, or its end, was not written.
    Failed,
}

/// A place that output is written to, piece by piece. It counts the pieces that failed, and no others, from 0;
/// the count never falls, and stands still at the end of its type.
pub trait Sink {
    /// Whether sinks of this kind tell what was written.
    ghost tells: { Type 0 };

    /// The bytes written, where it tells.
    ghost written: { Self → List ℕ };

    /// How often writes have failed.
    ghost faults: { Self → ℕ };

    /// Writes a piece behind what was written before.
    fn put(&mut self, bytes: &[u8]) -> Put
        ensures done { tells → result ≡ Put.Done → written self.new ≡ written self.old ++ bytes.now }
        ensures failed { tells → result ≡ Put.Failed → AppendsFront (written self.old) (written self.new) bytes.now }
        ensures cause { result ≡ Put.Failed → Rose (faults self.old) (faults self.new) }
        ensures no_cause { result ≡ Put.Done → faults self.new ≡ faults self.old }
        ensures faults { faults self.old ≤ faults self.new };
}
