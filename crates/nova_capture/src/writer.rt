// A capture to a writer, an item at a time.
ghost use Rattle.std.specs.Prelude.{◌≡◌, OnOk, OnErr, Err};
ghost use Rattle.std.specs.Io.KnownBytes.{Appends, Keeps};
ghost use Rattle.nova_capture.specs.Spelling.{spelling, Fits};
ghost use Rattle.nova_capture.specs.Record.{state_after};

use crate::spell::push_item;
use crate::{Item, State, WriteError};
use std::alloc::Global;
use std::io::Write;

/// A capture that is written. Its first item decides the format: a header that of pcap, a section that of pcapng.
#[derive(Drop)]
pub struct Writer<W> {
    output: W,
    state: State,
    buffer: Vec<u8>,
}

impl<W: Write> Writer<W> {
    pub fn new(alloc: Global, output: W) -> Writer<W>
        ensures output { result.output ≡ output }
        ensures state { result.state ≡ State.START }
    {
        Writer {
            output,
            state: State::START,
            buffer: Vec::new(alloc),
        }
    }

    /// What the records so far say.
    pub fn state(&self) -> State
        ensures { result ≡ self.now.state }
    {
        self.state
    }

    /// Writes the record that says this item. After `Unfit` nothing is written, and the next item may follow.
    pub fn write_item(&mut self, item: Item, bytes: &[u8]) -> Result<(), WriteError>
        ensures ok { OnOk result (Appends (W.contents self.old.output) (W.contents self.new.output) (spelling self.old.state item bytes.now)) }
        ensures fits { OnOk result (Fits self.old.state item bytes.now) }
        ensures state { OnOk result (self.new.state ≡ state_after self.old.state item) }
        ensures stays { OnErr result (self.new.state ≡ self.old.state) }
        ensures unfit { result ≡ Err WriteError.Unfit → (Fits self.old.state item bytes.now → ⊥) × Keeps (W.contents self.old.output) (W.contents self.new.output) }
    {
        self.buffer.clear();
        push_item(&mut self.buffer, self.state, item, bytes)?;
        if let Err(e) = self.output.write_all(self.buffer.as_slice()) {
            return Err(WriteError::Failed(e.kind()));
        }
        self.state = self.state.after(item);
        Ok(())
    }

    /// Hands what a buffer of the output holds to what lies below it.
    pub fn flush(&mut self) -> Result<(), WriteError> {
        match self.output.flush() {
            Err(e) => Err(WriteError::Failed(e.kind())),
            Ok(()) => Ok(()),
        }
    }

    /// The output, flushed or not.
    pub fn into_inner(self) -> W
        ensures { result ≡ self.output }
    {
        let Writer {
            output,
            state: _,
            buffer: _,
        } = self;
        output
    }
}
