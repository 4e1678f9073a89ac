// A capture from a reader, a record at a time.
ghost use Rattle.std.specs.Prelude.{◌≡◌, ◌≢◌, ◌≤◌, ◌<◌, ◌+◌, ◌++◌, ℕ, List, OnOk, IfOk, IfErr, IfSome, IfNone, MatchBool, MatchResult, length, max, min, vec_len, true, false, None, Ok};
ghost use Rattle.std.specs.Io.KnownBytes.{Consumes, IsAtEnd};
ghost use Rattle.nova_capture.specs.Stream.{Reads, ReadsError, IsWhole, Place, broken_at};

use crate::records::{head_len, item_of, record_len};
use crate::{Broken, Fault, Format, Item, Position, ReadError};
use std::alloc::Global;
use std::io::{ErrorKind, Read};

/// A capture that is read. It keeps one record. Give it a `BufReader`, since it reads twice for each record.
#[derive(Drop)]
pub struct Reader<R> {
    input: R,
    position: Position,
    ended: bool,
    buffer: Vec<u8>,
}

impl<R: Read> Reader<R> {
    pub fn new(alloc: Global, input: R) -> Reader<R>
        ensures input { result.input ≡ input }
        ensures position { result.position ≡ Position.START }
        ensures ended { result.ended ≡ false }
    {
        Reader {
            input,
            position: Position::START,
            ended: false,
            buffer: Vec::new(alloc),
        }
    }

    /// What the records so far say, how many packets have come, and where the next record begins.
    pub fn position(&self) -> Position
        ensures { result ≡ self.now.position }
    {
        self.position
    }

    /// The next item, and in `bytes` its bytes. None at the end, and behind an error.
    pub fn next_item(&mut self, bytes: &mut Vec<u8>) -> Result<Option<Item>, ReadError>
        ensures reads { self.old.ended ≡ false → Reads self.old.position (R.remaining self.old.input) (R.remaining self.new.input) result bytes.new.items self.new.position }
        ensures place { IfErr result (λ e. Place self.old.position e) }
        ensures ended { self.old.ended ≡ true → result ≡ Ok None }
        ensures goes_on { IfOk result (λ found. IfSome found (λ _. self.new.ended ≡ false)) }
        ensures stays { MatchResult result (λ found. IfNone found (self.new.position ≡ self.old.position)) (λ _. self.new.position ≡ self.old.position) }
    {
        if self.ended {
            return Ok(None);
        }
        let found = self.next(bytes);
        if !matches!(found, Ok(Some(_))) {
            self.ended = true;
        }
        found
    }

    // The same of a reader that hasn't ended.
    #[tactic(auto, using(crate::proofs::Taken::told))]
    fn next(&mut self, bytes: &mut Vec<u8>) -> Result<Option<Item>, ReadError>
        ensures reads { Reads self.old.position (R.remaining self.old.input) (R.remaining self.new.input) result bytes.new.items self.new.position }
        ensures place { IfErr result (λ e. Place self.old.position e) }
        ensures ended { self.new.ended ≡ self.old.ended }
        ensures stays { MatchResult result (λ found. IfNone found (self.new.position ≡ self.old.position)) (λ _. self.new.position ≡ self.old.position) }
    {
        if !self.take_record()? {
            return Ok(None);
        }
        let found = item_of(self.position.state, self.buffer.as_slice());
        let (item, part) = match found {
            Err(fault) => return Err(self.broken(fault)),
            Ok(found) => found,
        };
        bytes.clear();
        bytes.extend_from_slice(part)?;
        self.position = self.position.behind(item, self.buffer.len());
        Ok(Some(item))
    }

    // The bytes of the next record, where there is one.
    #[tactic(auto, using(crate::proofs::Taken::told, crate::proofs::Taken::whole_record, crate::proofs::Taken::told_cut, crate::proofs::Taken::consumes_both))]
    fn take_record(&mut self) -> Result<bool, ReadError>
        ensures found { IfOk result (λ found. MatchBool found
            (IsWhole self.old.position.state self.new.buffer.items × Consumes (R.remaining self.old.input) (R.remaining self.new.input) self.new.buffer.items)
            (IsAtEnd (R.remaining self.old.input) × (self.old.position.state.format ≢ Format.Start))) }
        ensures fault { IfErr result (ReadsError self.old.position.state (R.remaining self.old.input) (R.remaining self.new.input)) }
        ensures place { IfErr result (λ e. Place self.old.position e) }
        ensures position { self.new.position ≡ self.old.position }
        ensures ended { self.new.ended ≡ self.old.ended }
    {
        self.buffer.clear();
        let head = head_len(self.position.state);
        if let Err(kind) = fill(&mut self.input, &mut self.buffer, head) {
            return Err(ReadError::Failed(kind));
        }
        if self.buffer.is_empty() && !matches!(self.position.state.format, Format::Start) {
            return Ok(false);
        }
        if self.buffer.len() < head {
            return Err(self.broken(Fault::Cut));
        }
        let len = match record_len(self.position.state, self.buffer.as_slice()) {
            Err(fault) => return Err(self.broken(fault)),
            Ok(len) => len,
        };
        if let Err(kind) = fill(&mut self.input, &mut self.buffer, len) {
            return Err(ReadError::Failed(kind));
        }
        if self.buffer.len() < len {
            return Err(self.broken(Fault::Cut));
        }
        Ok(true)
    }

    fn broken(&self, fault: Fault) -> ReadError
        ensures { result ≡ ReadError.Broken (broken_at fault self.now.position) }
    {
        ReadError::Broken(Broken {
            fault,
            packet: self.position.packets.saturating_add(1),
            offset: self.position.offset,
        })
    }
}

// Reads until there are `len` bytes, or to the end of the input. Memory is taken for bytes that came, whatever `len` is.
fn fill<R: Read>(input: &mut R, into: &mut Vec<u8>, len: usize) -> Result<(), ErrorKind>
    ensures read { OnOk result ((bytes : List ℕ) × (into.new.items ≡ into.old.items ++ bytes) × Consumes (R.remaining input.old) (R.remaining input.new) bytes) }
    ensures most { OnOk result (vec_len into.new ≤ max (vec_len into.old) len) }
    ensures end { OnOk result (vec_len into.new < len → IsAtEnd (R.remaining input.new)) }
{
    let mut buf = [0u8; 4096];
    for _ in 0..u64::MAX {
        if len <= into.len() {
            return Ok(());
        }
        let want = (len - into.len()).min(4096);
        match input.read(&mut buf[..want]) {
            Err(e) if e.kind() == ErrorKind::Interrupted => {}
            Err(e) => return Err(e.kind()),
            Ok(0) => return Ok(()),
            Ok(n) => {
                if into.extend_from_slice(&buf[..n]).is_err() {
                    return Err(ErrorKind::OutOfMemory);
                }
            }
        }
    }
    Err(ErrorKind::Other)
}
