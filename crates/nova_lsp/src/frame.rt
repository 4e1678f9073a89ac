//! Messages, each with the length of its content before it.
ghost use Rattle.std.specs.Prelude.{◌≡◌, ◌≢◌, ◌++◌, ℕ, List, [], length};
ghost use Rattle.std.specs.Io.KnownBytes.{Consumes, IsAtEnd};
ghost use Rattle.nova_lsp.specs.Reading.{IsRead, IsContent, IsKeptOf};

use crate::head::next_head;
use crate::input::Short;
use std::alloc::Global;
use std::io::{ErrorKind, Read};

/// The longest content that is read.
const LONGEST: u64 = 16_777_216;

/// What comes next.
#[derive(Drop)]
pub enum Incoming {
    /// The content of a message.
    Content(Vec<u8>),
    /// A head that tells no length. What follows is the next message.
    NoLength,
    /// A content that is too long. It was passed over.
    TooLong,
    /// There is no memory for the content, which was passed over.
    NoMemory,
    /// The input ends, before a message or within one.
    End,
    /// A read failed.
    Failed,
}

/// Reads the next message. Only the content takes memory.
pub fn next_message<R: Read>(alloc: Global, input: &mut R) -> Incoming
    ensures read { (front : List ℕ) × Consumes (R.remaining input.old) (R.remaining input.new) front × IsRead front result }
    ensures end { result ≡ Incoming.End → IsAtEnd (R.remaining input.new) }
{
    match next_head(input) {
        Ok(Some(length)) => content(alloc, input, length),
        Ok(None) => Incoming::NoLength,
        Err(Short::End) => Incoming::End,
        Err(Short::Failed) => Incoming::Failed,
    }
}

// Reads a content of so many bytes. Memory is taken for bytes that came, however many are told.
fn content<R: Read>(alloc: Global, input: &mut R, count: u64) -> Incoming
    ensures read { (front : List ℕ) × Consumes (R.remaining input.old) (R.remaining input.new) front × IsContent count front result }
    ensures end { result ≡ Incoming.End → IsAtEnd (R.remaining input.new) }
{
    let mut kept = first_kept(alloc, count);
    let mut left = count;
    let mut buffer = [0u8; 4096];
    for _ in 0..u64::MAX {
        if left == 0 {
            return whole(kept, count);
        }
        let most = left.min(4096) as usize;
        let part = &mut buffer[..most];
        match input.read(part) {
            Ok(0) => return Incoming::End,
            Ok(n) => {
                left -= n as u64;
                keep(&mut kept, &part[..n])
            }
            Err(e) if e.kind() == ErrorKind::Interrupted => {}
            Err(_) => return Incoming::Failed,
        }
    }
    Incoming::Failed
}

// No byte yet. A content that is too long isn't kept.
fn first_kept(alloc: Global, count: u64) -> Option<Vec<u8>>
    ensures { IsKeptOf count result [] }
{
    if count > LONGEST {
        None
    } else {
        Some(Vec::new(alloc))
    }
}

// Keeps more bytes, or none where memory runs out.
fn keep(kept: &mut Option<Vec<u8>>, bytes: &[u8])
    ensures { (n : ℕ) (front : List ℕ) → IsKeptOf n kept.old front → IsKeptOf n kept.new (front ++ bytes.now) }
{
    let is_short = match kept {
        Some(list) => list.extend_from_slice(bytes).is_err(),
        None => false,
    };
    if is_short {
        *kept = None;
    }
}

// What comes of a content whose bytes all came.
fn whole(kept: Option<Vec<u8>>, count: u64) -> Incoming
    ensures content { (front : List ℕ) → IsKeptOf count kept front → length front ≡ count → IsContent count front result }
    ensures end { result ≢ Incoming.End }
{
    match kept {
        Some(bytes) => Incoming::Content(bytes),
        None => if count > LONGEST {
            Incoming::TooLong
        } else {
            Incoming::NoMemory
        },
    }
}
