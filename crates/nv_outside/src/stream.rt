//! A whole file from a reader, whatever pieces it gives.
ghost use Rattle.std.specs.Prelude.{◌≡◌, ◌≢◌, ◌<◌, ◌≤◌, ◌++◌, ℕ, List, IfSome, length};
ghost use Rattle.nv_outside.specs.declared.files.Loaded.{Loaded};

use crate::files::Loaded;
use std::io::{ErrorKind, Read};

/// Appends what a file has left, where that is at most `limit` bytes. Of a longer one at most a buffer more is
/// read. A read that is interrupted is tried again.
///
/// No clause says that a read failed where the answer is `Failed`: `Read` has nothing that tells of one.
pub fn read_whole<F: Read>(file: &mut F, limit: u64, into: &mut Vec<u8>) -> Loaded
    ensures whole { result ≡ Loaded.Done → IfSome (F.remaining file.old) (λ left. into.new.items ≡ into.old.items ++ left) }
    ensures within { result ≡ Loaded.Done → (bytes : List ℕ) × (length bytes ≤ limit) × (into.new.items ≡ into.old.items ++ bytes) }
    ensures too_long { result ≡ Loaded.TooLong → IfSome (F.remaining file.old) (λ left. limit < length left) }
    ensures not_done { result ≢ Loaded.Done → into.new.items ≡ into.old.items }
{
    let before = into.len();
    let loaded = append(file, limit, into);
    if loaded == Loaded::Done {
        return loaded;
    }
    into.truncate(before);
    loaded
}

// The same, but what was appended stays whatever the answer.
fn append<F: Read>(file: &mut F, limit: u64, into: &mut Vec<u8>) -> Loaded
    ensures whole { result ≡ Loaded.Done → IfSome (F.remaining file.old) (λ left. into.new.items ≡ into.old.items ++ left) }
    ensures within { result ≡ Loaded.Done → (bytes : List ℕ) × (length bytes ≤ limit) × (into.new.items ≡ into.old.items ++ bytes) }
    ensures too_long { result ≡ Loaded.TooLong → IfSome (F.remaining file.old) (λ left. limit < length left) }
    ensures appended { (bytes : List ℕ) × (into.new.items ≡ into.old.items ++ bytes) }
{
    let mut left = limit;
    let mut buf = [0u8; 4096];
    for _ in 0..u64::MAX {
        match file.read(&mut buf) {
            Err(e) if e.kind() == ErrorKind::Interrupted => {}
            Err(_) => return Loaded::Failed,
            Ok(0) => return Loaded::Done,
            Ok(n) => {
                if n as u64 > left {
                    return Loaded::TooLong;
                }
                left -= n as u64;
                if into.extend_from_slice(&buf[..n]).is_err() {
                    return Loaded::NoMemory;
                }
            }
        }
    }
    Loaded::Failed
}
