// A store of files and a sink in memory, whose calls fail where they are told to.
ghost use Rattle.std.specs.Prelude.{◌≡◌, ◌≢◌, ◌+◌, ◌-◌, ◌^◌, ◌<◌, ◌≤◌, ◌⊎◌, ◌↔◌, ◌++◌, [], ℕ, List, None, Some, Contains, OnOk, OnErr, length, min, option_copied, option_map};
ghost use Rattle.nv_outside.specs.Calls.{counted};
ghost use Rattle.nv_outside.specs.Causes.{one_more, Rose};
ghost use Rattle.nv_outside.specs.Holding.{Replaced, SameElsewhere, IsLonger, AppendsFront};
ghost use Rattle.nv_outside.specs.Memory.{holding_of, files_of, next_call, failing_calls, load_count, save_count, refused_count, IsNumbered, written_of, next_put, failing_puts, put_count, refused_puts, IsNumberedPut};
ghost use Rattle.nv_outside.specs.declared.files.Loaded.{Loaded};
ghost use Rattle.nv_outside.specs.declared.files.Saved.{Saved};
ghost use Rattle.nv_outside.specs.declared.sink.Put.{Put};

use crate::files::{Files, Loaded, Saved};
use crate::sink::{Put, Sink};
use std::alloc::{AllocError, Global};
use std::collections::BTreeMap;

/// A store of files in memory, for tests. Its loads and saves are numbered together, from 0, and those
/// of the numbers that it was made with fail. It keeps one count of failed loads and one of failed
/// saves for all names.
#[derive(Drop)]
pub struct MemFiles {
    alloc: Global,
    files: BTreeMap<String, Vec<u8>>,
    failing: Vec<u64>,
    calls: u64,
    load_faults: u64,
    save_faults: u64,
    refused: u64,
}

impl MemFiles {
    /// A store that holds nothing, and in which the loads and saves of these numbers fail.
    pub fn new(alloc: Global, failing: Vec<u64>) -> MemFiles
        ensures empty { (name : List ℕ) → files_of result name ≡ None }
        ensures failing { failing_calls result ≡ failing.items }
        ensures start { next_call result ≡ 0 }
        ensures loads { load_count result ≡ 0 }
        ensures saves { save_count result ≡ 0 }
        ensures refused { refused_count result ≡ 0 }
    {
        MemFiles {
            alloc,
            files: BTreeMap::new(alloc),
            failing,
            calls: 0,
            load_faults: 0,
            save_faults: 0,
            refused: 0,
        }
    }

    /// How often `save` and `give` were refused memory.
    pub fn refused(&self) -> u64
        ensures { result ≡ refused_count self.now }
    {
        self.refused
    }

    /// The bytes under a name, none where it isn't held.
    pub fn held(&self, name: &str) -> Option<&[u8]>
        ensures { option_copied result ≡ files_of self.now name.now }
    {
        match self.files.get(name) {
            Some(bytes) => Some(bytes.as_slice()),
            None => None,
        }
    }

    /// Puts these bytes under a name, as `save` does, but takes no number and fails for memory exhaustion alone.
    pub fn give(&mut self, name: &str, bytes: &[u8]) -> Saved
        ensures done { result ≡ Saved.Done → Replaced (files_of self.old) (files_of self.new) name.now bytes.now }
        ensures unchanged { result ≡ Saved.Failed → (q : List ℕ) → files_of self.new q ≡ files_of self.old q }
        ensures refused { result ≡ Saved.Failed → refused_count self.new ≡ one_more (refused_count self.old) }
        ensures not_refused { result ≡ Saved.Done → refused_count self.new ≡ refused_count self.old }
        ensures save_faults { save_count self.old ≤ save_count self.new }
        ensures counted { result ≡ Saved.Failed → save_count self.new ≡ one_more (save_count self.old) }
        ensures not_counted { result ≡ Saved.Done → save_count self.new ≡ save_count self.old }
        ensures loads { load_count self.new ≡ load_count self.old }
        ensures next { next_call self.new ≡ next_call self.old }
        ensures failing { failing_calls self.new ≡ failing_calls self.old }
    {
        match keep(self.alloc, &mut self.files, name, bytes) {
            Ok(()) => Saved::Done,
            Err(_) => {
                self.refused = self.refused.saturating_add(1);
                self.save_faults = self.save_faults.saturating_add(1);
                Saved::Failed
            }
        }
    }
}

impl Files for MemFiles {
    ghost tells = { Unit {0} };

    ghost held = { files_of };

    ghost history = { λ f calls. next_call f ≡ counted calls };

    ghost load_faults = { λ f _. load_count f };

    ghost save_faults = { λ f _. save_count f };

    fn load(&mut self, name: &str, limit: u64, into: &mut Vec<u8>) -> Loaded
        ensures within { result ≡ Loaded.Done → (bytes : List ℕ) × (length bytes ≤ limit) × (into.new.items ≡ into.old.items ++ bytes) }
        ensures done { result ≡ Loaded.Done → (bytes : List ℕ) × (files_of self.old name.now ≡ Some bytes) × (into.new.items ≡ into.old.items ++ bytes) }
        ensures too_long { result ≡ Loaded.TooLong → IsLonger (files_of self.old) name.now limit }
        ensures only_too_long { IsLonger (files_of self.old) name.now limit → result ≢ Loaded.Done }
        ensures not_done { result ≢ Loaded.Done → into.new.items ≡ into.old.items }
        ensures failed { result ≡ Loaded.Failed ↔ (Contains (failing_calls self.old) (next_call self.old) ⊎ (files_of self.old name.now ≡ None)) }

        // What the load leaves of the store: its number is taken, and where it failed that is counted.
        ensures held { files_of self.new ≡ files_of self.old }
        ensures number { IsNumbered self.old self.new }
        ensures load_faults { load_count self.old ≤ load_count self.new }
        ensures counted { result ≡ Loaded.Failed → load_count self.new ≡ one_more (load_count self.old) }
        ensures not_counted { result ≢ Loaded.Failed → load_count self.new ≡ load_count self.old }
        ensures saves { save_count self.new ≡ save_count self.old }
        ensures refused { refused_count self.new ≡ refused_count self.old }
    {
        let number = self.calls;
        self.calls = self.calls.saturating_add(1);
        if self.failing.contains(&number) {
            self.load_faults = self.load_faults.saturating_add(1);
            return Loaded::Failed;
        }
        match self.files.get(name) {
            None => {
                self.load_faults = self.load_faults.saturating_add(1);
                Loaded::Failed
            }
            Some(bytes) => {
                if bytes.len() as u64 > limit {
                    Loaded::TooLong
                } else if into.extend_from_slice(bytes).is_err() {
                    Loaded::NoMemory
                } else {
                    Loaded::Done
                }
            }
        }
    }

    fn save(&mut self, name: &str, bytes: &[u8]) -> Saved
        ensures done { result ≡ Saved.Done → Replaced (files_of self.old) (files_of self.new) name.now bytes.now }
        ensures unchanged { result ≡ Saved.Failed → (q : List ℕ) → files_of self.new q ≡ files_of self.old q }
        ensures failed { result ≡ Saved.Failed → (Contains (failing_calls self.old) (next_call self.old) ⊎ (refused_count self.new ≡ one_more (refused_count self.old))) }
        ensures stopped { Contains (failing_calls self.old) (next_call self.old) → result ≡ Saved.Failed }
        ensures not_refused { result ≡ Saved.Done → refused_count self.new ≡ refused_count self.old }
        ensures stopped_not_refused { Contains (failing_calls self.old) (next_call self.old) → refused_count self.new ≡ refused_count self.old }

        ensures number { IsNumbered self.old self.new }
        ensures save_faults { save_count self.old ≤ save_count self.new }
        ensures counted { result ≡ Saved.Failed → save_count self.new ≡ one_more (save_count self.old) }
        ensures not_counted { result ≡ Saved.Done → save_count self.new ≡ save_count self.old }
        ensures loads { load_count self.new ≡ load_count self.old }
    {
        let number = self.calls;
        self.calls = self.calls.saturating_add(1);
        if self.failing.contains(&number) {
            self.save_faults = self.save_faults.saturating_add(1);
            return Saved::Failed;
        }
        self.give(name, bytes)
    }
}

// Puts a copy of these bytes under a name; where there is no memory for it, nothing changes.
fn keep(
    alloc: Global,
    files: &mut BTreeMap<String, Vec<u8>>,
    name: &str,
    bytes: &[u8],
) -> Result<(), AllocError>
    ensures ok { OnOk result (Replaced (holding_of files.old) (holding_of files.new) name.now bytes.now) }
    ensures err { OnErr result (holding_of files.new ≡ holding_of files.old) }
{
    let key = name.to_string(alloc)?;
    let value = bytes.to_vec(alloc)?;
    files.insert(key, value)?;
    Ok(())
}

/// A sink in memory, for tests. Its puts are numbered from 0, and those of the numbers that it was made
/// with fail.
#[derive(Drop)]
pub struct MemSink {
    bytes: Vec<u8>,
    failing: Vec<u64>,
    calls: u64,
    faults: u64,
    refused: u64,
}

impl MemSink {
    /// A sink with nothing written, in which the puts of these numbers fail.
    pub fn new(alloc: Global, failing: Vec<u64>) -> MemSink
        ensures empty { written_of result ≡ [] }
        ensures failing { failing_puts result ≡ failing.items }
        ensures start { next_put result ≡ 0 }
        ensures faults { put_count result ≡ 0 }
        ensures refused { refused_puts result ≡ 0 }
    {
        MemSink {
            bytes: Vec::new(alloc),
            failing,
            calls: 0,
            faults: 0,
            refused: 0,
        }
    }

    /// The bytes written so far.
    pub fn bytes(&self) -> &[u8]
        ensures { result.now ≡ written_of self.now }
    {
        &self.bytes
    }

    /// How often `put` was refused memory.
    pub fn refused(&self) -> u64
        ensures { result ≡ refused_puts self.now }
    {
        self.refused
    }
}

impl Sink for MemSink {
    ghost tells = { Unit {0} };

    ghost written = { written_of };

    ghost faults = { put_count };

    fn put(&mut self, bytes: &[u8]) -> Put
        ensures done { result ≡ Put.Done → written_of self.new ≡ written_of self.old ++ bytes.now }
        ensures nothing { result ≡ Put.Failed → written_of self.new ≡ written_of self.old }
        ensures failed { result ≡ Put.Failed → (Contains (failing_puts self.old) (next_put self.old) ⊎ (refused_puts self.new ≡ one_more (refused_puts self.old))) }
        ensures stopped { Contains (failing_puts self.old) (next_put self.old) → result ≡ Put.Failed }
        ensures not_refused { result ≡ Put.Done → refused_puts self.new ≡ refused_puts self.old }
        ensures stopped_not_refused { Contains (failing_puts self.old) (next_put self.old) → refused_puts self.new ≡ refused_puts self.old }

        ensures number { IsNumberedPut self.old self.new }
        ensures faults { put_count self.old ≤ put_count self.new }
        ensures counted { result ≡ Put.Failed → put_count self.new ≡ one_more (put_count self.old) }
        ensures not_counted { result ≡ Put.Done → put_count self.new ≡ put_count self.old }
    {
        let number = self.calls;
        self.calls = self.calls.saturating_add(1);
        if self.failing.contains(&number) {
            self.faults = self.faults.saturating_add(1);
            return Put::Failed;
        }
        if self.bytes.extend_from_slice(bytes).is_err() {
            self.refused = self.refused.saturating_add(1);
            self.faults = self.faults.saturating_add(1);
            return Put::Failed;
        }
        Put::Done
    }
}
