// A store of files, by name.
ghost use Rattle.std.specs.Prelude.{◌≡◌, ◌≢◌, ℕ, List, [], ◌∷◌, ◌++◌, ◌<◌, ◌≤◌, Some, length};
ghost use Rattle.nv_outside.specs.Calls.{Call, Load, Save, Asked};
ghost use Rattle.nv_outside.specs.Causes.{Rose};
ghost use Rattle.nv_outside.specs.Holding.{Holding, Replaced, SameElsewhere, IsLonger};
ghost use Rattle.nv_outside.specs.declared.files.Loaded.{Loaded};
ghost use Rattle.nv_outside.specs.declared.files.Saved.{Saved};

/// What came of a load.
#[derive(Clone, Copy, Debug, PartialEq, Eq)]
pub enum Loaded {
    /// The file's bytes were appended.
    Done,
    /// The file has more bytes than the limit.
    TooLong,
    /// The file could not be read, or isn't there.
    Failed,
    /// There was no memory for the bytes.
    NoMemory,
}

/// What came of a save.
#[derive(Clone, Copy, Debug, PartialEq, Eq)]
pub enum Saved {
    /// The file has exactly the bytes.
    Done,
    /// The file could not be written; it may be gone, or have some of the bytes.
    Failed,
}

/// A store of files, each a list of bytes under a name.
///
/// A store that tells what it holds says of each load and save what it did to these bytes. Every
/// store counts, for each name, the loads and the saves that failed; a count starts at 0, rises only where a load
/// or a save fails, never falls, and stands still at the end of its type. And it has a history: of each list of calls
/// that were made before a load or a save, the list with this call after it was made after it.
pub trait Files {
    /// Whether stores of this kind tell what they hold.
    ghost tells: { Type 0 };

    /// What the store holds, where it tells.
    ghost held: { Self → Holding };

    /// Which loads and saves there were, in their order. A store may know less than that, as how many there were.
    ghost history: { Self → List Call → Type 0 };

    /// How often loads of each name have failed.
    ghost load_faults: { Self → List ℕ → ℕ };

    /// How often saves of each name have failed.
    ghost save_faults: { Self → List ℕ → ℕ };

    /// Appends a file's bytes to `into`, where they are at most `limit`. No load changes what is held.
    /// A name that isn't there fails.
    fn load(&mut self, name: &str, limit: u64, into: &mut Vec<u8>) -> Loaded
        ensures within { result ≡ Loaded.Done → (bytes : List ℕ) × (length bytes ≤ limit) × (into.new.items ≡ into.old.items ++ bytes) }
        ensures done { tells → result ≡ Loaded.Done → (bytes : List ℕ) × (held self.old name.now ≡ Some bytes) × (into.new.items ≡ into.old.items ++ bytes) }
        ensures too_long { tells → result ≡ Loaded.TooLong → IsLonger (held self.old) name.now limit }
        ensures only_too_long { tells → IsLonger (held self.old) name.now limit → result ≢ Loaded.Done }
        ensures not_done { result ≢ Loaded.Done → into.new.items ≡ into.old.items }
        ensures cause { result ≡ Loaded.Failed → Rose (load_faults self.old name.now) (load_faults self.new name.now) }
        ensures no_cause { result ≢ Loaded.Failed → (q : List ℕ) → load_faults self.new q ≡ load_faults self.old q }
        ensures held { held self.new ≡ held self.old }
        ensures asked { Asked history self.old self.new (Load name.now ∷ []) }
        ensures load_faults { (q : List ℕ) → load_faults self.old q ≤ load_faults self.new q }
        ensures save_faults { (q : List ℕ) → save_faults self.new q ≡ save_faults self.old q };

    /// Makes these bytes the whole of a file, which need not be there before. Whatever the answer, no
    /// other name changes.
    fn save(&mut self, name: &str, bytes: &[u8]) -> Saved
        ensures done { tells → result ≡ Saved.Done → Replaced (held self.old) (held self.new) name.now bytes.now }
        ensures elsewhere { tells → SameElsewhere (held self.old) (held self.new) name.now }
        ensures asked { Asked history self.old self.new (Save name.now ∷ []) }
        ensures cause { result ≡ Saved.Failed → Rose (save_faults self.old name.now) (save_faults self.new name.now) }
        ensures no_cause { result ≡ Saved.Done → (q : List ℕ) → save_faults self.new q ≡ save_faults self.old q }
        ensures load_faults { (q : List ℕ) → load_faults self.new q ≡ load_faults self.old q }
        ensures save_faults { (q : List ℕ) → save_faults self.old q ≤ save_faults self.new q };
}
