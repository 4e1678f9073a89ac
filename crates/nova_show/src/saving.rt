//! Files that are saved.
ghost use Rattle.std.specs.Prelude.{◌≡◌, ◌≤◌, ◌⊎◌, ◌∷◌, ◌++◌, [], ℕ, List, true, false};
ghost use Rattle.nv_outside.specs.Calls.{Asked, AsksAtMost};
ghost use Rattle.nv_outside.specs.Causes.{Rose};
ghost use Rattle.nv_outside.specs.Holding.{AppendsFront};
ghost use Rattle.nova_show.specs.Saving.{files_of, saves_of, printed_of, AreSaved, IsUnsaved, IsAppended};

use crate::answer::Answer;
use nv_outside::{Files, Put, Saved, Sink};
use std::alloc::Global;

/// A file that is to be saved.
#[derive(Drop)]
pub struct Saving {
    pub name: String,
    pub bytes: Vec<u8>,
}

/// Adds a file that is to be saved, or the answer fails since memory is exhausted. No clause says that it is added, nor that the
/// answer fails where it isn't.
pub fn add_saving(
    alloc: Global,
    savings: &mut Vec<Saving>,
    name: &str,
    bytes: Vec<u8>,
    answer: &mut Answer,
)
    // Without memory nothing is added.
    ensures { (savings.new.items ≡ savings.old.items) ⊎ (IsAppended savings.old.items savings.new.items name.now bytes.items × (answer.new ≡ answer.old)) }
{
    match name.to_string(alloc) {
        Ok(name) => {
            if savings.push(Saving { name, bytes }).is_err() {
                answer.fail();
            }
        }
        Err(_) => answer.fail(),
    }
}

/// Whether all files were saved, `-` being the standard output: up to the first that can't be, of which the second sink is told.
/// Which of them were saved where one can't be, and what is told, no clause says.
pub fn save_all<F: Files, K: Sink, E: Sink>(
    savings: &[Saving],
    files: &mut F,
    out: &mut K,
    err: &mut E,
) -> bool
    ensures asked { AsksAtMost F.history files.old files.new (saves_of savings.now) }
    ensures saved { result ≡ true → Asked F.history files.old files.new (saves_of savings.now) }
    ensures held { F.tells → result ≡ true → AreSaved (files_of savings.now) (F.held files.old) (F.held files.new) }
    ensures printed { K.tells → result ≡ true → K.written out.new ≡ K.written out.old ++ printed_of savings.now }
    ensures no_fault { result ≡ true → (q : List ℕ) → F.save_faults files.new q ≡ F.save_faults files.old q }
    ensures no_print_fault { result ≡ true → K.faults out.new ≡ K.faults out.old }
    ensures cause { result ≡ false → IsUnsaved (files_of savings.now) (F.save_faults files.old) (F.save_faults files.new) ⊎ Rose (K.faults out.old) (K.faults out.new) }
    ensures nothing { savings.now ≡ [] → F.held files.new ≡ F.held files.old }
{
    savings.is_empty() || save_each(savings, files, out, err)
}

// Saves them one by one.
fn save_each<F: Files, K: Sink, E: Sink>(
    savings: &[Saving],
    files: &mut F,
    out: &mut K,
    err: &mut E,
) -> bool
    ensures asked { AsksAtMost F.history files.old files.new (saves_of savings.now) }
    ensures saved { result ≡ true → Asked F.history files.old files.new (saves_of savings.now) }
    ensures held { F.tells → result ≡ true → AreSaved (files_of savings.now) (F.held files.old) (F.held files.new) }
    ensures printed { K.tells → result ≡ true → K.written out.new ≡ K.written out.old ++ printed_of savings.now }
    ensures no_fault { result ≡ true → (q : List ℕ) → F.save_faults files.new q ≡ F.save_faults files.old q }
    ensures no_print_fault { result ≡ true → K.faults out.new ≡ K.faults out.old }
    ensures cause { result ≡ false → IsUnsaved (files_of savings.now) (F.save_faults files.old) (F.save_faults files.new) ⊎ Rose (K.faults out.old) (K.faults out.new) }
{
    for saving in savings {
        if !save(saving, files, out, err) {
            return false;
        }
    }
    true
}

// Saves or prints one of them.
fn save<F: Files, K: Sink, E: Sink>(
    saving: &Saving,
    files: &mut F,
    out: &mut K,
    err: &mut E,
) -> bool
    ensures asked { Asked F.history files.old files.new (saves_of (saving.now ∷ [])) }
    ensures held { F.tells → result ≡ true → AreSaved (files_of (saving.now ∷ [])) (F.held files.old) (F.held files.new) }
    ensures printed { K.tells → result ≡ true → K.written out.new ≡ K.written out.old ++ printed_of (saving.now ∷ []) }
    ensures no_fault { result ≡ true → (q : List ℕ) → F.save_faults files.new q ≡ F.save_faults files.old q }
    ensures no_print_fault { result ≡ true → K.faults out.new ≡ K.faults out.old }
    ensures cause { result ≡ false → IsUnsaved (files_of (saving.now ∷ [])) (F.save_faults files.old) (F.save_faults files.new) ⊎ Rose (K.faults out.old) (K.faults out.new) }
{
    let is_saved = if saving.name.as_str() == "-" {
        print(out, &saving.bytes)
    } else {
        files.save(saving.name.as_str(), &saving.bytes) == Saved::Done
    };
    if !is_saved {
        let _ = err.put(saving.name.as_bytes());
        let _ = err.put(b": error: the file can't be written\n");
    }
    is_saved
}

/// Whether a text was printed; of an empty one nothing is written.
pub fn print<K: Sink>(out: &mut K, text: &[u8]) -> bool
    ensures done { K.tells → result ≡ true → K.written out.new ≡ K.written out.old ++ text.now }
    ensures failed { K.tells → result ≡ false → AppendsFront (K.written out.old) (K.written out.new) text.now }
    ensures cause { result ≡ false → Rose (K.faults out.old) (K.faults out.new) }
    ensures no_cause { result ≡ true → K.faults out.new ≡ K.faults out.old }
    ensures faults { K.faults out.old ≤ K.faults out.new }
{
    text.is_empty() || out.put(text) == Put::Done
}
