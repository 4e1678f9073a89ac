//! Files that are loaded.
ghost use Rattle.std.specs.Prelude.{◌≡◌, ◌≤◌, ◌∷◌, [], ℕ, List, Some, length, IfSome};
ghost use Rattle.nv_outside.specs.Calls.{Load, Asked};
ghost use Rattle.nova_show.specs.Paths.{system_path};

use crate::answer::Answer;
use nv_outside::{Files, Loaded};
use std::alloc::Global;

/// The name that a file has in the system: `-` is the standard input.
fn path_of(name: &str) -> &str
    ensures { result.now ≡ system_path name.now }
{
    if name == "-" { "/dev/stdin" } else { name }
}

/// The bytes of a file of at most so many; where there are none, the answer says why. No clause says when there are none,
/// nor what the answer says then.
pub fn load<F: Files>(
    alloc: Global,
    files: &mut F,
    name: &str,
    limit: u64,
    answer: &mut Answer,
) -> Option<Vec<u8>>
    ensures within { IfSome result (λ bytes. length bytes.items ≤ limit) }
    ensures read { F.tells → IfSome result (λ bytes. F.held files.old (system_path name.now) ≡ Some bytes.items) }
    ensures asked { Asked F.history files.old files.new (Load (system_path name.now) ∷ []) }
    ensures no_cause { IfSome result (λ _. (q : List ℕ) → F.load_faults files.new q ≡ F.load_faults files.old q) }
    ensures load_faults { (q : List ℕ) → F.load_faults files.old q ≤ F.load_faults files.new q }
    ensures save_faults { (q : List ℕ) → F.save_faults files.new q ≡ F.save_faults files.old q }
    ensures held { F.held files.new ≡ F.held files.old }
{
    let mut bytes = Vec::new(alloc);
    match files.load(path_of(name), limit, &mut bytes) {
        Loaded::Done => return Some(bytes),
        Loaded::TooLong => {
            let mut it = answer.finding();
            it.title.put("the file has more than ");
            it.title.number(limit);
            it.title.put(" bytes");
            answer.push(name, it)
        }
        Loaded::Failed => answer.fault(name, "the file can't be read"),
        Loaded::NoMemory => answer.fail(),
    }
    None
}
