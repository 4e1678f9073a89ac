//! The inputs of a command, loaded.
ghost use Rattle.std.specs.Prelude.{◌≡◌, ◌≤◌, ◌⊎◌, ◌∷◌, [], ℕ, List, IfOk, IfErr};
ghost use Rattle.nv_outside.specs.Calls.{Load, Asked, AsksAtMost};
ghost use Rattle.nv_outside.specs.Causes.{Rose};
ghost use Rattle.novac_words.specs.inner.Read.{input_as, inputs_as};
ghost use Rattle.novac_words.specs.inner.Words.{command_as};
ghost use Rattle.novac_words.specs.Lines.{IsUncaused};
ghost use Rattle.novac_commands.specs.Loading.{inputs_of, loads_of, IsRead, AreRead, StopsAt, IsUnread};
ghost use Rattle.novac_commands.specs.inner.Contents.{contents_of, AreShort};

use novac_words::{Command, Input, Refusal};
use nv_outside::{Files, Loaded};
use std::alloc::Global;

/// Loads the inputs of a command, in the order of the words.
pub fn load_inputs<'a, F: Files>(
    alloc: Global,
    command: Command<'a>,
    files: &mut F,
) -> Result<Vec<Vec<u8>>, Refusal<'a>>
    ensures read { IfOk result (λ x. AreRead F.tells (F.held files.old) (inputs_of (command_as command.entry)) (contents_of x.items)) }
    ensures short { IfOk result (λ x. AreShort (inputs_of (command_as command.entry)) (contents_of x.items)) }
    ensures unread { IfErr result (λ e. IsUncaused e ⊎ StopsAt F.tells (F.held files.old) (inputs_of (command_as command.entry)) (IsUnread F.tells (F.held files.old) (λ q. Rose (F.load_faults files.old q) (F.load_faults files.new q)) e)) }
    ensures asked { AsksAtMost F.history files.old files.new (loads_of (inputs_of (command_as command.entry))) }
    ensures held { F.held files.new ≡ F.held files.old }
    ensures save_faults { (q : List ℕ) → F.save_faults files.old q ≤ F.save_faults files.new q }
{
    let inputs = command.inputs(alloc)?;
    load_all(alloc, &inputs, files)
}

// Loads files, one after the other, up to the first that can't be.
fn load_all<'a, F: Files>(
    alloc: Global,
    inputs: &[Input<'a>],
    files: &mut F,
) -> Result<Vec<Vec<u8>>, Refusal<'a>>
    ensures read { IfOk result (λ x. AreRead F.tells (F.held files.old) (inputs_as inputs.now) (contents_of x.items)) }
    ensures unread { IfErr result (λ e. IsUncaused e ⊎ StopsAt F.tells (F.held files.old) (inputs_as inputs.now) (IsUnread F.tells (F.held files.old) (λ q. Rose (F.load_faults files.old q) (F.load_faults files.new q)) e)) }
    ensures asked { AsksAtMost F.history files.old files.new (loads_of (inputs_as inputs.now)) }
    ensures held { F.held files.new ≡ F.held files.old }
    ensures save_faults { (q : List ℕ) → F.save_faults files.old q ≤ F.save_faults files.new q }
{
    let mut contents = Vec::new(alloc);
    for input in inputs {
        let bytes = load(alloc, input, files)?;
        contents.push(bytes)?;
    }
    Ok(contents)
}

// The bytes of a file that has at most so many.
fn load<'a, F: Files>(
    alloc: Global,
    input: &Input<'a>,
    files: &mut F,
) -> Result<Vec<u8>, Refusal<'a>>
    ensures read { IfOk result (λ bytes. IsRead F.tells (F.held files.old) (input_as input.now) bytes.items) }
    ensures unread { IfErr result (λ e. IsUncaused e ⊎ IsUnread F.tells (F.held files.old) (λ q. Rose (F.load_faults files.old q) (F.load_faults files.new q)) e (input_as input.now)) }
    ensures asked { Asked F.history files.old files.new (Load input.now.name.now ∷ []) }
    ensures held { F.held files.new ≡ F.held files.old }
    ensures load_faults { (q : List ℕ) → F.load_faults files.old q ≤ F.load_faults files.new q }
    ensures save_faults { (q : List ℕ) → F.save_faults files.old q ≤ F.save_faults files.new q }
{
    let mut bytes = Vec::new(alloc);
    match files.load(input.name, input.limit, &mut bytes) {
        Loaded::Done => Ok(bytes),
        Loaded::TooLong => Err(Refusal::TooLarge(input.limit)),
        Loaded::Failed => Err(Refusal::ReadFault(input.name)),
        Loaded::NoMemory => Err(Refusal::NoMemory),
    }
}
