//! What a command makes of the contents of its inputs.
ghost use Rattle.std.specs.Prelude.{◌≡◌, ◌⊎◌, ◌∷◌, [], IfOk, IfErr};
ghost use Rattle.novac_commands.specs.Answers.{Makes, Refuses};
ghost use Rattle.novac_words.specs.inner.Words.{command_as, HasLimits};
ghost use Rattle.novac_words.specs.Lines.{IsUncaused};
ghost use Rattle.novac_commands.specs.Loading.{inputs_of};
ghost use Rattle.novac_commands.specs.inner.Contents.{contents_of, AreShort};
ghost use Rattle.novac_machine.specs.inner.Files.{files_of, AreTold};
ghost use Rattle.novac_commands.specs.inner.Replies.{IsShown};
ghost use Rattle.novac_machine.specs.inner.Outcomes.{IsOutcome};

use crate::compile::{compile_bytes, compile_weighed};
use crate::count::counts_bytes;
use crate::execute::exec_bytes;
use crate::generate::generate;
use crate::report::check_bytes;
use crate::trace::trace_bytes;
use novac_machine::{
    Made, Outputs, assemble_bytes, contexts_bytes, lint_bytes, list_bytes, peep_bytes, run_bytes,
};
use novac_words::{Command, Refusal, Reply};
use std::alloc::Global;

/// Does what a command is for, but for loading, saving and printing.
pub fn work<'a>(
    alloc: Global,
    command: Command<'a>,
    inputs: &Vec<Vec<u8>>,
) -> Result<Made<'a>, Refusal<'a>>
    requires limits { HasLimits command }
    requires short { AreShort (inputs_of (command_as command)) (contents_of inputs.now.items) }
    ensures made { IfOk result (λ m. Makes (command_as command.entry) (contents_of inputs.now.items) m.status (files_of m.outputs) m.text.items) }
    ensures told { IfOk result (λ m. AreTold m.outputs) }
    ensures end { IfOk result (λ m. IsOutcome m.status) }
    ensures refused { IfErr result (λ e. IsUncaused e ⊎ Refuses (command_as command.entry) (contents_of inputs.now.items) e) }
{
    match inputs.as_slice() {
        [] => work_alone(alloc, command),
        [input] => work_on(alloc, command, input),
        [input, text] => work_on_two(alloc, command, input, text),
        [input, text, turns] => work_on_three(alloc, command, input, text, turns),
        _ => unreachable!(),
    }
}

// Does what a command without an input is for.
fn work_alone<'a>(alloc: Global, command: Command<'a>) -> Result<Made<'a>, Refusal<'a>>
    requires limits { HasLimits command }
    requires short { AreShort (inputs_of (command_as command)) [] }
    ensures made { IfOk result (λ m. Makes (command_as command.entry) [] m.status (files_of m.outputs) m.text.items) }
    ensures told { IfOk result (λ m. AreTold m.outputs) }
    ensures end { IfOk result (λ m. IsOutcome m.status) }
    ensures refused { IfErr result (λ e. IsUncaused e ⊎ Refuses (command_as command.entry) [] e) }
{
    match command {
        Command::Gen(seed, size) => shown(generate(alloc, seed, size)),
        Command::Compile(_, _, _, _, _)
        | Command::Run(_, _, _)
        | Command::Exec(_, _, _)
        | Command::Asm(_, _)
        | Command::Dis(_)
        | Command::Lint(_)
        | Command::Check(_)
        | Command::Trace(_, _, _, _)
        | Command::Contexts(_, _, _)
        | Command::Peep(_, _)
        | Command::Counts(_, _, _, _) => unreachable!(),
    }
}

// Does what a command with one input is for.
fn work_on<'a>(
    alloc: Global,
    command: Command<'a>,
    input: &Vec<u8>,
) -> Result<Made<'a>, Refusal<'a>>
    requires limits { HasLimits command }
    requires short { AreShort (inputs_of (command_as command)) (input.now.items ∷ []) }
    ensures made { IfOk result (λ m. Makes (command_as command.entry) (input.now.items ∷ []) m.status (files_of m.outputs) m.text.items) }
    ensures told { IfOk result (λ m. AreTold m.outputs) }
    ensures end { IfOk result (λ m. IsOutcome m.status) }
    ensures refused { IfErr result (λ e. IsUncaused e ⊎ Refuses (command_as command.entry) (input.now.items ∷ []) e) }
{
    match command {
        Command::Compile(_, object, report, options, _) => {
            compile_bytes(alloc, input, object, report, options)
        }
        Command::Asm(_, object) => assemble_bytes(alloc, input, object),
        Command::Dis(_) => shown(list_bytes(alloc, input)),
        Command::Lint(_) => shown(lint_bytes(alloc, input)),
        Command::Check(_) => shown(check_bytes(alloc, input)),
        Command::Peep(_, output) => peep_bytes(alloc, input, output),
        Command::Run(_, _, _)
        | Command::Exec(_, _, _)
        | Command::Gen(_, _)
        | Command::Trace(_, _, _, _)
        | Command::Contexts(_, _, _)
        | Command::Counts(_, _, _, _) => unreachable!(),
    }
}

// Does what a command with two inputs is for.
fn work_on_two<'a>(
    alloc: Global,
    command: Command<'a>,
    input: &Vec<u8>,
    text: &Vec<u8>,
) -> Result<Made<'a>, Refusal<'a>>
    requires limits { HasLimits command }
    requires short { AreShort (inputs_of (command_as command)) (input.now.items ∷ text.now.items ∷ []) }
    ensures made { IfOk result (λ m. Makes (command_as command.entry) (input.now.items ∷ text.now.items ∷ []) m.status (files_of m.outputs) m.text.items) }
    ensures told { IfOk result (λ m. AreTold m.outputs) }
    ensures end { IfOk result (λ m. IsOutcome m.status) }
    ensures refused { IfErr result (λ e. IsUncaused e ⊎ Refuses (command_as command.entry) (input.now.items ∷ text.now.items ∷ []) e) }
{
    match command {
        Command::Run(_, _, steps) => shown(run_bytes(alloc, input, text, steps)),
        Command::Exec(_, _, calls) => shown(exec_bytes(alloc, input, text, calls)),
        Command::Counts(_, _, output, jumps) => counts_bytes(alloc, input, text, output, jumps),
        Command::Compile(_, object, report, options, _) => {
            compile_weighed(alloc, input, text, object, report, options)
        }
        Command::Asm(_, _)
        | Command::Dis(_)
        | Command::Lint(_)
        | Command::Check(_)
        | Command::Gen(_, _)
        | Command::Trace(_, _, _, _)
        | Command::Contexts(_, _, _)
        | Command::Peep(_, _) => unreachable!(),
    }
}

// Does what a command with three inputs is for.
fn work_on_three<'a>(
    alloc: Global,
    command: Command<'a>,
    first: &Vec<u8>,
    second: &Vec<u8>,
    third: &Vec<u8>,
) -> Result<Made<'a>, Refusal<'a>>
    requires limits { HasLimits command }
    requires short { AreShort (inputs_of (command_as command)) (first.now.items ∷ second.now.items ∷ third.now.items ∷ []) }
    ensures made { IfOk result (λ m. Makes (command_as command.entry) (first.now.items ∷ second.now.items ∷ third.now.items ∷ []) m.status (files_of m.outputs) m.text.items) }
    ensures told { IfOk result (λ m. AreTold m.outputs) }
    ensures end { IfOk result (λ m. IsOutcome m.status) }
    ensures refused { IfErr result (λ e. IsUncaused e ⊎ Refuses (command_as command.entry) (first.now.items ∷ second.now.items ∷ third.now.items ∷ []) e) }
{
    match command {
        Command::Contexts(_, _, _) => shown(contexts_bytes(alloc, first, second, third)),
        Command::Trace(_, _, _, tracing) => shown(trace_bytes(
            alloc, first, second, third, tracing,
        )),
        Command::Compile(_, _, _, _, None)
        | Command::Compile(_, _, _, _, Some(_))
        | Command::Run(_, _, _)
        | Command::Exec(_, _, _)
        | Command::Asm(_, _)
        | Command::Dis(_)
        | Command::Lint(_)
        | Command::Check(_)
        | Command::Gen(_, _)
        | Command::Peep(_, _)
        | Command::Counts(_, _, _, _) => unreachable!(),
    }
}

// What is printed alone, without a file.
fn shown<'a>(reply: Result<Reply, Refusal<'a>>) -> Result<Made<'a>, Refusal<'a>>
    ensures { IsShown reply.entry result }
{
    match reply {
        Ok(Reply { status, text }) => Ok(Made {
            status,
            text,
            outputs: Outputs::Nothing,
        }),
        Err(e) => Err(e),
    }
}
