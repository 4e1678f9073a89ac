//! The files that a command reads.
ghost use Rattle.std.specs.Prelude.{◌≡◌, IfOk};
ghost use Rattle.novac_words.specs.Inputs.{input, inputs_of};
ghost use Rattle.novac_words.specs.Limits.{source_limit, object_limit, memory_limit, assembly_limit, report_limit, schedule_limit, weights_limit};
ghost use Rattle.novac_words.specs.inner.Words.{command_as};
ghost use Rattle.novac_words.specs.inner.Read.{input_as, inputs_as};

use crate::command::Command;
use crate::limits::{
    ASSEMBLY_LIMIT, MEMORY_LIMIT, OBJECT_LIMIT, REPORT_LIMIT, SCHEDULE_LIMIT, SOURCE_LIMIT,
    WEIGHTS_LIMIT,
};
use nv_base::NoMemory;
use std::alloc::Global;

/// A file that a command reads, and how many bytes it may have.
#[derive(Clone, Copy)]
pub struct Input<'a> {
    pub name: &'a str,
    pub limit: u64,
}

impl<'a> Command<'a> {
    /// The files that the command reads, in the order of the words.
    pub fn inputs(&self, alloc: Global) -> Result<Vec<Input<'a>>, NoMemory>
        ensures { IfOk result (λ inputs. inputs_as inputs.items ≡ inputs_of (command_as self.now)) }
    {
        let inputs = match *self {
            Command::Compile(name, _, _, _, None) => Vec::from_array(alloc, [source(name)])?,
            Command::Compile(name, _, _, _, Some(text)) => {
                Vec::from_array(alloc, [source(name), weights(text)])?
            }
            Command::Run(name, text, _) => Vec::from_array(alloc, [object(name), memory(text)])?,
            Command::Exec(name, text, _) => Vec::from_array(alloc, [source(name), memory(text)])?,
            Command::Asm(name, _) => Vec::from_array(alloc, [assembly(name)])?,
            Command::Dis(name) => Vec::from_array(alloc, [object(name)])?,
            Command::Lint(name) => Vec::from_array(alloc, [object(name)])?,
            Command::Check(name) => Vec::from_array(alloc, [report(name)])?,
            Command::Gen(_, _) => Vec::new(alloc),
            Command::Contexts(name, text, turns) => {
                Vec::from_array(alloc, [object(name), memory(text), schedule(turns)])?
            }
            Command::Peep(name, _) => Vec::from_array(alloc, [object(name)])?,
            Command::Trace(name, code, text, _) => {
                Vec::from_array(alloc, [source(name), object(code), memory(text)])?
            }
            Command::Counts(name, text, _, _) => {
                Vec::from_array(alloc, [source(name), memory(text)])?
            }
        };
        Ok(inputs)
    }
}

fn source(name: &str) -> Input<'_>
    ensures { input_as result ≡ input name.now source_limit }
{
    Input {
        name,
        limit: SOURCE_LIMIT,
    }
}

fn object(name: &str) -> Input<'_>
    ensures { input_as result ≡ input name.now object_limit }
{
    Input {
        name,
        limit: OBJECT_LIMIT,
    }
}

fn memory(name: &str) -> Input<'_>
    ensures { input_as result ≡ input name.now memory_limit }
{
    Input {
        name,
        limit: MEMORY_LIMIT,
    }
}

fn assembly(name: &str) -> Input<'_>
    ensures { input_as result ≡ input name.now assembly_limit }
{
    Input {
        name,
        limit: ASSEMBLY_LIMIT,
    }
}

fn report(name: &str) -> Input<'_>
    ensures { input_as result ≡ input name.now report_limit }
{
    Input {
        name,
        limit: REPORT_LIMIT,
    }
}

fn schedule(name: &str) -> Input<'_>
    ensures { input_as result ≡ input name.now schedule_limit }
{
    Input {
        name,
        limit: SCHEDULE_LIMIT,
    }
}

fn weights(name: &str) -> Input<'_>
    ensures { input_as result ≡ input name.now weights_limit }
{
    Input {
        name,
        limit: WEIGHTS_LIMIT,
    }
}
