//! The command `counts`.
ghost use Rattle.std.specs.Prelude.{◌≡◌, ◌≤◌, ◌⊎◌, ◌∷◌, [], length, IfOk, IfErr};
ghost use Rattle.nv_ast.specs.TypedView.{typed_program};
ghost use Rattle.nova_compile.specs.Sources.{IsTypedSource};
ghost use Rattle.novac_commands.specs.Entries.{CountsMake};
ghost use Rattle.novac_commands.specs.Executing.{ExecRefuses};
ghost use Rattle.nova_compile.specs.Forms.{IsBoundedFormOf};
ghost use Rattle.novac_commands.specs.Reading.{SourceRefuses};
ghost use Rattle.novac_words.specs.Limits.{source_limit, memory_limit};
ghost use Rattle.novac_words.specs.Lines.{IsUncaused};
ghost use Rattle.novac_machine.specs.Saving.{file};
ghost use Rattle.novac_machine.specs.inner.Files.{files_of, AreTold};
ghost use Rattle.novac_machine.specs.inner.Outcomes.{IsOutcome};
ghost use Rattle.ssu_ir.specs.View.{labels_view};

use crate::source::refusal_of;
use crate::{Counted, count_entries};
use nova_compile::front;
use nova_middle::middle;
use novac_machine::{Made, Output, Outputs, job_of};
use novac_words::Refusal;
use nv_ast::Typed;
use nv_base::{Mem, NoMemory};
use ssu_ir::Ssu;
use std::alloc::Global;

/// Runs the form in single use of the program that the bytes are the text of on the memories and arguments of a memory
/// text, with at most so many jumps, and saves how often each label was entered under a name.
pub fn counts_bytes<'a>(
    alloc: Global,
    bytes: &[u8],
    text: &[u8],
    name: &'a str,
    jumps: u64,
) -> Result<Made<'a>, Refusal<'a>>
    requires source { length bytes.now ≤ source_limit }
    requires memory { length text.now ≤ memory_limit }
    requires jumps { jumps ≤ 100000000 }
    ensures made { IfOk result (λ m. CountsMake bytes.now text.now name.now jumps m.status (files_of m.outputs) m.text.items) }
    ensures told { IfOk result (λ m. AreTold m.outputs) }
    ensures end { IfOk result (λ m. IsOutcome m.status) }
    ensures refused { IfErr result (λ e. IsUncaused e ⊎ ExecRefuses bytes.now text.now e) }
{
    let (program, form) = form_of(alloc, bytes)?;
    let job = job_of(alloc, text, program.params())?;
    // The check has to be told that the memories have their sizes.
    let _size = job.packet.size(Mem::Sram);
    let counted = count_entries(alloc, &form, job, jumps)?;
    Ok(counted_made(alloc, name, counted)?)
}

// The typed program of a source, and its form in single use.
fn form_of<'a>(alloc: Global, bytes: &[u8]) -> Result<(Typed, Ssu), Refusal<'a>>
    requires { length bytes.now ≤ source_limit }
    ensures source { IfOk result (λ r. IsTypedSource bytes.now (typed_program r.0)) }
    ensures form { IfOk result (λ r. IsBoundedFormOf (typed_program r.0) (labels_view r.1)) }
    ensures refused { IfErr result (λ e. IsUncaused e ⊎ SourceRefuses bytes.now e) }
{
    match front(alloc, bytes) {
        Ok((program, flat)) => {
            let form = middle(alloc, &flat)?;
            Ok((program, form))
        }
        Err(error) => Err(refusal_of(error)),
    }
}

// The text of counts that is to be saved, and the outcome.
fn counted_made<'a>(alloc: Global, name: &'a str, counted: Counted) -> Result<Made<'a>, NoMemory>
    ensures status { IfOk result (λ m. m.status ≡ counted.reply.status) }
    ensures text { IfOk result (λ m. m.text.items ≡ counted.reply.text.items) }
    ensures saves { IfOk result (λ m. files_of m.outputs ≡ file name.now counted.counts.items ∷ []) }
    ensures told { IfOk result (λ m. AreTold m.outputs) }
{
    let output = Output::new(alloc, name, counted.counts)?;
    Ok(Made {
        status: counted.reply.status,
        text: counted.reply.text,
        outputs: Outputs::One(output),
    })
}
