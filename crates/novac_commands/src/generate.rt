//! The command `gen`.
ghost use Rattle.std.specs.Prelude.{◌≡◌, ◌≤◌, ◌⊎◌, [], length, IfOk, IfErr};
ghost use Rattle.nv_ast.specs.TypedView.{typed_program};
ghost use Rattle.zo_cert.specs.Report.{IsValidReport};
ghost use Rattle.nova_back.specs.Causes.{report_cost};
ghost use Rattle.nova_compile.specs.Forms.{IsCodeFor};
ghost use Rattle.novac_commands.specs.Generating.{MeansWord, IsGenerated, GenRefuses, generated_text};
ghost use Rattle.novac_commands.specs.Compiling.{CompileRefuses};
ghost use Rattle.novac_words.specs.Limits.{source_limit, slots_limit, budget_default, store_limit};
ghost use Rattle.novac_words.specs.Lines.{IsUncaused};
ghost use Rattle.novac_words.specs.declared.status.Status.{Status};
ghost use Rattle.nova_compile.specs.inner.Parts.{IsBuilt};
ghost use Rattle.novac_commands.specs.inner.Generated.{HasRoom, HasWord, AreWord, TellsOf};

use crate::compile::{CompileOutcome, outcome_evenly};
use nova_compile::Compiled;
use novac_words::limits::{DEFAULT_BUDGET, MOST_SLOTS, MOST_STORE, SPILL_BASE};
use novac_words::{Options, Refusal, Reply, Status, push_verdict};
use nv_ast::Typed;
use nv_base::{Mem, NoMemory, Outcome, Packet, Words, WriteLog};
use nv_generate::made_text;
use nv_lines::{push_decimal, push_word};
use nv_meaning::exec;
use std::alloc::Global;
use uc_isa::Engine;
use uc_sim::simulate;
use zo_cert::Report;
use zo_model::cost;

/// The most steps of the run of the code, and the most calls of that of the source.
const STEPS: u64 = 100_000_000;

/// Makes the source of a seed, compiles it, runs its code on the arguments 1 and 2, and tells how long both are, the verdict on
/// its banks, and the word.
pub fn generate<'a>(alloc: Global, seed: u32, size: u32) -> Result<Reply, Refusal<'a>>
    requires some { 1 ≤ size }
    requires few { size ≤ 500 }
    ensures generated { IfOk result (λ r. IsGenerated seed size r.text.items) }
    ensures done { IfOk result (λ r. r.status ≡ Status.Done) }
    ensures refused { IfErr result (λ e. IsUncaused e ⊎ GenRefuses seed size e) }
{
    let source = made_text(alloc, seed, size)?;
    let compiled = compiled_of(alloc, &source)?;
    let text = text_of(alloc, seed, size, source.len() as u64, &compiled);
    // By a call, as in `compile_bytes`.
    drop(compiled);
    Ok(Reply {
        status: Status::Done,
        text: text?,
    })
}

// The line of a seed, a size, the number of bytes of its source, and what that is compiled to.
fn text_of(
    alloc: Global,
    seed: u32,
    size: u32,
    bytes: u64,
    t: &Compiled,
) -> Result<Vec<u8>, NoMemory>
    requires word { HasWord (typed_program t.now.typed) }
    requires code { IsCodeFor (typed_program t.now.typed) t.now.built.code }
    requires report { IsValidReport t.now.built.report }
    ensures { IfOk result (λ out. TellsOf seed size bytes t.now out.items) }
{
    let word = word_of(alloc, t)?;
    let instructions = t.built.code.list().len() as u64;
    let text = line_of(
        alloc,
        seed,
        size,
        bytes,
        instructions,
        &t.built.report,
        word,
    )?;
    Ok(text)
}

// The code of a made source: there are more slots than its program has room, so banks are always found.
fn compiled_of<'a>(alloc: Global, source: &[u8]) -> Result<Compiled, Refusal<'a>>
    requires short { length source.now ≤ source_limit }
    requires narrow { HasRoom source.now }
    ensures built { IfOk result (IsBuilt source.now slots_limit [] budget_default store_limit) }
    ensures refused { IfErr result (λ e. IsUncaused e ⊎ CompileRefuses source.now slots_limit [] budget_default store_limit e) }
{
    let options = Options {
        slots: MOST_SLOTS,
        budget: DEFAULT_BUDGET,
        store: MOST_STORE,
    };
    match outcome_evenly(alloc, source, options)? {
        CompileOutcome::Code(compiled) => Ok(compiled),
        CompileOutcome::Infeasible(_) | CompileOutcome::Spent(_) => unreachable!(),
    }
}

// The word that a program comes to on the arguments 1 and 2, without words of SRAM and SDRAM.
fn word_of(alloc: Global, t: &Compiled) -> Result<u32, NoMemory>
    requires word { HasWord (typed_program t.now.typed) }
    requires code { IsCodeFor (typed_program t.now.typed) t.now.built.code }
    ensures { IfOk result (MeansWord (typed_program t.now.typed)) }
{
    let words = code_words(alloc, t)?;
    Ok(words.list()[0])
}

// The words with which its code ends; where that takes more steps than are given, those with which its source does.
fn code_words(alloc: Global, t: &Compiled) -> Result<Words, NoMemory>
    requires word { HasWord (typed_program t.now.typed) }
    requires code { IsCodeFor (typed_program t.now.typed) t.now.built.code }
    ensures { IfOk result (AreWord (typed_program t.now.typed)) }
{
    let code = &t.built.code;
    // The check has to be told that the code has an instruction, and of the memories' sizes.
    let _list = code.list();
    let mut packet = empty(alloc)?;
    let _size = packet.size(Mem::Sram);
    let mut engine = Engine::start(&[1, 2], SPILL_BASE);
    let mut log = WriteLog::new(alloc, 0)?;
    match simulate(code, &mut engine, &mut packet, &mut log, STEPS) {
        Outcome::Ended(words) => Ok(words),
        _ => source_words(alloc, &t.typed),
    }
}

// The words with which a program ends.
fn source_words(alloc: Global, t: &Typed) -> Result<Words, NoMemory>
    requires { HasWord (typed_program t.now) }
    ensures { IfOk result (AreWord (typed_program t.now)) }
{
    let mut packet = empty(alloc)?;
    let mut log = WriteLog::new(alloc, 0)?;
    match exec(alloc, t, &[1, 2], &mut packet, &mut log, STEPS)? {
        Outcome::Ended(words) => Ok(words),
        _ => unreachable!(),
    }
}

// Memories without words of SRAM and SDRAM.
fn empty(alloc: Global) -> Result<Packet, NoMemory> {
    match Packet::new(alloc, 0, 0) {
        Ok(packet) => Ok(packet),
        Err(_) => Err(NoMemory),
    }
}

// The line of a seed, a size, a number of bytes, one of instructions, a report, and a word.
fn line_of(
    alloc: Global,
    seed: u32,
    size: u32,
    bytes: u64,
    instructions: u64,
    report: &Report,
    word: u32,
) -> Result<Vec<u8>, NoMemory>
    requires { IsValidReport report.now }
    ensures { IfOk result (λ out. out.items ≡ generated_text seed size bytes instructions report.now.verdict (report_cost report.now) word) }
{
    let mut out = Vec::new(alloc);
    out.extend_from_slice(b"gen ")?;
    push_decimal(&mut out, u64::from(seed))?;
    out.extend_from_slice(b" ")?;
    push_decimal(&mut out, u64::from(size))?;
    out.extend_from_slice(b" source ")?;
    push_decimal(&mut out, bytes)?;
    out.extend_from_slice(b" length ")?;
    push_decimal(&mut out, instructions)?;
    out.extend_from_slice(b" ")?;
    push_verdict(&mut out, report.verdict)?;
    out.extend_from_slice(b" ")?;
    push_decimal(&mut out, cost(&report.z, &report.x))?;
    out.extend_from_slice(b" outcome ")?;
    push_word(&mut out, word)?;
    out.push(b'\n')?;
    Ok(out)
}
