//! Text as code.
ghost use Rattle.std.specs.Prelude.{◌<◌, ◌^◌, ℕ, [], length, true, Ok, Err, IfOk, IfErr};
ghost use Rattle.uc_isa.specs.Code.{CodeView};
ghost use Rattle.uc_asm.specs.Answer.{Answers, IsTrueError};
ghost use Rattle.uc_asm.specs.Labels.{AreNamed, AreResolved, IsCodeOf, IsLabelError, IsUnlawfulError};
ghost use Rattle.uc_asm.specs.inner.Reading.{HasItems};
ghost use Rattle.uc_asm.specs.inner.Resolving.{IsNameError};
ghost use Rattle.uc_asm.specs.inner.Seen.{all_seen};
ghost use Rattle.uc_asm.specs.Text.{IsSyntaxError, Reads};

use crate::AsmError;
use crate::item::{Item, has_instruction};
use crate::labels::declarations;
use crate::line::{item_of, params_of};
use crate::resolve::{instructions, line_at, line_of};
use nv_lines::Lines;
use std::alloc::Global;
use uc_isa::{Code, Dst, Gpr, Instr, Src, lint};

// The items of a text.
#[derive(Drop)]
struct Text<'a> {
    params: u8,
    items: Vec<Item<'a>>,
}

/// Assembles a text into lawful code.
///
/// An error of syntax comes before one of labels, and that before a broken rule, wherever in the text they are.
pub fn assemble(alloc: Global, text: &[u8]) -> Result<Code, AsmError>
    requires { length text.now < 2 ^ 32 }
    ensures code { IfOk result (λ c. IsCodeOf text.now c) }
    ensures error { IfErr result (IsTrueError text.now) }
    ensures given { (c : CodeView) → IsCodeOf text.now c → Answers result (Ok c) }
    ensures syntax { (n : ℕ) → IsSyntaxError text.now n → Answers result (Err (AsmError.Syntax n)) }
    ensures label { (n : ℕ) → IsLabelError text.now n → Answers result (Err (AsmError.Label n)) }
    ensures unlawful { (n rule : ℕ) → IsUnlawfulError text.now n rule → Answers result (Err (AsmError.Unlawful n rule)) }
{
    assembled(alloc, text)
}

// The answer; that no other one is true is said above.
fn assembled(alloc: Global, text: &[u8]) -> Result<Code, AsmError>
    requires { length text.now < 2 ^ 32 }
    ensures code { IfOk result (λ c. IsCodeOf text.now c) }
    ensures error { IfErr result (IsTrueError text.now) }
{
    let read = read_text(alloc, text)?;
    let list = listed(alloc, &read.items)?;
    let code = Code::new(read.params, list);
    match lint(&code) {
        None => Ok(code),
        Some((place, rule)) => Err(AsmError::Unlawful(line_of(&read.items, place), rule)),
    }
}

// The instructions of the items, each label in its place.
fn listed(alloc: Global, items: &[Item]) -> Result<Vec<Instr>, AsmError>
    requires { length items.now < 2 ^ 31 }
    ensures named { IfOk result (λ list. AreNamed (all_seen items.now)) }
    ensures resolved { IfOk result (λ list. AreResolved (all_seen items.now) (all_seen items.now) list.items) }
    ensures error { IfErr result (IsNameError (all_seen items.now)) }
{
    let labels = declarations(alloc, items)?;
    instructions(alloc, items, &labels)
}

// Line 1.
fn read_params(lines: &mut Lines) -> Result<u8, AsmError>
    ensures ok { IfOk result (λ params. HasItems lines.old params [] lines.new) }
    ensures error { IfErr result (IsTrueError lines.old) }
{
    let Some(line) = lines.next_line() else {
        return Err(AsmError::Syntax(1));
    };
    match params_of(line) {
        Some(params) => Ok(params),
        None => Err(AsmError::Syntax(1)),
    }
}

// The items of all lines.
fn read_text<'a>(alloc: Global, text: &'a [u8]) -> Result<Text<'a>, AsmError>
    requires { length text.now < 2 ^ 32 }
    ensures reads { IfOk result (λ read. Reads text.now read.params (all_seen read.items.items)) }
    ensures few { IfOk result (λ read. length read.items.items < 2 ^ 31) }
    ensures error { IfErr result (IsTrueError text.now) }
{
    // The check wants the parts of an instruction named where a list of them is dropped.
    let _named: Option<(Dst, Gpr, Src)> = None;
    let mut lines = Lines::of(text);
    let params = read_params(&mut lines)?;
    let mut items = Vec::new(alloc);
    while let Some(line) = lines.next_line() {
        match item_of(line) {
            Some(item) => match items.push(item) {
                Ok(()) => {}
                Err(_) => return Err(AsmError::NoMemory),
            },
            None => return Err(AsmError::Syntax(line_at(items.len()))),
        }
    }
    if !lines.is_done() {
        return Err(AsmError::Syntax(line_at(items.len())));
    }
    if !has_instruction(&items) {
        return Err(AsmError::Syntax(line_at(items.len())));
    }
    Ok(Text { params, items })
}
