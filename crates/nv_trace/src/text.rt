// The text of the writes of a trace.

ghost use Rattle.std.specs.Prelude.{◌≡◌, ◌-◌, ◌<◌, ◌≤◌, ◌^◌, ◌++◌, ◌∷◌, List, ℕ, [], length, map, take, IfOk, OnOk};
ghost use Rattle.std.specs.List.{flat_map};
ghost use Rattle.nv_lines.specs.LineColumn.{line_at};
ghost use Rattle.nv_meaning_values.specs.Chains.{made_in, trail_of};
ghost use Rattle.nv_memtext.specs.OutcomeText.{write_line};
ghost use Rattle.nv_trace.specs.TraceText.{made_line, up_to_line, shown, trace_text as text_of_writes};

use crate::lines::line_of;
use nv_ast::{Name, Span};
use nv_base::{NoMemory, Write};
use nv_lines::push_decimal;
use nv_meaning_values::{Made, Trace};
use nv_memtext::push_words;
use std::alloc::{AllocError, Global};

/// The text of the first writes of a trace of this source, at most so many; where a line is given,
/// they end with the first whose statement begins there, if there is one.
pub fn trace_text(
    alloc: Global,
    source: &[u8],
    trace: &Trace,
    most: usize,
    line: Option<u32>,
) -> Result<Vec<u8>, NoMemory>
    requires { length source.now < 2 ^ 32 - 1 }
    ensures { IfOk result (λ text. text.items ≡ text_of_writes source.now (shown source.now line (take most (trail_of trace.now).kept))) }
{
    let made = trace.kept();
    let count = shown_count(source, &made[..most.min(made.len())], line);
    let mut text = Vec::new(alloc);
    push_lines(alloc, &mut text, source, trace, count)?;
    text.extend_from_slice(b"traced ")?;
    push_decimal(&mut text, count as u64)?;
    text.push(b'\n')?;
    Ok(text)
}

// How many of these writes are shown.
fn shown_count(source: &[u8], made: &[Made], line: Option<u32>) -> usize
    requires { length source.now < 2 ^ 32 - 1 }
    ensures inside { result ≤ length made.now }
    ensures shown { (chains : List (List (List ℕ))) → map (made_in chains) (take result made.now) ≡ shown source.now line (map (made_in chains) made.now) }
{
    match line {
        None => made.len(),
        Some(line) => count_to_line(source, made, line),
    }
}

// How many these are up to the first whose statement begins on the line.
fn count_to_line(source: &[u8], made: &[Made], line: u32) -> usize
    requires { length source.now < 2 ^ 32 - 1 }
    ensures inside { result ≤ length made.now }
    ensures shown { (chains : List (List (List ℕ))) → map (made_in chains) (take result made.now) ≡ up_to_line source.now line (map (made_in chains) made.now) }
{
    let mut count = 0;
    while count < made.len() {
        if line_in(source, made[count].span) == line {
            return count + 1;
        }
        count += 1;
    }
    count
}

// The line on which a place of the text begins.
fn line_in(source: &[u8], span: Span) -> u32
    requires { length source.now < 2 ^ 32 - 1 }
    ensures { result ≡ line_at source.now span.first }
{
    let end = source.len() as u32;
    line_of(source, span.first.min(end))
}

// Writes a line for each of the first writes of a trace.
fn push_lines(
    alloc: Global,
    text: &mut Vec<u8>,
    source: &[u8],
    trace: &Trace,
    count: usize,
) -> Result<(), NoMemory>
    requires short { length source.now < 2 ^ 32 - 1 }
    requires inside { count ≤ length trace.now.kept }
    ensures { OnOk result (text.new.items ≡ text.old.items ++ flat_map (λ m. made_line source.now (made_in trace.now.chains m) ++ 10 ∷ []) (take count trace.now.kept)) }
{
    let made = trace.kept();
    for i in 0..count {
        let names = trace.chain(alloc, made[i].chain)?;
        push_made(text, source, &made[i], &names)?;
    }
    Ok(())
}

// Writes the line of a write that was made through calls of these functions.
fn push_made(
    text: &mut Vec<u8>,
    source: &[u8],
    made: &Made,
    names: &[Name],
) -> Result<(), AllocError>
    requires { length source.now < 2 ^ 32 - 1 }
    ensures { OnOk result (text.new.items ≡ text.old.items ++ (made_line source.now (record { write = made.now.write; span = made.now.span; chain = names.now }) ++ 10 ∷ [])) }
{
    push_write(text, &made.write)?;
    text.extend_from_slice(b" line ")?;
    push_decimal(text, u64::from(line_in(source, made.span)))?;
    text.extend_from_slice(b" in")?;
    push_names(text, names)?;
    Ok(text.push(b'\n')?)
}

// Writes a write, without the line's end.
fn push_write(text: &mut Vec<u8>, write: &Write) -> Result<(), AllocError>
    ensures { OnOk result (text.new.items ≡ text.old.items ++ write_line write.now) }
{
    text.extend_from_slice(b"write ")?;
    text.extend_from_slice(write.mem.name())?;
    text.push(b' ')?;
    push_decimal(text, u64::from(write.at))?;
    push_words(text, write.words.list())?;
    Ok(())
}

// Writes names, each after a space.
fn push_names(text: &mut Vec<u8>, names: &[Name]) -> Result<(), AllocError>
    ensures { OnOk result (text.new.items ≡ text.old.items ++ flat_map (λ x. 32 ∷ x) names.now) }
{
    for name in names {
        text.push(b' ')?;
        text.extend_from_slice(name.bytes())?;
    }
    Ok(())
}
