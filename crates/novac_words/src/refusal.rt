//! Why a command isn't done, and the line that says so.
ghost use Rattle.std.specs.Prelude.{◌≡◌, ◌++◌, ◌∷◌, [], IfOk, OnOk};
ghost use Rattle.novac_words.specs.Lines.{refusal_text, refusal_status, counted, named, ruled, trace_params_text, type_text, verdict_name, compiled_text, peeped_text};
ghost use Rattle.novac_words.specs.declared.refusal.Refusal.TheVariants.{NoMemory as WantOfMemory};

use crate::status::Status;
use nv_ast::Span;
use nv_base::NoMemory;
use nv_lines::push_decimal;
use std::alloc::{AllocError, AllocFailed, Global};
use zo_cert::Verdict;

/// Why a command isn't done.
#[derive(Clone, Copy)]
pub enum Refusal<'a> {
    NoMemory,
    /// The file with this name couldn't be read.
    ReadFault(&'a str),
    /// A file has more bytes than this limit, or a memory text asks for a memory of this size, above 65,536: of words of SRAM
    /// or quadwords of SDRAM.
    TooLarge(u64),
    /// A byte of a source that begins no token; places are counted from 0.
    SourceChar(u32),
    /// The first byte of a number of a source above 4,294,967,295.
    SourceNumber(u32),
    /// The first byte of a word of a source longer than 64 bytes.
    SourceName(u32),
    /// The first token of a source with which it begins no program, or its length.
    SourceSyntax(u32),
    /// The first token of a source with which every program is nested too deep.
    SourceDeep(u32),
    /// The kind of the first fault of a source's types, and where it lies.
    SourceType(u8, Span),
    /// The expanded size of a source's program, which is over 4,096; or the number of columns of the 0-1 program of its
    /// banks, or else that of its rows, which is over 2^26.
    SourceLarge(u64),
    /// The first line of an assembly text that isn't of its form, counted from 1.
    Syntax(u32),
    /// The first line of an assembly text with a label that is declared before, or nowhere.
    Label(u32),
    /// The place at which the bytes stop to begin an object.
    BadObject(u32),
    /// The first line of a memory text that isn't of its form, counted from 1.
    BadMemoryText(u32),
    /// The first line of a report that isn't of its form, counted from 1.
    BadReport(u32),
    /// The report isn't true.
    FalseReport,
    /// The first place of a code that isn't lawful, and the least rule that is broken there.
    Unlawful(u32, u8),
    /// The first line of an assembly text whose instruction isn't lawful, and the least rule that it breaks.
    UnlawfulLine(u32, u8),
    /// The number of instructions of a source's code, more than were allowed.
    StoreFull(u32),
    /// The first line of a text of weights that isn't of its form, counted from 1.
    BadWeights(u32),
    /// The first line of a schedule that isn't of its form, counted from 1.
    BadSchedule(u32),
    /// The number of a code's parameters, and another one, of the words of a source's main.
    TraceParams(u8, u8),
    /// The first place, counted from 0, at which the writes of a code and of a source differ.
    TraceWrite(u32),
}

impl<'a> From<NoMemory> for Refusal<'a> {
    ghost from_gives = { λ _ e. e ≡ WantOfMemory };

    fn from(_error: NoMemory) -> Refusal<'a> {
        Refusal::NoMemory
    }
}

impl<'a> From<AllocError> for Refusal<'a> {
    ghost from_gives = { λ _ e. e ≡ WantOfMemory };

    fn from(_error: AllocError) -> Refusal<'a> {
        Refusal::NoMemory
    }
}

impl<'a, T: Drop> From<AllocFailed<T>> for Refusal<'a> {
    ghost from_gives = { λ _ e. e ≡ WantOfMemory };

    fn from(_error: AllocFailed<T>) -> Refusal<'a> {
        Refusal::NoMemory
    }
}

impl<'a> Refusal<'a> {
    /// The status that the program ends with.
    pub fn status(&self) -> Status
        ensures { result ≡ refusal_status self.now }
    {
        match self {
            Refusal::NoMemory => Status::NoMemory,
            Refusal::ReadFault(_) => Status::ReadFault,
            Refusal::TooLarge(_) | Refusal::SourceLarge(_) => Status::TooLarge,
            Refusal::SourceChar(_)
            | Refusal::SourceNumber(_)
            | Refusal::SourceName(_)
            | Refusal::SourceSyntax(_)
            | Refusal::SourceDeep(_)
            | Refusal::Syntax(_)
            | Refusal::Label(_) => Status::Syntax,
            Refusal::SourceType(_, _) => Status::TypeFault,
            Refusal::BadObject(_) => Status::BadObject,
            Refusal::BadMemoryText(_) => Status::BadMemoryText,
            Refusal::BadReport(_) | Refusal::FalseReport => Status::CertificateRefused,
            Refusal::Unlawful(_, _) | Refusal::UnlawfulLine(_, _) => Status::Unlawful,
            Refusal::StoreFull(_) => Status::StoreFull,
            Refusal::BadWeights(_) => Status::BadWeights,
            Refusal::BadSchedule(_) => Status::BadSchedule,
            Refusal::TraceParams(_, _) | Refusal::TraceWrite(_) => Status::Disagrees,
        }
    }

    /// The line that says why.
    pub fn text(&self, alloc: Global) -> Result<Vec<u8>, NoMemory>
        ensures { IfOk result (λ text. text.items ≡ refusal_text self.now) }
    {
        match *self {
            Refusal::NoMemory => Ok(Vec::new(alloc)),
            Refusal::ReadFault(name) => named_line(alloc, b"cannot read ", name),
            Refusal::TooLarge(n) => counted_line(alloc, b"too large ", n),
            Refusal::SourceChar(at) => counted_line(alloc, b"syntax char at ", u64::from(at)),
            Refusal::SourceNumber(at) => counted_line(alloc, b"syntax number at ", u64::from(at)),
            Refusal::SourceName(at) => counted_line(alloc, b"syntax name at ", u64::from(at)),
            Refusal::SourceSyntax(at) => counted_line(alloc, b"syntax syntax at ", u64::from(at)),
            Refusal::SourceDeep(at) => counted_line(alloc, b"syntax deep at ", u64::from(at)),
            Refusal::SourceType(kind, span) => type_line(alloc, kind, span),
            Refusal::SourceLarge(n) => counted_line(alloc, b"too large ", n),
            Refusal::Syntax(n) => counted_line(alloc, b"syntax text line ", u64::from(n)),
            Refusal::Label(n) => counted_line(alloc, b"syntax label line ", u64::from(n)),
            Refusal::BadObject(n) => counted_line(alloc, b"object ", u64::from(n)),
            Refusal::BadMemoryText(n) => counted_line(alloc, b"memory line ", u64::from(n)),
            Refusal::BadReport(n) => counted_line(alloc, b"report line ", u64::from(n)),
            Refusal::FalseReport => line(alloc, b"report refused"),
            Refusal::Unlawful(n, rule) => ruled_line(alloc, b"unlawful place ", n, rule),
            Refusal::UnlawfulLine(n, rule) => ruled_line(alloc, b"unlawful line ", n, rule),
            Refusal::StoreFull(n) => counted_line(alloc, b"store ", u64::from(n)),
            Refusal::BadWeights(n) => counted_line(alloc, b"weights line ", u64::from(n)),
            Refusal::BadSchedule(n) => counted_line(alloc, b"schedule line ", u64::from(n)),
            Refusal::TraceParams(code, main) => trace_params_line(alloc, code, main),
            Refusal::TraceWrite(n) => counted_line(alloc, b"trace write ", u64::from(n)),
        }
    }
}

/// The line of this text.
pub fn line(alloc: Global, text: &[u8]) -> Result<Vec<u8>, NoMemory>
    ensures { IfOk result (λ out. out.items ≡ text.now ++ 10 ∷ []) }
{
    let mut out = Vec::new(alloc);
    out.extend_from_slice(text)?;
    out.push(b'\n')?;
    Ok(out)
}

/// The line of this text and a name.
pub fn named_line(alloc: Global, text: &[u8], name: &str) -> Result<Vec<u8>, NoMemory>
    ensures { IfOk result (λ out. out.items ≡ named text.now name.now) }
{
    let mut out = Vec::new(alloc);
    out.extend_from_slice(text)?;
    out.extend_from_slice(name.as_bytes())?;
    out.push(b'\n')?;
    Ok(out)
}

/// The line of this text and a number.
pub fn counted_line(alloc: Global, text: &[u8], n: u64) -> Result<Vec<u8>, NoMemory>
    ensures { IfOk result (λ out. out.items ≡ counted text.now n) }
{
    let mut out = Vec::new(alloc);
    out.extend_from_slice(text)?;
    push_decimal(&mut out, n)?;
    out.push(b'\n')?;
    Ok(out)
}

// The line of this text, a number and a rule.
fn ruled_line(alloc: Global, text: &[u8], n: u32, rule: u8) -> Result<Vec<u8>, NoMemory>
    ensures { IfOk result (λ out. out.items ≡ ruled text.now n rule) }
{
    let mut out = Vec::new(alloc);
    out.extend_from_slice(text)?;
    push_decimal(&mut out, u64::from(n))?;
    out.extend_from_slice(b" rule ")?;
    push_decimal(&mut out, u64::from(rule))?;
    out.push(b'\n')?;
    Ok(out)
}

// The line of a number of parameters and a number of main's words.
fn trace_params_line(alloc: Global, code: u8, main: u8) -> Result<Vec<u8>, NoMemory>
    ensures { IfOk result (λ out. out.items ≡ trace_params_text code main) }
{
    let mut out = Vec::new(alloc);
    out.extend_from_slice(b"trace params ")?;
    push_decimal(&mut out, u64::from(code))?;
    out.push(b' ')?;
    push_decimal(&mut out, u64::from(main))?;
    out.push(b'\n')?;
    Ok(out)
}

// The line of a fault of types.
fn type_line(alloc: Global, kind: u8, span: Span) -> Result<Vec<u8>, NoMemory>
    ensures { IfOk result (λ out. out.items ≡ type_text kind span) }
{
    let mut out = Vec::new(alloc);
    out.extend_from_slice(b"type ")?;
    push_decimal(&mut out, u64::from(kind))?;
    out.extend_from_slice(b" at ")?;
    push_decimal(&mut out, u64::from(span.first))?;
    out.extend_from_slice(b" ")?;
    push_decimal(&mut out, u64::from(span.after))?;
    out.push(b'\n')?;
    Ok(out)
}

/// Writes what a search found.
pub fn push_verdict(out: &mut Vec<u8>, verdict: Verdict) -> Result<(), AllocError>
    ensures { OnOk result (out.new.items ≡ out.old.items ++ verdict_name verdict) }
{
    match verdict {
        Verdict::Optimal => out.extend_from_slice(b"optimal"),
        Verdict::Feasible => out.extend_from_slice(b"feasible"),
        Verdict::Infeasible => out.extend_from_slice(b"infeasible"),
        Verdict::Spent => out.extend_from_slice(b"spent"),
    }
}

/// The line of a compilation: the number of instructions, and the verdict on the banks with the cost.
pub fn compiled_line(
    alloc: Global,
    instructions: u64,
    verdict: Verdict,
    cost: u64,
) -> Result<Vec<u8>, NoMemory>
    ensures { IfOk result (λ out. out.items ≡ compiled_text instructions verdict cost) }
{
    let mut out = Vec::new(alloc);
    out.extend_from_slice(b"compiled ")?;
    push_decimal(&mut out, instructions)?;
    out.push(b' ')?;
    push_verdict(&mut out, verdict)?;
    out.push(b' ')?;
    push_decimal(&mut out, cost)?;
    out.push(b'\n')?;
    Ok(out)
}

/// The line of code without its needless instructions: how many it had, and how many it has.
pub fn peeped_line(alloc: Global, before: u64, after: u64) -> Result<Vec<u8>, NoMemory>
    ensures { IfOk result (λ out. out.items ≡ peeped_text before after) }
{
    let mut out = Vec::new(alloc);
    out.extend_from_slice(b"peeped ")?;
    push_decimal(&mut out, before)?;
    out.push(b' ')?;
    push_decimal(&mut out, after)?;
    out.push(b'\n')?;
    Ok(out)
}
