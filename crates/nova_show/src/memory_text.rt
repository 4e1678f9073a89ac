//! Memory texts that are loaded, and why a run on one is refused.
ghost use Rattle.std.specs.Prelude.{◌≡◌, ◌≤◌, length, IfSome};
ghost use Rattle.novac_words.specs.Limits.{memory_limit};

use crate::answer::Answer;
use crate::inputs::load;
use crate::refusal::push_refusal;
use diag_machine::explain_memory;
use diag_text::finding::{Code, Finding, Source};
use nova_memory::{ReadableError, args_place, memory_of_readable};
use novac_words::Refusal;
use novac_words::limits::MEMORY_LIMIT;
use nv_ast::Span;
use nv_lines::Message;
use nv_memtext::MemError;
use nv_outside::Files;
use std::alloc::Global;

/// A memory text.
#[derive(Drop)]
pub struct MemoryText {
    pub text: Vec<u8>,
    // The bytes of its file, where they say it in the readable form.
    readable: Option<Vec<u8>>,
}

impl MemoryText {
    /// Of a file with these bytes.
    pub fn of(bytes: Vec<u8>) -> MemoryText
        ensures { result.text ≡ bytes }
    {
        MemoryText {
            text: bytes,
            readable: None,
        }
    }
}

/// The memory text that a file is, or that it says where its name ends in `.nmem`. Where there is none, the answer says why.
pub fn load_memory<F: Files>(
    alloc: Global,
    files: &mut F,
    name: &str,
    answer: &mut Answer,
) -> Option<MemoryText>
    ensures within { IfSome result (λ memory. length memory.text.items ≤ memory_limit) }
    ensures held { F.held files.new ≡ F.held files.old }
{
    let bytes = load(alloc, files, name, MEMORY_LIMIT, answer)?;
    if name.ends_with(".nmem") {
        said_by(alloc, name, bytes, answer)
    } else {
        Some(MemoryText::of(bytes))
    }
}

// The memory text that the bytes of a file say.
fn said_by(alloc: Global, name: &str, bytes: Vec<u8>, answer: &mut Answer) -> Option<MemoryText>
    ensures { IfSome result (λ memory. length memory.text.items ≤ memory_limit) }
{
    match memory_of_readable(alloc, &bytes) {
        Ok(text) if text.len() as u64 <= MEMORY_LIMIT => Some(MemoryText {
            text,
            readable: Some(bytes),
        }),
        Ok(_) => {
            answer.fault(
                name,
                "the memory text that it says has more than 4194304 bytes",
            );
            None
        }
        Err(fault) => {
            push_readable_fault(name, &bytes, fault, answer);
            None
        }
    }
}

// Why bytes are no readable memory text.
fn push_readable_fault(name: &str, bytes: &[u8], fault: ReadableError, answer: &mut Answer) {
    match fault {
        ReadableError::NoMemory => answer.fail(),
        ReadableError::Bad(first, after, reason) => {
            let mut it = answer.finding();
            it.title.put(reason.sentence());
            it.help.line(reason.advice());
            it.code = Code::Named("status 13");
            it.span = Some(Span { first, after });
            answer.push_in(Source { name, bytes }, it)
        }
    }
}

/// Says why a run of a program on the memory text of a file is refused. `params` is the number of words that the program takes,
/// where it is known.
pub fn push_run_refusal(
    alloc: Global,
    program: &str,
    params: Option<u8>,
    name: &str,
    memory: &MemoryText,
    refusal: Refusal,
    answer: &mut Answer,
) {
    match refusal {
        Refusal::BadMemoryText(line) => {
            push_memory_fault(alloc, name, memory, params, MemError::Bad(line), answer)
        }
        Refusal::TooLarge(size) => {
            push_memory_fault(
                alloc,
                name,
                memory,
                params,
                MemError::TooLarge(size),
                answer,
            )
        }
        other => push_refusal(program, other, answer),
    }
}

/// Says why a memory text isn't read.
pub fn push_memory_fault(
    alloc: Global,
    name: &str,
    memory: &MemoryText,
    params: Option<u8>,
    fault: MemError,
    answer: &mut Answer,
) {
    if matches!(fault, MemError::NoMemory) {
        return answer.fail();
    }
    let mut it = answer.finding();
    explain_memory(alloc, &mut it, &memory.text, params, fault);
    match &memory.readable {
        None => answer.push_in(
            Source {
                name,
                bytes: &memory.text,
            },
            it,
        ),
        Some(bytes) => {
            point_at_args(alloc, &mut it, bytes);
            answer.push_in(Source { name, bytes }, it)
        }
    }
}

// In what a readable text says only the number of arguments can be wrong.
fn point_at_args(alloc: Global, it: &mut Finding, bytes: &[u8]) {
    it.span = match args_place(alloc, bytes) {
        Ok(Some((first, after))) => Some(Span { first, after }),
        Ok(None) | Err(_) => None,
    };
    it.help = Message::new(alloc);
    it.help.line("`args` and the words that `main` takes stand before the bytes of the memories.")
}
