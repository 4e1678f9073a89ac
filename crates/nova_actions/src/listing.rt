//! The command `list`.
ghost use Rattle.std.specs.Prelude.{◌≡◌};
ghost use Rattle.nova_words.specs.Limits.{IsBudget};

use crate::compiled::{compile_within, object_in, push_refused};
use diag_text::finding::Source;
use nova_forms_print::{Page, print_single_use};
use nova_show::{Answer, MemoryText, Origins, list_object, load, load_memory};
use nova_texts::{Listed, list_beside};
use nova_words::Listing;
use novac_words::limits::OBJECT_LIMIT;
use nv_outside::Files;
use nv_text::MOST_BYTES;
use ssu_ir::{Ssu, single};
use std::alloc::Global;

/// Lists the code of an object, or of a source.
pub fn list<F: Files>(alloc: Global, files: &mut F, words: &Listing, answer: &mut Answer)
    requires budget { IsBudget words.now.budget }
    ensures held { F.held files.new ≡ F.held files.old }
{
    let name = words.program;
    let Some(bytes) = load(alloc, files, name, OBJECT_LIMIT, answer) else {
        return;
    };
    let mut memories = Vec::new(alloc);
    if !load_memories(alloc, files, &words.memories, &mut memories, answer) {
        return;
    }
    if !bytes.starts_with(b"NVO") {
        list_source(alloc, words, &bytes, &memories, answer)
    } else if memories.is_empty() {
        list_object(alloc, name, &bytes, b"", Origins::none(), answer)
    } else {
        answer.fault(
            name,
            "an object has no lines of a source, so it is listed without memory texts",
        )
    }
}

/// Adds the bytes of each memory text; gives false where one can't be had.
pub fn load_memories<F: Files>(
    alloc: Global,
    files: &mut F,
    names: &[&str],
    memories: &mut Vec<MemoryText>,
    answer: &mut Answer,
) -> bool
    ensures held { F.held files.new ≡ F.held files.old }
{
    for name in names {
        let Some(memory) = load_memory(alloc, files, *name, answer) else {
            return false;
        };
        if memories.push(memory).is_err() {
            answer.fail();
            return false;
        }
    }
    true
}

// With the lines of the single-use form above the instructions that come of them.
fn list_source(
    alloc: Global,
    words: &Listing,
    bytes: &[u8],
    memories: &[MemoryText],
    answer: &mut Answer,
)
    requires budget { IsBudget words.now.budget }
{
    let name = words.program;
    if bytes.len() > MOST_BYTES {
        return push_refused(alloc, name, bytes, answer);
    }
    let Some(compiled) = compile_within(alloc, name, words.budget, bytes, answer) else {
        return;
    };
    let form = form_of(alloc, &compiled.built.ssu, answer);
    if let Some(object) = object_in(alloc, bytes, compiled, answer) {
        let listed = Listed {
            source: Source { name, bytes },
            object: &object,
            form: &form,
            memories,
            names: &words.memories,
        };
        list_beside(alloc, listed, answer);
    }
}

/// The text of a single-use form.
pub fn form_of(alloc: Global, ssu: &Ssu, answer: &mut Answer) -> Vec<u8> {
    let mut page = Page::new(alloc);
    if single(ssu) && print_single_use(alloc, &mut page, ssu).is_err() {
        answer.fail();
    }
    match page.into_bytes() {
        Ok(text) => text,
        Err(_) => {
            answer.fail();
            Vec::new(alloc)
        }
    }
}
