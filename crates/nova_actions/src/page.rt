//! The command `page`.
ghost use Rattle.std.specs.Prelude.{◌≡◌, ◌≤◌, length};
ghost use Rattle.novac_words.specs.Limits.{memory_limit, source_limit};
ghost use Rattle.nova_compile.specs.inner.Parts.{HasParts};
ghost use Rattle.nova_words.specs.Limits.{IsBudget};

use crate::banks::push_banks;
use crate::build::push_summary;
use crate::compiled::{compile_within, object_in};
use crate::listing::{form_of, load_memories};
use crate::simulation::run_object;
use crate::traces::push_trace;
use diag_source::sizes::push_typed_sizes;
use nova_compile::Compiled;
use nova_page::{
    push_page_block, push_page_end, push_page_form, push_page_head, push_page_listing,
    push_page_part,
};
use nova_show::{
    Answer, Ending, MemoryText, Origins, Saving, add_saving, counts_of, list_object, load,
    output_name,
};
use nova_words::{Page, Run};
use novac_words::limits::{MEMORY_LIMIT, SOURCE_LIMIT};
use nv_ast::Typed;
use nv_lines::Message;
use nv_outside::Files;
use std::alloc::{AllocError, Global};

/// Makes a page of HTML on a source: its text, sizes, labels, live values and code, and on each memory text how often each label
/// was entered and where the source has each write; and gives it as a file that is to be saved.
pub fn make_page<F: Files>(
    alloc: Global,
    files: &mut F,
    words: &Page,
    answer: &mut Answer,
) -> Vec<Saving>
    requires steps { words.now.steps ≤ 100000000 }
    requires budget { IsBudget words.now.budget }
    ensures held { F.held files.new ≡ F.held files.old }
{
    let mut savings = Vec::new(alloc);
    let name = output_name(alloc, words.source, words.output, ".nova", ".html", answer);
    if let Some(name) = name {
        page_as(alloc, files, words, name.as_str(), &mut savings, answer);
        drop(name);
    }
    savings
}

fn page_as<F: Files>(
    alloc: Global,
    files: &mut F,
    words: &Page,
    name: &str,
    savings: &mut Vec<Saving>,
    answer: &mut Answer,
)
    requires steps { words.now.steps ≤ 100000000 }
    requires budget { IsBudget words.now.budget }
    ensures held { F.held files.new ≡ F.held files.old }
{
    if !check_names(words, name, answer) {
        return;
    }
    let Some(source) = load(alloc, files, words.source, SOURCE_LIMIT, answer) else {
        return;
    };
    let mut memories = Vec::new(alloc);
    if load_memories(alloc, files, &words.memories, &mut memories, answer) {
        page_on(alloc, words, name, &source, &memories, savings, answer);
    }
}

// Refuses to save over an input.
fn check_names(words: &Page, name: &str, answer: &mut Answer) -> bool {
    let is_input = name == words.source || is_among(&words.memories, name);
    if name.is_empty() || is_input && name != "-" {
        answer.fault("nova", "the page would replace an input, or has no name");
        answer.ending = Ending::BadWords;
        false
    } else {
        true
    }
}

fn is_among(names: &[&str], name: &str) -> bool {
    for other in names.iter() {
        if *other == name {
            return true;
        }
    }
    false
}

// Compiles the source, and adds its page.
fn page_on(
    alloc: Global,
    words: &Page,
    name: &str,
    source: &[u8],
    memories: &[MemoryText],
    savings: &mut Vec<Saving>,
    answer: &mut Answer,
)
    requires steps { words.now.steps ≤ 100000000 }
    requires budget { IsBudget words.now.budget }
    requires source { length source.now ≤ source_limit }
{
    let Some(compiled) = compile_within(alloc, words.source, words.budget, source, answer) else {
        return;
    };
    let mut page = Message::new(alloc);
    push_head(alloc, &mut page, words, source, &compiled, answer);
    push_names(alloc, &mut page, words);
    push_traces(alloc, &mut page, words, &compiled.typed, memories);
    let Some(object) = object_in(alloc, source, compiled, answer) else {
        return;
    };
    push_listing(alloc, &mut page, words.source, &object);
    if push_runs(alloc, &mut page, words, &object, memories, answer) {
        push_page_end(&mut page);
        add_page(alloc, name, page, savings, answer);
    }
}

fn add_page(
    alloc: Global,
    name: &str,
    page: Message,
    savings: &mut Vec<Saving>,
    answer: &mut Answer,
) {
    match page.into_bytes() {
        Ok(bytes) => {
            if name != "-" {
                answer.out.put(name);
                answer.out.line(": a page to open in a browser");
            }
            add_saving(alloc, savings, name, bytes, answer)
        }
        Err(AllocError) => answer.fail(),
    }
}

// The source, what it comes to, its sizes, its single-use form, and the banks of its values.
fn push_head(
    alloc: Global,
    page: &mut Message,
    words: &Page,
    source: &[u8],
    compiled: &Compiled,
    answer: &mut Answer,
)
    requires parts { HasParts compiled.now }
{
    let name = words.source;
    push_page_head(page);
    push_page_block(page, "name", name.as_bytes());
    push_page_block(page, "source", source);
    let mut summary = Message::new(alloc);
    let counts = counts_of(compiled.built.code.list());
    push_summary(
        alloc,
        &mut summary,
        &compiled.built.report,
        counts,
        words.budget.is_none(),
    );
    push_text(page, "summary", 0, summary);
    let mut sizes = Message::new(alloc);
    push_typed_sizes(alloc, &mut sizes, name, &compiled.typed);
    push_text(page, "sizes", 0, sizes);
    let form = form_of(alloc, &compiled.built.ssu, answer);
    push_page_form(page, "form", &form);
    let mut banks = Message::new(alloc);
    push_banks(
        alloc,
        &mut banks,
        &compiled.built.ssu,
        &compiled.built.report,
    );
    push_text(page, "banks", 0, banks)
}

fn push_listing(alloc: Global, page: &mut Message, name: &str, object: &[u8]) {
    let mut listing = Answer::new(alloc);
    list_object(alloc, name, object, b"", Origins::none(), &mut listing);
    let (_, out, err) = listing.into_parts();
    page.fail_if(err.is_short());
    drop(err);
    match out.into_bytes() {
        Ok(bytes) => push_page_listing(page, "listing", &bytes),
        Err(AllocError) => page.fail(),
    }
}

// The names of the memory texts, one in each line.
fn push_names(alloc: Global, page: &mut Message, words: &Page) {
    let mut names = Message::new(alloc);
    for name in words.memories.iter() {
        names.line(*name);
    }
    push_text(page, "memories", 0, names)
}

// Where the text has the statement of each write, on each memory text.
fn push_traces(
    alloc: Global,
    page: &mut Message,
    words: &Page,
    typed: &Typed,
    memories: &[MemoryText],
) {
    let calls = 16 * u64::from(words.steps);
    for (number, memory) in memories.iter().enumerate() {
        push_trace(alloc, page, typed, calls, number, &memory.text);
    }
}

// The outcomes on the memory texts, and how often each label was entered. Gives false where a text is refused.
fn push_runs(
    alloc: Global,
    page: &mut Message,
    words: &Page,
    object: &[u8],
    memories: &[MemoryText],
    answer: &mut Answer,
) -> bool
    requires steps { words.now.steps ≤ 100000000 }
{
    for (number, name) in words.memories.iter().enumerate() {
        let Some(memory) = memories.get(number) else {
            return false;
        };
        let run = Run {
            is_traced: false,
            until: None,
            program: words.source,
            memory: *name,
            steps: words.steps,
            budget: words.budget,
            has_profile: true,
            counts: None,
        };
        if !push_run(alloc, page, run, number, object, memory, answer) {
            return false;
        }
    }
    true
}

fn push_run(
    alloc: Global,
    page: &mut Message,
    run: Run,
    number: usize,
    object: &[u8],
    memory: &MemoryText,
    answer: &mut Answer,
) -> bool
    requires steps { run.steps ≤ 100000000 }
{
    if memory.text.len() as u64 > MEMORY_LIMIT {
        answer.fail();
        return false;
    }
    let mut ran = Answer::new(alloc);
    let mut none = Vec::new(alloc);
    let _ = run_object(alloc, run, object, memory, &mut none, &mut ran);
    drop(none);
    let (_, out, err) = ran.into_parts();
    let is_refused = out.is_empty();
    if is_refused {
        answer.ending = Ending::Failed;
        answer.err.message_text(&err);
    } else {
        push_page_part(page, "memory", number, &memory.text);
        push_text(page, "outcome", number, out);
        push_text(page, "profile", number, err);
    }
    !is_refused
}

// A text that the page's script reads.
fn push_text(page: &mut Message, id: &str, number: usize, text: Message) {
    match text.into_bytes() {
        Ok(bytes) => push_page_part(page, id, number, &bytes),
        Err(AllocError) => page.fail(),
    }
}
