//! The command `mem`.
ghost use Rattle.std.specs.Prelude.{◌≡◌, ◌≤◌, length};
ghost use Rattle.novac_words.specs.Limits.{memory_limit};

use nova_memory::dump_of;
use nova_show::{Answer, MemoryText, load_memory, push_memory_fault};
use nv_lines::Lines;
use nv_memtext::read_memory;
use nv_outside::Files;
use std::alloc::Global;

/// Prints the memory text that a readable text says, or the memories of a memory text as a dump, which is a readable text.
pub fn show_memory<F: Files>(alloc: Global, files: &mut F, name: &str, answer: &mut Answer)
    ensures { F.held files.new ≡ F.held files.old }
{
    let Some(memory) = load_memory(alloc, files, name, answer) else {
        return;
    };
    if name.ends_with(".nmem") {
        answer.out.bytes(&memory.text)
    } else {
        push_dump(alloc, name, &memory, answer)
    }
    drop(memory)
}

fn push_dump(alloc: Global, name: &str, memory: &MemoryText, answer: &mut Answer)
    requires { length memory.now.text.items ≤ memory_limit }
{
    match read_memory(alloc, &memory.text, params_of(&memory.text)) {
        Ok(job) => {
            match dump_of(alloc, &job) {
                Ok(text) => answer.out.bytes(&text),
                Err(_) => answer.fail(),
            }
            drop(job)
        }
        Err(fault) => push_memory_fault(alloc, name, memory, None, fault, answer),
    }
}

// How many words line 2 gives, eight at most.
fn params_of(text: &[u8]) -> u8 {
    let mut lines = Lines::of(text);
    let _sizes = lines.next_line();
    let Some(line) = lines.next_line() else {
        return 0;
    };
    let mut count: u8 = 0;
    for byte in line {
        if *byte == b' ' && count < 8 {
            count += 1;
        }
    }
    count
}
