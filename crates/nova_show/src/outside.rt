//! What is said of an access outside of a memory.

use crate::answer::Answer;
use diag_text::finding::Severity;
use nv_lines::{Lines, Message, Parts};

/// Says of an outcome text that ends with an address fault how large the memory is.
pub fn push_outside(name: &str, outcome: &[u8], answer: &mut Answer) {
    let mut lines = Lines::of(outcome);
    let Some(first) = lines.next_line() else {
        return;
    };
    let mut parts = Parts::of(first);
    if !parts.next_is(b"fault") {
        return;
    }
    let mut it = answer.finding();
    it.severity = Severity::Note;
    push_access(&mut it.title, &mut parts);
    if first.starts_with(b"fault sdram") {
        push_size(&mut it.title, outcome, 2, "quadword");
        it.help
            .line("An address of SDRAM counts quadwords, of two words each.")
    } else if first.starts_with(b"fault sram") {
        push_size(&mut it.title, outcome, 1, "word")
    }
    answer.push(name, it)
}

// The memory and the address.
fn push_access(out: &mut Message, parts: &mut Parts) {
    out.put("an access at ");
    if let Some(memory) = parts.next_part() {
        out.bytes(memory);
    }
    if let Some(at) = parts.next_part() {
        out.put(" ");
        out.bytes(at);
    }
    out.put(" is outside of its memory")
}

// How much a memory has, by the line of the sizes.
fn push_size(out: &mut Message, outcome: &[u8], place: usize, unit: &str) {
    let mut lines = Lines::of(outcome);
    for _ in 0..outcome.len() {
        let Some(line) = lines.next_line() else {
            return;
        };
        let mut parts = Parts::of(line);
        if parts.next_is(b"memory") {
            if place == 2 {
                let _ = parts.next_part();
            }
            if let Some(size) = parts.next_decimal(65_536) {
                out.put(", which has ");
                out.counted(size, unit)
            }
            return;
        }
    }
}
