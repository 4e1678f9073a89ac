//! The listing of an object.

use crate::answer::Answer;
use crate::labels::{Label, labels_of};
use crate::profile::push_right;
use crate::refusal::push_refusal;
use crate::{Kind, kind_of};
use diag_text::finding::Source;
use novac_words::Refusal;
use novac_words::limits::OBJECT_LIMIT;
use nv_lines::{Message, column_of, line_of, part, split_once};
use std::alloc::Global;
use uc_asm::push_words;
use uc_isa::Instr;
use uc_object::{Object, ObjectError, decode};

// The column at which remarks begin, after the place.
const WIDE: usize = 34;

/// Where code comes from in its source, as far as that is known.
#[derive(Clone, Copy)]
pub struct Origins<'o> {
    pub source: Source<'o, 'o>,
    /// For each place of the code the byte of the source that it comes from and one more, or 0.
    pub places: &'o [u32],
    /// For each place the name of the function that a label there belongs to, or no byte.
    pub functions: &'o [&'o [u8]],
}

impl<'o> Origins<'o> {
    /// Nothing is known.
    pub fn none() -> Origins<'o> {
        Origins {
            source: Source {
                name: "",
                bytes: b"",
            },
            places: &[],
            functions: &[],
        }
    }
}

/// Lists the code of the object that the bytes are. `form` is the text of the single-use form from which it comes, or empty: its
/// lines stand below the labels. Above an instruction stands the line of the source that it comes from.
pub fn list_object(
    alloc: Global,
    name: &str,
    bytes: &[u8],
    form: &[u8],
    origins: Origins,
    answer: &mut Answer,
) {
    if bytes.len() as u64 > OBJECT_LIMIT {
        return answer.fault(name, "the object is too long");
    }
    match decode(alloc, bytes) {
        Ok(object) => {
            push_object(alloc, &mut answer.out, &object, form, origins);
            drop(object)
        }
        Err(ObjectError::Bad(at)) => push_refusal(name, Refusal::BadObject(at), answer),
        Err(ObjectError::NoMemory) => answer.fail(),
    }
}

fn push_object(alloc: Global, out: &mut Message, object: &Object, form: &[u8], origins: Origins) {
    let code = object.code();
    out.put("params ");
    out.number(u64::from(code.params()));
    out.line("");
    let labels = labels_of(alloc, out, object);
    let blocks = blocks_of(alloc, out, form);
    let mut left = labels.as_slice();
    let mut line = 0;
    for (place, i) in code.list().iter().enumerate() {
        left = push_labels(out, left, place, form, &blocks, origins);
        line = push_origin(out, place, origins, line);
        push_instruction(alloc, out, place, i);
    }
}

// The line of the source that the instruction at a place comes from, where it is known and another one than was shown last. Gives the
// line that was.
fn push_origin(out: &mut Message, place: usize, origins: Origins, last: usize) -> usize {
    let at = match origins.places.get(place) {
        Some(after) if *after > 0 => (*after - 1) as usize,
        _ => return last,
    };
    let line = line_of(origins.source.bytes, at);
    if line != last {
        out.put("; ");
        out.put(origins.source.name);
        out.put(":");
        out.number(line as u64);
        out.put(": ");
        out.shown(line_at(origins.source.bytes, at));
        out.line("")
    }
    line
}

// The line in which a byte stands.
fn line_at(bytes: &[u8], at: usize) -> &[u8] {
    let from = at.saturating_sub(column_of(bytes, at).saturating_sub(1));
    let rest = part(bytes, from, bytes.len());
    match split_once(rest, b'\n') {
        Some((line, _)) => line,
        None => rest,
    }
}

// The places in the text of a form where labels begin, and its end.
fn blocks_of(alloc: Global, out: &mut Message, form: &[u8]) -> Vec<usize> {
    let mut blocks = Vec::new(alloc);
    let mut is_first = true;
    for (at, byte) in form.iter().enumerate() {
        if is_first && *byte == b'l' {
            out.keep(&mut blocks, at);
        }
        is_first = *byte == b'\n';
    }
    out.keep(&mut blocks, form.len());
    blocks
}

// The labels that start at a place, each with its form, and the labels after these.
fn push_labels<'a>(
    out: &mut Message,
    labels: &'a [Label],
    place: usize,
    form: &[u8],
    blocks: &[usize],
    origins: Origins,
) -> &'a [Label] {
    for (n, label) in labels.iter().enumerate() {
        if label.start as usize > place {
            return &labels[n..];
        }
        out.put("L");
        out.number(u64::from(label.number));
        out.put(":");
        push_function(out, place, origins);
        out.line("");
        push_block(out, label.number as usize, form, blocks);
    }
    &labels[labels.len()..]
}

// The function that the label at a place belongs to.
fn push_function(out: &mut Message, place: usize, origins: Origins) {
    match origins.functions.get(place) {
        Some(name) if !name.is_empty() => {
            out.put("  ; in ");
            out.bytes(*name)
        }
        _ => {}
    }
}

fn push_block(out: &mut Message, number: usize, form: &[u8], blocks: &[usize]) {
    let from = blocks.get(number);
    let to = blocks.get(number.saturating_add(1));
    if let (Some(from), Some(to)) = (from, to) {
        push_lines(out, part(form, *from, *to));
    }
}

// Each line as a remark.
fn push_lines(out: &mut Message, text: &[u8]) {
    let mut is_first = true;
    for byte in text {
        if is_first {
            out.put("        ; ");
        }
        out.byte(*byte);
        is_first = *byte == b'\n';
    }
}

// A line with the place, the instruction, and what it is for where it is a move, a literal or a spill.
fn push_instruction(alloc: Global, out: &mut Message, place: usize, i: &Instr) {
    let mut words = Vec::new(alloc);
    out.fail_if(push_words(&mut words, *i).is_err());
    push_right(out, place as u64, 6);
    out.put("  ");
    out.bytes(&words);
    push_remark(out, words.len(), kind_of(i));
    out.line("")
}

fn push_remark(out: &mut Message, length: usize, kind: Kind) {
    let remark = match kind {
        Kind::Between => "; move between banks",
        Kind::Within => "; move",
        Kind::Literal => "; literal",
        Kind::Spill => "; spill",
        Kind::Other => return,
    };
    for _ in length..WIDE {
        out.put(" ");
    }
    out.put(" ");
    out.put(remark)
}
