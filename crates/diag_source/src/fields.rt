//! Where the fields of layouts stand.

use diag_text::declared::Declared;
use nv_ast::{FieldText, LayoutText, Name};
use nv_lines::{Message, part};
use std::alloc::Global;

// The most parts of layouts that are told of one program.
const MOST_PARTS: u32 = 100_000;

// A stretch of the names in front of fields, each with its dot.
#[derive(Clone, Copy)]
struct Front {
    from: usize,
    to: usize,
}

// A part of a layout that is still to be told: a layout or a field with the names in front of it, or the bit at which what
// follows begins.
#[derive(Clone, Copy)]
enum Part<'a> {
    Layout(&'a LayoutText, Front),
    Field(&'a Name, &'a FieldText, Front),
    At(u64),
}

/// Tells layouts one after another. A later one may name those before it.
#[derive(Drop)]
pub struct FieldLister<'a> {
    known: Declared<'a, &'a LayoutText>,
    // The names in front of fields of the layout that is told.
    names: Vec<u8>,
    work: Vec<Part<'a>>,
    at: u64,
    left: u32,
}

impl<'a> FieldLister<'a> {
    /// Before the first layout.
    pub fn new(alloc: Global) -> FieldLister<'a> {
        FieldLister {
            known: Declared::new(alloc),
            names: Vec::new(alloc),
            work: Vec::new(alloc),
            at: 0,
            left: MOST_PARTS,
        }
    }

    /// Appends a layout of so many bits: each field with its word, its first bit there and its bits.
    pub fn push_layout(
        &mut self,
        out: &mut Message,
        name: &'a Name,
        text: &'a LayoutText,
        bits: u64,
    ) {
        push_heading(out, name, bits);
        self.names.clear();
        self.at = 0;
        let front = Front { from: 0, to: 0 };
        out.keep(&mut self.work, Part::Layout(text, front));
        self.push_parts(out);
        self.known.add(name, text);
        out.fail_if(self.known.is_short())
    }

    fn push_parts(&mut self, out: &mut Message) {
        for _ in 0..self.left {
            let Some(part) = self.work.pop() else {
                return;
            };
            self.left = self.left.saturating_sub(1);
            self.push_part(out, part);
        }
        self.work.clear();
        out.line("    ..")
    }

    fn push_part(&mut self, out: &mut Message, part: Part<'a>) {
        match part {
            Part::At(bit) => self.at = bit,
            Part::Layout(text, front) => self.queue_layout(out, text, front),
            Part::Field(name, text, front) => self.push_field(out, name, text, front),
        }
    }

    fn push_field(&mut self, out: &mut Message, name: &'a Name, text: &'a FieldText, front: Front) {
        match text {
            FieldText::Bits(n) => self.push_bits(out, name, *n, front),
            FieldText::Inner(text) => {
                let front = self.longer_front(out, front, name);
                out.keep(&mut self.work, Part::Layout(text, front))
            }
            FieldText::Overlay(fs) => {
                let front = self.longer_front(out, front, name);
                self.queue_alternatives(out, fs, front)
            }
        }
    }

    // Appends a bit field, after which the next part begins.
    fn push_bits(&mut self, out: &mut Message, name: &Name, n: u32, front: Front) {
        out.put("    ");
        out.bytes(part(&self.names, front.from, front.to));
        out.bytes(name.bytes());
        out.put(": word ");
        out.number(self.at / 32);
        out.put(", bit ");
        out.number(self.at % 32);
        out.put(", ");
        out.counted(u64::from(n), "bit");
        out.line("");
        self.at = self.at.saturating_add(u64::from(n))
    }

    // The names in front with one more, after the names that are there.
    fn longer_front(&mut self, out: &mut Message, front: Front, name: &Name) -> Front {
        let from = self.names.len();
        for n in front.from..front.to {
            if let Some(byte) = self.names.get(n).copied() {
                out.keep(&mut self.names, byte);
            }
        }
        for byte in name.bytes() {
            out.keep(&mut self.names, *byte);
        }
        out.keep(&mut self.names, b'.');
        let to = self.names.len();
        Front { from, to }
    }

    // The parts of a layout are to be told next.
    fn queue_layout(&mut self, out: &mut Message, text: &'a LayoutText, front: Front) {
        match text {
            LayoutText::Named(x) => {
                if let Some(it) = self.known.get(x) {
                    out.keep(&mut self.work, Part::Layout(it, front));
                }
            }
            LayoutText::Gap(n) => self.at = self.at.saturating_add(u64::from(*n)),
            LayoutText::Parts(fs) => self.queue_fields(out, fs, front),
            LayoutText::Joined(ls) => self.queue_joined(out, ls, front),
        }
    }

    fn queue_fields(&mut self, out: &mut Message, fs: &'a [(Name, FieldText)], front: Front) {
        for f in fs.iter().rev() {
            out.keep(&mut self.work, Part::Field(&f.0, &f.1, front));
        }
    }

    fn queue_joined(&mut self, out: &mut Message, ls: &'a [LayoutText], front: Front) {
        for l in ls.iter().rev() {
            out.keep(&mut self.work, Part::Layout(l, front));
        }
    }

    // The alternatives of an overlay, which all begin at the bit where the overlay begins.
    fn queue_alternatives(&mut self, out: &mut Message, fs: &'a [(Name, FieldText)], front: Front) {
        let first = self.at;
        for f in fs.iter().rev() {
            out.keep(&mut self.work, Part::Field(&f.0, &f.1, front));
            out.keep(&mut self.work, Part::At(first));
        }
    }
}

// The line above the fields of a layout.
fn push_heading(out: &mut Message, name: &Name, bits: u64) {
    out.put("layout ");
    out.quoted(name.bytes());
    out.put(": ");
    out.counted(bits, "bit");
    out.put(", ");
    out.counted(bits.div_ceil(32), "word");
    out.line("")
}
