//! Layouts in a walk.

use crate::walk::{Shape, Walk};
use diag_text::types::{Part, WORD};
use nv_ast::{FieldText, LayoutText, Name, Span};

// A field: its bits, how many bit fields it has, and the type of its unpacked value.
#[derive(Clone, Copy)]
struct Member {
    bits: u64,
    fields: u64,
    kind: usize,
}

impl Member {
    // An inner layout as a field.
    fn of(shape: Shape) -> Member {
        Member {
            bits: shape.bits,
            fields: shape.fields,
            kind: shape.record,
        }
    }
}

impl<'a> Walk<'a> {
    /// A declaration of a layout.
    pub fn layout(&mut self, name: &'a Name, text: &'a LayoutText, span: Span) {
        self.enter(span);
        let shape = self.whole_shape(text);
        self.leave(span);
        self.layouts.add(name, shape)
    }

    // A declared or inner layout.
    #[cycle(layout)]
    fn whole_shape(&mut self, text: &'a LayoutText) -> Shape {
        let shape = self.shape(text);
        self.explain_unfit(shape);
        shape
    }

    #[cycle(layout)]
    fn shape(&mut self, text: &'a LayoutText) -> Shape {
        match text {
            LayoutText::Named(x) => self.named_shape(x),
            LayoutText::Gap(n) => self.gap(*n),
            LayoutText::Parts(fs) => self.parts_shape(fs),
            LayoutText::Joined(ls) => self.joined_shape(ls),
        }
    }

    // A layout of so many bits and bit fields with a record of these fields.
    fn shape_with(&mut self, bits: u64, fields: u64, parts: &[Part<'a>]) -> Shape {
        let record = self.types.record(parts);
        Shape {
            bits,
            fields,
            record,
        }
    }

    fn named_shape(&mut self, name: &'a Name) -> Shape {
        match self.layouts.get(name) {
            Some(shape) => shape,
            None => {
                self.explain_layout_name(3, name);
                self.shape_with(0, 0, &[])
            }
        }
    }

    fn gap(&mut self, n: u32) -> Shape {
        self.explain_gap(n);
        self.shape_with(u64::from(n), 0, &[])
    }

    #[cycle(layout)]
    fn parts_shape(&mut self, fs: &'a [(Name, FieldText)]) -> Shape {
        let mut parts = Vec::new(self.alloc);
        let mut bits: u64 = 0;
        let mut fields: u64 = 0;
        for f in fs {
            let member = self.member(&f.0, &f.1);
            bits = bits.saturating_add(member.bits);
            fields = fields.saturating_add(member.fields);
            self.note.keep(&mut parts, Part::named(&f.0, member.kind));
        }
        self.explain_twice(5, &parts);
        self.shape_with(bits, fields, &parts)
    }

    #[cycle(layout)]
    fn joined_shape(&mut self, ls: &'a [LayoutText]) -> Shape {
        let mut parts = Vec::new(self.alloc);
        let mut bits: u64 = 0;
        let mut fields: u64 = 0;
        for l in ls {
            let shape = self.shape(l);
            bits = bits.saturating_add(shape.bits);
            fields = fields.saturating_add(shape.fields);
            self.keep_joined(&mut parts, shape);
        }
        let shape = self.shape_with(bits, fields, &parts);
        self.explain_shared(shape.record);
        shape
    }

    // Adds the record of a joined layout that has fields.
    fn keep_joined(&mut self, parts: &mut Vec<Part<'a>>, shape: Shape) {
        if shape.fields > 0 {
            let kind = shape.record;
            self.note.keep(parts, Part { name: None, kind })
        }
    }

    #[cycle(layout)]
    fn member(&mut self, name: &'a Name, text: &'a FieldText) -> Member {
        match text {
            FieldText::Bits(n) => self.bit_field(name, *n),
            FieldText::Inner(l) => Member::of(self.whole_shape(l)),
            FieldText::Overlay(alternatives) => self.overlay(alternatives),
        }
    }

    fn bit_field(&mut self, name: &'a Name, n: u32) -> Member {
        self.explain_bits(name, n);
        Member {
            bits: u64::from(n),
            fields: 1,
            kind: WORD,
        }
    }

    #[cycle(layout)]
    fn overlay(&mut self, alternatives: &'a [(Name, FieldText)]) -> Member {
        let mut parts = Vec::new(self.alloc);
        let mut sizes = Vec::new(self.alloc);
        let mut bits: u64 = 0;
        let mut fields: u64 = 0;
        for it in alternatives {
            let member = self.member(&it.0, &it.1);
            bits = bits.max(member.bits);
            fields = fields.saturating_add(member.fields);
            self.note.keep(&mut sizes, (&it.0, member.bits));
            self.note.keep(&mut parts, Part::named(&it.0, member.kind));
        }
        self.explain_twice(5, &parts);
        self.explain_sizes(&sizes);
        let kind = self.types.overlay(&parts);
        Member { bits, fields, kind }
    }
}
