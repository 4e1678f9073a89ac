//! Types in the text.

ghost use Rattle.std.specs.Prelude.{◌≡◌, IfOk, OnOk};
ghost use Rattle.nv_ast.specs.TypeView.{type_tree, list_types, list_named_types};
ghost use Rattle.nv_ast.specs.Tree.{PackedType, UnpackedType};
ghost use Rattle.nv_ast.specs.Types.{Ty, NamedTys, RecordTy};
ghost use Rattle.nv_ast.specs.Faults.{at_span, twice_in_type, too_large};
ghost use Rattle.nv_types_table.specs.inner.Faulty.{Judges};
ghost use Rattle.nv_types_table.specs.inner.Named.{named};
ghost use Rattle.nv_types_table.specs.inner.Store.{IsType, AreFields, field_names};

use crate::functions::Checker;
use crate::layouts::is_outside;
use nv_ast::{Name, Span, TyText};
use nv_types_table::error::{TypeError, fault_where};
use nv_types_table::limits::MOST_WORDS;
use nv_types_table::table::BOOL;

impl<'a> Checker<'a> {
    ghost use Rattle.std.specs.Prelude.{◌++◌};
    ghost use Rattle.nv_types_scopes.specs.inner.Standing.{Keeps};
    ghost use Rattle.nv_types_scopes.specs.inner.Texts.{TypesText, TypesTexts, TypesNamed};

    /// The type of a type text, whose faults lie at a span.
    #[cycle(type_text)]
    pub fn type_text(&mut self, span: Span, text: &'a TyText) -> Result<usize, TypeError>
        ensures { TypesText self.old self.new span (type_tree text.now) result }
    {
        match text {
            TyText::Word(n) => {
                fault_where(is_outside(*n, MOST_WORDS), 8, span)?;
                Ok(self.table.words(*n)?)
            }
            TyText::Bool => Ok(BOOL),
            TyText::Packed(x) => self.packed_text(span, x),
            TyText::Unpacked(x) => self.unpacked_text(span, x),
            TyText::Tuple(ts) => {
                let parts = self.type_texts(span, ts)?;
                let t = self.table.tuple(parts)?;
                self.without_excess(span, t)
            }
            TyText::Fields(ts) => {
                let fields = self.named_texts(span, ts)?;
                self.record_text(span, &fields)
            }
        }
    }

    // The type of a layout's packed value.
    fn packed_text(&mut self, span: Span, layout: &'a Name) -> Result<usize, TypeError>
        ensures { TypesText self.old self.new span (PackedType layout.now) result }
    {
        match self.layouts.get(layout) {
            Some(shape) => Ok(self.table.words(shape.packed_words())?),
            None => Err(TypeError::Fault(8, span)),
        }
    }

    // The type of a layout's unpacked value.
    fn unpacked_text(&mut self, span: Span, layout: &'a Name) -> Result<usize, TypeError>
        ensures { TypesText self.old self.new span (UnpackedType layout.now) result }
    {
        match self.layouts.get(layout) {
            Some(shape) => {
                let t = self.table.record_of(shape.types)?;
                self.without_excess(span, t)
            }
            None => Err(TypeError::Fault(8, span)),
        }
    }

    // A record type of some fields.
    fn record_text(&mut self, span: Span, fields: &[(&'a Name, usize)]) -> Result<usize, TypeError>
        ensures judged { (ts : NamedTys) → AreFields self.old.table (named fields.now) ts → Judges (at_span span (twice_in_type (field_names ts) ++ too_large (RecordTy ts))) result }
        ensures typed { (ts : NamedTys) → AreFields self.old.table (named fields.now) ts → IfOk result (λ i. IsType self.new.table i (RecordTy ts)) }
        ensures keeps { OnOk result (Keeps self.old self.new) }
    {
        let list = self.table.fields_of(self.alloc, fields)?;
        fault_where(self.table.repeats_a_name(self.alloc, list)?, 8, span)?;
        let t = self.table.record_of(list)?;
        self.without_excess(span, t)
    }

    // A type that isn't too large.
    fn without_excess(&self, span: Span, t: usize) -> Result<usize, TypeError>
        ensures judged { (u : Ty) → IsType self.now.table t u → Judges (at_span span (too_large u)) result }
        ensures same { IfOk result (λ i. i ≡ t) }
    {
        fault_where(self.table.is_too_large(t), 24, span)?;
        Ok(t)
    }

    /// The list of the types of some type texts.
    #[cycle(type_text)]
    pub fn type_texts(&mut self, span: Span, texts: &'a [TyText]) -> Result<usize, TypeError>
        ensures { TypesTexts self.old self.new span (list_types texts.now) result }
    {
        let mut types = Vec::new(self.alloc);
        for text in texts {
            types.push(self.type_text(span, text)?)?;
        }
        Ok(self.table.parts_of(&types)?)
    }

    /// The names and types of some named type texts.
    #[cycle(type_text)]
    pub fn named_texts(
        &mut self,
        span: Span,
        texts: &'a [(Name, TyText)],
    ) -> Result<Vec<(&'a Name, usize)>, TypeError>
        ensures { TypesNamed self.old self.new span (list_named_types texts.now) result }
    {
        let mut types = Vec::new(self.alloc);
        for text in texts {
            let t = self.type_text(span, &text.1)?;
            types.push((&text.0, t))?;
        }
        Ok(types)
    }
}
