//! Layouts: their faults, and what typing asks of them.

ghost use Rattle.std.specs.Prelude.{◌≡◌, ◌/◌, ◌≤◌, ◌||◌, [], not, nat_lt, IfOk, OnOk};
ghost use Rattle.nv_ast.specs.Outline.{OutlineTrees, outline_and, NamedOutlines, BitsOutline, GapOutline, PartsOutline, OverlayOutline, JoinedOutline, OutlineTree};
ghost use Rattle.nv_ast.specs.LayoutFaults.{unfit};
ghost use Rattle.nv_ast.specs.Types.{Forms, forms_of as forms_of_outlines, joined_forms, unpacked_all};
ghost use Rattle.nv_ast.specs.LayoutView.{layout_tree, field_tree, list_fields, list_layouts};
ghost use Rattle.nv_ast.specs.Tree.{PartsLayout, JoinedLayout};
ghost use Rattle.nv_ast.specs.Tests.{where_true, has_twice, within};
ghost use Rattle.nv_ast.specs.Faults.{at_span};
ghost use Rattle.nv_types_table.specs.inner.Faulty.{Judges};
ghost use Rattle.nv_types_table.specs.inner.Named.{named};
ghost use Rattle.nv_types_table.specs.inner.Store.{Store, IsFields, IsForms, form_names};
ghost use Rattle.nv_types_table.specs.inner.Layouts.{IsShape, IsDeclared, IsMember, AreShapes, AreMembers, IsJoined};

use crate::functions::Checker;
use indexmap::IndexSet;
use nv_ast::{FieldText, LayoutText, Name, Span};
use nv_base::NoMemory;
use nv_types_table::error::{TypeError, fault_where};
use nv_types_table::limits::HIGHEST;
use nv_types_table::shapes::{
    MOST_BITS, Member, Shape, fitting_alternatives, highest, overlay_of, total_bits, total_fields,
};
use nv_types_table::table::{NO_FIELDS, WORD};

/// Whether a number isn't from 1 to the greatest.
pub fn is_outside(n: u32, greatest: u32) -> bool
    ensures { result ≡ not (within 1 greatest n) }
{
    n < 1 || n > greatest
}

// Whether a layout has no field, over 1,024 bits, or a height over 100.
fn is_unfit(empty: bool, bits: u64, height: u64) -> bool
    ensures { result ≡ (empty || (nat_lt 1024 bits || nat_lt 100 height)) }
{
    empty || bits > MOST_BITS as u64 || height > HIGHEST
}

// Of one bit field.
fn bit_field(n: u32) -> Member
    ensures { (s : Store) → n ≤ 1024 → IsMember s result (BitsOutline n) }
{
    Member {
        bits: n as u64,
        fields: 1,
        height: 1,
        form: WORD,
        unpacked: WORD,
    }
}

// Of bits that are left out.
fn gap(n: u32) -> Shape
    ensures { (s : Store) → IsShape s result (GapOutline n) }
{
    Shape {
        bits: n as u64,
        fields: 0,
        height: 1,
        forms: NO_FIELDS,
        types: NO_FIELDS,
    }
}

impl<'a> Checker<'a> {
    ghost use Rattle.nv_types_scopes.specs.inner.Standing.{Keeps};
    ghost use Rattle.nv_types_scopes.specs.inner.Texts.{ShapesLayout, ShapesWhole, ShapesField, ShapesFields};

    /// A declared or inner layout, whose faults lie at a span.
    #[cycle(layout)]
    pub fn whole_layout(&mut self, span: Span, l: &'a LayoutText) -> Result<Shape, TypeError>
        ensures { ShapesWhole self.old self.new span (layout_tree l.now) result }
    {
        let shape = self.layout(span, l)?;
        self.fitting(span, shape)
    }

    // A shape that a declared or inner layout may have: with a field, of at most 1,024 bits and at most
    // 100 high.
    fn fitting(&self, span: Span, shape: Shape) -> Result<Shape, TypeError>
        ensures judged { (o : OutlineTree) → IsShape self.now.table shape o → Judges (at_span span (unfit o)) result }
        ensures fits { (o : OutlineTree) → IsShape self.now.table shape o → IfOk result (λ r. IsDeclared self.now.table r o) }
    {
        let empty = self.table.is_empty(shape.forms);
        fault_where(is_unfit(empty, shape.bits, shape.height), 7, span)?;
        Ok(shape)
    }

    #[cycle(layout)]
    fn layout(&mut self, span: Span, l: &'a LayoutText) -> Result<Shape, TypeError>
        ensures { ShapesLayout self.old self.new span (layout_tree l.now) result }
    {
        match l {
            LayoutText::Named(x) => match self.layouts.get(x) {
                Some(shape) => Ok(shape),
                None => Err(TypeError::Fault(3, span)),
            },
            LayoutText::Gap(n) => {
                fault_where(is_outside(*n, MOST_BITS), 4, span)?;
                Ok(gap(*n))
            }
            LayoutText::Parts(fs) => self.parts_layout(span, fs),
            LayoutText::Joined(ls) => self.joined_layout(span, ls),
        }
    }

    #[cycle(layout)]
    fn parts_layout(&mut self, span: Span, fs: &'a [(Name, FieldText)]) -> Result<Shape, TypeError>
        ensures { ShapesLayout self.old self.new span (PartsLayout (list_fields fs.now)) result }
    {
        let members = self.members(span, fs)?;
        let shape = self.record_shape(&members)?;
        self.without_repeats(span, shape.forms)?;
        Ok(shape)
    }

    #[cycle(layout)]
    fn joined_layout(&mut self, span: Span, ls: &'a [LayoutText]) -> Result<Shape, TypeError>
        ensures { ShapesLayout self.old self.new span (JoinedLayout (list_layouts ls.now)) result }
    {
        let mut shapes = Vec::new(self.alloc);
        for l in ls {
            shapes.push(self.layout(span, l)?)?;
        }
        self.without_shared_names(span, &shapes)?;
        Ok(self.joined_shape(&shapes)?)
    }

    // No two fields of layouts one after another have one name. It is known before their fields are joined.
    fn without_shared_names(&self, span: Span, shapes: &[Shape]) -> Result<(), TypeError>
        ensures { (os : OutlineTrees) → AreShapes self.now.table shapes.now os → Judges (at_span span (where_true (has_twice (form_names (joined_forms os))) 5)) result }
    {
        self.without_seen_names(span, &mut IndexSet::new(self.alloc), shapes)
    }

    // The same, where no name was seen before.
    fn without_seen_names(
        &self,
        span: Span,
        seen: &mut IndexSet<usize>,
        shapes: &[Shape],
    ) -> Result<(), TypeError>
        requires { seen.old.keys ≡ [] }
        ensures { (os : OutlineTrees) → AreShapes self.now.table shapes.now os → Judges (at_span span (where_true (has_twice (form_names (joined_forms os))) 5)) result }
    {
        for s in shapes {
            fault_where(self.table.meets_a_name(seen, s.forms)?, 5, span)?;
        }
        Ok(())
    }

    // No two fields of a record have one name.
    fn without_repeats(&self, span: Span, forms: usize) -> Result<(), TypeError>
        ensures { (fs : Forms) → IsForms self.now.table forms fs → Judges (at_span span (where_true (has_twice (form_names fs)) 5)) result }
    {
        fault_where(self.table.repeats_a_name(self.alloc, forms)?, 5, span)
    }

    #[cycle(layout)]
    fn members(
        &mut self,
        span: Span,
        fs: &'a [(Name, FieldText)],
    ) -> Result<Vec<(&'a Name, Member)>, TypeError>
        ensures { ShapesFields self.old self.new span (list_fields fs.now) result }
    {
        let mut members = Vec::new(self.alloc);
        for f in fs {
            let member = self.member(span, &f.1)?;
            members.push((&f.0, member))?;
        }
        Ok(members)
    }

    #[cycle(layout)]
    fn member(&mut self, span: Span, f: &'a FieldText) -> Result<Member, TypeError>
        ensures { ShapesField self.old self.new span (field_tree f.now) result }
    {
        match f {
            FieldText::Bits(n) => {
                fault_where(is_outside(*n, 32), 4, span)?;
                Ok(bit_field(*n))
            }
            FieldText::Inner(l) => {
                let shape = self.whole_layout(span, l)?;
                Ok(self.inner_member(shape)?)
            }
            FieldText::Overlay(fs) => {
                let members = self.members(span, fs)?;
                let member = self.overlay_member(&members)?;
                fitting_alternatives(self.alloc, &self.table, span, &members, member.1)?;
                Ok(member.0)
            }
        }
    }

    // The shape of a record of some fields.
    fn record_shape(&mut self, members: &[(&'a Name, Member)]) -> Result<Shape, NoMemory>
        ensures shaped { (os : NamedOutlines) → AreMembers self.old.table (named members.now) os → IfOk result (λ shape. IsShape self.new.table shape (PartsOutline os)) }
        ensures keeps { OnOk result (Keeps self.old self.new) }
    {
        Ok(Shape {
            bits: total_bits(members),
            fields: total_fields(members),
            height: highest(members).saturating_add(1),
            forms: self.forms_of(members)?,
            types: self.types_of(members)?,
        })
    }

    // The forms of some fields.
    fn forms_of(&mut self, members: &[(&'a Name, Member)]) -> Result<usize, NoMemory>
        ensures made { (os : NamedOutlines) → AreMembers self.old.table (named members.now) os → IfOk result (λ i. IsForms self.new.table i (forms_of_outlines os)) }
        ensures keeps { OnOk result (Keeps self.old self.new) }
    {
        let mut forms = Vec::new(self.alloc);
        for m in members {
            forms.push((m.0, m.1.form))?;
        }
        self.table.fields_of(self.alloc, &forms)
    }

    // The types of some fields' unpacked values.
    fn types_of(&mut self, members: &[(&'a Name, Member)]) -> Result<usize, NoMemory>
        ensures made { (os : NamedOutlines) → AreMembers self.old.table (named members.now) os → IfOk result (λ i. IsFields self.new.table i (unpacked_all (forms_of_outlines os))) }
        ensures keeps { OnOk result (Keeps self.old self.new) }
    {
        let mut types = Vec::new(self.alloc);
        for m in members {
            types.push((m.0, m.1.unpacked))?;
        }
        self.table.fields_of(self.alloc, &types)
    }

    // The field whose value is an inner layout's record.
    fn inner_member(&mut self, shape: Shape) -> Result<Member, NoMemory>
        ensures made { (o : OutlineTree) → IsDeclared self.old.table shape o → IfOk result (λ m. IsMember self.new.table m o) }
        ensures keeps { OnOk result (Keeps self.old self.new) }
    {
        Ok(Member {
            bits: shape.bits,
            fields: shape.fields,
            height: shape.height,
            form: self.table.record_of(shape.forms)?,
            unpacked: self.table.record_of(shape.types)?,
        })
    }

    // The field whose value is one of some alternatives, and the forms of these.
    fn overlay_member(
        &mut self,
        members: &[(&'a Name, Member)],
    ) -> Result<(Member, usize), NoMemory>
        ensures made { (os : NamedOutlines) → AreMembers self.old.table (named members.now) os → IfOk result (λ m. IsMember self.new.table m.0 (OverlayOutline os)) }
        ensures forms { (os : NamedOutlines) → AreMembers self.old.table (named members.now) os → IfOk result (λ m. IsForms self.new.table m.1 (forms_of_outlines os)) }
        ensures keeps { OnOk result (Keeps self.old self.new) }
    {
        let forms = self.forms_of(members)?;
        let types = self.types_of(members)?;
        let form = self.table.choice(forms)?;
        let unpacked = self.table.record_of(types)?;
        Ok((overlay_of(members, form, unpacked), forms))
    }

    // The shape of layouts one after another.
    fn joined_shape(&mut self, shapes: &[Shape]) -> Result<Shape, NoMemory>
        ensures shaped { (os : OutlineTrees) → AreShapes self.old.table shapes.now os → IfOk result (λ shape. IsShape self.new.table shape (JoinedOutline os)) }
        ensures keeps { OnOk result (Keeps self.old self.new) }
    {
        let mut whole = Shape {
            bits: 0,
            fields: 0,
            height: 0,
            forms: NO_FIELDS,
            types: NO_FIELDS,
        };
        let mut left = shapes.len();
        while left > 0 {
            left -= 1;
            whole = self.in_front(shapes[left], whole)?;
        }
        whole.height = whole.height.saturating_add(1);
        Ok(whole)
    }

    // What layouts one after another have together, with one more in front.
    fn in_front(&mut self, first: Shape, rest: Shape) -> Result<Shape, NoMemory>
        ensures joined { (o : OutlineTree) (os : OutlineTrees) → IsShape self.old.table first o → IsJoined self.old.table rest os → IfOk result (λ whole. IsJoined self.new.table whole (outline_and o os)) }
        ensures keeps { OnOk result (Keeps self.old self.new) }
    {
        let firsts = (first.forms, first.types);
        let rests = (rest.forms, rest.types);
        let (forms, types) = self.table.both_joined(self.alloc, firsts, rests)?;
        Ok(Shape {
            bits: first.bits.saturating_add(rest.bits),
            fields: first.fields.saturating_add(rest.fields),
            height: first.height.max(rest.height),
            forms,
            types,
        })
    }
}
