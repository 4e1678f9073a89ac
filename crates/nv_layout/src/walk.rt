// The outline of a layout text, or its first fault.

ghost use Rattle.std.specs.Prelude.{◌≡◌, ◌≤◌, ◌++◌, ◌<◌, ◌==◌, ◌↔◌, [], All, IsTrue, IfOk, IfErr, OnOk};
ghost use Rattle.nv_ast.specs.Outline.{BitsOutline, GapOutline, OverlayOutline, outline, outlines, field_outline, field_outlines, record_of, sizes_of, named_list, outline_height, size as bit_size, IsSound};
ghost use Rattle.nv_ast.specs.LayoutFaults.{declared_faults, layout_faults, layouts_faults, field_faults, fields_faults, wrong_bits, wrong_gap, same_field, different_sizes, unfit};
ghost use Rattle.nv_ast.specs.LayoutView.{layout_tree, field_tree, list_fields, list_layouts};
ghost use Rattle.nv_ast.specs.Tree.{NamedLayout};
ghost use Rattle.nv_ast.specs.Tests.{names_of, all_same};
ghost use Rattle.std.specs.List.{list_all};
ghost use Rattle.nv_layout.specs.OutlineView.{outline_tree, list_named_outlines, layouts_of};
ghost use Rattle.nv_layout.specs.Shaping.{IsFirstOf};
ghost use Rattle.nv_layout.specs.inner.Shapes.{Shapes, ShapesFields, ShapesAll, IsFit};

use crate::error::LayoutError;
use crate::extent::measured;
use crate::outline::Outline;
use crate::record::{copy, has_field, is_within, repeats_a_name};
use nv_ast::{FieldText, LayoutText, Name};
use nv_base::NoMemory;
use std::alloc::Global;

/// The most bits of a layout or a gap.
const MOST_BITS: u32 = 1024;

/// The greatest height of a layout.
const HIGHEST: u32 = 100;

/// The outline of a layout text: the names of other layouts, of which the first of a name counts,
/// written out. A fault is the first in the walk that takes a layout's parts from left to right and
/// then the layout itself, where the least kind comes first.
pub fn shape(
    alloc: Global,
    known: &[(Name, Outline)],
    l: &LayoutText,
) -> Result<Outline, LayoutError>
    requires { All (λ k. IsSound k.1) (layouts_of known.now) }

    ensures outline { IfOk result (λ o. outline_tree o ≡ outline (layouts_of known.now) (layout_tree l.now)) }
    ensures no_fault { OnOk result (declared_faults (layouts_of known.now) (layout_tree l.now) ≡ []) }
    ensures first_fault { IfErr result (IsFirstOf (declared_faults (layouts_of known.now) (layout_tree l.now))) }

    ensures sound { IfOk result (λ o. IsSound (outline_tree o)) }
    ensures small { IfOk result (λ o. bit_size (outline_tree o) ≤ 1024) }
    ensures low { IfOk result (λ o. outline_height (outline_tree o) ≤ 100) }
{
    fitting(layout_outline(alloc, known, l)?)
}

#[cycle(walk)]
fn layout_outline(
    alloc: Global,
    known: &[(Name, Outline)],
    l: &LayoutText,
) -> Result<Outline, LayoutError>
    ensures { Shapes (layout_faults (layouts_of known.now) (layout_tree l.now)) (outline (layouts_of known.now) (layout_tree l.now)) result }
{
    match l {
        LayoutText::Named(x) => named(alloc, known, x),
        LayoutText::Gap(n) => gap(*n),
        LayoutText::Parts(fs) => {
            let parts = fields_outlines(alloc, known, fs)?;
            without_repeats(alloc, Outline::Parts(parts))
        }
        LayoutText::Joined(ls) => {
            let layouts = layouts_outlines(alloc, known, ls)?;
            without_repeats(alloc, Outline::Joined(layouts))
        }
    }
}

#[cycle(walk)]
fn layouts_outlines(
    alloc: Global,
    known: &[(Name, Outline)],
    ls: &[LayoutText],
) -> Result<Vec<Outline>, LayoutError>
    ensures { ShapesAll (layouts_faults (layouts_of known.now) (list_layouts ls.now)) (outlines (layouts_of known.now) (list_layouts ls.now)) result }
{
    let mut done = Vec::new(alloc);
    for l in ls {
        done.push(layout_outline(alloc, known, l)?)?;
    }
    Ok(done)
}

#[cycle(walk)]
fn field_text_outline(
    alloc: Global,
    known: &[(Name, Outline)],
    f: &FieldText,
) -> Result<Outline, LayoutError>
    ensures { Shapes (field_faults (layouts_of known.now) (field_tree f.now)) (field_outline (layouts_of known.now) (field_tree f.now)) result }
{
    match f {
        FieldText::Bits(n) => bit_field(*n),
        FieldText::Inner(l) => fitting(layout_outline(alloc, known, l)?),
        FieldText::Overlay(fs) => {
            let alternatives = fields_outlines(alloc, known, fs)?;
            overlay(alloc, alternatives)
        }
    }
}

#[cycle(walk)]
fn fields_outlines(
    alloc: Global,
    known: &[(Name, Outline)],
    fs: &[(Name, FieldText)],
) -> Result<Vec<(Name, Outline)>, LayoutError>
    ensures { ShapesFields (fields_faults (layouts_of known.now) (list_fields fs.now)) (field_outlines (layouts_of known.now) (list_fields fs.now)) result }
{
    let mut done = Vec::new(alloc);
    for f in fs {
        let o = field_text_outline(alloc, known, &f.1)?;
        done.push((f.0.clone()?, o))?;
    }
    Ok(done)
}

// A copy of the outline of a known layout.
fn named(alloc: Global, known: &[(Name, Outline)], x: &Name) -> Result<Outline, LayoutError>
    ensures { Shapes (layout_faults (layouts_of known.now) (NamedLayout x.now)) (outline (layouts_of known.now) (NamedLayout x.now)) result }
{
    for k in known {
        if k.0 == *x {
            return Ok(copy(alloc, &k.1)?);
        }
    }
    Err(LayoutError::Fault(3))
}

// Bits that are left out.
fn gap(n: u32) -> Result<Outline, LayoutError>
    ensures { Shapes (wrong_gap n) (GapOutline n) result }
{
    if n < 1 || n > MOST_BITS {
        return Err(LayoutError::Fault(4));
    }
    Ok(Outline::Gap(n))
}

// A field of some bits.
fn bit_field(n: u32) -> Result<Outline, LayoutError>
    ensures { Shapes (wrong_bits n) (BitsOutline n) result }
{
    if n < 1 || n > 32 {
        return Err(LayoutError::Fault(4));
    }
    Ok(Outline::Bits(n as u8))
}

// An overlay of alternatives of different names and one size.
fn overlay(alloc: Global, alternatives: Vec<(Name, Outline)>) -> Result<Outline, LayoutError>
    ensures { Shapes (same_field (names_of (named_list (list_named_outlines alternatives.items))) ++ different_sizes (sizes_of (list_named_outlines alternatives.items))) (OverlayOutline (list_named_outlines alternatives.items)) result }
{
    let one_size = have_one_size(&alternatives)?;
    let o = without_repeats(alloc, Outline::Overlay(alternatives))?;
    if !one_size {
        return Err(LayoutError::Fault(6));
    }
    Ok(o)
}

// Whether the alternatives have one size. So many bits that no number holds them are of more layouts
// than memory holds.
fn have_one_size(alternatives: &[(Name, Outline)]) -> Result<bool, NoMemory>
    ensures { IfOk result (λ b. b ≡ all_same (sizes_of (list_named_outlines alternatives.now))) }
{
    let Some((first, others)) = alternatives.split_first() else {
        return Ok(true);
    };
    let n = measured(&first.1);
    if n == u64::MAX {
        return Err(NoMemory);
    }
    Ok(have_size(others, n))
}

// Whether each alternative has so many bits.
fn have_size(alternatives: &[(Name, Outline)], n: u64) -> bool
    requires { n < u64.MAX }
    ensures { result ≡ list_all (λ m. m == n) (sizes_of (list_named_outlines alternatives.now)) }
{
    for a in alternatives {
        if measured(&a.1) != n {
            return false;
        }
    }
    true
}

// An outline in whose record no name stands twice.
fn without_repeats(alloc: Global, o: Outline) -> Result<Outline, LayoutError>
    ensures { Shapes (same_field (names_of (record_of (outline_tree o)))) (outline_tree o) result }
{
    if repeats_a_name(alloc, &o)? {
        return Err(LayoutError::Fault(5));
    }
    Ok(o)
}

// An outline that fits.
fn fitting(o: Outline) -> Result<Outline, LayoutError>
    ensures { Shapes (unfit (outline_tree o)) (outline_tree o) result }
{
    if is_fit(&o) {
        Ok(o)
    } else {
        Err(LayoutError::Fault(7))
    }
}

// Whether an outline has a field, at most 1,024 bits and a height of at most 100.
fn is_fit(o: &Outline) -> bool
    ensures { IsTrue result ↔ IsFit (outline_tree o.now) }
{
    has_field(o) && measured(o) <= MOST_BITS as u64 && is_within(o, HIGHEST)
}
