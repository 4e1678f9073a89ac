// The sizes of layouts in bits, each out of the sizes of those before it.
ghost use Rattle.std.specs.Prelude.{◌≡◌, ℕ, List, [], bytes_eq, map, min, Some, IfOk};
ghost use Rattle.std.specs.HashMap.{get_by};
ghost use Rattle.nv_ast.specs.LayoutView.{layout_tree, field_tree, list_fields, list_layouts};
ghost use Rattle.nv_ast.specs.Outline.{Layouts, outline, outlines, field_outline, field_outlines, size as bit_size, total_size, total_named_size, longest as greatest_size};
ghost use Rattle.nv_meaning_values.specs.inner.Tables.{place_from, laid, layout_pairs};
ghost use Rattle.nv_meaning_values.specs.inner.Sizes.{size_at, sizes_of, AreSizes};

use crate::table::NameIndices;
use nv_ast::{FieldText, LayoutText, Name};
use nv_base::NoMemory;
use std::alloc::Global;

/// The sizes of layouts, each of which may name those before it. Where one is more than a number
/// holds, it is the greatest number.
pub fn sizes<'a>(
    alloc: Global,
    layouts: &[(&'a Name, &'a LayoutText)],
    places: &NameIndices<'a>,
) -> Result<Vec<u64>, NoMemory>
    requires { (x : List ℕ) → get_by (λ key. bytes_eq x key.now) places.now ≡ place_from 0 x (map (λ l. l.0.now) layouts.now) }
    ensures { IfOk result (λ ns. ns.items ≡ sizes_of (laid [] (layout_pairs layouts.now))) }
{
    let mut sizes = Vec::with_capacity(alloc, layouts.len())?;
    for l in layouts {
        let bits = layout_size(places, &sizes, l.1);
        sizes.push(bits)?;
    }
    Ok(sizes)
}

/// The size of the layout of a name, 0 where there is none.
pub fn name_size(places: &NameIndices, sizes: &[u64], x: &Name) -> u64
    ensures { result ≡ size_at sizes.now (get_by (λ key. bytes_eq x.now key.now) places.now) }
{
    match places.get(&x) {
        Some(place) => number_at(sizes, *place),
        None => 0,
    }
}

// The number at a place, 0 where there is none.
fn number_at(numbers: &[u64], place: usize) -> u64
    ensures { result ≡ size_at numbers.now (Some place) }
{
    if place < numbers.len() {
        numbers[place]
    } else {
        0
    }
}

#[cycle(size)]
fn layout_size(places: &NameIndices, sizes: &[u64], l: &LayoutText) -> u64
    ensures { (known : Layouts) → AreSizes (λ x. get_by (λ key. bytes_eq x key.now) places.now) sizes.now known → result ≡ min (bit_size (outline known (layout_tree l.now))) u64.MAX }
{
    match l {
        LayoutText::Named(x) => name_size(places, sizes, x),
        LayoutText::Gap(n) => *n as u64,
        LayoutText::Parts(fs) => parts_size(places, sizes, fs),
        LayoutText::Joined(ls) => joined_size(places, sizes, ls),
    }
}

#[cycle(size)]
fn joined_size(places: &NameIndices, sizes: &[u64], ls: &[LayoutText]) -> u64
    ensures { (known : Layouts) → AreSizes (λ x. get_by (λ key. bytes_eq x key.now) places.now) sizes.now known → result ≡ min (total_size (outlines known (list_layouts ls.now))) u64.MAX }
{
    let mut total: u64 = 0;
    for l in ls {
        total = total.saturating_add(layout_size(places, sizes, l));
    }
    total
}

#[cycle(size)]
fn parts_size(places: &NameIndices, sizes: &[u64], fs: &[(Name, FieldText)]) -> u64
    ensures { (known : Layouts) → AreSizes (λ x. get_by (λ key. bytes_eq x key.now) places.now) sizes.now known → result ≡ min (total_named_size (field_outlines known (list_fields fs.now))) u64.MAX }
{
    let mut total: u64 = 0;
    for f in fs {
        total = total.saturating_add(field_size(places, sizes, &f.1));
    }
    total
}

#[cycle(size)]
fn longest(places: &NameIndices, sizes: &[u64], fs: &[(Name, FieldText)]) -> u64
    ensures { (known : Layouts) → AreSizes (λ x. get_by (λ key. bytes_eq x key.now) places.now) sizes.now known → result ≡ min (greatest_size (field_outlines known (list_fields fs.now))) u64.MAX }
{
    let mut most: u64 = 0;
    for f in fs {
        most = most.max(field_size(places, sizes, &f.1));
    }
    most
}

#[cycle(size)]
fn field_size(places: &NameIndices, sizes: &[u64], f: &FieldText) -> u64
    ensures { (known : Layouts) → AreSizes (λ x. get_by (λ key. bytes_eq x key.now) places.now) sizes.now known → result ≡ min (bit_size (field_outline known (field_tree f.now))) u64.MAX }
{
    match f {
        FieldText::Bits(n) => *n as u64,
        FieldText::Inner(l) => layout_size(places, sizes, l),
        FieldText::Overlay(fs) => longest(places, sizes, fs),
    }
}
