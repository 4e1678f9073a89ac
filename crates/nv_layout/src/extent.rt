// The size of an outline, and its fields.

ghost use Rattle.std.specs.Prelude.{◌≡◌, ◌+◌, ◌≤◌, ◌++◌, All, IfOk, OnOk, min};
ghost use Rattle.nv_ast.specs.Outline.{size as bit_size, total_named_size, longest, total_size, bit_fields, part_fields, alternative_fields, joined_fields, IsSound};
ghost use Rattle.nv_layout.specs.OutlineView.{outline_tree, list_named_outlines, list_outlines};
ghost use Rattle.nv_layout.specs.FieldList.{field_pairs, LiesWithin};

use crate::outline::{Field, Outline};
use nv_ast::Name;
use nv_base::NoMemory;
use std::alloc::Global;

/// The number of bits of a layout.
pub fn size(l: &Outline) -> u32
    requires small { bit_size (outline_tree l.now) ≤ 1024 }
    ensures { result ≡ bit_size (outline_tree l.now) }
{
    measured(l) as u32
}

// The number of bits, or the greatest number where it is more.
#[cycle(measured)]
#[tactic(auto, using(crate::proofs::Rows::parts_tree, crate::proofs::Rows::overlay_tree, crate::proofs::Rows::joined_tree))]
pub(crate) fn measured(o: &Outline) -> u64
    ensures { result ≡ min (bit_size (outline_tree o.now)) u64.MAX }
{
    match o {
        Outline::Bits(n) => *n as u64,
        Outline::Gap(n) => *n as u64,
        Outline::Parts(fs) => measured_parts(fs),
        Outline::Overlay(fs) => measured_longest(fs),
        Outline::Joined(os) => measured_joined(os),
    }
}

#[cycle(measured)]
fn measured_parts(fs: &[(Name, Outline)]) -> u64
    ensures { result ≡ min (total_named_size (list_named_outlines fs.now)) u64.MAX }
{
    let mut total: u64 = 0;
    for f in fs {
        total = total.saturating_add(measured(&f.1));
    }
    total
}

#[cycle(measured)]
fn measured_longest(fs: &[(Name, Outline)]) -> u64
    ensures { result ≡ min (longest (list_named_outlines fs.now)) u64.MAX }
{
    let mut most: u64 = 0;
    for f in fs {
        most = most.max(measured(&f.1));
    }
    most
}

#[cycle(measured)]
#[tactic(auto, using(crate::proofs::Lists::total_more))]
fn measured_joined(os: &[Outline]) -> u64
    ensures { result ≡ min (total_size (list_outlines os.now)) u64.MAX }
{
    let mut total: u64 = 0;
    for o in os {
        total = total.saturating_add(measured(o));
    }
    total
}

/// The bit fields of a layout in order, those of each alternative of an overlay in turn.
pub fn fields(alloc: Global, l: &Outline) -> Result<Vec<Field>, NoMemory>
    requires sound { IsSound (outline_tree l.now) }
    requires small { bit_size (outline_tree l.now) ≤ 1024 }
    ensures exact { IfOk result (λ fs. field_pairs fs.items ≡ bit_fields 0 (outline_tree l.now)) }
    ensures inside { IfOk result (λ fs. All (LiesWithin (bit_size (outline_tree l.now))) fs.items) }
{
    let mut found = Vec::new(alloc);
    place(l, 0, &mut found)?;
    Ok(found)
}

// Adds the fields of an outline that begins at a bit, and answers the bit after it.
#[cycle(place)]
#[tactic(auto, using(crate::proofs::Rows::parts_tree, crate::proofs::Rows::overlay_tree, crate::proofs::Rows::joined_tree))]
fn place(o: &Outline, at: u32, found: &mut Vec<Field>) -> Result<u32, NoMemory>
    requires { at + bit_size (outline_tree o.now) ≤ 1024 }
    ensures behind { IfOk result (λ i. i ≡ at + bit_size (outline_tree o.now)) }
    ensures added { OnOk result (field_pairs found.new.items ≡ field_pairs found.old.items ++ bit_fields at (outline_tree o.now)) }
{
    match o {
        Outline::Bits(n) => {
            found.push(Field {
                first: at,
                bits: *n,
            })?;
            Ok(at + *n as u32)
        }
        Outline::Gap(n) => Ok(at + *n),
        Outline::Parts(fs) => place_parts(fs, at, found),
        Outline::Overlay(fs) => place_alternatives(fs, at, found),
        Outline::Joined(os) => place_joined(os, at, found),
    }
}

#[cycle(place)]
fn place_parts(fs: &[(Name, Outline)], first: u32, found: &mut Vec<Field>) -> Result<u32, NoMemory>
    requires { first + total_named_size (list_named_outlines fs.now) ≤ 1024 }
    ensures behind { IfOk result (λ i. i ≡ first + total_named_size (list_named_outlines fs.now)) }
    ensures added { OnOk result (field_pairs found.new.items ≡ field_pairs found.old.items ++ part_fields first (list_named_outlines fs.now)) }
{
    let mut at = first;
    for f in fs {
        at = place(&f.1, at, found)?;
    }
    Ok(at)
}

#[cycle(place)]
fn place_alternatives(
    fs: &[(Name, Outline)],
    first: u32,
    found: &mut Vec<Field>,
) -> Result<u32, NoMemory>
    requires { first + longest (list_named_outlines fs.now) ≤ 1024 }
    ensures behind { IfOk result (λ i. i ≡ first + longest (list_named_outlines fs.now)) }
    ensures added { OnOk result (field_pairs found.new.items ≡ field_pairs found.old.items ++ alternative_fields first (list_named_outlines fs.now)) }
{
    let mut behind = first;
    for f in fs {
        behind = behind.max(place(&f.1, first, found)?);
    }
    Ok(behind)
}

#[cycle(place)]
fn place_joined(os: &[Outline], first: u32, found: &mut Vec<Field>) -> Result<u32, NoMemory>
    requires { first + total_size (list_outlines os.now) ≤ 1024 }
    ensures behind { IfOk result (λ i. i ≡ first + total_size (list_outlines os.now)) }
    ensures added { OnOk result (field_pairs found.new.items ≡ field_pairs found.old.items ++ joined_fields first (list_outlines os.now)) }
{
    let mut at = first;
    for o in os {
        at = place(o, at, found)?;
    }
    Ok(at)
}
