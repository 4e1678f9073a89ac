//! The sizes of layouts, and of their fields.

ghost use Rattle.std.specs.Prelude.{◌≡◌, ◌+◌, ◌/◌, ◌++◌, not, min, length};
ghost use Rattle.nv_ast.specs.Outline.{NamedOutlines, OverlayOutline, total_named_size, longest, highest_named_outline, part_fields, alternative_fields, sizes_of};
ghost use Rattle.nv_ast.specs.Types.{ChoiceForm, RecordTy, forms_of, unpacked_all};
ghost use Rattle.nv_ast.specs.Tests.{all_same, where_true, has_twice};
ghost use Rattle.nv_ast.specs.Faults.{at_span};
ghost use Rattle.nv_types_table.specs.inner.Cells.{still};
ghost use Rattle.nv_types_table.specs.inner.Named.{named};
ghost use Rattle.nv_types_table.specs.inner.Store.{Store, IsType, IsForm, IsForms, form_names};
ghost use Rattle.nv_types_table.specs.inner.Faulty.{Judges};
ghost use Rattle.nv_types_table.specs.inner.Layouts.{IsMember, AreMembers};

use crate::error::{TypeError, fault_where};
use crate::table::Table;
use nv_ast::{Name, Span};
use std::alloc::Global;

/// The most bits of a layout or a gap.
pub const MOST_BITS: u32 = 1024;

/// What is asked of a layout with the names of other layouts written out: its bits, the number of its bit
/// fields, its height, the forms of its record's fields and the types of their unpacked values.
#[derive(Clone, Copy)]
pub struct Shape {
    pub bits: u64,
    pub fields: u64,
    pub height: u64,
    pub forms: usize,
    pub types: usize,
}

impl Shape {
    /// How many words a packed value has.
    pub fn packed_words(self) -> u32
        ensures { result ≡ (min self.bits 1024 + 31) / 32 }
    {
        (self.bits.min(MOST_BITS as u64) as u32).div_ceil(32)
    }
}

/// The same of a field.
#[derive(Clone, Copy)]
pub struct Member {
    pub bits: u64,
    pub fields: u64,
    pub height: u64,
    pub form: usize,
    pub unpacked: usize,
}

/// The field whose value is one of some alternatives, by its form and the type of its unpacked value.
pub fn overlay_of(members: &[(&Name, Member)], form: usize, unpacked: usize) -> Member
    ensures { (s t : Store) (os : NamedOutlines) → AreMembers s (named members.now) os → IsForm t form (ChoiceForm (forms_of os)) → IsType t unpacked (RecordTy (unpacked_all (forms_of os))) → IsMember t result (OverlayOutline os) }
{
    Member {
        bits: most_bits(members),
        fields: total_fields(members),
        height: highest(members).saturating_add(1),
        form,
        unpacked,
    }
}

/// The faults of alternatives with these forms: first that two have one name, then that their sizes differ.
pub fn fitting_alternatives(
    alloc: Global,
    table: &Table,
    span: Span,
    members: &[(&Name, Member)],
    forms: usize,
) -> Result<(), TypeError>
    ensures { (s : Store) (os : NamedOutlines) → AreMembers s (named members.now) os → IsForms table.now forms (forms_of os) → Judges (at_span span (where_true (has_twice (form_names (forms_of os))) 5 ++ where_true (not (all_same (sizes_of os))) 6)) result }
{
    let named_twice = table.repeats_a_name(alloc, forms)?;
    fault_where(named_twice, 5, span)?;
    fault_where(!have_one_size(members), 6, span)
}

/// The bits of all fields.
pub fn total_bits(members: &[(&Name, Member)]) -> u64
    ensures { (s : Store) (os : NamedOutlines) → AreMembers s (named members.now) os → result ≡ still (total_named_size os) }
{
    let mut total: u64 = 0;
    for m in members {
        total = total.saturating_add(m.1.bits);
    }
    total
}

// The most bits of a field.
fn most_bits(members: &[(&Name, Member)]) -> u64
    ensures { (s : Store) (os : NamedOutlines) → AreMembers s (named members.now) os → result ≡ still (longest os) }
{
    let mut most: u64 = 0;
    for m in members {
        most = most.max(m.1.bits);
    }
    most
}

/// The bit fields of all fields.
pub fn total_fields(members: &[(&Name, Member)]) -> u64
    ensures parts { (s : Store) (os : NamedOutlines) → AreMembers s (named members.now) os → result ≡ still (length (part_fields 0 os)) }
    ensures alternatives { (s : Store) (os : NamedOutlines) → AreMembers s (named members.now) os → result ≡ still (length (alternative_fields 0 os)) }
{
    let mut total: u64 = 0;
    for m in members {
        total = total.saturating_add(m.1.fields);
    }
    total
}

/// The height of the highest field.
pub fn highest(members: &[(&Name, Member)]) -> u64
    ensures { (s : Store) (os : NamedOutlines) → AreMembers s (named members.now) os → result ≡ still (highest_named_outline os) }
{
    let mut most: u64 = 0;
    for m in members {
        most = most.max(m.1.height);
    }
    most
}

// Whether alternatives have one size.
fn have_one_size(members: &[(&Name, Member)]) -> bool
    ensures { (s : Store) (os : NamedOutlines) → AreMembers s (named members.now) os → result ≡ all_same (sizes_of os) }
{
    let Some((first, others)) = members.split_first() else {
        return true;
    };
    for m in others {
        if m.1.bits != first.1.bits {
            return false;
        }
    }
    true
}
