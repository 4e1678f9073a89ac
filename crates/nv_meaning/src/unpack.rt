// Unpacking: the record of a layout out of a list of bits.
ghost use Rattle.std.specs.Prelude.{◌≡◌, ◌≤◌, ◌+◌, ◌^◌, min, take, drop, length, IfOk, OnOk};
ghost use Rattle.nv_ast.specs.Bits.{number, packed as packed_bits};
ghost use Rattle.nv_ast.specs.LayoutView.{layout_tree, field_tree, list_fields, list_layouts};
ghost use Rattle.nv_ast.specs.Outline.{outline, outlines, field_outline, field_outlines, size as bit_size, total_size, total_named_size, longest};
ghost use Rattle.nv_ast.specs.Tree.{NamedLayout};
ghost use Rattle.nv_meaning_values.specs.Values.{fields_of, ◌++_fields◌};
ghost use Rattle.nv_meaning_values.specs.Packing.{unpacked_value, value_at, parts_at, alternatives_at, joined_at};
ghost use Rattle.nv_meaning_values.specs.inner.TableView.{declared_in};
ghost use Rattle.nv_meaning_values.specs.inner.View.{view, list_named_values};

use crate::parts::words_in;
use nv_ast::{FieldText, LayoutText, Name};
use nv_base::NoMemory;
use nv_layout::{Field as BitField, extract};
use nv_meaning_values::{Field, Table, Value};
use std::alloc::Global;

// N words that no number holds their bits are more than memory holds.
const MOST_WORDS: usize = 1 << 32;

/// What unpack gives of a packed value.
pub fn unpacked<'a>(
    alloc: Global,
    t: &Table<'a>,
    x: &Name,
    v: &Value,
) -> Result<Value<'a>, NoMemory>
    ensures { IfOk result (λ u. view u ≡ unpacked_value (outline (declared_in t.now).layouts (NamedLayout x.now)) (view v.now)) }
{
    let words = words_in(alloc, v)?;
    if words.len() > MOST_WORDS {
        return Err(NoMemory);
    }
    match t.layout(x, t.layouts.len()) {
        Some((l, limit)) => record(alloc, t, l, limit, &words),
        None => Ok(Value::Record(Vec::new(alloc))),
    }
}

/// The record of a layout, whose bits are the first ones of the words.
pub fn record<'a>(
    alloc: Global,
    t: &Table<'a>,
    l: &'a LayoutText,
    limit: usize,
    words: &[u32],
) -> Result<Value<'a>, NoMemory>
    requires { length words.now ≤ 2 ^ 32 }
    ensures { IfOk result (λ v. view v ≡ value_at (outline (take limit (declared_in t.now).layouts) (layout_tree l.now)) (packed_bits words.now)) }
{
    let mut fields = Vec::new(alloc);
    add_fields(alloc, t, l, limit, words, 0, &mut fields)?;
    Ok(Value::Record(fields))
}

// Adds the fields of a layout's record, whose bits begin at a place, and answers the place behind
// them, or the greatest number.
#[cycle(unpack)]
fn add_fields<'a>(
    alloc: Global,
    t: &Table<'a>,
    l: &'a LayoutText,
    limit: usize,
    words: &[u32],
    at: u64,
    fields: &mut Vec<Field<'a>>,
) -> Result<u64, NoMemory>
    requires { length words.now ≤ 2 ^ 32 }
    ensures fields { OnOk result (list_named_values fields.new.items ≡ list_named_values fields.old.items ++_fields fields_of (value_at (outline (take limit (declared_in t.now).layouts) (layout_tree l.now)) (drop at (packed_bits words.now)))) }
    ensures behind { IfOk result (λ i. i ≡ min (at + bit_size (outline (take limit (declared_in t.now).layouts) (layout_tree l.now))) u64.MAX) }
{
    match l {
        LayoutText::Named(x) => match t.layout(x, limit) {
            Some((named, before)) => add_fields(alloc, t, named, before, words, at, fields),
            None => Ok(at),
        },
        LayoutText::Gap(n) => Ok(at.saturating_add(*n as u64)),
        LayoutText::Parts(fs) => add_parts(alloc, t, fs, limit, words, at, fields),
        LayoutText::Joined(ls) => add_joined(alloc, t, ls, limit, words, at, fields),
    }
}

#[cycle(unpack)]
fn add_joined<'a>(
    alloc: Global,
    t: &Table<'a>,
    ls: &'a [LayoutText],
    limit: usize,
    words: &[u32],
    first: u64,
    fields: &mut Vec<Field<'a>>,
) -> Result<u64, NoMemory>
    requires { length words.now ≤ 2 ^ 32 }
    ensures fields { OnOk result (list_named_values fields.new.items ≡ list_named_values fields.old.items ++_fields joined_at (outlines (take limit (declared_in t.now).layouts) (list_layouts ls.now)) (drop first (packed_bits words.now))) }
    ensures behind { IfOk result (λ i. i ≡ min (first + total_size (outlines (take limit (declared_in t.now).layouts) (list_layouts ls.now))) u64.MAX) }
{
    let mut at = first;
    for l in ls {
        at = add_fields(alloc, t, l, limit, words, at, fields)?;
    }
    Ok(at)
}

#[cycle(unpack)]
fn add_parts<'a>(
    alloc: Global,
    t: &Table<'a>,
    fs: &'a [(Name, FieldText)],
    limit: usize,
    words: &[u32],
    first: u64,
    fields: &mut Vec<Field<'a>>,
) -> Result<u64, NoMemory>
    requires { length words.now ≤ 2 ^ 32 }
    ensures fields { OnOk result (list_named_values fields.new.items ≡ list_named_values fields.old.items ++_fields parts_at (field_outlines (take limit (declared_in t.now).layouts) (list_fields fs.now)) (drop first (packed_bits words.now))) }
    ensures behind { IfOk result (λ i. i ≡ min (first + total_named_size (field_outlines (take limit (declared_in t.now).layouts) (list_fields fs.now))) u64.MAX) }
{
    let mut at = first;
    for f in fs {
        let (v, behind) = field_value(alloc, t, &f.1, limit, words, at)?;
        fields.push((&f.0, v))?;
        at = behind;
    }
    Ok(at)
}

#[cycle(unpack)]
fn add_alternatives<'a>(
    alloc: Global,
    t: &Table<'a>,
    fs: &'a [(Name, FieldText)],
    limit: usize,
    words: &[u32],
    at: u64,
    fields: &mut Vec<Field<'a>>,
) -> Result<u64, NoMemory>
    requires { length words.now ≤ 2 ^ 32 }
    ensures fields { OnOk result (list_named_values fields.new.items ≡ list_named_values fields.old.items ++_fields alternatives_at (field_outlines (take limit (declared_in t.now).layouts) (list_fields fs.now)) (drop at (packed_bits words.now))) }
    ensures behind { IfOk result (λ i. i ≡ min (at + longest (field_outlines (take limit (declared_in t.now).layouts) (list_fields fs.now))) u64.MAX) }
{
    let mut last = at;
    for f in fs {
        let (v, behind) = field_value(alloc, t, &f.1, limit, words, at)?;
        fields.push((&f.0, v))?;
        last = last.max(behind);
    }
    Ok(last)
}

// The value of a field whose bits begin at a place, and the place after them.
#[cycle(unpack)]
fn field_value<'a>(
    alloc: Global,
    t: &Table<'a>,
    f: &'a FieldText,
    limit: usize,
    words: &[u32],
    at: u64,
) -> Result<(Value<'a>, u64), NoMemory>
    requires { length words.now ≤ 2 ^ 32 }
    ensures value { IfOk result (λ r. view r.0 ≡ value_at (field_outline (take limit (declared_in t.now).layouts) (field_tree f.now)) (drop at (packed_bits words.now))) }
    ensures behind { IfOk result (λ r. r.1 ≡ min (at + bit_size (field_outline (take limit (declared_in t.now).layouts) (field_tree f.now))) u64.MAX) }
{
    match f {
        FieldText::Bits(n) => Ok((
            Value::Word(number_at(words, at, *n)),
            at.saturating_add(*n as u64),
        )),
        FieldText::Inner(l) => {
            let mut fields = Vec::new(alloc);
            let behind = add_fields(alloc, t, l, limit, words, at, &mut fields)?;
            Ok((Value::Record(fields), behind))
        }
        FieldText::Overlay(fs) => {
            let mut fields = Vec::new(alloc);
            let behind = add_alternatives(alloc, t, fs, limit, words, at, &mut fields)?;
            Ok((Value::Record(fields), behind))
        }
    }
}

// The number of at most n and at most 32 bits from a place on.
fn number_at(words: &[u32], at: u64, n: u32) -> u32
    requires { length words.now ≤ 2 ^ 32 }
    ensures { result ≡ number (take (min n 32) (drop at (packed_bits words.now))) }
{
    let inside = words.len() as u64 * 32;
    if at >= inside || n == 0 {
        return 0;
    }
    let most = inside - at;
    let bits = most.min(n as u64).min(32) as u8;
    let first = (at / 32) as usize;
    let field = BitField {
        first: (at % 32) as u32,
        bits,
    };
    extract(field, &words[first..])
}
