// Packing: the words of a layout out of a record.
ghost use Rattle.std.specs.Prelude.{◌≡◌, ◌≤◌, ◌+◌, ◌*◌, ◌^◌, min, take, length, replicate, IfOk};
ghost use Rattle.nv_ast.specs.Bits.{bits as bits_in, packed as packed_bits, replaced};
ghost use Rattle.nv_ast.specs.LayoutView.{layout_tree, field_tree, list_fields, list_layouts};
ghost use Rattle.nv_ast.specs.Outline.{outline, outlines, field_outline, field_outlines, size as bit_size, total_size, total_named_size, longest as greatest_size};
ghost use Rattle.nv_ast.specs.Tree.{NamedLayout};
ghost use Rattle.nv_ast.specs.Types.{packed_words as size_words};
ghost use Rattle.nv_meaning_values.specs.Values.{word_of, fields_of, field_named};
ghost use Rattle.nv_meaning_values.specs.Packing.{packed_value, bits_of, parts_bits, chosen_bits, joined_bits, words_of_bits};
ghost use Rattle.nv_meaning.specs.inner.Blanks.{IsBlankFrom};
ghost use Rattle.nv_meaning_values.specs.inner.TableView.{declared_in};
ghost use Rattle.nv_meaning_values.specs.inner.View.{view, list_named_values};

use crate::parts::find;
use nv_ast::{FieldText, LayoutText, Name};
use nv_base::NoMemory;
use nv_layout::{Field as BitField, insert};
use nv_meaning_values::{Field, Table, Value, value_of_words};
use std::alloc::Global;

// A layout of more bits has more words than memory holds.
const MOST_BITS: u64 = 1 << 37;

/// What pack gives of a record.
pub fn packed<'a>(
    alloc: Global,
    t: &Table<'a>,
    x: &Name,
    v: &Value<'a>,
) -> Result<Value<'a>, NoMemory>
    ensures { IfOk result (λ u. view u ≡ packed_value (outline (declared_in t.now).layouts (NamedLayout x.now)) (view v.now)) }
{
    match t.layout(x, t.layouts.len()) {
        Some((l, limit)) => {
            let bits = t.size_of(x);
            let words = packed_words(alloc, t, l, limit, bits, v)?;
            value_of_words(alloc, &words)
        }
        None => value_of_words(alloc, &[]),
    }
}

fn packed_words<'a>(
    alloc: Global,
    t: &Table<'a>,
    l: &'a LayoutText,
    limit: usize,
    bits: u64,
    v: &Value<'a>,
) -> Result<Vec<u32>, NoMemory>
    requires { bits ≡ min (bit_size (outline (take limit (declared_in t.now).layouts) (layout_tree l.now))) u64.MAX }
    ensures { IfOk result (λ ws. ws.items ≡ words_of_bits (size_words (outline (take limit (declared_in t.now).layouts) (layout_tree l.now))) (bits_of (outline (take limit (declared_in t.now).layouts) (layout_tree l.now)) (view v.now))) }
{
    if bits > MOST_BITS {
        return Err(NoMemory);
    }
    let mut words = zeros(alloc, (bits as usize + 31) / 32)?;
    write_all(t, l, limit, v, &mut words);
    Ok(words)
}

// So many zeros.
fn zeros(alloc: Global, count: usize) -> Result<Vec<u32>, NoMemory>
    ensures { IfOk result (λ words. words.items ≡ replicate count 0) }
{
    Ok(vec![in alloc; 0; count]?)
}

// Writes a layout into words of zeros.
fn write_all<'a>(t: &Table<'a>, l: &'a LayoutText, limit: usize, v: &Value<'a>, words: &mut [u32])
    requires zeros { words.old ≡ replicate (length words.old) 0 }
    requires inside { bit_size (outline (take limit (declared_in t.now).layouts) (layout_tree l.now)) ≤ 32 * length words.old }
    requires few { length words.old ≤ 2 ^ 33 }
    ensures { words.new ≡ words_of_bits (length words.old) (bits_of (outline (take limit (declared_in t.now).layouts) (layout_tree l.now)) (view v.now)) }
{
    write_layout(t, l, limit, v, words, 0);
}

// The fields of a record, none of anything else.
#[tactic(auto, using(nv_meaning_values::proofs::Rows::tuple_view, nv_meaning_values::proofs::Rows::record_view))]
fn fields_in<'b, 'a>(v: &'b Value<'a>) -> &'b [Field<'a>]
    ensures { list_named_values result.now ≡ fields_of (view v.now) }
{
    match v {
        Value::Record(fields) => fields,
        _ => &[],
    }
}

// ---- words

// Writes the bits of a layout from a place on, and answers the place after them. Gaps are zeros
// already.
#[cycle(write)]
fn write_layout<'a>(
    t: &Table<'a>,
    l: &'a LayoutText,
    limit: usize,
    v: &Value<'a>,
    words: &mut [u32],
    at: u64,
) -> u64
    requires inside { at + bit_size (outline (take limit (declared_in t.now).layouts) (layout_tree l.now)) ≤ 32 * length words.old }
    requires few { length words.old ≤ 2 ^ 33 }
    requires blank { IsBlankFrom at (packed_bits words.old) }
    ensures words { packed_bits words.new ≡ replaced at (bits_of (outline (take limit (declared_in t.now).layouts) (layout_tree l.now)) (view v.now)) (packed_bits words.old) }
    ensures behind { result ≡ at + length (bits_of (outline (take limit (declared_in t.now).layouts) (layout_tree l.now)) (view v.now)) }
{
    match l {
        LayoutText::Named(x) => match t.layout(x, limit) {
            Some((named, before)) => write_layout(t, named, before, v, words, at),
            None => at,
        },
        LayoutText::Gap(n) => at + *n as u64,
        LayoutText::Parts(fs) => write_parts(t, fs, limit, fields_in(v), words, at),
        LayoutText::Joined(ls) => write_joined(t, ls, limit, v, words, at),
    }
}

#[cycle(write)]
fn write_joined<'a>(
    t: &Table<'a>,
    ls: &'a [LayoutText],
    limit: usize,
    v: &Value<'a>,
    words: &mut [u32],
    first: u64,
) -> u64
    requires inside { first + total_size (outlines (take limit (declared_in t.now).layouts) (list_layouts ls.now)) ≤ 32 * length words.old }
    requires few { length words.old ≤ 2 ^ 33 }
    requires blank { IsBlankFrom first (packed_bits words.old) }
    ensures words { packed_bits words.new ≡ replaced first (joined_bits (outlines (take limit (declared_in t.now).layouts) (list_layouts ls.now)) (view v.now)) (packed_bits words.old) }
    ensures behind { result ≡ first + length (joined_bits (outlines (take limit (declared_in t.now).layouts) (list_layouts ls.now)) (view v.now)) }
{
    let mut at = first;
    for l in ls {
        at = write_layout(t, l, limit, v, words, at);
    }
    at
}

#[cycle(write)]
fn write_parts<'a>(
    t: &Table<'a>,
    fs: &'a [(Name, FieldText)],
    limit: usize,
    fields: &[Field<'a>],
    words: &mut [u32],
    first: u64,
) -> u64
    requires inside { first + total_named_size (field_outlines (take limit (declared_in t.now).layouts) (list_fields fs.now)) ≤ 32 * length words.old }
    requires few { length words.old ≤ 2 ^ 33 }
    requires blank { IsBlankFrom first (packed_bits words.old) }
    ensures words { packed_bits words.new ≡ replaced first (parts_bits (field_outlines (take limit (declared_in t.now).layouts) (list_fields fs.now)) (list_named_values fields.now)) (packed_bits words.old) }
    ensures behind { result ≡ first + length (parts_bits (field_outlines (take limit (declared_in t.now).layouts) (list_fields fs.now)) (list_named_values fields.now)) }
{
    let mut at = first;
    for f in fs {
        at = write_part(t, f, limit, fields, words, at);
    }
    at
}

// Writes a field of a record, as 0 where the record has none of its name.
#[cycle(write)]
fn write_part<'a>(
    t: &Table<'a>,
    f: &'a (Name, FieldText),
    limit: usize,
    fields: &[Field<'a>],
    words: &mut [u32],
    at: u64,
) -> u64
    requires inside { at + bit_size (field_outline (take limit (declared_in t.now).layouts) (field_tree f.now.1)) ≤ 32 * length words.old }
    requires few { length words.old ≤ 2 ^ 33 }
    requires blank { IsBlankFrom at (packed_bits words.old) }
    ensures words { packed_bits words.new ≡ replaced at (bits_of (field_outline (take limit (declared_in t.now).layouts) (field_tree f.now.1)) (field_named f.now.0 (list_named_values fields.now))) (packed_bits words.old) }
    ensures behind { result ≡ at + length (bits_of (field_outline (take limit (declared_in t.now).layouts) (field_tree f.now.1)) (field_named f.now.0 (list_named_values fields.now))) }
{
    match find(fields, &f.0) {
        Some(i) => write_field(t, &f.1, limit, &fields[i].1, words, at),
        None => write_field(t, &f.1, limit, &Value::Word(0), words, at),
    }
}

// Writes the first alternative that the record has.
#[cycle(write)]
fn write_chosen<'a>(
    t: &Table<'a>,
    fs: &'a [(Name, FieldText)],
    limit: usize,
    fields: &[Field<'a>],
    words: &mut [u32],
    at: u64,
) -> u64
    requires inside { at + greatest_size (field_outlines (take limit (declared_in t.now).layouts) (list_fields fs.now)) ≤ 32 * length words.old }
    requires few { length words.old ≤ 2 ^ 33 }
    requires blank { IsBlankFrom at (packed_bits words.old) }
    ensures words { packed_bits words.new ≡ replaced at (chosen_bits (field_outlines (take limit (declared_in t.now).layouts) (list_fields fs.now)) (list_named_values fields.now)) (packed_bits words.old) }
    ensures behind { result ≡ at + length (chosen_bits (field_outlines (take limit (declared_in t.now).layouts) (list_fields fs.now)) (list_named_values fields.now)) }
{
    for f in fs {
        match find(fields, &f.0) {
            Some(i) => return write_field(t, &f.1, limit, &fields[i].1, words, at),
            None => {}
        }
    }
    at
}

#[cycle(write)]
fn write_field<'a>(
    t: &Table<'a>,
    f: &'a FieldText,
    limit: usize,
    v: &Value<'a>,
    words: &mut [u32],
    at: u64,
) -> u64
    requires inside { at + bit_size (field_outline (take limit (declared_in t.now).layouts) (field_tree f.now)) ≤ 32 * length words.old }
    requires few { length words.old ≤ 2 ^ 33 }
    requires blank { IsBlankFrom at (packed_bits words.old) }
    ensures words { packed_bits words.new ≡ replaced at (bits_of (field_outline (take limit (declared_in t.now).layouts) (field_tree f.now)) (view v.now)) (packed_bits words.old) }
    ensures behind { result ≡ at + length (bits_of (field_outline (take limit (declared_in t.now).layouts) (field_tree f.now)) (view v.now)) }
{
    match f {
        FieldText::Bits(n) => write_bits(*n, number(v), words, at),
        FieldText::Inner(l) => write_layout(t, l, limit, v, words, at),
        FieldText::Overlay(fs) => write_chosen(t, fs, limit, fields_in(v), words, at),
    }
}

// Writes the n lowest bits of a word, with zeros in front where these are more than 32.
fn write_bits(n: u32, w: u32, words: &mut [u32], at: u64) -> u64
    requires inside { at + n ≤ 32 * length words.old }
    requires few { length words.old ≤ 2 ^ 33 }
    requires blank { IsBlankFrom at (packed_bits words.old) }
    ensures words { packed_bits words.new ≡ replaced at (bits_in n w) (packed_bits words.old) }
    ensures behind { result ≡ at + length (bits_in n w) }
{
    let behind = at + n as u64;
    if n == 0 {
        return behind;
    }
    let bits = n.min(32) as u8;
    let at = behind - bits as u64;
    let first = (at / 32) as usize;
    let field = BitField {
        first: (at % 32) as u32,
        bits,
    };
    insert(field, w, &mut words[first..]);
    behind
}

// The word that a value is, 0 where it is none.
fn number(v: &Value) -> u32
    ensures { result ≡ word_of (view v.now) }
{
    match v {
        Value::Word(w) => *w,
        _ => 0,
    }
}
