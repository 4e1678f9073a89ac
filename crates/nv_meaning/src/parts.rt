// Fields, copies and words of values.

ghost use Rattle.std.specs.Prelude.{◌≡◌, ◌<◌, ◌++◌, true, false, length, slice_index_or, IfOk, IfSome, IfNone, OnOk};
ghost use Rattle.nv_meaning_values.specs.Values.{fields_of, Word as WordOf, field_named, has_field, words_of, all_words, all_named_words};
ghost use Rattle.nv_meaning_values.specs.inner.View.{Named, view, list_values, list_named_values};

use nv_ast::Name;
use nv_base::NoMemory;
use nv_meaning_values::{Field, Value};
use std::alloc::Global;

/// The value of a field, 0 where there is no such field.
#[tactic(auto, using(nv_meaning_values::proofs::Rows::tuple_view, nv_meaning_values::proofs::Rows::record_view))]
pub fn field_in<'a>(v: Value<'a>, x: &Name) -> Value<'a>
    ensures { view result ≡ field_named x.now (fields_of (view v.entry)) }
{
    match v {
        Value::Record(fields) => field_among(fields, x),
        _ => Value::Word(0),
    }
}

fn field_among<'a>(fields: Vec<Field<'a>>, x: &Name) -> Value<'a>
    ensures { view result ≡ field_named x.now (list_named_values fields.entry.items) }
{
    match find(&fields, x) {
        Some(i) => {
            let mut fields = fields;
            fields.swap_remove(i).1
        }
        None => Value::Word(0),
    }
}

/// The place of the first field of a name.
pub fn find(fields: &[Field], x: &Name) -> Option<usize>
    ensures found { IfSome result (λ i. (i < length fields.now) × ((d : Named) → view (slice_index_or fields.now i d).1 ≡ field_named x.now (list_named_values fields.now))) }
    ensures has { IfSome result (λ i. has_field x.now (list_named_values fields.now) ≡ true) }
    ensures none { IfNone result ((has_field x.now (list_named_values fields.now) ≡ false) × (field_named x.now (list_named_values fields.now) ≡ WordOf 0)) }
{
    for (i, field) in fields.iter().enumerate() {
        if *x == *field.0 {
            return Some(i);
        }
    }
    None
}

/// A copy of a value.
#[cycle(copied)]
#[tactic(auto, using(nv_meaning_values::proofs::Rows::tuple_view, nv_meaning_values::proofs::Rows::record_view))]
pub fn copied<'a>(alloc: Global, v: &Value<'a>) -> Result<Value<'a>, NoMemory>
    ensures { IfOk result (λ copy. view copy ≡ view v.now) }
{
    match v {
        Value::Word(w) => Ok(Value::Word(*w)),
        Value::Truth(b) => Ok(Value::Truth(*b)),
        Value::Tuple(vs) => Ok(Value::Tuple(copied_all(alloc, vs)?)),
        Value::Record(fields) => Ok(Value::Record(copied_fields(alloc, fields)?)),
    }
}

#[cycle(copied)]
fn copied_all<'a>(alloc: Global, vs: &[Value<'a>]) -> Result<Vec<Value<'a>>, NoMemory>
    ensures { IfOk result (λ copy. list_values copy.items ≡ list_values vs.now) }
{
    let mut copy = Vec::with_capacity(alloc, vs.len())?;
    for v in vs {
        copy.push(copied(alloc, v)?)?;
    }
    Ok(copy)
}

#[cycle(copied)]
fn copied_fields<'a>(alloc: Global, fields: &[Field<'a>]) -> Result<Vec<Field<'a>>, NoMemory>
    ensures { IfOk result (λ copy. list_named_values copy.items ≡ list_named_values fields.now) }
{
    let mut copy = Vec::with_capacity(alloc, fields.len())?;
    for field in fields {
        copy.push((field.0, copied(alloc, &field.1)?))?;
    }
    Ok(copy)
}

/// The words of a value, in order.
pub fn words_in(alloc: Global, v: &Value) -> Result<Vec<u32>, NoMemory>
    ensures { IfOk result (λ words. words.items ≡ words_of (view v.now)) }
{
    let mut words = Vec::new(alloc);
    add_words(v, &mut words)?;
    Ok(words)
}

/// The words of some values, in order.
pub fn all_words_in(alloc: Global, vs: &[Value]) -> Result<Vec<u32>, NoMemory>
    ensures { IfOk result (λ words. words.items ≡ all_words (list_values vs.now)) }
{
    let mut words = Vec::new(alloc);
    add_all_words(vs, &mut words)?;
    Ok(words)
}

#[cycle(add_words)]
#[tactic(auto, using(nv_meaning_values::proofs::Rows::tuple_view, nv_meaning_values::proofs::Rows::record_view))]
fn add_words(v: &Value, words: &mut Vec<u32>) -> Result<(), NoMemory>
    ensures { OnOk result (words.new.items ≡ words.old.items ++ words_of (view v.now)) }
{
    match v {
        Value::Word(w) => Ok(words.push(*w)?),
        Value::Truth(b) => Ok(words.push(if *b { 1 } else { 0 })?),
        Value::Tuple(vs) => add_all_words(vs, words),
        Value::Record(fields) => add_field_words(fields, words),
    }
}

#[cycle(add_words)]
fn add_all_words(vs: &[Value], words: &mut Vec<u32>) -> Result<(), NoMemory>
    ensures { OnOk result (words.new.items ≡ words.old.items ++ all_words (list_values vs.now)) }
{
    for v in vs {
        add_words(v, words)?;
    }
    Ok(())
}

#[cycle(add_words)]
fn add_field_words(fields: &[Field], words: &mut Vec<u32>) -> Result<(), NoMemory>
    ensures { OnOk result (words.new.items ≡ words.old.items ++ all_named_words (list_named_values fields.now)) }
{
    for field in fields {
        add_words(&field.1, words)?;
    }
    Ok(())
}
