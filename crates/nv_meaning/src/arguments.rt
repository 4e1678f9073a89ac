// The values of main's parameters, out of the argument words.
ghost use Rattle.std.specs.Prelude.{◌≡◌, ◌+◌, [], min, drop, length, slice_index, IfOk, OnOk};
ghost use Rattle.nv_ast.specs.Outline.{outline};
ghost use Rattle.nv_ast.specs.Tree.{NamedLayout};
ghost use Rattle.nv_ast.specs.Types.{type_of, types_of, named_types_of, packed_ty, unpacked_ty, words_ty};
ghost use Rattle.nv_ast.specs.TypeView.{type_tree, list_types, list_named_types};
ghost use Rattle.nv_meaning_values.specs.Values.{named_values_from, words_of, all_words, all_named_words};
ghost use Rattle.nv_meaning.specs.Meaning.{named_scope};
ghost use Rattle.nv_meaning.specs.inner.Blanks.{blank, blanks, named_blanks, filled as filling, all_filled, fields_filled};
ghost use Rattle.nv_meaning_values.specs.inner.TableView.{declared_in};
ghost use Rattle.nv_meaning_values.specs.inner.View.{view, list_values, list_named_values, scope_of};

use crate::scope::Scope;
use crate::unpack::record;
use nv_ast::{Name, TyText};
use nv_base::NoMemory;
use nv_meaning_values::{Field, Table, Value};
use std::alloc::Global;

/// Adds the parameters, with their values out of the words in order.
pub fn add_arguments<'a>(
    alloc: Global,
    t: &Table<'a>,
    params: &'a [(Name, TyText)],
    args: &[u32],
    scope: &mut Scope<'a>,
) -> Result<(), NoMemory>
    ensures { OnOk result (scope_of scope.new.items [] ≡ named_scope (named_values_from (named_types_of (declared_in t.now).layouts (list_named_types params.now)) args.now) (scope_of scope.old.items [])) }
{
    let mut at = 0;
    for param in params {
        let (v, behind) = argument(alloc, t, &param.1, args, at)?;
        scope.push((&param.0, v))?;
        at = behind;
    }
    Ok(())
}

// The value of a parameter of a type, out of the words from a place on, and the place after them.
fn argument<'a>(
    alloc: Global,
    t: &Table<'a>,
    ty: &'a TyText,
    args: &[u32],
    at: usize,
) -> Result<(Value<'a>, usize), NoMemory>
    ensures value { IfOk result (λ r. view r.0 ≡ filling (blank (type_of (declared_in t.now).layouts (type_tree ty.now))) (drop at args.now)) }
    ensures behind { IfOk result (λ r. r.1 ≡ min (at + length (words_of (blank (type_of (declared_in t.now).layouts (type_tree ty.now))))) usize.MAX) }
{
    let empty = blank_of(alloc, t, ty)?;
    filled(alloc, &empty, args, at)
}

// ---- the value of a type whose words are 0

#[cycle(blank)]
fn blank_of<'a>(alloc: Global, t: &Table<'a>, ty: &'a TyText) -> Result<Value<'a>, NoMemory>
    ensures { IfOk result (λ v. view v ≡ blank (type_of (declared_in t.now).layouts (type_tree ty.now))) }
{
    match ty {
        TyText::Word(n) => blank_words(alloc, *n as u64),
        TyText::Bool => Ok(Value::Truth(false)),
        TyText::Packed(x) => blank_packed(alloc, t, x),
        TyText::Unpacked(x) => blank_record(alloc, t, x),
        TyText::Tuple(tys) => Ok(Value::Tuple(blank_parts(alloc, t, tys)?)),
        TyText::Fields(tys) => Ok(Value::Record(blank_fields(alloc, t, tys)?)),
    }
}

#[cycle(blank)]
fn blank_parts<'a>(
    alloc: Global,
    t: &Table<'a>,
    tys: &'a [TyText],
) -> Result<Vec<Value<'a>>, NoMemory>
    ensures { IfOk result (λ vs. list_values vs.items ≡ blanks (types_of (declared_in t.now).layouts (list_types tys.now))) }
{
    let mut vs = Vec::with_capacity(alloc, tys.len())?;
    for ty in tys {
        vs.push(blank_of(alloc, t, ty)?)?;
    }
    Ok(vs)
}

#[cycle(blank)]
fn blank_fields<'a>(
    alloc: Global,
    t: &Table<'a>,
    tys: &'a [(Name, TyText)],
) -> Result<Vec<Field<'a>>, NoMemory>
    ensures { IfOk result (λ fs. list_named_values fs.items ≡ named_blanks (named_types_of (declared_in t.now).layouts (list_named_types tys.now))) }
{
    let mut fields = Vec::with_capacity(alloc, tys.len())?;
    for ty in tys {
        fields.push((&ty.0, blank_of(alloc, t, &ty.1)?))?;
    }
    Ok(fields)
}

fn blank_packed<'a>(alloc: Global, t: &Table<'a>, x: &Name) -> Result<Value<'a>, NoMemory>
    ensures { IfOk result (λ v. view v ≡ blank (packed_ty (outline (declared_in t.now).layouts (NamedLayout x.now)))) }
{
    let bits = t.size_of(x);
    if bits > u64::MAX - 31 {
        return Err(NoMemory);
    }
    blank_words(alloc, (bits + 31) / 32)
}

fn blank_record<'a>(alloc: Global, t: &Table<'a>, x: &Name) -> Result<Value<'a>, NoMemory>
    ensures { IfOk result (λ v. view v ≡ blank (unpacked_ty (outline (declared_in t.now).layouts (NamedLayout x.now)))) }
{
    match t.layout(x, t.layouts.len()) {
        Some((l, limit)) => record(alloc, t, l, limit, &[]),
        None => Ok(Value::Record(Vec::new(alloc))),
    }
}

fn blank_words<'a>(alloc: Global, n: u64) -> Result<Value<'a>, NoMemory>
    ensures { IfOk result (λ v. view v ≡ blank (words_ty n)) }
{
    if n == 1 {
        return Ok(Value::Word(0));
    }
    let mut vs = Vec::new(alloc);
    let mut done = 0;
    while done < n {
        vs.push(Value::Word(0))?;
        done += 1;
    }
    Ok(Value::Tuple(vs))
}

// ---- a value of the same form with other words

// The value with the words from a place on, and the place after them.
#[cycle(filled)]
fn filled<'a>(
    alloc: Global,
    v: &Value<'a>,
    words: &[u32],
    at: usize,
) -> Result<(Value<'a>, usize), NoMemory>
    ensures value { IfOk result (λ r. view r.0 ≡ filling (view v.now) (drop at words.now)) }
    ensures behind { IfOk result (λ r. r.1 ≡ min (at + length (words_of (view v.now))) usize.MAX) }
{
    match v {
        Value::Word(_) => Ok((Value::Word(word_at(words, at)), at.saturating_add(1))),
        Value::Truth(_) => Ok((Value::Truth(word_at(words, at) != 0), at.saturating_add(1))),
        Value::Tuple(vs) => {
            let (parts, behind) = filled_all(alloc, vs, words, at)?;
            Ok((Value::Tuple(parts), behind))
        }
        Value::Record(fields) => {
            let (parts, behind) = filled_fields(alloc, fields, words, at)?;
            Ok((Value::Record(parts), behind))
        }
    }
}

#[cycle(filled)]
fn filled_all<'a>(
    alloc: Global,
    vs: &[Value<'a>],
    words: &[u32],
    first: usize,
) -> Result<(Vec<Value<'a>>, usize), NoMemory>
    ensures values { IfOk result (λ r. list_values r.0.items ≡ all_filled (list_values vs.now) (drop first words.now)) }
    ensures behind { IfOk result (λ r. r.1 ≡ min (first + length (all_words (list_values vs.now))) usize.MAX) }
{
    let mut done = Vec::with_capacity(alloc, vs.len())?;
    let mut at = first;
    for v in vs {
        let (part, behind) = filled(alloc, v, words, at)?;
        done.push(part)?;
        at = behind;
    }
    Ok((done, at))
}

#[cycle(filled)]
fn filled_fields<'a>(
    alloc: Global,
    fields: &[Field<'a>],
    words: &[u32],
    first: usize,
) -> Result<(Vec<Field<'a>>, usize), NoMemory>
    ensures values { IfOk result (λ r. list_named_values r.0.items ≡ fields_filled (list_named_values fields.now) (drop first words.now)) }
    ensures behind { IfOk result (λ r. r.1 ≡ min (first + length (all_named_words (list_named_values fields.now))) usize.MAX) }
{
    let mut done = Vec::with_capacity(alloc, fields.len())?;
    let mut at = first;
    for field in fields {
        let (part, behind) = filled(alloc, &field.1, words, at)?;
        done.push((field.0, part))?;
        at = behind;
    }
    Ok((done, at))
}

// The word at a place, 0 where there is none.
fn word_at(words: &[u32], at: usize) -> u32
    ensures { result ≡ slice_index (drop at words.now) 0 }
{
    if at < words.len() { words[at] } else { 0 }
}
