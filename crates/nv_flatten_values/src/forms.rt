// Types in the text as symbolic values of new variables.

ghost use Rattle.std.specs.Prelude.{◌≡◌, ◌≤◌, ◌+◌, ◌++◌, take, IfOk, OnOk};
ghost use Rattle.nv_ast.specs.LayoutView.{layout_tree, field_tree, list_fields, list_layouts};
ghost use Rattle.nv_ast.specs.Outline.{outline, outlines, field_outline, field_outlines};
ghost use Rattle.nv_ast.specs.Tree.{NamedLayout};
ghost use Rattle.nv_ast.specs.Types.{words, total_words, total_named_words, type_of, types_of, named_types_of, words_ty, word_parts, packed_ty, unpacked_ty, unpacked, unpacked_all, form_of, forms_of, joined_forms, record_forms};
ghost use Rattle.nv_ast.specs.TypeView.{type_tree, list_types, list_named_types};
ghost use Rattle.nv_meaning_values.specs.inner.TableView.{declared_in};
ghost use Rattle.nv_flatten_values.specs.inner.Fields.{◌++_symbols◌};
ghost use Rattle.nv_flatten_values.specs.inner.Symbols.{fresh, all_fresh, named_fresh, numbers_from};
ghost use Rattle.nv_flatten_values.specs.inner.View.{view, list_symbols, list_named_symbols};

use crate::symbol::{Field, Symbol, add_variable};
use crate::want::{made, put};
use nv_ast::{FieldText, LayoutText, Name, TyText};
use nv_base::{Atom, NoMemory};
use nv_meaning_values::Table;
use std::alloc::Global;

/// A symbolic value of a type, of new variables; they are added to a list.
#[cycle(types)]
pub fn of_type<'a>(
    alloc: Global,
    t: &Table<'a>,
    ty: &'a TyText,
    next: &mut u32,
    made: &mut Vec<u32>,
) -> Result<Symbol<'a>, NoMemory>
    ensures symbol { IfOk result (λ s. view s ≡ fresh next.old (type_of (declared_in t.now).layouts (type_tree ty.now))) }
    ensures next { OnOk result (next.new ≡ next.old + words (type_of (declared_in t.now).layouts (type_tree ty.now))) }
    ensures made { OnOk result (made.new.items ≡ made.old.items ++ numbers_from next.old (words (type_of (declared_in t.now).layouts (type_tree ty.now)))) }
    ensures later { next.old ≤ next.new }
{
    match ty {
        TyText::Word(n) => of_words(alloc, *n as u64, next, made),
        TyText::Bool => Ok(Symbol::Truth(Atom::Var(add_variable(next, made)?))),
        TyText::Packed(x) => of_packed(alloc, t, x, next, made),
        TyText::Unpacked(x) => of_record(alloc, t, x, next, made),
        TyText::Tuple(tys) => Ok(Symbol::Tuple(of_types(alloc, t, tys, next, made)?)),
        TyText::Fields(tys) => Ok(Symbol::Record(of_fields(alloc, t, tys, next, made)?)),
    }
}

/// Symbolic values of some types, of new variables; they are added to a list.
#[cycle(types)]
pub fn of_types<'a>(
    alloc: Global,
    t: &Table<'a>,
    tys: &'a [TyText],
    next: &mut u32,
    made: &mut Vec<u32>,
) -> Result<Vec<Symbol<'a>>, NoMemory>
    ensures symbols { IfOk result (λ ss. list_symbols ss.items ≡ all_fresh next.old (types_of (declared_in t.now).layouts (list_types tys.now))) }
    ensures next { OnOk result (next.new ≡ next.old + total_words (types_of (declared_in t.now).layouts (list_types tys.now))) }
    ensures made { OnOk result (made.new.items ≡ made.old.items ++ numbers_from next.old (total_words (types_of (declared_in t.now).layouts (list_types tys.now)))) }
    ensures later { next.old ≤ next.new }
{
    let mut symbols = Vec::with_capacity(alloc, tys.len())?;
    for ty in tys {
        let symbol = made!(of_type(alloc, t, ty, next, made), symbols);
        put!(symbols, symbol, symbols);
    }
    Ok(symbols)
}

#[cycle(types)]
fn of_fields<'a>(
    alloc: Global,
    t: &Table<'a>,
    tys: &'a [(Name, TyText)],
    next: &mut u32,
    made: &mut Vec<u32>,
) -> Result<Vec<Field<'a>>, NoMemory>
    ensures symbols { IfOk result (λ ss. list_named_symbols ss.items ≡ named_fresh next.old (named_types_of (declared_in t.now).layouts (list_named_types tys.now))) }
    ensures next { OnOk result (next.new ≡ next.old + total_named_words (named_types_of (declared_in t.now).layouts (list_named_types tys.now))) }
    ensures made { OnOk result (made.new.items ≡ made.old.items ++ numbers_from next.old (total_named_words (named_types_of (declared_in t.now).layouts (list_named_types tys.now)))) }
    ensures later { next.old ≤ next.new }
{
    let mut fields = Vec::with_capacity(alloc, tys.len())?;
    for ty in tys {
        let symbol = made!(of_type(alloc, t, &ty.1, next, made), fields);
        put!(fields, (&ty.0, symbol), fields);
    }
    Ok(fields)
}

fn of_packed<'a>(
    alloc: Global,
    t: &Table<'a>,
    x: &Name,
    next: &mut u32,
    made: &mut Vec<u32>,
) -> Result<Symbol<'a>, NoMemory>
    ensures symbol { IfOk result (λ s. view s ≡ fresh next.old (packed_ty (outline (declared_in t.now).layouts (NamedLayout x.now)))) }
    ensures next { OnOk result (next.new ≡ next.old + words (packed_ty (outline (declared_in t.now).layouts (NamedLayout x.now)))) }
    ensures made { OnOk result (made.new.items ≡ made.old.items ++ numbers_from next.old (words (packed_ty (outline (declared_in t.now).layouts (NamedLayout x.now))))) }
    ensures later { next.old ≤ next.new }
{
    let bits = t.size_of(x);
    if bits > u64::MAX - 31 {
        return Err(NoMemory);
    }
    of_words(alloc, (bits + 31) / 32, next, made)
}

// N words: one is itself, others are their tuple.
fn of_words<'a>(
    alloc: Global,
    n: u64,
    next: &mut u32,
    made: &mut Vec<u32>,
) -> Result<Symbol<'a>, NoMemory>
    ensures symbol { IfOk result (λ s. view s ≡ fresh next.old (words_ty n)) }
    ensures next { OnOk result (next.new ≡ next.old + words (words_ty n)) }
    ensures made { OnOk result (made.new.items ≡ made.old.items ++ numbers_from next.old (words (words_ty n))) }
    ensures later { next.old ≤ next.new }
{
    if n == 1 {
        Ok(Symbol::Word(Atom::Var(add_variable(next, made)?)))
    } else {
        Ok(Symbol::Tuple(tuple_of_words(alloc, n, next, made)?))
    }
}

fn tuple_of_words<'a>(
    alloc: Global,
    n: u64,
    next: &mut u32,
    made: &mut Vec<u32>,
) -> Result<Vec<Symbol<'a>>, NoMemory>
    ensures symbols { IfOk result (λ ss. list_symbols ss.items ≡ all_fresh next.old (word_parts n)) }
    ensures next { OnOk result (next.new ≡ next.old + n) }
    ensures made { OnOk result (made.new.items ≡ made.old.items ++ numbers_from next.old n) }
    ensures later { next.old ≤ next.new }
{
    let mut symbols = Vec::new(alloc);
    for _ in 0..n {
        let x = made!(add_variable(next, made), symbols);
        put!(symbols, Symbol::Word(Atom::Var(x)), symbols);
    }
    Ok(symbols)
}

// ---- the records of layouts

fn of_record<'a>(
    alloc: Global,
    t: &Table<'a>,
    x: &Name,
    next: &mut u32,
    made: &mut Vec<u32>,
) -> Result<Symbol<'a>, NoMemory>
    ensures symbol { IfOk result (λ s. view s ≡ fresh next.old (unpacked_ty (outline (declared_in t.now).layouts (NamedLayout x.now)))) }
    ensures next { OnOk result (next.new ≡ next.old + words (unpacked_ty (outline (declared_in t.now).layouts (NamedLayout x.now)))) }
    ensures made { OnOk result (made.new.items ≡ made.old.items ++ numbers_from next.old (words (unpacked_ty (outline (declared_in t.now).layouts (NamedLayout x.now))))) }
    ensures later { next.old ≤ next.new }
{
    match t.layout(x, t.layouts.len()) {
        Some((l, limit)) => layout_record(alloc, t, l, limit, next, made),
        None => Ok(Symbol::Record(Vec::new(alloc))),
    }
}

fn layout_record<'a>(
    alloc: Global,
    t: &Table<'a>,
    l: &'a LayoutText,
    limit: usize,
    next: &mut u32,
    made: &mut Vec<u32>,
) -> Result<Symbol<'a>, NoMemory>
    ensures symbol { IfOk result (λ s. view s ≡ fresh next.old (unpacked (form_of (outline (take limit (declared_in t.now).layouts) (layout_tree l.now))))) }
    ensures next { OnOk result (next.new ≡ next.old + words (unpacked (form_of (outline (take limit (declared_in t.now).layouts) (layout_tree l.now))))) }
    ensures made { OnOk result (made.new.items ≡ made.old.items ++ numbers_from next.old (words (unpacked (form_of (outline (take limit (declared_in t.now).layouts) (layout_tree l.now)))))) }
    ensures later { next.old ≤ next.new }
{
    let mut fields = Vec::new(alloc);
    made!(
        add_layout(alloc, t, l, limit, next, made, &mut fields),
        fields
    );
    Ok(Symbol::Record(fields))
}

// Adds the fields of a layout's record.
#[cycle(layouts)]
fn add_layout<'a>(
    alloc: Global,
    t: &Table<'a>,
    l: &'a LayoutText,
    limit: usize,
    next: &mut u32,
    made: &mut Vec<u32>,
    fields: &mut Vec<Field<'a>>,
) -> Result<(), NoMemory>
    ensures fields { OnOk result (list_named_symbols fields.new.items ≡ list_named_symbols fields.old.items ++_symbols named_fresh next.old (unpacked_all (record_forms (outline (take limit (declared_in t.now).layouts) (layout_tree l.now))))) }
    ensures next { OnOk result (next.new ≡ next.old + total_named_words (unpacked_all (record_forms (outline (take limit (declared_in t.now).layouts) (layout_tree l.now))))) }
    ensures made { OnOk result (made.new.items ≡ made.old.items ++ numbers_from next.old (total_named_words (unpacked_all (record_forms (outline (take limit (declared_in t.now).layouts) (layout_tree l.now)))))) }
    ensures later { next.old ≤ next.new }
{
    match l {
        LayoutText::Named(x) => match t.layout(x, limit) {
            Some((named, before)) => add_layout(alloc, t, named, before, next, made, fields),
            None => Ok(()),
        },
        LayoutText::Gap(_) => Ok(()),
        LayoutText::Parts(fs) => add_parts(alloc, t, fs, limit, next, made, fields),
        LayoutText::Joined(ls) => add_joined(alloc, t, ls, limit, next, made, fields),
    }
}

#[cycle(layouts)]
fn add_joined<'a>(
    alloc: Global,
    t: &Table<'a>,
    ls: &'a [LayoutText],
    limit: usize,
    next: &mut u32,
    made: &mut Vec<u32>,
    fields: &mut Vec<Field<'a>>,
) -> Result<(), NoMemory>
    ensures fields { OnOk result (list_named_symbols fields.new.items ≡ list_named_symbols fields.old.items ++_symbols named_fresh next.old (unpacked_all (joined_forms (outlines (take limit (declared_in t.now).layouts) (list_layouts ls.now))))) }
    ensures next { OnOk result (next.new ≡ next.old + total_named_words (unpacked_all (joined_forms (outlines (take limit (declared_in t.now).layouts) (list_layouts ls.now))))) }
    ensures made { OnOk result (made.new.items ≡ made.old.items ++ numbers_from next.old (total_named_words (unpacked_all (joined_forms (outlines (take limit (declared_in t.now).layouts) (list_layouts ls.now)))))) }
    ensures later { next.old ≤ next.new }
{
    for l in ls {
        add_layout(alloc, t, l, limit, next, made, fields)?;
    }
    Ok(())
}

// Adds fields, or the alternatives of an overlay.
#[cycle(layouts)]
fn add_parts<'a>(
    alloc: Global,
    t: &Table<'a>,
    fs: &'a [(Name, FieldText)],
    limit: usize,
    next: &mut u32,
    made: &mut Vec<u32>,
    fields: &mut Vec<Field<'a>>,
) -> Result<(), NoMemory>
    ensures fields { OnOk result (list_named_symbols fields.new.items ≡ list_named_symbols fields.old.items ++_symbols named_fresh next.old (unpacked_all (forms_of (field_outlines (take limit (declared_in t.now).layouts) (list_fields fs.now))))) }
    ensures next { OnOk result (next.new ≡ next.old + total_named_words (unpacked_all (forms_of (field_outlines (take limit (declared_in t.now).layouts) (list_fields fs.now))))) }
    ensures made { OnOk result (made.new.items ≡ made.old.items ++ numbers_from next.old (total_named_words (unpacked_all (forms_of (field_outlines (take limit (declared_in t.now).layouts) (list_fields fs.now)))))) }
    ensures later { next.old ≤ next.new }
{
    for f in fs {
        let symbol = of_field(alloc, t, &f.1, limit, next, made)?;
        put!(fields, (&f.0, symbol));
    }
    Ok(())
}

#[cycle(layouts)]
fn of_field<'a>(
    alloc: Global,
    t: &Table<'a>,
    f: &'a FieldText,
    limit: usize,
    next: &mut u32,
    made: &mut Vec<u32>,
) -> Result<Symbol<'a>, NoMemory>
    ensures symbol { IfOk result (λ s. view s ≡ fresh next.old (unpacked (form_of (field_outline (take limit (declared_in t.now).layouts) (field_tree f.now))))) }
    ensures next { OnOk result (next.new ≡ next.old + words (unpacked (form_of (field_outline (take limit (declared_in t.now).layouts) (field_tree f.now))))) }
    ensures made { OnOk result (made.new.items ≡ made.old.items ++ numbers_from next.old (words (unpacked (form_of (field_outline (take limit (declared_in t.now).layouts) (field_tree f.now)))))) }
    ensures later { next.old ≤ next.new }
{
    match f {
        FieldText::Bits(_) => Ok(Symbol::Word(Atom::Var(add_variable(next, made)?))),
        FieldText::Inner(l) => {
            let mut fields = Vec::new(alloc);
            made!(
                add_layout(alloc, t, l, limit, next, made, &mut fields),
                fields
            );
            Ok(Symbol::Record(fields))
        }
        FieldText::Overlay(fs) => {
            let mut fields = Vec::new(alloc);
            made!(
                add_parts(alloc, t, fs, limit, next, made, &mut fields),
                fields
            );
            Ok(Symbol::Record(fields))
        }
    }
}
