//! Which values a form packs.

ghost use Rattle.std.specs.Prelude.{◌≡◌, ℕ, List, Some, IfOk, OnOk, slice_get};
ghost use Rattle.nv_ast.specs.Types.{Ty, RecordTy, NamedTys, Form, RecordForm, ChoiceForm, Forms, can_pack, can_pack_all, can_pack_one};
ghost use Rattle.nv_types_table.specs.inner.Store.{IsType, IsFields, IsForm, IsForms};
ghost use Rattle.nv_types_table.specs.inner.Knowing.{ArePacked};

use indexmap::IndexSet;
use nv_base::NoMemory;
use nv_types_table::record_fields::field_in;
use nv_types_table::table::{Cell, Table, WORD};
use std::alloc::Global;

/// Whether a value of a type can be packed by the record of some forms.
pub fn can_pack_record(
    table: &Table,
    alloc: Global,
    forms: usize,
    t: usize,
) -> Result<bool, NoMemory>
    ensures { (u : Ty) (fs : Forms) → IsType table.now t u → IsForms table.now forms fs → IfOk result (λ b. b ≡ can_pack (RecordForm fs) u) }
{
    match table.record_fields(t) {
        Some(fields) => can_pack_all(table, alloc, &mut IndexSet::new(alloc), forms, fields),
        None => Ok(false),
    }
}

// Whether a value of a type can be packed by a form, beside the pairs of which that is known.
#[cycle(pack)]
fn can_pack(
    table: &Table,
    alloc: Global,
    known: &mut IndexSet<(usize, usize)>,
    form: usize,
    t: usize,
) -> Result<bool, NoMemory>
    requires known { ArePacked table.now known.old.keys }
    ensures packs { (f : Form) (u : Ty) → IsForm table.now form f → IsType table.now t u → IfOk result (λ b. b ≡ can_pack f u) }
    ensures still_known { OnOk result (ArePacked table.now known.new.keys) }
{
    if known.contains(&(form, t)) {
        return Ok(true);
    }
    let packs = packs(table, alloc, known, form, t)?;
    if !packs {
        return Ok(false);
    }
    known.insert((form, t))?;
    Ok(true)
}

// The same by the cell of the form.
#[cycle(pack)]
fn packs(
    table: &Table,
    alloc: Global,
    known: &mut IndexSet<(usize, usize)>,
    form: usize,
    t: usize,
) -> Result<bool, NoMemory>
    requires known { ArePacked table.now known.old.keys }
    ensures packs { (f : Form) (u : Ty) → IsForm table.now form f → IsType table.now t u → IfOk result (λ b. b ≡ can_pack f u) }
    ensures still_known { OnOk result (ArePacked table.now known.new.keys) }
{
    match table.cell(form) {
        Some(Cell::Word) => Ok(t == WORD),
        Some(Cell::Record(forms)) => match table.record_fields(t) {
            Some(fields) => can_pack_all(table, alloc, known, forms, fields),
            None => Ok(false),
        },
        Some(Cell::Choice(forms)) => match table.record_fields(t) {
            Some(fields) => can_pack_choice(table, alloc, known, forms, fields),
            None => Ok(false),
        },
        _ => Ok(false),
    }
}

// Whether each of some fields can be packed by the form at its place, under one name.
#[cycle(pack)]
fn can_pack_all(
    table: &Table,
    alloc: Global,
    known: &mut IndexSet<(usize, usize)>,
    forms: usize,
    fields: usize,
) -> Result<bool, NoMemory>
    requires known { ArePacked table.now known.old.keys }
    ensures packs { (fs : Forms) (ts : NamedTys) → IsForms table.now forms fs → IsFields table.now fields ts → IfOk result (λ b. b ≡ can_pack_all fs ts) }
    ensures still_known { OnOk result (ArePacked table.now known.new.keys) }
{
    let forms = table.fields_in(alloc, forms)?;
    let fields = table.fields_in(alloc, fields)?;
    if forms.len() != fields.len() {
        return Ok(false);
    }
    for i in 0..forms.len() {
        let (x, form) = forms[i];
        let (y, t) = fields[i];
        if x != y {
            return Ok(false);
        }
        let packs = can_pack(table, alloc, known, form, t)?;
        if !packs {
            return Ok(false);
        }
    }
    Ok(true)
}

// Whether a record of one field can be packed by a choice.
#[cycle(pack)]
fn can_pack_choice(
    table: &Table,
    alloc: Global,
    known: &mut IndexSet<(usize, usize)>,
    forms: usize,
    fields: usize,
) -> Result<bool, NoMemory>
    requires known { ArePacked table.now known.old.keys }
    ensures packs { (fs : Forms) (ts : NamedTys) → IsForms table.now forms fs → IsFields table.now fields ts → IfOk result (λ b. b ≡ can_pack (ChoiceForm fs) (RecordTy ts)) }
    ensures still_known { OnOk result (ArePacked table.now known.new.keys) }
{
    match table.cell(fields) {
        Some(Cell::Field(name, t)) => can_pack_one(table, alloc, known, forms, name, t),
        _ => Ok(false),
    }
}

// Whether a field can be packed by the one of some forms that has its name.
#[cycle(pack)]
fn can_pack_one(
    table: &Table,
    alloc: Global,
    known: &mut IndexSet<(usize, usize)>,
    forms: usize,
    name: usize,
    t: usize,
) -> Result<bool, NoMemory>
    requires known { ArePacked table.now known.old.keys }
    ensures packs { (fs : Forms) (x : List ℕ) (u : Ty) → IsForms table.now forms fs → slice_get table.now.names name ≡ Some x → IsType table.now t u → IfOk result (λ b. b ≡ can_pack_one fs x u) }
    ensures still_known { OnOk result (ArePacked table.now known.new.keys) }
{
    match field_in(table, forms, name) {
        Some(form) => can_pack(table, alloc, known, form, t),
        None => Ok(false),
    }
}
