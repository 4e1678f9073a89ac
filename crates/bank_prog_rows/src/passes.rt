//! Rows of the seventh family: where a slot is read or written, some register is named.

ghost use Rattle.std.specs.Prelude.{◌≡◌, ◌∷◌, [], map, OnOk};
ghost use Rattle.std.specs.HashMap.{get};
ghost use Rattle.std.specs.List.{flat_map};
ghost use Rattle.ssu_ir.specs.View.{labels_view};
ghost use Rattle.bank_prog_form.specs.Program.{same_column};
ghost use Rattle.bank_prog_form.specs.Rows as lines;
ghost use Rattle.bank_prog_form.specs.inner.Adds.{Adds};
ghost use Rattle.bank_prog_form.specs.inner.Form as form;
ghost use Rattle.bank_prog_form.specs.inner.Form.{value_view};
ghost use Rattle.place_plan.specs.inner.UseViews.{use_view};

use bank_prog_form::column::{Bank, Column, Service};
use bank_prog_form::form::{Form, Origin, Value};
use bank_prog_form::lines::push_covers;
use bank_prog_form::names;
use bank_prog_form::numbers::Numbers;
use bank_prog_form::services::services;
use nv_base::NoMemory;
use place_plan::Use;
use std::alloc::Global;
use zo_model::Row;

fn is_slot(h: Bank) -> bool
    ensures { result ≡ lines.is_slot h }
{
    match h {
        Bank::M => true,
        _ => false,
    }
}

/// The row of one way to serve a use, where that is from a slot.
fn push_service_read(
    alloc: Global,
    numbers: &Numbers,
    u: Use,
    s: Service,
    rows: &mut Vec<Row>,
) -> Result<(), NoMemory>
    ensures { OnOk result (Adds (get same_column numbers.now) rows.old.items rows.new.items (form.service_read (use_view u) s)) }
{
    if is_slot(s.from) {
        let served = [Column::Serve(u.point, u.operand, s.from, s.at)];
        push_covers(alloc, numbers, &names::pas_l(u.point), &served, rows)?;
    }
    Ok(())
}

fn push_service_reads(
    alloc: Global,
    numbers: &Numbers,
    u: Use,
    services: &[Service],
    rows: &mut Vec<Row>,
) -> Result<(), NoMemory>
    ensures { OnOk result (Adds (get same_column numbers.now) rows.old.items rows.new.items (flat_map (form.service_read (use_view u)) services.now)) }
{
    for s in services {
        push_service_read(alloc, numbers, u, *s, rows)?;
    }
    Ok(())
}

fn push_slot_read(
    alloc: Global,
    numbers: &Numbers,
    u: Use,
    rows: &mut Vec<Row>,
) -> Result<(), NoMemory>
    ensures { OnOk result (Adds (get same_column numbers.now) rows.old.items rows.new.items (lines.slot_read (use_view u))) }
{
    push_service_reads(alloc, numbers, u, services(u.role), rows)
}

fn push_slot_reads(
    alloc: Global,
    numbers: &Numbers,
    uses: &[Use],
    rows: &mut Vec<Row>,
) -> Result<(), NoMemory>
    ensures { OnOk result (Adds (get same_column numbers.now) rows.old.items rows.new.items (flat_map lines.slot_read (map use_view uses.now))) }
{
    for u in uses {
        push_slot_read(alloc, numbers, *u, rows)?;
    }
    Ok(())
}

/// The row of a column that writes a slot at a point.
fn push_slot_written(
    alloc: Global,
    numbers: &Numbers,
    k: u32,
    c: Column,
    rows: &mut Vec<Row>,
) -> Result<(), NoMemory>
    ensures { OnOk result (Adds (get same_column numbers.now) rows.old.items rows.new.items (lines.slot_written k c ∷ [])) }
{
    push_covers(alloc, numbers, &names::pas_s(k), &[c], rows)
}

/// The row of a result that is first put into a slot.
fn push_result_written(
    alloc: Global,
    numbers: &Numbers,
    v: Value,
    rows: &mut Vec<Row>,
) -> Result<(), NoMemory>
    ensures { OnOk result (Adds (get same_column numbers.now) rows.old.items rows.new.items (lines.result_written (value_view v))) }
{
    match v.origin {
        Origin::Parameter(_, _) => Ok(()),
        Origin::Result => {
            push_slot_written(alloc, numbers, v.point, Column::Def(v.var, Bank::M), rows)
        }
        Origin::Fetched(_, _) => Ok(()),
    }
}

fn push_value_written(
    alloc: Global,
    numbers: &Numbers,
    f: &Form<'_>,
    v: Value,
    rows: &mut Vec<Row>,
) -> Result<(), NoMemory>
    ensures { OnOk result (Adds (get same_column numbers.now) rows.old.items rows.new.items (lines.value_written (labels_view f.now.ssu.now) (value_view v))) }
{
    if f.is_used(v.var) {
        push_slot_written(alloc, numbers, v.point, Column::Fill(v.var, Bank::M), rows)?;
        push_result_written(alloc, numbers, v, rows)?;
    }
    Ok(())
}

fn push_values_written(
    alloc: Global,
    numbers: &Numbers,
    f: &Form<'_>,
    values: &[Value],
    rows: &mut Vec<Row>,
) -> Result<(), NoMemory>
    ensures { OnOk result (Adds (get same_column numbers.now) rows.old.items rows.new.items (flat_map (lines.value_written (labels_view f.now.ssu.now)) (map value_view values.now))) }
{
    for v in values {
        push_value_written(alloc, numbers, f, *v, rows)?;
    }
    Ok(())
}

/// The rows of the seventh family.
pub fn push_passes(
    alloc: Global,
    numbers: &Numbers,
    f: &Form<'_>,
    rows: &mut Vec<Row>,
) -> Result<(), NoMemory>
    ensures { OnOk result (Adds (get same_column numbers.now) rows.old.items rows.new.items (lines.passes (labels_view f.now.ssu.now))) }
{
    push_slot_reads(alloc, numbers, &f.tables.uses, rows)?;
    push_values_written(alloc, numbers, f, &f.tables.values, rows)
}
