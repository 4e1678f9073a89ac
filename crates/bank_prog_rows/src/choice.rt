//! Rows of the first family: each value is first put somewhere, each access begins somewhere, and each use
//! is served.

ghost use Rattle.std.specs.Prelude.{◌≡◌, ◌++◌, map, OnOk};
ghost use Rattle.std.specs.HashMap.{get};
ghost use Rattle.std.specs.List.{flat_map};
ghost use Rattle.ssu_ir.specs.View.{labels_view};
ghost use Rattle.bank_prog_form.specs.Program.{same_column};
ghost use Rattle.bank_prog_form.specs.Rows as lines;
ghost use Rattle.bank_prog_form.specs.declared.column.Column.TheVariants as column;
ghost use Rattle.bank_prog_form.specs.inner.Adds.{Adds};
ghost use Rattle.bank_prog_form.specs.inner.Form.{value_view, access_view};
ghost use Rattle.place_plan.specs.inner.UseViews.{use_view};

use bank_prog_form::column::{Column, Service};
use bank_prog_form::form::{Access, Form, Origin, Value};
use bank_prog_form::lines::push_exactly_one;
use bank_prog_form::names;
use bank_prog_form::numbers::Numbers;
use bank_prog_form::services::services;
use nv_base::NoMemory;
use place_plan::{Role, Use};
use std::alloc::Global;
use zo_model::Row;

fn push_parameter_choice(
    alloc: Global,
    numbers: &Numbers,
    v: Value,
    rows: &mut Vec<Row>,
) -> Result<(), NoMemory>
    ensures { OnOk result (Adds (get same_column numbers.now) rows.old.items rows.new.items (lines.parameter_choice (value_view v))) }
{
    match v.origin {
        Origin::Parameter(_, _) => push_exactly_one(alloc, numbers, &names::def(v.var), rows),
        Origin::Result => Ok(()),
        Origin::Fetched(_, _) => Ok(()),
    }
}

fn push_parameter_choices(
    alloc: Global,
    numbers: &Numbers,
    values: &[Value],
    rows: &mut Vec<Row>,
) -> Result<(), NoMemory>
    ensures { OnOk result (Adds (get same_column numbers.now) rows.old.items rows.new.items (flat_map lines.parameter_choice (map value_view values.now))) }
{
    for v in values {
        push_parameter_choice(alloc, numbers, *v, rows)?;
    }
    Ok(())
}

/// The columns that put the word of a use into its write register.
fn add_dir(cs: &mut Vec<Column>, u: Use) -> Result<(), NoMemory>
    ensures { OnOk result (cs.new.items ≡ cs.old.items ++ lines.dir (use_view u)) }
{
    cs.extend_from_slice(&names::dir(u.point, u.operand))?;
    Ok(())
}

/// Those of all these uses.
fn add_dirs(cs: &mut Vec<Column>, uses: &[Use]) -> Result<(), NoMemory>
    ensures { OnOk result (cs.new.items ≡ cs.old.items ++ flat_map lines.dir (map use_view uses.now)) }
{
    for u in uses {
        add_dir(cs, *u)?;
    }
    Ok(())
}

fn push_result_choice(
    alloc: Global,
    numbers: &Numbers,
    f: &Form<'_>,
    v: Value,
    rows: &mut Vec<Row>,
) -> Result<(), NoMemory>
    ensures { OnOk result (Adds (get same_column numbers.now) rows.old.items rows.new.items (lines.result_choice (labels_view f.now.ssu.now) (value_view v))) }
{
    match v.origin {
        Origin::Parameter(_, _) => Ok(()),
        Origin::Result => {
            let mut cs = Vec::new(alloc);
            cs.extend_from_slice(&names::def(v.var))?;
            add_dirs(&mut cs, f.uses_of(v.var))?;
            push_exactly_one(alloc, numbers, &cs, rows)
        }
        Origin::Fetched(_, _) => Ok(()),
    }
}

fn push_result_choices(
    alloc: Global,
    numbers: &Numbers,
    f: &Form<'_>,
    values: &[Value],
    rows: &mut Vec<Row>,
) -> Result<(), NoMemory>
    ensures { OnOk result (Adds (get same_column numbers.now) rows.old.items rows.new.items (flat_map (lines.result_choice (labels_view f.now.ssu.now)) (map value_view values.now))) }
{
    for v in values {
        push_result_choice(alloc, numbers, f, *v, rows)?;
    }
    Ok(())
}

fn push_access_choice(
    alloc: Global,
    numbers: &Numbers,
    a: Access,
    rows: &mut Vec<Row>,
) -> Result<(), NoMemory>
    ensures { OnOk result (Adds (get same_column numbers.now) rows.old.items rows.new.items (lines.access_choice (access_view a))) }
{
    push_exactly_one(alloc, numbers, &names::first(a.point), rows)
}

fn push_access_choices(
    alloc: Global,
    numbers: &Numbers,
    accesses: &[Access],
    rows: &mut Vec<Row>,
) -> Result<(), NoMemory>
    ensures { OnOk result (Adds (get same_column numbers.now) rows.old.items rows.new.items (flat_map lines.access_choice (map access_view accesses.now))) }
{
    for a in accesses {
        push_access_choice(alloc, numbers, *a, rows)?;
    }
    Ok(())
}

/// These ways to serve a use.
fn add_services(cs: &mut Vec<Column>, u: Use, services: &[Service]) -> Result<(), NoMemory>
    ensures { OnOk result (cs.new.items ≡ cs.old.items ++ map (λ s. column.Serve u.point u.operand s.from s.at) services.now) }
{
    for s in services {
        cs.push(Column::Serve(u.point, u.operand, s.from, s.at))?;
    }
    Ok(())
}

/// The columns that put the word of a use early into its write register.
fn add_early(cs: &mut Vec<Column>, u: Use) -> Result<(), NoMemory>
    ensures { OnOk result (cs.new.items ≡ cs.old.items ++ lines.early (use_view u)) }
{
    if let Role::Written(_, _) = u.role {
        cs.extend_from_slice(&names::dir(u.point, u.operand))?;
        cs.extend_from_slice(&names::ear(u.point, u.operand))?;
    }
    Ok(())
}

fn push_use_choice(
    alloc: Global,
    numbers: &Numbers,
    u: Use,
    rows: &mut Vec<Row>,
) -> Result<(), NoMemory>
    ensures { OnOk result (Adds (get same_column numbers.now) rows.old.items rows.new.items (lines.use_choice (use_view u))) }
{
    let mut cs = Vec::new(alloc);
    add_services(&mut cs, u, services(u.role))?;
    add_early(&mut cs, u)?;
    push_exactly_one(alloc, numbers, &cs, rows)
}

fn push_use_choices(
    alloc: Global,
    numbers: &Numbers,
    uses: &[Use],
    rows: &mut Vec<Row>,
) -> Result<(), NoMemory>
    ensures { OnOk result (Adds (get same_column numbers.now) rows.old.items rows.new.items (flat_map lines.use_choice (map use_view uses.now))) }
{
    for u in uses {
        push_use_choice(alloc, numbers, *u, rows)?;
    }
    Ok(())
}

/// The rows of the first family.
pub fn push_one_choice(
    alloc: Global,
    numbers: &Numbers,
    f: &Form<'_>,
    rows: &mut Vec<Row>,
) -> Result<(), NoMemory>
    ensures { OnOk result (Adds (get same_column numbers.now) rows.old.items rows.new.items (lines.one_choice (labels_view f.now.ssu.now))) }
{
    push_parameter_choices(alloc, numbers, &f.tables.values, rows)?;
    push_result_choices(alloc, numbers, f, &f.tables.values, rows)?;
    push_access_choices(alloc, numbers, &f.tables.accesses, rows)?;
    push_use_choices(alloc, numbers, &f.tables.uses, rows)
}
