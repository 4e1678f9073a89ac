//! Rows of the sixth family: a run begins where its words ask for it.

ghost use Rattle.std.specs.Prelude.{◌≡◌, ◌∷◌, [], map, OnOk};
ghost use Rattle.std.specs.HashMap.{get};
ghost use Rattle.std.specs.List.{flat_map};
ghost use Rattle.ssu_ir.specs.View.{labels_view};
ghost use Rattle.bank_prog_form.specs.Program.{same_column};
ghost use Rattle.bank_prog_form.specs.Rows as lines;
ghost use Rattle.bank_prog_form.specs.inner.Adds.{Adds};
ghost use Rattle.bank_prog_form.specs.inner.Form as form;
ghost use Rattle.bank_prog_form.specs.inner.Form.{value_view, summary_view};
ghost use Rattle.place_plan.specs.inner.UseViews.{use_view};

use bank_prog_form::column::Column;
use bank_prog_form::form::{Form, PointSummary, Value};
use bank_prog_form::lines::push_covers;
use bank_prog_form::numbers::Numbers;
use bank_prog_form::runs::{origin_beginnings, role_beginnings};
use nv_base::NoMemory;
use place_plan::Use;
use std::alloc::Global;
use zo_model::Row;

/// A value that stays where its read begins at f.
fn push_stay_begin(
    alloc: Global,
    numbers: &Numbers,
    v: Value,
    f: u8,
    rows: &mut Vec<Row>,
) -> Result<(), NoMemory>
    ensures { OnOk result (Adds (get same_column numbers.now) rows.old.items rows.new.items (form.stay_begin (value_view v) f)) }
{
    let first = [Column::First(v.point, f)];
    push_covers(alloc, numbers, &first, &[Column::Stay(v.var, f)], rows)
}

fn push_stay_begins_at(
    alloc: Global,
    numbers: &Numbers,
    v: Value,
    firsts: &[u8],
    rows: &mut Vec<Row>,
) -> Result<(), NoMemory>
    ensures { OnOk result (Adds (get same_column numbers.now) rows.old.items rows.new.items (flat_map (form.stay_begin (value_view v)) firsts.now)) }
{
    for f in firsts {
        push_stay_begin(alloc, numbers, v, *f, rows)?;
    }
    Ok(())
}

fn push_stay_begins(
    alloc: Global,
    numbers: &Numbers,
    f: &Form<'_>,
    n: u32,
    v: Value,
    rows: &mut Vec<Row>,
) -> Result<(), NoMemory>
    ensures { OnOk result (Adds (get same_column numbers.now) rows.old.items rows.new.items (lines.stay_begins (labels_view f.now.ssu.now) n (value_view v))) }
{
    if f.is_used(v.var) {
        push_stay_begins_at(
            alloc,
            numbers,
            v,
            &origin_beginnings(alloc, n, v.origin)?,
            rows,
        )?;
    }
    Ok(())
}

fn push_values_begin(
    alloc: Global,
    numbers: &Numbers,
    f: &Form<'_>,
    n: u32,
    values: &[Value],
    rows: &mut Vec<Row>,
) -> Result<(), NoMemory>
    ensures { OnOk result (Adds (get same_column numbers.now) rows.old.items rows.new.items (flat_map (lines.stay_begins (labels_view f.now.ssu.now) n) (map value_view values.now))) }
{
    for v in values {
        push_stay_begins(alloc, numbers, f, n, *v, rows)?;
    }
    Ok(())
}

/// A word that is put early where its write begins at f.
fn push_word_begin(
    alloc: Global,
    numbers: &Numbers,
    u: Use,
    f: u8,
    rows: &mut Vec<Row>,
) -> Result<(), NoMemory>
    ensures { OnOk result (Adds (get same_column numbers.now) rows.old.items rows.new.items (form.word_begin (use_view u) f)) }
{
    let first = [Column::First(u.point, f)];
    let early = [
        Column::DirectWrite(u.point, u.operand, f),
        Column::EarlyWrite(u.point, u.operand, f),
    ];
    push_covers(alloc, numbers, &first, &early, rows)
}

fn push_word_begins_at(
    alloc: Global,
    numbers: &Numbers,
    u: Use,
    firsts: &[u8],
    rows: &mut Vec<Row>,
) -> Result<(), NoMemory>
    ensures { OnOk result (Adds (get same_column numbers.now) rows.old.items rows.new.items (flat_map (form.word_begin (use_view u)) firsts.now)) }
{
    for f in firsts {
        push_word_begin(alloc, numbers, u, *f, rows)?;
    }
    Ok(())
}

fn push_word_begins(
    alloc: Global,
    numbers: &Numbers,
    n: u32,
    u: Use,
    rows: &mut Vec<Row>,
) -> Result<(), NoMemory>
    ensures { OnOk result (Adds (get same_column numbers.now) rows.old.items rows.new.items (lines.word_begins n (use_view u))) }
{
    push_word_begins_at(alloc, numbers, u, &role_beginnings(alloc, n, u.role)?, rows)
}

fn push_uses_begin(
    alloc: Global,
    numbers: &Numbers,
    n: u32,
    uses: &[Use],
    rows: &mut Vec<Row>,
) -> Result<(), NoMemory>
    ensures { OnOk result (Adds (get same_column numbers.now) rows.old.items rows.new.items (flat_map (lines.word_begins n) (map use_view uses.now))) }
{
    for u in uses {
        push_word_begins(alloc, numbers, n, *u, rows)?;
    }
    Ok(())
}

fn push_point_begins(
    alloc: Global,
    numbers: &Numbers,
    f: &Form<'_>,
    summary: &PointSummary,
    rows: &mut Vec<Row>,
) -> Result<(), NoMemory>
    ensures { OnOk result (Adds (get same_column numbers.now) rows.old.items rows.new.items (form.part_begins (labels_view f.now.ssu.now) (summary_view summary.now))) }
{
    push_values_begin(alloc, numbers, f, summary.words, &summary.values, rows)?;
    push_uses_begin(alloc, numbers, summary.words, &summary.uses, rows)
}

fn push_begins(
    alloc: Global,
    numbers: &Numbers,
    f: &Form<'_>,
    summaries: &[PointSummary],
    rows: &mut Vec<Row>,
) -> Result<(), NoMemory>
    ensures { OnOk result (Adds (get same_column numbers.now) rows.old.items rows.new.items (flat_map (form.part_begins (labels_view f.now.ssu.now)) (map summary_view summaries.now))) }
{
    for summary in summaries {
        push_point_begins(alloc, numbers, f, summary, rows)?;
    }
    Ok(())
}

/// The rows of the sixth family.
pub fn push_adjacency(
    alloc: Global,
    numbers: &Numbers,
    f: &Form<'_>,
    rows: &mut Vec<Row>,
) -> Result<(), NoMemory>
    ensures { OnOk result (Adds (get same_column numbers.now) rows.old.items rows.new.items (lines.adjacency (labels_view f.now.ssu.now))) }
{
    push_begins(alloc, numbers, f, &f.tables.summaries, rows)
}
