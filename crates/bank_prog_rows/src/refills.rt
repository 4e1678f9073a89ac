//! Rows of the fifth family, second sentence: a read fills no register in which another value stays.

ghost use Rattle.std.specs.Prelude.{◌≡◌, ◌++◌, drop, map, IfOk, OnOk};
ghost use Rattle.std.specs.HashMap.{get};
ghost use Rattle.std.specs.List.{AllZip, flat_map};
ghost use Rattle.nv_base.specs.Sets.{is_in};
ghost use Rattle.ssu_ir.specs.Points.{points};
ghost use Rattle.ssu_ir.specs.View.{labels_view};
ghost use Rattle.ssu_liveness.specs.LiveRows.{IsRow, items_of};
ghost use Rattle.bank_prog_form.specs.Columns.{each_point};
ghost use Rattle.bank_prog_form.specs.Program.{same_column};
ghost use Rattle.bank_prog_form.specs.Rows as lines;
ghost use Rattle.bank_prog_form.specs.inner.Adds.{Adds};
ghost use Rattle.bank_prog_form.specs.inner.Form.{value_view, access_view, summary_view};
ghost use Rattle.bank_prog_form.specs.inner.Owners as owners;

use crate::owners::add_stays;
use bank_prog_form::coverings::add_coverings;
use bank_prog_form::form::{Access, Form, PointSummary, Value};
use bank_prog_form::lines::push_at_most;
use bank_prog_form::numbers::Numbers;
use nv_base::{Mem, NoMemory};
use std::alloc::Global;
use zo_model::Row;

/// Whether one of these values is of this variable.
fn defines(values: &[Value], x: u32) -> bool
    ensures { result ≡ is_in x (map (λ v. v.var) (map value_view values.now)) }
{
    for v in values {
        if x == v.var {
            return true;
        }
    }
    false
}

/// One value more, where it isn't one of the point's.
fn keep(kept: &mut Vec<u32>, values: &[Value], x: u32) -> Result<(), NoMemory>
    ensures { OnOk result (kept.new.items ≡ kept.old.items ++ owners.other (map (λ v. v.var) (map value_view values.now)) x) }
{
    if !defines(values, x) {
        kept.push(x)?;
    }
    Ok(())
}

/// The values of a row without those of a point.
fn others(alloc: Global, xs: &[u32], values: &[Value]) -> Result<Vec<u32>, NoMemory>
    ensures { IfOk result (λ v. v.items ≡ flat_map (owners.other (map (λ v. v.var) (map value_view values.now))) xs.now) }
{
    let mut kept = Vec::new(alloc);
    for x in xs {
        keep(&mut kept, values, *x)?;
    }
    Ok(kept)
}

/// Whether a memory is SDRAM.
fn is_sdram(m: Mem) -> bool
    ensures { result ≡ lines.is_sdram m }
{
    match m {
        Mem::Sram => false,
        Mem::Sdram => true,
        Mem::Scratch => false,
    }
}

fn push_access_owner(
    alloc: Global,
    numbers: &Numbers,
    f: &Form<'_>,
    xs: &[u32],
    a: Access,
    r: u8,
    rows: &mut Vec<Row>,
) -> Result<(), NoMemory>
    ensures { OnOk result (Adds (get same_column numbers.now) rows.old.items rows.new.items (owners.access_owner (labels_view f.now.ssu.now) xs.now (access_view a) r)) }
{
    let mut cs = Vec::new(alloc);
    add_stays(&mut cs, f, is_sdram(a.mem), r, xs)?;
    add_coverings(&mut cs, a, r)?;
    push_at_most(alloc, numbers, 1, &cs, rows)
}

fn push_access_owners_at(
    alloc: Global,
    numbers: &Numbers,
    f: &Form<'_>,
    xs: &[u32],
    a: Access,
    rs: &[u8],
    rows: &mut Vec<Row>,
) -> Result<(), NoMemory>
    ensures { OnOk result (Adds (get same_column numbers.now) rows.old.items rows.new.items (flat_map (owners.access_owner (labels_view f.now.ssu.now) xs.now (access_view a)) rs.now)) }
{
    for r in rs {
        push_access_owner(alloc, numbers, f, xs, a, *r, rows)?;
    }
    Ok(())
}

fn push_access_owners(
    alloc: Global,
    numbers: &Numbers,
    f: &Form<'_>,
    xs: &[u32],
    a: Access,
    rows: &mut Vec<Row>,
) -> Result<(), NoMemory>
    ensures { OnOk result (Adds (get same_column numbers.now) rows.old.items rows.new.items (lines.access_owners (labels_view f.now.ssu.now) xs.now (access_view a))) }
{
    push_access_owners_at(alloc, numbers, f, xs, a, &[0, 1, 2, 3, 4, 5, 6, 7], rows)
}

fn push_reads(
    alloc: Global,
    numbers: &Numbers,
    f: &Form<'_>,
    xs: &[u32],
    reads: &[Access],
    rows: &mut Vec<Row>,
) -> Result<(), NoMemory>
    ensures { OnOk result (Adds (get same_column numbers.now) rows.old.items rows.new.items (flat_map (lines.access_owners (labels_view f.now.ssu.now) xs.now) (map access_view reads.now))) }
{
    for a in reads {
        push_access_owners(alloc, numbers, f, xs, *a, rows)?;
    }
    Ok(())
}

/// The rows of one point, where these values are live at the next.
fn push_point_fills(
    alloc: Global,
    numbers: &Numbers,
    f: &Form<'_>,
    summary: &PointSummary,
    next: &[u32],
    rows: &mut Vec<Row>,
) -> Result<(), NoMemory>
    ensures { OnOk result (Adds (get same_column numbers.now) rows.old.items rows.new.items (owners.part_fills (labels_view f.now.ssu.now) (summary_view summary.now) next.now)) }
{
    let xs = others(alloc, next, &summary.values)?;
    push_reads(alloc, numbers, f, &xs, &summary.reads, rows)
}

/// The row of a number, or none past the last.
fn row_at(rows: &[Vec<u32>], k: usize) -> &[u32]
    ensures { result.now ≡ owners.first_row (items_of (drop k rows.now)) }
{
    match rows.get(k) {
        Some(row) => row,
        None => &[],
    }
}

fn push_fills(
    alloc: Global,
    numbers: &Numbers,
    f: &Form<'_>,
    summaries: &[PointSummary],
    held: &[Vec<u32>],
    rows: &mut Vec<Row>,
) -> Result<(), NoMemory>
    ensures { OnOk result (Adds (get same_column numbers.now) rows.old.items rows.new.items (owners.fills (labels_view f.now.ssu.now) (map summary_view summaries.now) (owners.rest (items_of held.now)))) }
{
    for k in 0..summaries.len() {
        push_point_fills(alloc, numbers, f, &summaries[k], row_at(held, k + 1), rows)?;
    }
    Ok(())
}

/// The rows of the second sentence, where these values are live at the points.
pub fn push_fill_owners(
    alloc: Global,
    numbers: &Numbers,
    f: &Form<'_>,
    held: &[Vec<u32>],
    rows: &mut Vec<Row>,
) -> Result<(), NoMemory>
    requires held { AllZip IsRow (items_of held.now) (points (labels_view f.now.ssu.now)) }
    ensures { OnOk result (Adds (get same_column numbers.now) rows.old.items rows.new.items (each_point (lines.fill_owners (labels_view f.now.ssu.now)) 0 (points (labels_view f.now.ssu.now)))) }
{
    push_fills(alloc, numbers, f, &f.tables.summaries, held, rows)
}
