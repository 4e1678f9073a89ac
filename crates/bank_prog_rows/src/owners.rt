//! Rows of the fifth family: each transfer register belongs to one.

ghost use Rattle.std.specs.Prelude.{◌≡◌, ◌++◌, ◌∷◌, [], map, true, OnOk};
ghost use Rattle.std.specs.HashMap.{get};
ghost use Rattle.std.specs.List.{AllZip, flat_map};
ghost use Rattle.ssu_ir.specs.Points.{points};
ghost use Rattle.ssu_ir.specs.Single.{single};
ghost use Rattle.ssu_ir.specs.View.{labels_view};
ghost use Rattle.ssu_liveness.specs.LiveRows.{IsRow, items_of};
ghost use Rattle.bank_prog_form.specs.Program.{same_column};
ghost use Rattle.bank_prog_form.specs.Rows as lines;
ghost use Rattle.bank_prog_form.specs.inner.Adds.{Adds};
ghost use Rattle.bank_prog_form.specs.inner.Form.{origin_view};
ghost use Rattle.bank_prog_form.specs.inner.Owners as owners;

use crate::refills::push_fill_owners;
use crate::waiting::push_write_owners;
use bank_prog_form::column::Column;
use bank_prog_form::form::{Form, Origin};
use bank_prog_form::lines::push_at_most;
use bank_prog_form::numbers::Numbers;
use bank_prog_form::tables::short;
use nv_base::{Mem, NoMemory};
use std::alloc::Global;
use zo_model::Row;

/// Whether a memory's registers are those of SDRAM, or those of the others.
pub fn is_on_side(sdram: bool, m: Mem) -> bool
    ensures { result ≡ lines.same_side sdram (lines.is_sdram m) }
{
    match m {
        Mem::Sram => !sdram,
        Mem::Sdram => sdram,
        Mem::Scratch => !sdram,
    }
}

/// Where a run begins whose word i has register r.
pub fn run_at(r: u8, i: u32) -> Option<u8>
    ensures { owners.one result ≡ lines.run_at r i }
{
    if i <= u32::from(r) {
        Some(r - i as u8)
    } else {
        None
    }
}

/// The column that a read value stays in register r, where it can.
fn add_fetched(
    cs: &mut Vec<Column>,
    sdram: bool,
    r: u8,
    x: u32,
    origin: Origin,
) -> Result<(), NoMemory>
    ensures { OnOk result (cs.new.items ≡ cs.old.items ++ lines.origin_stays sdram r x (origin_view origin)) }
{
    if let Origin::Fetched(m, i) = origin {
        if is_on_side(sdram, m) {
            if let Some(f) = run_at(r, i) {
                cs.push(Column::Stay(x, f))?;
            }
        }
    }
    Ok(())
}

fn add_stay(cs: &mut Vec<Column>, f: &Form<'_>, sdram: bool, r: u8, x: u32) -> Result<(), NoMemory>
    ensures { OnOk result (cs.new.items ≡ cs.old.items ++ owners.value_stays (labels_view f.now.ssu.now) sdram r x) }
{
    add_fetched(cs, sdram, r, x, f.origin_of(x))
}

/// The columns that these values stay in register r.
pub fn add_stays(
    cs: &mut Vec<Column>,
    f: &Form<'_>,
    sdram: bool,
    r: u8,
    xs: &[u32],
) -> Result<(), NoMemory>
    ensures { OnOk result (cs.new.items ≡ cs.old.items ++ flat_map (owners.value_stays (labels_view f.now.ssu.now) sdram r) xs.now) }
{
    for x in xs {
        add_stay(cs, f, sdram, r, *x)?;
    }
    Ok(())
}

fn push_owner(
    alloc: Global,
    numbers: &Numbers,
    f: &Form<'_>,
    k: u32,
    xs: &[u32],
    r: u8,
    rows: &mut Vec<Row>,
) -> Result<(), NoMemory>
    ensures { OnOk result (Adds (get same_column numbers.now) rows.old.items rows.new.items (owners.read_owner (labels_view f.now.ssu.now) k xs.now r)) }
{
    let mut cs = Vec::new(alloc);
    add_stays(&mut cs, f, false, r, xs)?;
    cs.push(Column::ReadVia(k, r))?;
    push_at_most(alloc, numbers, 1, &cs, rows)
}

fn push_sdram_owner(
    alloc: Global,
    numbers: &Numbers,
    f: &Form<'_>,
    xs: &[u32],
    r: u8,
    rows: &mut Vec<Row>,
) -> Result<(), NoMemory>
    ensures { OnOk result (Adds (get same_column numbers.now) rows.old.items rows.new.items (owners.sdram_owner (labels_view f.now.ssu.now) xs.now r)) }
{
    let mut cs = Vec::new(alloc);
    add_stays(&mut cs, f, true, r, xs)?;
    push_at_most(alloc, numbers, 1, &cs, rows)
}

fn push_owners_at(
    alloc: Global,
    numbers: &Numbers,
    f: &Form<'_>,
    k: u32,
    xs: &[u32],
    rs: &[u8],
    rows: &mut Vec<Row>,
) -> Result<(), NoMemory>
    ensures { OnOk result (Adds (get same_column numbers.now) rows.old.items rows.new.items (flat_map (owners.read_owner (labels_view f.now.ssu.now) k xs.now) rs.now)) }
{
    for r in rs {
        push_owner(alloc, numbers, f, k, xs, *r, rows)?;
    }
    Ok(())
}

fn push_sdram_owners(
    alloc: Global,
    numbers: &Numbers,
    f: &Form<'_>,
    xs: &[u32],
    rs: &[u8],
    rows: &mut Vec<Row>,
) -> Result<(), NoMemory>
    ensures { OnOk result (Adds (get same_column numbers.now) rows.old.items rows.new.items (flat_map (owners.sdram_owner (labels_view f.now.ssu.now) xs.now) rs.now)) }
{
    for r in rs {
        push_sdram_owner(alloc, numbers, f, xs, *r, rows)?;
    }
    Ok(())
}

/// The read registers of one point, where these values are held.
fn push_point_owners(
    alloc: Global,
    numbers: &Numbers,
    f: &Form<'_>,
    k: u32,
    xs: &[u32],
    rows: &mut Vec<Row>,
) -> Result<(), NoMemory>
    ensures { OnOk result (Adds (get same_column numbers.now) rows.old.items rows.new.items (owners.row_owners (labels_view f.now.ssu.now) k xs.now)) }
{
    push_owners_at(alloc, numbers, f, k, xs, &[0, 1, 2, 3, 4, 5, 6, 7], rows)?;
    push_sdram_owners(alloc, numbers, f, xs, &[0, 1, 2, 3, 4, 5, 6, 7], rows)
}

fn push_read_owners(
    alloc: Global,
    numbers: &Numbers,
    f: &Form<'_>,
    held: &[Vec<u32>],
    rows: &mut Vec<Row>,
) -> Result<(), NoMemory>
    ensures { OnOk result (Adds (get same_column numbers.now) rows.old.items rows.new.items (owners.each_row (owners.row_owners (labels_view f.now.ssu.now)) 0 (items_of held.now))) }
{
    for k in 0..held.len() {
        push_point_owners(alloc, numbers, f, short(k)?, &held[k], rows)?;
    }
    Ok(())
}

/// The rows of the fifth family, where these values are live at the points.
pub fn push_owners(
    alloc: Global,
    numbers: &Numbers,
    f: &Form<'_>,
    held: &[Vec<u32>],
    rows: &mut Vec<Row>,
) -> Result<(), NoMemory>
    requires single { single (labels_view f.now.ssu.now) ≡ true }
    requires held { AllZip IsRow (items_of held.now) (points (labels_view f.now.ssu.now)) }
    ensures { OnOk result (Adds (get same_column numbers.now) rows.old.items rows.new.items (lines.owners (labels_view f.now.ssu.now))) }
{
    push_read_owners(alloc, numbers, f, held, rows)?;
    push_fill_owners(alloc, numbers, f, held, rows)?;
    push_write_owners(alloc, numbers, f, rows)
}
