//! All rows of the program of the banks.

ghost use Rattle.std.specs.Prelude.{◌≡◌, ◌≤◌, true, map, IfOk, OnOk};
ghost use Rattle.std.specs.HashMap.{get};
ghost use Rattle.std.specs.List.{AllZip};
ghost use Rattle.ssu_ir.specs.Points.{points};
ghost use Rattle.ssu_ir.specs.Single.{single};
ghost use Rattle.ssu_ir.specs.View.{labels_view};
ghost use Rattle.ssu_liveness.specs.LiveRows.{IsRow, items_of};
ghost use Rattle.zo_model.specs.Contents.{row_contents};
ghost use Rattle.bank_prog_form.specs.Program.{same_column, row_of};
ghost use Rattle.bank_prog_form.specs.Rows.{lines};
ghost use Rattle.bank_prog_form.specs.inner.Adds.{Adds};

use crate::capacity::push_capacity;
use crate::operands::push_operand_banks;
use bank_prog_form::form::Form;
use bank_prog_form::numbers::Numbers;
use bank_prog_rows::{push_adjacency, push_homes_cover, push_one_choice, push_owners, push_passes};
use nv_base::NoMemory;
use std::alloc::Global;
use zo_model::Row;

/// The rows of all families behind others, where these values are live at the points.
fn push_all(
    alloc: Global,
    numbers: &Numbers,
    f: &Form<'_>,
    slots: u32,
    held: &[Vec<u32>],
    rows: &mut Vec<Row>,
) -> Result<(), NoMemory>
    requires single { single (labels_view f.now.ssu.now) ≡ true }
    requires slots { slots ≤ 128 }
    requires held { AllZip IsRow (items_of held.now) (points (labels_view f.now.ssu.now)) }
    ensures { OnOk result (Adds (get same_column numbers.now) rows.old.items rows.new.items (lines (labels_view f.now.ssu.now) slots)) }
{
    push_one_choice(alloc, numbers, f, rows)?;
    push_homes_cover(alloc, numbers, f, rows)?;
    push_operand_banks(alloc, numbers, f, rows)?;
    push_capacity(alloc, numbers, f, slots, held, rows)?;
    push_owners(alloc, numbers, f, held, rows)?;
    push_adjacency(alloc, numbers, f, rows)?;
    push_passes(alloc, numbers, f, rows)
}

/// The rows of all families, where these values are live at the points.
pub fn rows_of(
    alloc: Global,
    numbers: &Numbers,
    f: &Form<'_>,
    slots: u32,
    rows_held: &[Vec<u32>],
) -> Result<Vec<Row>, NoMemory>
    requires single { single (labels_view f.now.ssu.now) ≡ true }
    requires slots { slots ≤ 128 }
    requires held { AllZip IsRow (items_of rows_held.now) (points (labels_view f.now.ssu.now)) }
    ensures { IfOk result (λ v. map row_contents v.items ≡ map (row_of (get same_column numbers.now)) (lines (labels_view f.now.ssu.now) slots)) }
{
    let mut rows = Vec::new(alloc);
    push_all(alloc, numbers, f, slots, rows_held, &mut rows)?;
    Ok(rows)
}
