//! Rows of the fourth family: no more values are held in a bank than it has room for.

ghost use Rattle.std.specs.Prelude.{◌≡◌, ◌≤◌, ◌++◌, ◌∷◌, [], map, OnOk};
ghost use Rattle.std.specs.HashMap.{get};
ghost use Rattle.std.specs.List.{AllZip, flat_map};
ghost use Rattle.ssu_ir.specs.Points.{points};
ghost use Rattle.ssu_ir.specs.View.{labels_view};
ghost use Rattle.ssu_liveness.specs.LiveRows.{IsRow, items_of};
ghost use Rattle.bank_prog_form.specs.Program.{same_column};
ghost use Rattle.bank_prog_form.specs.Rows as lines;
ghost use Rattle.bank_prog_form.specs.inner.Adds.{Adds};

use bank_prog_form::column::{Bank, Column};
use bank_prog_form::form::Form;
use bank_prog_form::lines::push_at_most;
use bank_prog_form::names;
use bank_prog_form::numbers::Numbers;
use nv_base::NoMemory;
use std::alloc::Global;
use zo_model::Row;

fn add_home(cs: &mut Vec<Column>, x: u32, h: Bank) -> Result<(), NoMemory>
    ensures { OnOk result (cs.new.items ≡ cs.old.items ++ lines.home x h) }
{
    cs.extend_from_slice(&names::home(x, h))?;
    Ok(())
}

fn add_homes(cs: &mut Vec<Column>, xs: &[u32], h: Bank) -> Result<(), NoMemory>
    ensures { OnOk result (cs.new.items ≡ cs.old.items ++ lines.live_in xs.now h) }
{
    for x in xs {
        add_home(cs, *x, h)?;
    }
    Ok(())
}

/// At most n of these values have a home in the bank.
fn push_live_in(
    alloc: Global,
    numbers: &Numbers,
    n: u32,
    xs: &[u32],
    h: Bank,
    rows: &mut Vec<Row>,
) -> Result<(), NoMemory>
    requires { n ≤ 128 }
    ensures { OnOk result (Adds (get same_column numbers.now) rows.old.items rows.new.items (lines.at_most n (lines.live_in xs.now h) ∷ [])) }
{
    let mut cs = Vec::new(alloc);
    add_homes(&mut cs, xs, h)?;
    push_at_most(alloc, numbers, n, &cs, rows)
}

fn push_room(
    alloc: Global,
    numbers: &Numbers,
    slots: u32,
    xs: &[u32],
    rows: &mut Vec<Row>,
) -> Result<(), NoMemory>
    requires { slots ≤ 128 }
    ensures { OnOk result (Adds (get same_column numbers.now) rows.old.items rows.new.items (lines.room_lines slots xs.now)) }
{
    push_live_in(alloc, numbers, 15, xs, Bank::A, rows)?;
    push_live_in(alloc, numbers, 15, xs, Bank::B, rows)?;
    push_live_in(alloc, numbers, slots, xs, Bank::M, rows)
}

fn push_rooms(
    alloc: Global,
    numbers: &Numbers,
    slots: u32,
    held: &[Vec<u32>],
    rows: &mut Vec<Row>,
) -> Result<(), NoMemory>
    requires { slots ≤ 128 }
    ensures { OnOk result (Adds (get same_column numbers.now) rows.old.items rows.new.items (flat_map (lines.room_lines slots) (map (λ v. v.items) held.now))) }
{
    for xs in held {
        push_room(alloc, numbers, slots, xs, rows)?;
    }
    Ok(())
}

/// The rows of the fourth family, where these values are live at the points.
pub fn push_capacity(
    alloc: Global,
    numbers: &Numbers,
    f: &Form<'_>,
    slots: u32,
    held: &[Vec<u32>],
    rows: &mut Vec<Row>,
) -> Result<(), NoMemory>
    requires slots { slots ≤ 128 }
    requires held { AllZip IsRow (items_of held.now) (points (labels_view f.now.ssu.now)) }
    ensures { OnOk result (Adds (get same_column numbers.now) rows.old.items rows.new.items (lines.capacity (labels_view f.now.ssu.now) slots)) }
{
    push_rooms(alloc, numbers, slots, held, rows)
}
