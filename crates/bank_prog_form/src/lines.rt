//! Rows over columns by name.

ghost use Rattle.std.specs.Prelude.{◌≤◌, ◌^◌, [], ◌∷◌, OnOk};
ghost use Rattle.std.specs.HashMap.{get};
ghost use Rattle.bank_prog_form.specs.Program.{same_column};
ghost use Rattle.bank_prog_form.specs.Rows as lines;
ghost use Rattle.bank_prog_form.specs.inner.Adds.{Adds};

use crate::column::Column;
use crate::numbers::Numbers;
use crate::terms::add_each;
use nv_base::NoMemory;
use std::alloc::Global;
use zo_model::Row;

/// The sum of the columns is at least 1.
fn push_one_at_least(
    alloc: Global,
    numbers: &Numbers,
    cs: &[Column],
    rows: &mut Vec<Row>,
) -> Result<(), NoMemory>
    ensures { OnOk result (Adds (get same_column numbers.now) rows.old.items rows.new.items (lines.at_least 1 cs.now ∷ [])) }
{
    let mut terms = Vec::new(alloc);
    add_each(&mut terms, numbers, cs, 1)?;
    rows.push(Row { terms, least: 1 })?;
    Ok(())
}

/// The sum of the columns is at most n.
pub fn push_at_most(
    alloc: Global,
    numbers: &Numbers,
    n: u32,
    cs: &[Column],
    rows: &mut Vec<Row>,
) -> Result<(), NoMemory>
    requires { n ≤ 2 ^ 30 }
    ensures { OnOk result (Adds (get same_column numbers.now) rows.old.items rows.new.items (lines.at_most n cs.now ∷ [])) }
{
    let mut terms = Vec::new(alloc);
    add_each(&mut terms, numbers, cs, -1)?;
    rows.push(Row {
        terms,
        least: -(n as i32),
    })?;
    Ok(())
}

/// The sum of the first columns is at least that of the second.
pub fn push_covers(
    alloc: Global,
    numbers: &Numbers,
    cs: &[Column],
    ds: &[Column],
    rows: &mut Vec<Row>,
) -> Result<(), NoMemory>
    ensures { OnOk result (Adds (get same_column numbers.now) rows.old.items rows.new.items (lines.covers cs.now ds.now ∷ [])) }
{
    let mut terms = Vec::new(alloc);
    add_each(&mut terms, numbers, ds, -1)?;
    add_each(&mut terms, numbers, cs, 1)?;
    rows.push(Row { terms, least: 0 })?;
    Ok(())
}

/// The sum of the columns is 1.
pub fn push_exactly_one(
    alloc: Global,
    numbers: &Numbers,
    cs: &[Column],
    rows: &mut Vec<Row>,
) -> Result<(), NoMemory>
    ensures { OnOk result (Adds (get same_column numbers.now) rows.old.items rows.new.items (lines.exactly_one cs.now)) }
{
    push_one_at_least(alloc, numbers, cs, rows)?;
    push_at_most(alloc, numbers, 1, cs, rows)
}
