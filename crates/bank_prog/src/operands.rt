//! Rows of the third family: the two operands of an instruction come from different groups of registers.

ghost use Rattle.std.specs.Prelude.{◌≡◌, ◌++◌, [], ◌∷◌, map, OnOk};
ghost use Rattle.std.specs.HashMap.{get};
ghost use Rattle.std.specs.List.{flat_map};
ghost use Rattle.ssu_ir.specs.View.{labels_view};
ghost use Rattle.bank_prog_form.specs.Program.{same_column};
ghost use Rattle.bank_prog_form.specs.Rows as lines;
ghost use Rattle.bank_prog_form.specs.declared.column.Bank.TheVariants as bank;
ghost use Rattle.bank_prog_form.specs.inner.Adds.{Adds};
ghost use Rattle.bank_prog_form.specs.inner.Form.{part_operands, summary_view};

use bank_prog_form::column::{Bank, Column};
use bank_prog_form::form::{Form, PointSummary};
use bank_prog_form::lines::push_at_most;
use bank_prog_form::names;
use bank_prog_form::numbers::Numbers;
use nv_base::NoMemory;
use std::alloc::Global;
use zo_model::Row;

/// The ways to serve an operand at one of two banks.
fn add_served(cs: &mut Vec<Column>, k: u32, i: u32, p: Bank, q: Bank) -> Result<(), NoMemory>
    ensures { OnOk result (cs.new.items ≡ cs.old.items ++ flat_map (lines.srv_at k i) (p ∷ q ∷ [])) }
{
    cs.extend_from_slice(&names::srv_at(k, i, p))?;
    cs.extend_from_slice(&names::srv_at(k, i, q))?;
    Ok(())
}

/// At most one operand comes from bank A.
fn push_in_a(alloc: Global, numbers: &Numbers, k: u32, rows: &mut Vec<Row>) -> Result<(), NoMemory>
    ensures { OnOk result (Adds (get same_column numbers.now) rows.old.items rows.new.items (lines.at_most 1 (lines.both_at k (bank.A ∷ bank.A15 ∷ [])) ∷ [])) }
{
    let mut cs = Vec::new(alloc);
    add_served(&mut cs, k, 0, Bank::A, Bank::A15)?;
    add_served(&mut cs, k, 1, Bank::A, Bank::A15)?;
    push_at_most(alloc, numbers, 1, &cs, rows)
}

/// At most one operand comes from bank B.
fn push_in_b(alloc: Global, numbers: &Numbers, k: u32, rows: &mut Vec<Row>) -> Result<(), NoMemory>
    ensures { OnOk result (Adds (get same_column numbers.now) rows.old.items rows.new.items (lines.at_most 1 (lines.both_at k (bank.B ∷ [])) ∷ [])) }
{
    let mut cs = Vec::new(alloc);
    cs.extend_from_slice(&names::srv_at(k, 0, Bank::B))?;
    cs.extend_from_slice(&names::srv_at(k, 1, Bank::B))?;
    push_at_most(alloc, numbers, 1, &cs, rows)
}

/// At most one operand comes from a read register.
fn push_in_read(
    alloc: Global,
    numbers: &Numbers,
    k: u32,
    rows: &mut Vec<Row>,
) -> Result<(), NoMemory>
    ensures { OnOk result (Adds (get same_column numbers.now) rows.old.items rows.new.items (lines.at_most 1 (lines.both_at k (bank.L ∷ bank.T ∷ [])) ∷ [])) }
{
    let mut cs = Vec::new(alloc);
    add_served(&mut cs, k, 0, Bank::L, Bank::T)?;
    add_served(&mut cs, k, 1, Bank::L, Bank::T)?;
    push_at_most(alloc, numbers, 1, &cs, rows)
}

/// The rows of an instruction with two operands.
fn push_pair(alloc: Global, numbers: &Numbers, k: u32, rows: &mut Vec<Row>) -> Result<(), NoMemory>
    ensures { OnOk result (Adds (get same_column numbers.now) rows.old.items rows.new.items (lines.pair_lines k)) }
{
    push_in_a(alloc, numbers, k, rows)?;
    push_in_b(alloc, numbers, k, rows)?;
    push_in_read(alloc, numbers, k, rows)
}

fn push_point_operands(
    alloc: Global,
    numbers: &Numbers,
    summary: &PointSummary,
    rows: &mut Vec<Row>,
) -> Result<(), NoMemory>
    ensures { OnOk result (Adds (get same_column numbers.now) rows.old.items rows.new.items (part_operands (summary_view summary.now))) }
{
    if summary.two {
        push_pair(alloc, numbers, summary.point, rows)?;
    }
    Ok(())
}

fn push_operands(
    alloc: Global,
    numbers: &Numbers,
    summaries: &[PointSummary],
    rows: &mut Vec<Row>,
) -> Result<(), NoMemory>
    ensures { OnOk result (Adds (get same_column numbers.now) rows.old.items rows.new.items (flat_map part_operands (map summary_view summaries.now))) }
{
    for summary in summaries {
        push_point_operands(alloc, numbers, summary, rows)?;
    }
    Ok(())
}

/// The rows of the third family.
pub fn push_operand_banks(
    alloc: Global,
    numbers: &Numbers,
    f: &Form<'_>,
    rows: &mut Vec<Row>,
) -> Result<(), NoMemory>
    ensures { OnOk result (Adds (get same_column numbers.now) rows.old.items rows.new.items (lines.operand_banks (labels_view f.now.ssu.now))) }
{
    push_operands(alloc, numbers, &f.tables.summaries, rows)
}
