//! Columns of words that are copied early into their write registers.

ghost use Rattle.std.specs.Prelude.{◌≡◌, ◌++◌, map, OnOk};
ghost use Rattle.std.specs.List.{flat_map};
ghost use Rattle.bank_prog_form.specs.Columns as columns;
ghost use Rattle.bank_prog_form.specs.declared.column.Column.TheVariants as column;
ghost use Rattle.bank_prog_form.specs.inner.Form as form;
ghost use Rattle.bank_prog_form.specs.inner.Form.{summary_view};
ghost use Rattle.place_plan.specs.inner.UseViews.{use_view};

use bank_prog_form::column::{Column, Priced};
use bank_prog_form::form::PointSummary;
use bank_prog_form::runs::role_beginnings;
use nv_base::NoMemory;
use place_plan::Use;
use std::alloc::Global;

fn push_ears_at(out: &mut Priced, u: Use, firsts: &[u8]) -> Result<(), NoMemory>
    ensures { OnOk result (out.new.items ≡ out.old.items ++ map (λ f. (column.EarlyWrite u.point u.operand f, 1)) firsts.now) }
{
    for f in firsts {
        out.push((Column::EarlyWrite(u.point, u.operand, *f), 1))?;
    }
    Ok(())
}

fn push_ear(alloc: Global, out: &mut Priced, n: u32, u: Use) -> Result<(), NoMemory>
    ensures { OnOk result (out.new.items ≡ out.old.items ++ columns.ear_columns n (use_view u)) }
{
    push_ears_at(out, u, &role_beginnings(alloc, n, u.role)?)
}

fn push_point_ears(alloc: Global, out: &mut Priced, n: u32, uses: &[Use]) -> Result<(), NoMemory>
    ensures { OnOk result (out.new.items ≡ out.old.items ++ flat_map (columns.ear_columns n) (map use_view uses.now)) }
{
    for u in uses {
        push_ear(alloc, out, n, *u)?;
    }
    Ok(())
}

/// A column for each register where a word may be copied early, with its cost.
pub fn push_ears(
    alloc: Global,
    out: &mut Priced,
    summaries: &[PointSummary],
) -> Result<(), NoMemory>
    ensures { OnOk result (out.new.items ≡ out.old.items ++ flat_map form.part_ears (map summary_view summaries.now)) }
{
    for summary in summaries {
        push_point_ears(alloc, out, summary.words, &summary.uses)?;
    }
    Ok(())
}
