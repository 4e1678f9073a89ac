//! Rows of the second family: uses are served from where their values are, copies are made only where a
//! value is first put into a register, and arguments are brought to where their parameters are.

ghost use Rattle.std.specs.Prelude.{◌≡◌, [], ◌∷◌, map, filter, OnOk};
ghost use Rattle.std.specs.HashMap.{get};
ghost use Rattle.std.specs.List.{flat_map};
ghost use Rattle.ssu_ir.specs.View.{labels_view};
ghost use Rattle.bank_prog_form.specs.Program.{same_column};
ghost use Rattle.bank_prog_form.specs.Rows as lines;
ghost use Rattle.bank_prog_form.specs.inner.Adds.{Adds};
ghost use Rattle.bank_prog_form.specs.inner.Form.{value_view};
ghost use Rattle.place_plan.specs.inner.UseViews.{role_view, use_view};

use bank_prog_form::column::{Bank, Column};
use bank_prog_form::form::{Form, Origin, Value};
use bank_prog_form::lines::{push_at_most, push_covers};
use bank_prog_form::names;
use bank_prog_form::numbers::Numbers;
use nv_base::NoMemory;
use place_plan::{Role, Use};
use std::alloc::Global;
use zo_model::Row;

/// The use is served from a bank only where its value is there.
fn push_served_home(
    alloc: Global,
    numbers: &Numbers,
    u: Use,
    h: Bank,
    rows: &mut Vec<Row>,
) -> Result<(), NoMemory>
    ensures { OnOk result (Adds (get same_column numbers.now) rows.old.items rows.new.items (lines.served_home (use_view u) h ∷ [])) }
{
    let served = names::srv_from(u.point, u.operand, h);
    push_covers(alloc, numbers, &names::home(u.value, h), &served, rows)
}

/// The use is served from the read register of its value only where that stays there.
fn push_served_stay(
    alloc: Global,
    numbers: &Numbers,
    f: &Form<'_>,
    u: Use,
    rows: &mut Vec<Row>,
) -> Result<(), NoMemory>
    ensures { OnOk result (Adds (get same_column numbers.now) rows.old.items rows.new.items (lines.use_stay (labels_view f.now.ssu.now) (use_view u))) }
{
    match f.origin_of(u.value) {
        Origin::Parameter(_, _) => Ok(()),
        Origin::Result => Ok(()),
        Origin::Fetched(_, _) => {
            let served = names::srv_from(u.point, u.operand, Bank::T);
            push_covers(alloc, numbers, &names::stay(u.value), &served, rows)
        }
    }
}

fn push_use_cover(
    alloc: Global,
    numbers: &Numbers,
    f: &Form<'_>,
    u: Use,
    rows: &mut Vec<Row>,
) -> Result<(), NoMemory>
    ensures { OnOk result (Adds (get same_column numbers.now) rows.old.items rows.new.items (lines.use_cover (labels_view f.now.ssu.now) (use_view u))) }
{
    push_served_home(alloc, numbers, u, Bank::A, rows)?;
    push_served_home(alloc, numbers, u, Bank::B, rows)?;
    push_served_home(alloc, numbers, u, Bank::M, rows)?;
    push_served_stay(alloc, numbers, f, u, rows)
}

fn push_use_covers(
    alloc: Global,
    numbers: &Numbers,
    f: &Form<'_>,
    uses: &[Use],
    rows: &mut Vec<Row>,
) -> Result<(), NoMemory>
    ensures { OnOk result (Adds (get same_column numbers.now) rows.old.items rows.new.items (flat_map (lines.use_cover (labels_view f.now.ssu.now)) (map use_view uses.now))) }
{
    for u in uses {
        push_use_cover(alloc, numbers, f, *u, rows)?;
    }
    Ok(())
}

/// At most one copy in each bank.
fn push_single_homes(
    alloc: Global,
    numbers: &Numbers,
    x: u32,
    rows: &mut Vec<Row>,
) -> Result<(), NoMemory>
    ensures { OnOk result (Adds (get same_column numbers.now) rows.old.items rows.new.items (map (λ h. lines.at_most 1 (lines.home x h)) lines.homes)) }
{
    push_at_most(alloc, numbers, 1, &names::home(x, Bank::A), rows)?;
    push_at_most(alloc, numbers, 1, &names::home(x, Bank::B), rows)?;
    push_at_most(alloc, numbers, 1, &names::home(x, Bank::M), rows)
}

/// These copies are made only where the value is first put into a register.
fn push_from_register(
    alloc: Global,
    numbers: &Numbers,
    x: u32,
    copies: &[Column],
    rows: &mut Vec<Row>,
) -> Result<(), NoMemory>
    ensures { OnOk result (Adds (get same_column numbers.now) rows.old.items rows.new.items (lines.covers (lines.in_register x) copies.now ∷ [])) }
{
    let registers = [Column::Def(x, Bank::A), Column::Def(x, Bank::B)];
    push_covers(alloc, numbers, &registers, copies, rows)
}

fn push_fills_from_register(
    alloc: Global,
    numbers: &Numbers,
    x: u32,
    rows: &mut Vec<Row>,
) -> Result<(), NoMemory>
    ensures { OnOk result (Adds (get same_column numbers.now) rows.old.items rows.new.items (map (λ h. lines.covers (lines.in_register x) (lines.fill x h)) lines.homes)) }
{
    push_from_register(alloc, numbers, x, &[Column::Fill(x, Bank::A)], rows)?;
    push_from_register(alloc, numbers, x, &[Column::Fill(x, Bank::B)], rows)?;
    push_from_register(alloc, numbers, x, &[Column::Fill(x, Bank::M)], rows)
}

fn push_word_from_register(
    alloc: Global,
    numbers: &Numbers,
    x: u32,
    u: Use,
    rows: &mut Vec<Row>,
) -> Result<(), NoMemory>
    ensures { OnOk result (Adds (get same_column numbers.now) rows.old.items rows.new.items (lines.word_from_register x (use_view u))) }
{
    match u.role {
        Role::Written(_, _) => {
            push_from_register(alloc, numbers, x, &names::ear(u.point, u.operand), rows)
        }
        Role::Operand => Ok(()),
        Role::Address => Ok(()),
        Role::Argument(_, _) => Ok(()),
        Role::Ending(_) => Ok(()),
    }
}

fn push_words_from_register(
    alloc: Global,
    numbers: &Numbers,
    x: u32,
    uses: &[Use],
    rows: &mut Vec<Row>,
) -> Result<(), NoMemory>
    ensures { OnOk result (Adds (get same_column numbers.now) rows.old.items rows.new.items (flat_map (lines.word_from_register x) (map use_view uses.now))) }
{
    for u in uses {
        push_word_from_register(alloc, numbers, x, *u, rows)?;
    }
    Ok(())
}

fn push_copies(
    alloc: Global,
    numbers: &Numbers,
    f: &Form<'_>,
    x: u32,
    rows: &mut Vec<Row>,
) -> Result<(), NoMemory>
    ensures { OnOk result (Adds (get same_column numbers.now) rows.old.items rows.new.items (lines.copy_lines (labels_view f.now.ssu.now) x)) }
{
    push_single_homes(alloc, numbers, x, rows)?;
    push_fills_from_register(alloc, numbers, x, rows)?;
    push_words_from_register(alloc, numbers, x, f.uses_of(x), rows)
}

fn push_copy_cover(
    alloc: Global,
    numbers: &Numbers,
    f: &Form<'_>,
    v: Value,
    rows: &mut Vec<Row>,
) -> Result<(), NoMemory>
    ensures { OnOk result (Adds (get same_column numbers.now) rows.old.items rows.new.items (lines.copy_cover (labels_view f.now.ssu.now) (value_view v))) }
{
    if f.is_used(v.var) && !v.origin.is_fetched() {
        push_copies(alloc, numbers, f, v.var, rows)?;
    }
    Ok(())
}

fn push_copy_covers(
    alloc: Global,
    numbers: &Numbers,
    f: &Form<'_>,
    values: &[Value],
    rows: &mut Vec<Row>,
) -> Result<(), NoMemory>
    ensures { OnOk result (Adds (get same_column numbers.now) rows.old.items rows.new.items (flat_map (lines.copy_cover (labels_view f.now.ssu.now)) (map value_view values.now))) }
{
    for v in values {
        push_copy_cover(alloc, numbers, f, *v, rows)?;
    }
    Ok(())
}

/// An argument is brought into a bank only where its parameter is first put there.
fn push_argument_at(
    alloc: Global,
    numbers: &Numbers,
    u: Use,
    y: u32,
    p: Bank,
    rows: &mut Vec<Row>,
) -> Result<(), NoMemory>
    ensures { OnOk result (Adds (get same_column numbers.now) rows.old.items rows.new.items (lines.covers (lines.at_home y p) (lines.srv_at u.point u.operand p) ∷ [])) }
{
    let served = names::srv_at(u.point, u.operand, p);
    push_covers(alloc, numbers, &[Column::Def(y, p)], &served, rows)
}

fn push_argument_cover(
    alloc: Global,
    numbers: &Numbers,
    f: &Form<'_>,
    u: Use,
    rows: &mut Vec<Row>,
) -> Result<(), NoMemory>
    ensures { OnOk result (Adds (get same_column numbers.now) rows.old.items rows.new.items (lines.argument_cover (labels_view f.now.ssu.now) (use_view u))) }
{
    match u.role {
        Role::Argument(l, i) => {
            let y = f.parameter(l, i);
            push_argument_at(alloc, numbers, u, y, Bank::A, rows)?;
            push_argument_at(alloc, numbers, u, y, Bank::B, rows)?;
            push_argument_at(alloc, numbers, u, y, Bank::M, rows)
        }
        Role::Operand => Ok(()),
        Role::Address => Ok(()),
        Role::Written(_, _) => Ok(()),
        Role::Ending(_) => Ok(()),
    }
}

fn push_argument_covers(
    alloc: Global,
    numbers: &Numbers,
    f: &Form<'_>,
    uses: &[Use],
    rows: &mut Vec<Row>,
) -> Result<(), NoMemory>
    ensures { OnOk result (Adds (get same_column numbers.now) rows.old.items rows.new.items (flat_map (lines.argument_cover (labels_view f.now.ssu.now)) (map use_view uses.now))) }
{
    for u in uses {
        push_argument_cover(alloc, numbers, f, *u, rows)?;
    }
    Ok(())
}

/// The rows of the second family.
pub fn push_homes_cover(
    alloc: Global,
    numbers: &Numbers,
    f: &Form<'_>,
    rows: &mut Vec<Row>,
) -> Result<(), NoMemory>
    ensures { OnOk result (Adds (get same_column numbers.now) rows.old.items rows.new.items (lines.homes_cover (labels_view f.now.ssu.now))) }
{
    push_use_covers(alloc, numbers, f, &f.tables.uses, rows)?;
    push_copy_covers(alloc, numbers, f, &f.tables.values, rows)?;
    push_argument_covers(alloc, numbers, f, &f.tables.uses, rows)
}
