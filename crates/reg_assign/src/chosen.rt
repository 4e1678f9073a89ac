//! The vector of a placement.

ghost use Rattle.std.specs.Prelude.{◌≡◌, ℕ, true, List, length, map, IfOk};
ghost use Rattle.ssu_ir.specs.Single.{single};
ghost use Rattle.ssu_ir.specs.View.{labels_view};
ghost use Rattle.place_plan.specs.Weighted as under_weights;
ghost use Rattle.place_plan.specs.Costs as costs;
ghost use Rattle.place_plan.specs.Fits.{Fits};
ghost use Rattle.place_plan.specs.Order.{IsInOrder};
ghost use Rattle.place_plan.specs.Plan.{plan_view};
ghost use Rattle.zo_model.specs.Program.{vector, costs_of};
ghost use Rattle.bank_prog_form.specs.Columns as columns;
ghost use Rattle.bank_prog.specs.Meaning.{IsFeasible};
ghost use Rattle.bank_prog.specs.Weighted.{weighted_costs};
ghost use Rattle.reg_assign_reading.specs.inner.Chosen as chosen;
ghost use Rattle.reg_assign.specs.Assigned.{IsVectorOf};

use crate::plan_columns::all_on;
use bank_prog::{BankTables, Column, Form, bank_tables_of};
use nv_base::NoMemory;
use place_plan::Placement;
use reg_assign_reading::plan_tables::plan_tables;
use ssu_ir::Ssu;
use std::alloc::Global;
use zo_model::Assignment;

/// Of each of these columns whether a placement has it on.
fn on_of(
    alloc: Global,
    f: &Form<'_>,
    p: &Placement,
    columns: &[Column],
) -> Result<Vec<bool>, NoMemory>
    requires { IsInOrder (plan_view p.now) }
    ensures { IfOk result (λ v. v.items ≡ map (chosen.chosen (labels_view f.now.ssu.now) (plan_view p.now)) columns.now) }
{
    let t = plan_tables(alloc, f, p)?;
    all_on(alloc, f, &t, columns)
}

/// The vector of the bank program that stands for a placement, by the tables of the form: it meets the rows, and costs
/// what the placement does.
pub fn vector_of(
    alloc: Global,
    bank: &BankTables<'_>,
    p: &Placement,
) -> Result<Assignment, NoMemory>
    requires single { single (labels_view bank.now.form.ssu.now) ≡ true }
    requires fits { Fits (labels_view bank.now.form.ssu.now) (plan_view p.now) }
    ensures { IfOk result (IsVectorOf (labels_view bank.now.form.ssu.now) p.now) }
{
    let columns = bank.names(alloc)?;
    let on = on_of(alloc, &bank.form, p, &columns)?;
    Ok(Assignment { on })
}

/// The same by the form alone. A form of more than 2^26 columns has no tables, as if there were no memory for them.
pub fn from_placement(alloc: Global, s: &Ssu, p: &Placement) -> Result<Assignment, NoMemory>
    requires single { single (labels_view s.now) ≡ true }
    requires fits { Fits (labels_view s.now) (plan_view p.now) }
    ensures columns { IfOk result (λ x. length x.on.items ≡ length (columns.columns (labels_view s.now))) }
    ensures has { IfOk result (λ x. x.on.items ≡ map (chosen.chosen (labels_view s.now) (plan_view p.now)) (columns.columns (labels_view s.now))) }
    ensures feasible { IfOk result (λ x. IsFeasible (labels_view s.now) p.now.slots (vector x.on.items)) }
    ensures cost { IfOk result (λ x. costs_of (columns.costs (labels_view s.now)) (vector x.on.items) ≡ costs.cost (labels_view s.now) (plan_view p.now)) }
    ensures weighted_cost { IfOk result (λ x. (ws : List ℕ) → costs_of (weighted_costs (labels_view s.now) ws) (vector x.on.items) ≡ under_weights.weighted_cost (labels_view s.now) ws (plan_view p.now)) }
{
    match bank_tables_of(alloc, s) {
        Ok(bank) => vector_of(alloc, &bank, p),
        Err(_) => Err(NoMemory),
    }
}
