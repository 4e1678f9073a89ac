//! The placement of a vector.

ghost use Rattle.std.specs.Prelude.{◌≡◌, ℕ, ◌≤◌, true, List, length, IfOk};
ghost use Rattle.ssu_ir.specs.Single.{single};
ghost use Rattle.ssu_ir.specs.View.{labels_view};
ghost use Rattle.place_plan.specs.Costs as costs;
ghost use Rattle.place_plan.specs.Fits.{Fits};
ghost use Rattle.place_plan.specs.Plan.{plan_view};
ghost use Rattle.zo_model.specs.Program.{vector, costs_of};
ghost use Rattle.bank_prog_form.specs.Columns as columns;
ghost use Rattle.bank_prog.specs.Meaning.{IsFeasible};
ghost use Rattle.bank_prog.specs.Weighted.{weighted_costs};
ghost use Rattle.place_plan.specs.ByLabel as by_label;
ghost use Rattle.place_plan.specs.Weighted as under_weights;
ghost use Rattle.reg_assign_reading.specs.ReadOff.{IsReadOff};
ghost use Rattle.reg_assign_reading.specs.ByLabel.{label_price};
ghost use Rattle.reg_assign.specs.Assigned.{IsAssigned, IsReadFrom};
ghost use Rattle.reg_assign.specs.inner.AssignmentInputs.{labels_in, says_in, numbers_in};

use crate::given::{AssignmentInputs, given_of};
use crate::homes::{by_variable, homes_of};
use crate::serves::{firsts_of, passes_of, serves_of};
use bank_prog::{BankTables, bank_tables_of};
use nv_base::NoMemory;
use place_plan::Placement;
use reg_assign_numbers::number_homes;
use reg_assign_reading::reading::Reading;
use ssu_ir::Ssu;
use std::alloc::Global;
use zo_model::Assignment;

/// The placement that is read off.
fn placed(alloc: Global, g: &AssignmentInputs<'_>, slots: u32) -> Result<Placement, NoMemory>
    requires { single (labels_in g.now) ≡ true }
    ensures { IfOk result (IsReadOff (labels_in g.now) slots (says_in g.now) (numbers_in g.now)) }
{
    let tables = &g.reading.bank.form.tables;
    let homes = by_variable(homes_of(alloc, g, &tables.values)?);
    Ok(Placement {
        slots,
        homes,
        firsts: firsts_of(alloc, &g.reading, &tables.accesses)?,
        serves: serves_of(alloc, g, &tables.uses)?,
        passes: passes_of(alloc, &g.reading, &tables.summaries)?,
    })
}

/// The placement that a vector which meets the rows of the bank program stands for, by the tables of the form; each home
/// gets a register of its bank, or a slot.
pub fn assign_by(
    alloc: Global,
    bank: &BankTables<'_>,
    slots: u32,
    x: &Assignment,
) -> Result<Placement, NoMemory>
    requires single { single (labels_view bank.now.form.ssu.now) ≡ true }
    requires slots { slots ≤ 128 }
    requires feasible { IsFeasible (labels_view bank.now.form.ssu.now) slots (vector x.now.on.items) }
    ensures { IfOk result (IsAssigned (labels_view bank.now.form.ssu.now) slots (vector x.now.on.items)) }
{
    let reading = Reading { bank, x };
    let numbers = number_homes(alloc, &reading)?;
    let given = given_of(alloc, reading, numbers)?;
    placed(alloc, &given, slots)
}

/// The same by the form alone. A form of more than 2^26 columns has no tables, as if there were no memory for them.
pub fn assign(alloc: Global, s: &Ssu, slots: u32, x: &Assignment) -> Result<Placement, NoMemory>
    requires single { single (labels_view s.now) ≡ true }
    requires slots { slots ≤ 128 }
    requires columns { length x.now.on.items ≡ length (columns.columns (labels_view s.now)) }
    requires feasible { IsFeasible (labels_view s.now) slots (vector x.now.on.items) }
    ensures read { IfOk result (IsReadFrom (labels_view s.now) slots (vector x.now.on.items)) }
    ensures fits { IfOk result (λ p. Fits (labels_view s.now) (plan_view p)) }
    ensures slots { IfOk result (λ p. p.slots ≡ slots) }
    ensures cost { IfOk result (λ p. costs.cost (labels_view s.now) (plan_view p) ≤ costs_of (columns.costs (labels_view s.now)) (vector x.now.on.items)) }
    ensures label_cost { IfOk result (λ p. (l : ℕ) → by_label.label_cost (labels_view s.now) l (plan_view p) ≤ label_price (labels_view s.now) l (vector x.now.on.items)) }
    ensures weighted_cost { IfOk result (λ p. (ws : List ℕ) → under_weights.weighted_cost (labels_view s.now) ws (plan_view p) ≤ costs_of (weighted_costs (labels_view s.now) ws) (vector x.now.on.items)) }
{
    match bank_tables_of(alloc, s) {
        Ok(bank) => assign_by(alloc, &bank, slots, x),
        Err(_) => Err(NoMemory),
    }
}
