//! What a placement and its form say: the placement is searched by itself, the form in tables by operand and variable.

ghost use Rattle.std.specs.Prelude.{◌≡◌, ℕ, map, IfOk};
ghost use Rattle.std.specs.HashMap.{get};
ghost use Rattle.ssu_ir.specs.View.{labels_view};
ghost use Rattle.place_plan.specs.Plan.{plan_view};
ghost use Rattle.place_plan.specs.inner.UseViews.{use_view};
ghost use Rattle.reg_assign_reading.specs.inner.Chosen.{use_in};
ghost use Rattle.reg_assign_reading.specs.inner.PlanTables.{pair_eq, known_value, known_role, AreTold};

use crate::plan::PlanTables;
use bank_prog::{Form, Use, defining_points};
use nv_base::NoMemory;
use place_plan::Placement;
use std::alloc::Global;
use std::collections::HashMap;

/// The use of each operand.
fn uses_by(alloc: Global, uses: &[Use]) -> Result<HashMap<(u32, u32), Use>, NoMemory>
    ensures values { IfOk result (λ m. (k i : ℕ) → known_value (get pair_eq m (k, i)) ≡ (use_in (map use_view uses.now) k i).value) }
    ensures roles { IfOk result (λ m. (k i : ℕ) → known_role (get pair_eq m (k, i)) ≡ (use_in (map use_view uses.now) k i).role) }
{
    let mut table = HashMap::new(alloc);
    let mut n = uses.len();
    while n > 0 {
        n -= 1;
        let u = uses[n];
        table.insert((u.point, u.operand), u)?;
    }
    Ok(table)
}

/// A placement with the tables of its form.
pub fn plan_tables<'a>(
    alloc: Global,
    f: &Form<'_>,
    p: &'a Placement,
) -> Result<PlanTables<'a>, NoMemory>
    ensures { IfOk result (AreTold (labels_view f.now.ssu.now) (plan_view p.now)) }
{
    let uses = uses_by(alloc, &f.tables.uses)?;
    let points = defining_points(alloc, &f.tables.values)?;
    Ok(PlanTables {
        placement: p,
        uses,
        points,
    })
}
