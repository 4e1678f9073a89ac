//! Numbers for values: no two that are live at a point have the same.

ghost use Rattle.std.specs.Prelude.{◌≡◌, ◌≤◌, ℕ, Bool, nat_eq, true, length, All, IfOk};
ghost use Rattle.std.specs.HashMap.{get};
ghost use Rattle.std.specs.List.{AllZip};
ghost use Rattle.ssu_ir.specs.Points.{points};
ghost use Rattle.ssu_ir.specs.Single.{single};
ghost use Rattle.ssu_ir.specs.View.{labels_view};
ghost use Rattle.ssu_liveness.specs.LiveRows.{IsRowOf, HaveNumbers, items_of};

use crate::point_ids::point_ids_of;
use crate::slots::{Slots, slots_for};
use nv_base::NoMemory;
use ssu_ir::Ssu;
use std::alloc::Global;

/// Numbers for the values of these rows, one row a point, by which the values of a row differ. Where each row has the
/// live values of its point that pass one test, the numbers are below the length of the longest row.
///
/// # Errors
///
/// `NoMemory` also where there isn't one row for each point.
pub fn row_numbers(alloc: Global, s: &Ssu, rows: &[Vec<u32>]) -> Result<Slots, NoMemory>
    requires { single (labels_view s.now) ≡ true }
    ensures { (keep : ℕ → Bool) (n : ℕ) → AllZip (IsRowOf keep) (items_of rows.now) (points (labels_view s.now)) → All (λ row. length row ≤ n) (items_of rows.now) → IfOk result (λ m. All (HaveNumbers keep (get nat_eq m) n) (points (labels_view s.now))) }
{
    let point_ids = point_ids_of(alloc, s)?;
    if rows.len() != point_ids.len() {
        return Err(NoMemory);
    }
    slots_for(alloc, s, &point_ids, rows)
}
