//! The choice of banks that a search begins with.

ghost use Rattle.std.specs.Prelude.{◌≡◌, ◌≤◌, true, IfOk};
ghost use Rattle.ssu_ir.specs.Measures as measures;
ghost use Rattle.ssu_ir.specs.Single.{single};
ghost use Rattle.ssu_ir.specs.View.{labels_view};
ghost use Rattle.nova_back.specs.inner.Search.{IsCheap, IsStart};

use crate::paired::paired;
use bank_prog::{BankTables, Form};
use nv_base::NoMemory;
use place_plan::{PlaceError, spill_all};
use reg_assign::vector_of;
use ssu_liveness::longest_row;
use std::alloc::Global;
use zo_model::Assignment;

/// So many values fit a bank: one register of its 16 is the compiler's own.
const BANK_ROOM: usize = 15;

/// The greatest number of live values at a point.
fn peak_of(f: &Form<'_>) -> usize
    requires { single (labels_view f.now.ssu.now) ≡ true }
    ensures { result ≡ measures.peak (labels_view f.now.ssu.now) }
{
    longest_row(&f.live)
}

/// A choice of banks that meets the rows: each value in both banks where all live values at once fit a bank,
/// else each in a slot where they fit the slots, else none.
pub fn start_of(
    alloc: Global,
    bank: &BankTables<'_>,
    slots: u32,
) -> Result<Option<Assignment>, NoMemory>
    requires single { single (labels_view bank.now.form.ssu.now) ≡ true }
    requires slots { slots ≤ 128 }
    ensures start { IfOk result (IsStart (labels_view bank.now.form.ssu.now) slots) }
    ensures cheap { measures.peak (labels_view bank.now.form.ssu.now) ≤ 15 → IfOk result (IsCheap (labels_view bank.now.form.ssu.now)) }
{
    if peak_of(&bank.form) <= BANK_ROOM {
        let x = paired(alloc, bank)?;
        return Ok(Some(x));
    }
    match spill_all(alloc, bank.form.ssu, slots) {
        Ok(placement) => {
            let x = vector_of(alloc, bank, &placement)?;
            Ok(Some(x))
        }
        Err(PlaceError::TooFew(_)) => Ok(None),
        Err(PlaceError::NoMemory) => Err(NoMemory),
    }
}
