//! The search for the cheapest choice of banks, and its report.

ghost use Rattle.std.specs.Prelude.{◌≡◌, ◌≤◌, IfOk, IfSome, IsTrue, length};
ghost use Rattle.zo_model.specs.Program.{IsValid, columns};
ghost use Rattle.zo_solve.specs.Solved.{CostsAtMost};
ghost use Rattle.zo_solve_dive.specs.Vector.{IsVector, cost_at, start_cost};
ghost use Rattle.nova_back.specs.inner.Search.{Betters, IsFound};

use std::alloc::Global;
use zo_cert::Report;
use zo_model::{Assignment, NoMemory, ZeroOne, cost, feasible};
use zo_solve::{Fixed, Order, Pick, report_of, solve_by};

/// Whether this is a vector that costs less than the start, or one where there is no start.
fn is_better(z: &ZeroOne, x: &Assignment, start: &Option<Assignment>) -> bool
    requires valid { IsValid z.now }
    requires start { IfSome start.now (IsVector z.now) }
    ensures vector { IsTrue result → IsVector z.now x.now }
    ensures no_dearer { IsTrue result → CostsAtMost (cost_at z.now x.now) (start_cost z.now start.now) }
{
    if x.on.len() != z.costs.len() {
        return false;
    }
    if !feasible(z, x) {
        return false;
    }
    match start {
        Some(known) => cost(z, x) < cost(z, known),
        None => true,
    }
}

/// The start, or the guess where it is better.
fn better(z: &ZeroOne, start: Option<Assignment>, guess: Option<Assignment>) -> Option<Assignment>
    requires valid { IsValid z.now }
    requires start { IfSome start (IsVector z.now) }
    ensures { Betters z.now start result }
{
    match guess {
        Some(x) => {
            if is_better(z, &x, &start) {
                Some(x)
            } else {
                start
            }
        }
        None => start,
    }
}

/// The report of a search of a program, begun with this vector or with the guess, where that is better, in at most `budget` branches.
/// Its rounds end at the latest when they visited so many columns, rows and terms as `work` says.
pub fn searched(
    alloc: Global,
    z: ZeroOne,
    start: Option<Assignment>,
    guess: Option<Assignment>,
    slots: u32,
    budget: u32,
    work: u64,
) -> Result<Report, NoMemory>
    requires valid { IsValid z }
    requires start { IfSome start (IsVector z) }
    requires slots { slots ≤ 128 }
    requires some { 1 ≤ budget }
    requires budget { budget ≤ 1000000 }
    ensures { IfOk result (IsFound z start slots budget) }
{
    let order = Order::within(alloc, &z, work)?;
    let pick = Pick::new(
        |z: &ZeroOne, fixed: &Fixed| -> u32
            requires valid { IsValid z.now }
            requires places { length fixed.now.at.items ≡ columns z.now }
        { order.choice(z, fixed) },
    );
    let first = better(&z, start, guess);
    let solved = solve_by(alloc, &z, first, budget, &pick, &order)?;
    report_of(alloc, z, solved, slots, budget)
}
