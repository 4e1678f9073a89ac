//! The single moves in order.

ghost use Rattle.std.specs.Prelude.{ℕ, ◌≡◌, ◌≢◌, ◌+◌, ◌*◌, ◌≤◌, [], IfOk, length};
ghost use Rattle.ucode_emit.specs.Moves.{Words, HaveOwnTargets, SpareTemporary, IsNoTarget, StandFor, all_at_once, one_by_one, temporary};
ghost use Rattle.place_plan.specs.declared.place.Place as places;
ghost use Rattle.ucode_emit.specs.inner.Pending.{Counted, Stands, FreeGoTo, GoTo, pending_count};

use crate::pending::Pending;
use nv_base::NoMemory;
use place_plan::Place;
use std::alloc::Global;

/// Does the moves that no cycle holds up.
fn run_free(pending: &mut Pending, moves: &[(Place, Place)]) -> Result<(), NoMemory>
    requires targets { HaveOwnTargets moves.now }
    requires counted { Counted pending.old.sources.items pending.old.readers.items }
    requires stands { Stands moves.now pending.old.sources.items pending.old.done.items }
    requires weight { 2 * length pending.old.done.items + 3 * pending_count pending.old.sources.items ≤ 3 * length moves.now }
    ensures counted { IfOk result (λ _. Counted pending.new.sources.items pending.new.readers.items) }
    ensures stands { IfOk result (λ _. Stands moves.now pending.new.sources.items pending.new.done.items) }
    ensures weight { IfOk result (λ _. 2 * length pending.new.done.items + 3 * pending_count pending.new.sources.items ≤ 3 * length moves.now) }
    ensures stuck { IfOk result (λ _. FreeGoTo pending.new.sources.items []) }
{
    for m in moves {
        pending.run(m.1)?;
    }
    Ok(())
}

/// Does the moves in cycles, each cycle by way of the compiler's own register.
fn turn_all(pending: &mut Pending, moves: &[(Place, Place)]) -> Result<(), NoMemory>
    requires targets { HaveOwnTargets moves.now }
    requires spare { SpareTemporary moves.now }
    requires counted { Counted pending.old.sources.items pending.old.readers.items }
    requires stands { Stands moves.now pending.old.sources.items pending.old.done.items }
    requires weight { 2 * length pending.old.done.items + 3 * pending_count pending.old.sources.items ≤ 3 * length moves.now }
    requires stuck { FreeGoTo pending.old.sources.items [] }
    ensures stands { IfOk result (λ _. Stands moves.now pending.new.sources.items pending.new.done.items) }
    ensures weight { IfOk result (λ _. 2 * length pending.new.done.items + 3 * pending_count pending.new.sources.items ≤ 3 * length moves.now) }
    ensures nothing { IfOk result (λ _. GoTo pending.new.sources.items []) }
{
    for m in moves {
        if let Some(s) = pending.source(m.1) {
            pending.turn(s, m.1)?;
        }
    }
    Ok(())
}

/// Single moves that, one after the other, do what the moves do all at once; each move is its source and its target.
///
/// Where moves go in a circle, one source waits in the compiler's own register, `A(15)`, which is left with any word.
pub fn sequence(alloc: Global, moves: &[(Place, Place)]) -> Result<Vec<(Place, Place)>, NoMemory>
    requires targets { HaveOwnTargets moves.now }
    requires spare { SpareTemporary moves.now }
    ensures effect { IfOk result (λ r. (e : Words) (q : places.Place) → q ≢ temporary → one_by_one r.items e q ≡ all_at_once moves.now e q) }
    ensures kept { IfOk result (λ r. (e : Words) (q : places.Place) → q ≢ temporary → IsNoTarget moves.now q → one_by_one r.items e q ≡ e q) }
    ensures moves { IfOk result (λ r. StandFor moves.now r.items) }
    ensures count { IfOk result (λ r. 2 * length r.items ≤ 3 * length moves.now) }
{
    let mut pending = Pending::new(alloc, moves)?;
    run_free(&mut pending, moves)?;
    turn_all(&mut pending, moves)?;
    Ok(pending.done)
}
