//! The parallel moves of points as single moves.

ghost use Rattle.std.specs.Prelude.{◌≡◌, ◌≤◌, map, length, IfOk};
ghost use Rattle.place_plan.specs.Fits.{Rises};
ghost use Rattle.place_plan.specs.Plan.{plan_view};
ghost use Rattle.ucode_emit.specs.Moves.{HaveOwnTargets, SpareTemporary};
ghost use Rattle.ucode_emit.specs.inner.EmitContext.{ends};
ghost use Rattle.ucode_emit.specs.Pieces as pieces;
ghost use Rattle.ucode_emit.specs.Emits.{IsSequence};

use crate::moves::Move;
use crate::sequence;
use nv_base::NoMemory;
use place_plan::{Place, Placement, Serve};
use std::alloc::{AllocError, Global};

// From where each operand is served to where it is wanted.
fn ends_of(alloc: Global, serves: &[Serve]) -> Result<Vec<Move>, AllocError>
    ensures { IfOk result (λ ms. ms.items ≡ ends serves.now) }
{
    serves.iter().map(|s| (s.from, s.at)).collect(alloc)
}

/// Single moves that bring all operands at once from where they are served to where they are wanted.
pub fn sequence_served(alloc: Global, serves: &[Serve]) -> Result<Vec<Move>, NoMemory>
    requires targets { HaveOwnTargets (ends serves.now) }
    requires spare { SpareTemporary (ends serves.now) }
    ensures { IfOk result (λ ms. IsSequence (ends serves.now) ms.items) }
{
    let moves = ends_of(alloc, serves)?;
    sequence(alloc, &moves)
}

// From the registers in which the parameters of label 0 come to where they are defined.
fn entry_moves(alloc: Global, p: &Placement, params: &[u32]) -> Result<Vec<Move>, NoMemory>
    requires homes { Rises (map (λ h. h.var) (plan_view p.now).homes) }
    requires few { length params.now ≤ 8 }
    ensures { IfOk result (λ ms. ms.items ≡ pieces.entry_moves (plan_view p.now) 0 params.now) }
{
    let mut moves = Vec::new(alloc);
    let mut register = 0;
    for x in params {
        moves.push((Place::A(register), p.defined_of(*x)))?;
        register += 1;
    }
    Ok(moves)
}

/// Single moves that bring the parameters of label 0 from the first registers, in which they come, to
/// where they are defined.
pub fn sequence_entry(alloc: Global, p: &Placement, params: &[u32]) -> Result<Vec<Move>, NoMemory>
    requires homes { Rises (map (λ h. h.var) (plan_view p.now).homes) }
    requires few { length params.now ≤ 8 }
    requires targets { HaveOwnTargets (pieces.entry_moves (plan_view p.now) 0 params.now) }
    requires spare { SpareTemporary (pieces.entry_moves (plan_view p.now) 0 params.now) }
    ensures { IfOk result (λ ms. IsSequence (pieces.entry_moves (plan_view p.now) 0 params.now) ms.items) }
{
    let moves = entry_moves(alloc, p, params)?;
    sequence(alloc, &moves)
}
