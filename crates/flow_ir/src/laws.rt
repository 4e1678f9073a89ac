//! Laws of the definitions in specs/: each is the contract of a function that does nothing.
ghost use Rattle.std.specs.Prelude.{ℕ, List};
ghost use Rattle.nv_base.specs.Memories.{Memories};
ghost use Rattle.nv_base.specs.Progress.{IsMonotone};
ghost use Rattle.flow_ir.specs.Meaning.{flow_meaning};
ghost use Rattle.flow_ir.specs.Tree.{Label};

/// With more jumps a run only goes on: an outcome stays, and the writes before are the first ones of
/// those after.
pub fn more_jumps_go_on()
    ensures { (labels : List Label) (args : List ℕ) (p : Memories) → IsMonotone (flow_meaning labels args p) }
{}
