//! Laws of the definitions in specs/: each is the contract of a function that does nothing.
ghost use Rattle.std.specs.Prelude.{◌≡◌, ◌≤◌, ℕ, List, Some, slice_get};
ghost use Rattle.nv_base.specs.Measures.{Widths, Bulks, a_label, a_jump, both, IsAtMost};
ghost use Rattle.nv_base.specs.Memories.{Memories};
ghost use Rattle.nv_base.specs.Progress.{IsMonotone};
ghost use Rattle.cps_ir.specs.Bulk.{group_bulk, bulk, AreBulks};
ghost use Rattle.cps_ir.specs.Meaning.{cps_meaning};
ghost use Rattle.cps_ir.specs.Term.{Fun};
ghost use Rattle.cps_ir.specs.Wide.{group_wide, wide, AreWidths};

/// With more jumps a run only goes on: an outcome stays, and the writes before are the first ones of
/// those after.
pub fn more_jumps_go_on()
    ensures { (funs : List Fun) (main : ℕ) (args : List ℕ) (p : Memories) → IsMonotone (cps_meaning funs main args p) }
{}

/// The widths of groups are the least numbers such that each function is at most as wide as its
/// group's, where a call counts that of the called group.
pub fn widths_are_the_least_bounds()
    ensures bounds { (funs : List Fun) → AreWidths funs (group_wide funs) }
    ensures least { (funs : List Fun) (w : Widths) → AreWidths funs w → (group : ℕ) → group_wide funs group ≤ w group }
    ensures main { (funs : List Fun) (w : Widths) (main : ℕ) (f : Fun) → AreWidths funs w → slice_get funs main ≡ Some f → wide funs main ≤ w f.group }
{}

/// The bulks of groups are the least such that the functions of each group have together at most
/// its own, where a call counts that of the called group.
pub fn bulks_are_the_least_bounds()
    ensures bounds { (funs : List Fun) → AreBulks funs (group_bulk funs) }
    ensures least { (funs : List Fun) (w : Bulks) → AreBulks funs w → (group : ℕ) → IsAtMost (group_bulk funs group) (w group) }
    ensures main { (funs : List Fun) (w : Bulks) (main : ℕ) (f : Fun) → AreBulks funs w → slice_get funs main ≡ Some f → IsAtMost (bulk funs main) (both (both a_label a_jump) (w f.group)) }
{}
