//! Laws of the definitions in specs/: each is the contract of a function that does nothing.
ghost use Rattle.std.specs.Prelude.{◌≡◌, ◌≤◌, ◌↔◌, ℕ, true, false, List, [], ◌∷◌, All, length, map};
ghost use Rattle.nv_base.specs.declared.term.Bin.TheVariants.{Add};
ghost use Rattle.nv_base.specs.declared.term.Mem.TheVariants.{Sdram, Scratch};
ghost use Rattle.nv_base.specs.declared.term.Una.TheVariants.{Not, Shl};
ghost use Rattle.nv_base.specs.Memories.{Memories};
ghost use Rattle.nv_base.specs.Progress.{IsMonotone, FollowsAll};
ghost use Rattle.ssu_ir.specs.Build.{Rooted, Holds, CanTake, AreDifferentRoots};
ghost use Rattle.ssu_ir.specs.declared.build.SsuBuild.{SsuBuild};
ghost use Rattle.ssu_ir.specs.declared.node.SsuNode.{SsuNode};
ghost use Rattle.ssu_ir.specs.Slots.{successors_of};
ghost use Rattle.ssu_ir.specs.Examples.{sum_of_two, copied_and_added, less_of_two, one_label};
ghost use Rattle.ssu_ir.specs.Meaning.{ssu_meaning};
ghost use Rattle.ssu_ir.specs.Measures.{peak, size, code_bound, total, point_size};
ghost use Rattle.ssu_ir.specs.Points.{points, tree_points, nodes, Names, IsLive};
ghost use Rattle.ssu_ir.specs.Single.{single, is_narrow, IsNarrow};
ghost use Rattle.ssu_ir.specs.Tree.{Tree, Label, Do, End, Lit, Una, Bin, Clone, Read, Write, Jump, Halt};

/// With more jumps a run only goes on: an outcome stays, and the writes before are the first ones of
/// those after.
pub fn more_jumps_go_on()
    ensures { (labels : List Label) (args : List ℕ) (p : Memories) → IsMonotone (ssu_meaning labels args p) }
{}

/// The memories of a run are the first ones after its writes.
pub fn memories_follow_writes()
    ensures { (labels : List Label) (args : List ℕ) (p : Memories) → FollowsAll p (ssu_meaning labels args p) }
{}

/// Different roots of a builder can be taken, in any order.
pub fn different_roots_can_be_taken()
    ensures { (b : SsuBuild) (n : SsuNode) (roots : List Rooted) → Holds b roots → AreDifferentRoots roots (successors_of n) → CanTake b n }
{}

/// The size counts each point with the values that it defines and its uses, and the peak bounds what
/// is live at each.
pub fn measures_speak_of_points()
    ensures size { (labels : List Label) → size labels ≡ total point_size (points labels) }
    ensures peak { (labels : List Label) → All (λ p. length p.before ≤ peak labels) (points labels) }
    ensures below { (of : Names) (above : List ℕ) (t : Tree) → length (tree_points of above t) ≡ nodes t }
{}

/// In single-use form what a node uses is live at it, no value is held twice at a point, and what is
/// held after a point was held at it or is defined there.
pub fn what_is_used_is_held()
    ensures { (labels : List Label) → single labels ≡ true → All IsLive (points labels) }
{}

/// The test of a literal tells the narrow ones.
pub fn narrow_literals_are_told()
    ensures { (v : ℕ) → is_narrow v ≡ true ↔ IsNarrow v }
{}

/// The sum of two parameters: both are live at the entry and at the addition, then their sum.
pub fn a_sum_is_small()
    ensures single { single sum_of_two ≡ true }
    ensures live_of { map (λ p. p.before) (points sum_of_two) ≡ (0 ∷ 1 ∷ []) ∷ (0 ∷ 1 ∷ []) ∷ (2 ∷ []) ∷ [] }
    ensures peak { peak sum_of_two ≡ 2 }
    ensures size { size sum_of_two ≡ 9 }
    ensures code { code_bound sum_of_two ≡ 24 }
{}

/// Clones of a value are held as the value, once: after the read two values, and at the write those
/// and its address.
pub fn clones_are_held_once()
    ensures single { single copied_and_added ≡ true }
    ensures live_of { map (λ p. p.before) (points copied_and_added) ≡ [] ∷ [] ∷ (0 ∷ []) ∷ (1 ∷ 2 ∷ []) ∷ (1 ∷ 2 ∷ []) ∷ (1 ∷ 2 ∷ []) ∷ (1 ∷ 2 ∷ 7 ∷ []) ∷ (1 ∷ 2 ∷ []) ∷ (8 ∷ []) ∷ [] }
    ensures uses { map (λ p. p.uses) (points copied_and_added) ≡ [] ∷ [] ∷ (0 ∷ []) ∷ [] ∷ [] ∷ [] ∷ (7 ∷ 1 ∷ 2 ∷ []) ∷ (1 ∷ 2 ∷ []) ∷ (8 ∷ []) ∷ [] }
    ensures peak { peak copied_and_added ≡ 3 }
    ensures size { size copied_and_added ≡ 21 }
{}

/// In either arm only the value is held that is used there.
pub fn arms_hold_what_they_use()
    ensures single { single less_of_two ≡ true }
    ensures live_of { map (λ p. p.before) (points less_of_two) ≡ (0 ∷ 1 ∷ []) ∷ (0 ∷ 1 ∷ []) ∷ (0 ∷ 1 ∷ []) ∷ (0 ∷ 1 ∷ []) ∷ (0 ∷ []) ∷ (1 ∷ []) ∷ (6 ∷ []) ∷ (6 ∷ []) ∷ [] }
    ensures after { map (λ p. p.after) (points less_of_two) ≡ (0 ∷ 1 ∷ []) ∷ (0 ∷ 1 ∷ []) ∷ (0 ∷ 1 ∷ []) ∷ (0 ∷ 1 ∷ []) ∷ [] ∷ [] ∷ (6 ∷ []) ∷ [] ∷ [] }
    ensures below { map (λ p. p.below) (points less_of_two) ≡ 5 ∷ 4 ∷ 3 ∷ 2 ∷ 0 ∷ 0 ∷ 1 ∷ 0 ∷ [] }
{}

/// What breaks a rule isn't in single-use form.
pub fn each_rule_refuses()
    ensures defined_once { single (one_label (Do (Bin 0 Add 0 1) (End (Halt 0 (0 ∷ []))))) ≡ false }
    ensures narrow { single (one_label (Do (Lit 2 65537) (End (Halt 0 (2 ∷ []))))) ≡ false }
    ensures used_once { single (one_label (Do (Bin 2 Add 0 0) (End (Halt 0 (2 ∷ []))))) ≡ false }
    ensures used_below { single (one_label (Do (Una 2 Not 0) (End (Halt 0 (0 ∷ 2 ∷ []))))) ≡ false }
    ensures clones_late { single (one_label (Do (Una 2 Not 1) (Do (Clone (3 ∷ []) 0) (End (Halt 0 (2 ∷ 3 ∷ [])))))) ≡ false }
    ensures clone_of_clone { single (one_label (Do (Clone (2 ∷ []) 0) (Do (Clone (3 ∷ []) 2) (End (Halt 0 (3 ∷ [])))))) ≡ false }
    ensures used { single (one_label (Do (Bin 2 Add 0 1) (Do (Clone (3 ∷ []) 2) (End (Halt 0 []))))) ≡ false }
    ensures known { single (one_label (End (Halt 0 (2 ∷ [])))) ≡ false }
    ensures count { single (one_label (Do (Una 2 (Shl 32) 0) (End (Halt 0 (2 ∷ []))))) ≡ false }
    ensures quadwords { single (one_label (Do (Read Sdram (2 ∷ []) 0) (End (Halt 0 [])))) ≡ false }
    ensures addressed { single (one_label (Do (Write Scratch 0 (1 ∷ [])) (End (Halt 0 [])))) ≡ false }
    ensures in_scratch { single (one_label (Do (Lit 2 512) (Do (Write Scratch 2 (1 ∷ [])) (End (Halt 0 []))))) ≡ false }
    ensures entry { single (one_label (End (Jump 0 (0 ∷ 1 ∷ [])))) ≡ false }
    ensures none { single [] ≡ false }
{}
