//! Laws of the definitions in specs/: each is the contract of a function that does nothing.
ghost use Rattle.std.specs.Prelude.{◌≡◌, ◌≤◌, ◌+◌, ◌&&◌, ℕ, Bool, true, List, ◌++◌, All, Some, slice_get, length};
ghost use Rattle.nv_base.specs.Memories.{Memories, HasSizes};
ghost use Rattle.nv_base.specs.Progress.{IsMonotone, FollowsAll};
ghost use Rattle.nv_base.specs.Words.{Env, IsEnv, IsWord};
ghost use Rattle.nv_base.specs.Sets.{AgreeOn, is_in, all_different, different};
ghost use Rattle.flat_ir.specs.Counts.{GivesMany, HoldsWords};
ghost use Rattle.nv_base.specs.Measures.{Bulk, a_label, a_jump, both, IsAtMost};
ghost use Rattle.flat_ir.specs.Bulk.{Bulks, code_bulk, group_bulk, bulk, AreBulks};
ghost use Rattle.flat_ir.specs.Formed.{is_formed, defined, raised, is_program};
ghost use Rattle.flat_ir.specs.Laws.{TwoGroups};
ghost use Rattle.flat_ir.specs.Meaning.{Calls, does, calls_within, flat_meaning};
ghost use Rattle.flat_ir.specs.Pieces.{known_behind, steps_formed, steps_defined, steps_raised, steps_live, steps_wide, steps_bulk};
ghost use Rattle.nv_base.specs.Running.{Running};
ghost use Rattle.flat_ir.specs.Spine.{AreNodes};
ghost use Rattle.flat_ir.specs.Wide.{live, Widths, code_wide, group_wide, wide, AreWidths};
ghost use Rattle.flat_ir.specs.declared.flat.Flat.{Flat};
ghost use Rattle.flat_ir.specs.declared.flat.FlatFun.{FlatFun};
ghost use Rattle.flat_ir.specs.declared.spine.Step.{Step};

/// In a formed program, where a function gives words, they are as many as it says, and so are those
/// of each piece of code, as the first part of a `Bind`.
pub fn words_are_as_many_as_said()
    ensures function { (funs : List FlatFun) (main depth f : ℕ) (g : FlatFun) (ws : List ℕ) (now : Running) → is_program funs main ≡ true → slice_get funs f ≡ Some g → GivesMany g.results (calls_within depth funs f ws now) }
    ensures code { (funs : List FlatFun) (main depth own : ℕ) (tail : Bool) (n : ℕ) (known : List ℕ) (t : Flat) (env : Env) (now : Running) → is_program funs main ≡ true → is_formed funs own tail n known t ≡ true → GivesMany n (does (calls_within depth funs) t env now) }
{}

/// With more calls a run only goes on: an outcome stays, and the writes before are the first ones of
/// those after.
pub fn more_calls_go_on()
    ensures { (funs : List FlatFun) (main : ℕ) (args : List ℕ) (p : Memories) → IsMonotone (flat_meaning funs main args p) }
{}

/// How deep calls may lie in one another doesn't matter, where it is at least the calls that are left.
pub fn depth_does_not_matter()
    ensures { (depth depth' : ℕ) (funs : List FlatFun) (f : ℕ) (ws : List ℕ) (now : Running) → now.calls ≤ depth → now.calls ≤ depth' → calls_within depth funs f ws now ≡ calls_within depth' funs f ws now }
{}

/// What code does depends on the words of its live variables alone. In formed code these are known.
pub fn only_live_variables_matter()
    ensures live { (call : Calls) (t : Flat) (env env' : Env) (now : Running) → AgreeOn (live t) env env' → does call t env now ≡ does call t env' now }
    ensures known { (funs : List FlatFun) (own : ℕ) (tail : Bool) (n : ℕ) (known : List ℕ) (t : Flat) → is_formed funs own tail n known t ≡ true → (x : ℕ) → is_in x (live t) ≡ true → is_in x known ≡ true }
    ensures formed { (call : Calls) (funs : List FlatFun) (own : ℕ) (tail : Bool) (n : ℕ) (known : List ℕ) (t : Flat) (env env' : Env) (now : Running) → is_formed funs own tail n known t ≡ true → AgreeOn known env env' → does call t env now ≡ does call t env' now }
{}

/// What joined code is to each definition: whether it is formed, what it defines, raises and wants,
/// how wide it is and how much.
pub fn joined_code_is_its_parts()
    ensures formed { (funs : List FlatFun) (own : ℕ) (tail : Bool) (n : ℕ) (known : List ℕ) (ss : List Step) (last t : Flat) → AreNodes ss last t → is_formed funs own tail n known t ≡ (steps_formed funs own known ss && is_formed funs own tail n (known_behind known ss) last) }
    ensures defined { (ss : List Step) (last t : Flat) → AreNodes ss last t → defined t ≡ steps_defined ss ++ defined last }
    ensures raised { (ss : List Step) (last t : Flat) → AreNodes ss last t → raised t ≡ steps_raised ss ++ raised last }
    ensures live { (ss : List Step) (last t : Flat) → AreNodes ss last t → live t ≡ steps_live ss (live last) }
    ensures wide { (funs : List FlatFun) (w : Widths) (own : ℕ) (outside : List ℕ) (ss : List Step) (last t : Flat) → AreNodes ss last t → code_wide funs w own outside t ≡ steps_wide funs w own outside ss (live last) (code_wide funs w own outside last) }
    ensures bulk { (funs : List FlatFun) (w : Bulks) (own : ℕ) (ends : Bool) (ss : List Step) (last t : Flat) → AreNodes ss last t → code_bulk funs w own ends t ≡ steps_bulk funs w own ss (code_bulk funs w own ends last) }
{}

/// What steps behind steps are to each definition.
pub fn steps_follow_steps()
    ensures known { (known : List ℕ) (a b : List Step) → known_behind known (a ++ b) ≡ known_behind (known_behind known a) b }
    ensures formed { (funs : List FlatFun) (own : ℕ) (known : List ℕ) (a b : List Step) → steps_formed funs own known (a ++ b) ≡ (steps_formed funs own known a && steps_formed funs own (known_behind known a) b) }
    ensures defined { (a b : List Step) → steps_defined (a ++ b) ≡ steps_defined a ++ steps_defined b }
    ensures raised { (a b : List Step) → steps_raised (a ++ b) ≡ steps_raised a ++ steps_raised b }
    ensures live { (a b : List Step) (behind : List ℕ) → steps_live (a ++ b) behind ≡ steps_live a (steps_live b behind) }
    ensures wide { (funs : List FlatFun) (w : Widths) (own : ℕ) (outside : List ℕ) (a b : List Step) (behind : List ℕ) (n : ℕ) → steps_wide funs w own outside (a ++ b) behind n ≡ steps_wide funs w own outside a (steps_live b behind) (steps_wide funs w own outside b behind n) }
    ensures bulk { (funs : List FlatFun) (w : Bulks) (own : ℕ) (a b : List Step) (k : Bulk) → steps_bulk funs w own (a ++ b) k ≡ steps_bulk funs w own a (steps_bulk funs w own b k) }
{}

/// Where more variables are known, code stays formed; where more are live outside of it, it is at
/// least as wide.
pub fn more_variables_keep()
    ensures formed { (funs : List FlatFun) (own : ℕ) (tail : Bool) (n : ℕ) (known known' : List ℕ) (t : Flat) → ((x : ℕ) → is_in x known ≡ true → is_in x known' ≡ true) → is_formed funs own tail n known t ≡ true → is_formed funs own tail n known' t ≡ true }
    ensures wide { (funs : List FlatFun) (w : Widths) (own : ℕ) (outside outside' : List ℕ) (t : Flat) → ((x : ℕ) → is_in x outside ≡ true → is_in x outside' ≡ true) → code_wide funs w own outside t ≤ code_wide funs w own outside' t }
{}

/// The width and the bulk of two functions, of which one calls the other.
pub fn two_groups()
    ensures { TwoGroups }
{}

/// The widths of groups are the least numbers such that each function is at most as wide as its
/// group's, where a call counts that of the called group.
pub fn widths_are_the_least_bounds()
    ensures bounds { (funs : List FlatFun) → AreWidths funs (group_wide funs) }
    ensures least { (funs : List FlatFun) (w : Widths) → AreWidths funs w → (group : ℕ) → group_wide funs group ≤ w group }
    ensures main { (funs : List FlatFun) (w : Widths) (main : ℕ) (f : FlatFun) → AreWidths funs w → slice_get funs main ≡ Some f → wide funs main ≤ w f.group }
{}

/// The bulks of groups are the least such that the functions of each group have together at most
/// its own, where a call counts that of the called group.
pub fn bulks_are_the_least_bounds()
    ensures bounds { (funs : List FlatFun) → AreBulks funs (group_bulk funs) }
    ensures least { (funs : List FlatFun) (w : Bulks) → AreBulks funs w → (group : ℕ) → IsAtMost (group_bulk funs group) (w group) }
    ensures main { (funs : List FlatFun) (w : Bulks) (main : ℕ) (f : FlatFun) → AreBulks funs w → slice_get funs main ≡ Some f → IsAtMost (bulk funs main) (both (both a_label a_jump) (w f.group)) }
{}

/// In a formed program words come of words, and memories keep their sizes.
pub fn words_stay_words()
    ensures function { (funs : List FlatFun) (main depth f : ℕ) (ws : List ℕ) (now : Running) → is_program funs main ≡ true → All IsWord ws → HasSizes now.packet → HoldsWords (calls_within depth funs f ws now) }
    ensures code { (funs : List FlatFun) (main depth own : ℕ) (tail : Bool) (n : ℕ) (known : List ℕ) (t : Flat) (env : Env) (now : Running) → is_program funs main ≡ true → is_formed funs own tail n known t ≡ true → IsEnv env → HasSizes now.packet → HoldsWords (does (calls_within depth funs) t env now) }
{}

/// The memories of a flat program's run are always the first ones after its writes so far.
pub fn memories_follow_writes()
    ensures { (funs : List FlatFun) (main : ℕ) (args : List ℕ) (p : Memories) → FollowsAll p (flat_meaning funs main args p) }
{}
