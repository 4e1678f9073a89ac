//! Laws of the engine's runs and of lawful code: each is the contract of a function that does nothing.
ghost use Rattle.std.specs.Prelude.{◌≡◌, ◌+◌, ◌<◌, ◌≤◌, ◌↔◌, ℕ, All, Some, List, ◌∷◌, ◌++◌, length, slice_get};
ghost use Rattle.nv_base.specs.Meanings.{AreArguments, IsOver, KeepsOutcomes, Same};
ghost use Rattle.nv_base.specs.Memories.{HasSizes, Memories};
ghost use Rattle.nv_base.specs.Words.{IsWord};
ghost use Rattle.nv_base.specs.Progress.{FollowsAll, FollowsWrites, IsMonotone, IsStepwise};
ghost use Rattle.nv_base.specs.declared.outcome.Outcome.{Outcome};
ghost use Rattle.nv_base.specs.declared.outcome.Write.{Write};
ghost use Rattle.uc_isa.specs.Agrees.{Agrees, IsStart, KeepsToItsWords, SourceMeaning, scratch_access};
ghost use Rattle.uc_isa.specs.Code.{CodeView};
ghost use Rattle.uc_isa.specs.Engine.{IsEngine, after, engine, halted, run, start, stepped_at};
ghost use Rattle.uc_isa.specs.Lawful.{IsFirstBroken, IsLawful};
ghost use Rattle.uc_isa.specs.Step.{EndsRun, step};
ghost use Rattle.uc_isa.specs.Straight.{Stands, StepsTo, RunsTo, went};
ghost use Rattle.uc_isa.specs.Worked.{MovesCost, SumRuns};
ghost use Rattle.uc_isa.specs.declared.engine.Engine.{Engine};
ghost use Rattle.uc_isa.specs.declared.engine.Stepped.{Stepped};
ghost use Rattle.uc_isa.specs.declared.instruction.Instr.{Instr};

/// A run that is going after `n` steps goes on from the engine, the memories and the writes that it has then;
/// a run that is over stays as it is.
pub fn runs_go_on()
    ensures going { (code : List Instr) (n m : ℕ) (e : Engine) (p : Memories) (ws : List Write) → let f = run code n e p ws in let then_ = after code n e p in f.outcome ≡ Outcome.Going → run code (n + m) e p ws ≡ run code m then_.engine then_.packet f.writes }
    ensures over { (code : List Instr) (n m : ℕ) (e : Engine) (p : Memories) (ws : List Write) → IsOver (run code n e p ws).outcome → run code (n + m) e p ws ≡ run code n e p ws }
{}

/// A run is going exactly where none of its steps halted or faulted.
pub fn going_where_no_step_ends()
    ensures { (code : List Instr) (n : ℕ) (e : Engine) (p : Memories) (ws : List Write) → ((run code n e p ws).outcome ≡ Outcome.Going) ↔ ((k : ℕ) → k < n → ¬ EndsRun (stepped_at code k e p)) }
{}

/// The engine writes at most once a step, gets at least as far with more steps, and its memories are the first ones
/// after its writes.
pub fn engine_follows_its_writes()
    ensures stepwise { (c : CodeView) (args : List ℕ) (base : ℕ) (p : Memories) → IsStepwise (engine c args base p) }
    ensures grows { (c : CodeView) (args : List ℕ) (base : ℕ) (p : Memories) → IsMonotone (engine c args base p) }
    ensures follows { (c : CodeView) (args : List ℕ) (base : ℕ) (p : Memories) → FollowsAll p (engine c args base p) }
{}

/// Code agrees with a source where the two are the same, the source's memories follow its writes, and the code keeps
/// to its own words of scratch: that it goes on where the source does need not be shown.
pub fn agrees_where_same()
    ensures { (params : ℕ) (source : SourceMeaning) (c : CodeView) → c.params ≡ params
        → ((args : List ℕ) (p : Memories) (base : ℕ) → IsStart params args p base → Same (source args p) (engine c args base p))
        → ((args : List ℕ) (p : Memories) (base : ℕ) → IsStart params args p base → FollowsWrites p (source args p))
        → ((args : List ℕ) (p : Memories) (base : ℕ) → IsStart params args p base → (m : ℕ) → let n = after c.list m (start args base) p in KeepsToItsWords base (scratch_access (slice_get c.list n.engine.place) n.engine))
        → Agrees params source c }
{}

/// Code that agrees with what a source became agrees with the source, where the outcomes were kept and the source's
/// memories follow its writes.
pub fn agrees_through()
    ensures { (params params' : ℕ) (first second : SourceMeaning) (c : CodeView) → KeepsOutcomes params params' first second
        → ((args : List ℕ) (p : Memories) → AreArguments params args → HasSizes p → FollowsWrites p (first args p))
        → Agrees params' second c → Agrees params first c }
{}

/// A part of what stands in code stands there too, and its first instruction is the one at its place.
pub fn parts_of_code()
    ensures left { (code : List Instr) (at : ℕ) (is js : List Instr) → Stands code at (is ++ js) → Stands code at is }
    ensures right { (code : List Instr) (at : ℕ) (is js : List Instr) → Stands code at (is ++ js) → Stands code (at + length is) js }
    ensures first { (code : List Instr) (at : ℕ) (i : Instr) (is : List Instr) → Stands code at (i ∷ is) → slice_get code at ≡ Some i }
{}

/// Steps that write nothing follow one another, and a halt is the last one.
pub fn straight_runs()
    ensures one { (code : List Instr) (p : Memories) (e e' : Engine) → step code e p ≡ went e' p → StepsTo code p 1 e e' }
    ensures more { (code : List Instr) (p : Memories) (n m : ℕ) (e e' e'' : Engine) → StepsTo code p n e e' → StepsTo code p m e' e'' → StepsTo code p (n + m) e e'' }
    ensures halt { (code : List Instr) (k : ℕ) (words : List ℕ) (e : Engine) (p : Memories) (ws : List Write) → step code e p ≡ record { stepped = Stepped.Halted k words; engine = e; packet = p } → RunsTo code 1 e p ws (record { outcome = halted k words; packet = p; writes = ws }) }
{}

/// At most one place and rule are the first that is broken, and in lawful code none is.
pub fn first_broken_rule()
    ensures one { (code : List Instr) (place rule place' rule' : ℕ) → IsFirstBroken code place rule → IsFirstBroken code place' rule' → (place ≡ place') × (rule ≡ rule') }
    ensures unlawful { (code : List Instr) (place rule : ℕ) → IsFirstBroken code place rule → ¬ IsLawful code }
{}

/// From its start on the engine's banks have their sizes and hold words, and steps of lawful code keep that, and the
/// memories' sizes too.
pub fn engine_states()
    ensures start { (args : List ℕ) (base : ℕ) → length args ≤ 16 → All IsWord args → IsWord base → IsEngine (start args base) }
    ensures step { (code : List Instr) (e : Engine) (p : Memories) → IsLawful code → IsEngine e → HasSizes p → IsEngine (step code e p).engine × HasSizes (step code e p).packet }
{}

/// What a short code does, and what its moves cost.
#[tactic(auto, using(crate::proofs::Worked::sum_runs, crate::proofs::Worked::moves_cost))]
pub fn short_code()
    ensures runs { SumRuns }
    ensures cost { MovesCost }
{}
