//! Laws of the meaning of programs: each is the contract of a function that does nothing.

ghost use Rattle.std.specs.Prelude.{◌≡◌, ℕ, List};
ghost use Rattle.nv_base.specs.Memories.{Memories};
ghost use Rattle.nv_base.specs.Progress.{FollowsAll};
ghost use Rattle.nv_ast.specs.Tree.{ProgramTree};
ghost use Rattle.nv_meaning.specs.Laws.{Seeking, Tracing};
ghost use Rattle.nv_meaning.specs.Meaning.{source, traced};
ghost use Rattle.nv_meaning_values.specs.Running.{untraced};

/// At each moment of a run the memories are the first ones after the writes so far.
pub fn memories_follow_writes()
    ensures { (t : ProgramTree) (args : List ℕ) (p : Memories) → FollowsAll p (source t args p) }
{}

/// The run of a loop that an exception ends, with enough calls and with one too few.
pub fn a_loop_with_a_handler()
    ensures { Seeking }
{}

/// Without statements and chains the traced meaning is the meaning.
pub fn a_trace_has_the_writes()
    ensures { (t : ProgramTree) (args : List ℕ) (p : Memories) (n : ℕ) → untraced (traced t args p n) ≡ source t args p n }
{}

/// The chains of writes in a function that main calls, and in a loop.
pub fn calls_join_the_chain()
    ensures { Tracing }
{}
